#![tactic(auto)]
// The interface of a tweakable cipher, the tweak that the mode gives it, and the bench cipher.
pub mod bench;
pub mod domain;
pub mod tweak;
pub mod tweakable;
