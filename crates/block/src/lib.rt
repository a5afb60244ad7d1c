#![tactic(auto)]
// Blocks of 16 bytes, pairs of them, and doubling: what the ciphers and the mode compute with.
pub mod alpha;
pub mod bytes;
pub mod diblock;
