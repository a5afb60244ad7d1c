#![tactic(auto)]
// The library for C: every call is made of its arguments alone, and every selector and length is checked here. A slice is a
// pointer and a length on the other side. The header is include/dikhelwa.h.
pub mod answer;
mod kind;
pub mod messages;
mod open;
pub mod parameters;
mod reply;
pub mod sheets;
mod stores;
