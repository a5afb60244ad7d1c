#![tactic(auto)]
// Kinds of records: what is kept in a page, in a fixed number of bytes.
pub mod fault;
pub mod fields;
pub mod kind;
pub mod parameters;
mod rule;
pub mod setting;
pub mod sheet;
mod sixteen;
