#![tactic(auto)]
// Plain pages: a head of 16 bytes, a record or nothing, and zeros.
pub mod fault;
pub mod plain;
