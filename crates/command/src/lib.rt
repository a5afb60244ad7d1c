#![tactic(auto)]
// The commands of the bench program, and which line of text is which command.
pub mod command;
pub mod parse;
