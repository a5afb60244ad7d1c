#![tactic(auto)]
// The bench program without its input and output: one line of text is turned into its answer.
pub mod bench;
pub mod buffer;
mod say;
mod serve;
