#![tactic(auto)]
// What each line of the bench program does and is answered, and the law over lists of lines. The code is the crate `line`.
pub mod law;
pub mod refusal;
pub mod reply;
