#![tactic(auto)]
// What each call of the store promises, and the law over lists of calls. The code of the calls is the crate `store`.
pub mod geometry;
pub mod refusal;
