#![tactic(auto)]
// Text written into memory: words, decimal numbers with commas between them, and bytes in hexadecimal. A free function writes
// into a caller's buffer from a place on, leaves every other byte, and answers where its text ends; a method of `Text` adds to
// a text of a fixed capacity.
pub mod write;
