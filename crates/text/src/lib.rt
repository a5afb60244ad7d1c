#![tactic(auto)]
// Numbers and bytes in a line of text: decimal, parted by commas, and hexadecimal.
pub mod hexadecimal;
pub mod numerals;
