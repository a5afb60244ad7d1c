#![tactic(auto)]
// The three ciphers under one type, for a program that learns only while it runs which one it is to use.
pub mod any;
pub mod name;
