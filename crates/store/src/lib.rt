#![tactic(auto)]
// Sealed pages in a memory: form, put, get, clear, and change of the key, written once for all ciphers and all kinds of
// records. Memory and working buffer are the caller's, handed over at each call.
pub mod store;
