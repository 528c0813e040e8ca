// What is asked of a line as bytes, before it is read: where it ends, the tests along it, and whether it is line 1. These are parts below an entry: callers
// give a place inside the text.

#![tactic(auto)]

pub mod ends;
pub mod head;
pub mod tests;
