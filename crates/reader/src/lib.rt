// Reads a later line: its tests, the program of its form, the letters and names in it, 3 to 7 in their order. These are parts below an entry: some ask for
// room or for a place inside the text.

#![tactic(auto)]

pub mod line;
pub mod names;
pub mod symbols;
