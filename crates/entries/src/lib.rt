// A table of a machine in a lent list, and what the crates above say of classes of its states.
#![tactic(auto)]

pub mod table;
