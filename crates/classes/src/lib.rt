// The classes of equivalent states of a table, each by its first state. Parts for the compiler's stages: they have requires, and are no entries.
#![tactic(auto)]

pub mod refine;
