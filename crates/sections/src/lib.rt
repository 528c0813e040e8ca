// The card's sections, each written to its place in the card: contents, letters, marks, moves. Parts for the card writer: they have requires, and are no
// entries.
#![tactic(auto)]

pub mod contents;
pub mod marks;
pub mod targets;
