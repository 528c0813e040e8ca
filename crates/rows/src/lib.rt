// Rows of bytes in a lent buffer, one width, end to end: the sum of a row, and finding a row among the rows so far; a pair of states as a row.
// These are parts: callers give places that are within.
#![tactic(auto)]

pub mod chains;
pub mod pair;
pub mod sum;
