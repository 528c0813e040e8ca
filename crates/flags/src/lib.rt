// Rows of flags, a byte for each state of an operand: filled with what the listed members of another row lead to, closed under the mark, and tested for an
// accepting member. These are parts: callers give rows that are long enough.
#![tactic(auto)]

pub mod bits;
pub mod closure;
