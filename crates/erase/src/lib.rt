// The rows of an erase: a flag for each state of A, closed under the mark, which is the last column.
// These are parts: callers give rows of the operation's width.
#![tactic(auto)]

ghost use Rattle.std.specs.Prelude.{◌≡◌, length};
ghost use Rattle.rows.specs.Rows.{flag_at};
ghost use Rattle.rows.specs.Sums.{row_sum};
ghost use Rattle.flags.specs.Members.{Lists};
ghost use Rattle.sets.specs.Fits.{rows_for, Step, Source};
ghost use Rattle.sets.specs.Operations.{operation_of, erase};

use flags::{bits, closure};
use sets::operands::Operands;

// The first row: A's 0, and what it gains. Its sum.
pub fn start(operands: &Operands, row: &mut [u8]) -> usize
    requires row_len { length row.old ≡ operands.now.width }
    requires op_value { operation_of operands.now.op ≡ erase }
    ensures { (row.new ≡ (rows_for operands.now).start) × (result ≡ row_sum 0 row.new) }
{
    row.fill(0);
    closure::chase(&operands.left, 0, 0, row)
}

// The row that `from` leads to by the column c, where its members are listed: by the mark, the empty one. Its sum.
pub fn next(operands: &Operands, c: usize, from: &[u8], members: &[u16], row: &mut [u8]) -> usize
    requires step { Step operands.now c from.now row.old }
    requires op_value { operation_of operands.now.op ≡ erase }
    requires lists { Lists (flag_at from.now) operands.now.left.states (length members.now) members.now }
    ensures { (row.new ≡ (rows_for operands.now).step from.now c) × (result ≡ row_sum 0 row.new) }
{
    row.fill(0);
    if operands.left.columns != c + 1 {
        return closure::lead(&operands.left, c, members, row);
    }
    0
}

// Whether a state in the row is accepting.
pub fn accepts(operands: &Operands, from: &[u8]) -> bool
    requires source { Source operands.now from.now }
    requires op_value { operation_of operands.now.op ≡ erase }
    ensures { result ≡ (rows_for operands.now).accepting from.now }
{
    bits::some_accepting(operands.left.cells, from)
}
