// The rows of a star: a flag for each state of A, and one for the extra state, which has no moves.
// These are parts: callers give rows of the operation's width.
#![tactic(auto)]

ghost use Rattle.std.specs.Prelude.{◌≡◌, length};
ghost use Rattle.rows.specs.Rows.{flag_at};
ghost use Rattle.rows.specs.Sums.{row_sum};
ghost use Rattle.flags.specs.Members.{Lists};
ghost use Rattle.sets.specs.Fits.{rows_for, Step, Source};
ghost use Rattle.sets.specs.Operations.{operation_of, star};

use flags::bits;
use rows::sum;
use sets::operands::Operands;

// The first row: A's 0 and the extra state. Its sum.
pub fn start(operands: &Operands, row: &mut [u8]) -> usize
    requires row_len { length row.old ≡ operands.now.width }
    requires op_value { operation_of operands.now.op ≡ star }
    ensures { (row.new ≡ (rows_for operands.now).start) × (result ≡ row_sum 0 row.new) }
{
    let extra = operands.left.states;
    row.fill(0);
    let one = sum::flag(row, 0, 0, 0);
    sum::flag(row, 0, extra, one)
}

// The row that `from` leads to by the column c, where its members are listed; its sum.
pub fn next(operands: &Operands, c: usize, from: &[u8], members: &[u16], row: &mut [u8]) -> usize
    requires step { Step operands.now c from.now row.old }
    requires op_value { operation_of operands.now.op ≡ star }
    requires lists { Lists (flag_at from.now) operands.now.left.states (length members.now) members.now }
    ensures { (row.new ≡ (rows_for operands.now).step from.now c) × (result ≡ row_sum 0 row.new) }
{
    let poured = bits::lead(&operands.left, c, members, 0, row);
    if poured.accepting {
        let one = sum::flag(row, 0, 0, poured.sum);
        return sum::flag(row, 0, operands.left.states, one);
    }
    poured.sum
}

// Whether the row has the extra state.
pub fn accepts(operands: &Operands, from: &[u8]) -> bool
    requires source { Source operands.now from.now }
    requires op_value { operation_of operands.now.op ≡ star }
    ensures { result ≡ (rows_for operands.now).accepting from.now }
{
    let na = operands.left.states;
    from[na] != 0
}
