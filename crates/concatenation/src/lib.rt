// The rows of a concatenation: A's one state by its number, then a flag for each state of B.
// These are parts: callers give rows of the operation's width.
#![tactic(auto)]

ghost use Rattle.std.specs.Prelude.{◌≡◌, ◌+◌, ◌<◌, length, replicate};
ghost use Rattle.rows.specs.Rows.{flag_at};
ghost use Rattle.rows.specs.Sums.{Summed, row_sum};
ghost use Rattle.flags.specs.Flags.{flag_row, target_of};
ghost use Rattle.flags.specs.Members.{Lists, Pours, led_by};
ghost use Rattle.sets.specs.Fits.{with_zero, rows_for, Step, Source};
ghost use Rattle.sets.specs.Operations.{operation_of, concatenation};

use entries::table::Table;
use flags::bits;
use octets::number;
use rows::sum;
use sets::operands::Operands;

// Where A's state p is accepting, B's 0 is gained; the sum of the flags, which stand behind the number.
fn gain(left: &Table, p: usize, sum: usize, flags: &mut [u8]) -> usize
    requires p_in_bounds { p < length left.now.cells.now }
    requires flags_nonzero { 0 < length flags.old }
    requires summed { Summed 2 flags.old sum }
    ensures { (flags.new ≡ with_zero (flag_at left.now.cells.now p) flags.old) × Summed 2 flags.new result }
{
    if left.accepts(p) {
        return sum::flag(flags, 2, 0, sum);
    }
    sum
}

// The flags of the first row: none, or B's 0.
fn first_flags(left: &Table, flags: &mut [u8]) -> usize
    requires { (0 < length flags.old) × (length flags.old < 65537) }
    ensures { (flags.new ≡ with_zero (flag_at left.now.cells.now 0) (replicate (length flags.old) 0)) × Summed 2 flags.new result }
{
    flags.fill(0);
    gain(left, 0, 0, flags)
}

// The flags of the next row: what B's listed states lead to by the column c, and what is gained by A's state x.
fn next_flags(operands: &Operands, c: usize, x: usize, members: &[u16], flags: &mut [u8]) -> usize
    requires x_in_bounds { (x < length operands.now.left.cells.now) × (0 < length flags.old) }
    requires pours { Pours operands.now.right c (length members.now) 2 members.now flags.old }
    ensures { (flags.new ≡ with_zero (flag_at operands.now.left.cells.now x) (flag_row (led_by members.now (target_of operands.now.right c) (length members.now)) (length flags.old))) × Summed 2 flags.new result }
{
    let poured = bits::lead(&operands.right, c, members, 2, flags);
    gain(&operands.left, x, poured.sum, flags)
}

// The first row: A's 0. Its sum.
pub fn start(operands: &Operands, row: &mut [u8]) -> usize
    requires row_len { length row.old ≡ operands.now.width }
    requires op_value { operation_of operands.now.op ≡ concatenation }
    ensures { (row.new ≡ (rows_for operands.now).start) × (result ≡ row_sum 0 row.new) }
{
    let sum = first_flags(&operands.left, &mut row[2..]);
    number::write(row, 0, 0);
    sum::with_number(0, 0, sum)
}

// The row that `from` leads to by the column c, where B's states in it are listed; its sum.
pub fn next(operands: &Operands, c: usize, from: &[u8], members: &[u16], row: &mut [u8]) -> usize
    requires step { Step operands.now c from.now row.old }
    requires op_value { operation_of operands.now.op ≡ concatenation }
    requires lists { Lists (λ q. flag_at from.now (2 + q)) operands.now.right.states (length members.now) members.now }
    ensures { (row.new ≡ (rows_for operands.now).step from.now c) × (result ≡ row_sum 0 row.new) }
{
    let p = number::read(from, 0);
    let x = operands.left.target(p, c);
    let sum = next_flags(operands, c, x, members, &mut row[2..]);
    number::write(row, 0, x);
    sum::with_number(x, 0, sum)
}

// Whether a state of B in the row is accepting.
pub fn accepts(operands: &Operands, from: &[u8]) -> bool
    requires source { Source operands.now from.now }
    requires op_value { operation_of operands.now.op ≡ concatenation }
    ensures { result ≡ (rows_for operands.now).accepting from.now }
{
    bits::some_accepting(operands.right.cells, &from[2..])
}
