// Rows by their operation: the first row, a row's states, the row that one leads to, and whether a row is accepting.
// These are parts: callers give rows of the operation's width.
// Stays: the operation comes from a program's code when it runs, so that a match stands in any form; an instance of a
// trait for each operation would stand between these lines and the functions that they name.
#![tactic(auto)]

ghost use Rattle.std.specs.Prelude.{◌≡◌, ◌≤◌, false, length};
ghost use Rattle.rows.specs.Rows.{bit};
ghost use Rattle.rows.specs.Sums.{row_sum};
ghost use Rattle.sets.specs.Fits.{Listed, ListedFor, rows_for, Source, Step};
ghost use Rattle.sets.specs.Operations.{operation_of, is_pairing, row_width};

use flags::bits;
use sets::operands::Operands;
use sets::{Operation, Shape};

// The first row; its sum.
pub fn start_row(operands: &Operands, row: &mut [u8]) -> usize
    requires row_len { length row.old ≡ operands.now.width }
    ensures { (row.new ≡ (rows_for operands.now).start) × (result ≡ row_sum 0 row.new) }
{
    match operands.op {
        Operation::Either | Operation::Both | Operation::Without => product::start(operands, row),
        Operation::Join => concatenation::start(operands, row),
        Operation::Star => star::start(operands, row),
        Operation::Erase => erase::start(operands, row),
    }
}

// The states of a row, listed; how many there are. A pair's are read where they stand.
pub fn gather(shape: Shape, from: &[u8], members: &mut [u16]) -> usize
    requires w_value { shape.width ≡ row_width (operation_of shape.op) shape.left shape.right }
    requires long { length from.now ≡ shape.width }
    requires listing { (shape.left ≤ length members.old) × (shape.right ≤ length members.old) × (length members.old ≤ 65536) }
    ensures within { result ≤ length members.new }
    ensures listed { Listed (operation_of shape.op) shape.left shape.right from.now result members.new }
{
    match shape.op {
        Operation::Either | Operation::Both | Operation::Without => 0,
        Operation::Join => bits::gather(&from[2..], members),
        Operation::Star | Operation::Erase => bits::gather(&from[..shape.left], members),
    }
}

// The row that `from` leads to by the column c, where its states are listed; its sum. Rows of pairs are made by their numbers.
pub fn next_row(
    operands: &Operands,
    c: usize,
    from: &[u8],
    members: &[u16],
    row: &mut [u8],
) -> usize
    requires step { Step operands.now c from.now row.old }
    requires flags { is_pairing (operation_of operands.now.op) ≡ false }
    requires listed { ListedFor operands.now from.now (length members.now) members.now }
    ensures { (row.new ≡ (rows_for operands.now).step from.now c) × (result ≡ row_sum 0 row.new) }
{
    match operands.op {
        Operation::Join => concatenation::next(operands, c, from, members, row),
        Operation::Star => star::next(operands, c, from, members, row),
        Operation::Erase => erase::next(operands, c, from, members, row),
        Operation::Either | Operation::Both | Operation::Without => unreachable!(),
    }
}

// Whether a row is accepting.
pub fn accepts(operands: &Operands, from: &[u8]) -> bool
    requires source { Source operands.now from.now }
    ensures { result ≡ (rows_for operands.now).accepting from.now }
{
    match operands.op {
        Operation::Either | Operation::Both | Operation::Without => product::accepts(
            operands, from,
        ),
        Operation::Join => concatenation::accepts(operands, from),
        Operation::Star => star::accepts(operands, from),
        Operation::Erase => erase::accepts(operands, from),
    }
}

// The flag of a row: 1 where it is accepting, else 0.
pub fn flag(operands: &Operands, from: &[u8]) -> u16
    requires source { Source operands.now from.now }
    ensures { result ≡ bit ((rows_for operands.now).accepting from.now) }
{
    accepts(operands, from) as u16
}
