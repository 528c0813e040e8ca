// The rows of `|`, `&` and `-`: a state of each operand, by its number.
// These are parts: callers give rows of the operation's width.
#![tactic(auto)]

ghost use Rattle.std.specs.Prelude.{◌≡◌, true, length};
ghost use Rattle.automata.specs.Stages.{Pairing, combine};
ghost use Rattle.rows.specs.Sums.{row_sum};
ghost use Rattle.sets.specs.Fits.{rows_for, Source};
ghost use Rattle.sets.specs.Operations.{operation_of, is_pairing, pairing};

use octets::number;
use sets::Operation;
use sets::operands::Operands;

// The first pair, (0, 0); its row's sum.
pub fn start(operands: &Operands, row: &mut [u8]) -> usize
    requires row_len { length row.old ≡ operands.now.width }
    requires pairs { is_pairing (operation_of operands.now.op) ≡ true }
    ensures { (row.new ≡ (rows_for operands.now).start) × (result ≡ row_sum 0 row.new) }
{
    number::write(row, 0, 0);
    number::write(row, 2, 0);
    0
}

// The answer of the operation from its operands' answers.
fn combine(op: Operation, x: bool, y: bool) -> bool
    ensures { (o : Pairing) → operation_of op ≡ pairing o → result ≡ combine o x y }
{
    match op {
        Operation::Either => x || y,
        Operation::Both => x && y,
        _ => x && !y,
    }
}

// Whether the pair is accepting.
pub fn accepts(operands: &Operands, from: &[u8]) -> bool
    requires source { Source operands.now from.now }
    requires pairs { is_pairing (operation_of operands.now.op) ≡ true }
    ensures { result ≡ (rows_for operands.now).accepting from.now }
{
    let p = number::read(from, 0);
    let q = number::read(from, 2);
    let x = operands.left.accepts(p);
    let y = operands.right.accepts(q);
    combine(operands.op, x, y)
}
