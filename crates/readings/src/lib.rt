// What is read off the rows of a stage: a row's states, listed, and the rows' flags, laid out. These are parts: callers give buffers
// that are long enough.
#![tactic(auto)]

ghost use Rattle.std.specs.Prelude.{◌≡◌, ◌+◌, ◌*◌, ◌<◌, ◌≤◌, length};
ghost use Rattle.rows.specs.Found.{Kept};
ghost use Rattle.rows.specs.Rows.{row_at};
ghost use Rattle.sets.specs.Fits.{Listed, rows_for};
ghost use Rattle.sets.specs.Operations.{operation_of, row_width};
ghost use Rattle.readings.specs.Flagged.{Flagging, Flagged};

use repeats::Turn;
use rows::chains::Found;
use sets::Shape;
use sets::operands::Operands;

// The states of the turn's row, listed, where they are not listed yet for an earlier column; how many there are.
pub fn list(shape: Shape, rows: &[u8], turn: Turn, held: usize, members: &mut [u16]) -> usize
    requires w_value { shape.width ≡ row_width (operation_of shape.op) shape.left shape.right }
    requires w_in_bounds { turn.state * shape.width + shape.width ≤ length rows.now }
    requires listing { (shape.left ≤ length members.old) × (shape.right ≤ length members.old) × (length members.old ≤ 65536) }
    requires listed { 0 < turn.column → Listed (operation_of shape.op) shape.left shape.right (row_at shape.width turn.state rows.now) held members.old }
    ensures within { held ≤ length members.old → result ≤ length members.new }
    ensures listed { Listed (operation_of shape.op) shape.left shape.right (row_at shape.width turn.state rows.now) result members.new }
{
    if 0 < turn.column {
        return held;
    }
    let at = turn.state * shape.width;
    dispatch::gather(shape, &rows[at..at + shape.width], members)
}

// Lays out the flags of the rows.
pub fn flag_rows(operands: &Operands, found: &mut Found)
    requires { Flagging operands.now found.old.count found.old.rows.now found.old.table.now }
    ensures flagged { Flagged (rows_for operands.now) operands.now.width operands.now.limit found.old.count found.new.rows.now found.old.table.now found.new.table.now }
    ensures rows { (found.new.rows.now ≡ found.old.rows.now) × (found.new.count ≡ found.old.count) }
    ensures kept { Kept found.old found.new }
{
    for p in 0..found.count {
        let flag = dispatch::flag(operands, found.row(operands.width, p));
        found.table[p] = flag;
    }
}
