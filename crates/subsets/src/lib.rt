// One transition of a stage whose sets are rows of flags: the row that it leads to is made, looked up, and put behind the others where it is new.
// These are parts: callers give buffers that are long enough.
#![tactic(auto)]

ghost use Rattle.std.specs.Prelude.{◌≡◌, false, length};
ghost use Rattle.rows.specs.Found.{Kept};
ghost use Rattle.rows.specs.Rows.{row_at};
ghost use Rattle.sets.specs.Fits.{ListedFor, rows_for};
ghost use Rattle.sets.specs.Operations.{operation_of, is_pairing};
ghost use Rattle.turns.specs.Partial.{Turning, Turned};

use rows::chains::Found;
use sets::operands::Operands;
use turns::Turn;

// Lays out one transition, that of a row of flags.
pub fn turn(
    operands: &Operands,
    found: &mut Found,
    row: &mut [u8],
    members: &[u16],
    turn: Turn,
) -> Option<()>
    requires turning { Turning operands.now found.old row.old turn }
    requires flags { is_pairing (operation_of operands.now.op) ≡ false }
    requires listed { ListedFor operands.now (row_at operands.now.width turn.state found.old.rows.now) (length members.now) members.now }
    ensures turned { Turned (rows_for operands.now) operands.now found.old turn found.new result }
    ensures row { row_at operands.now.width turn.state found.new.rows.now ≡ row_at operands.now.width turn.state found.old.rows.now }
    ensures kept { Kept found.old found.new }
{
    let from = found.row(operands.width, turn.state);
    let sum = dispatch::next_row(operands, turn.column, from, members, row);
    turns::lay(operands, found, turn, &row[..], sum)
}
