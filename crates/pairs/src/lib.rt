// One transition of a stage whose sets are pairs: the pair that it leads to is made, looked up, and put behind the others where it is new.
// These are parts: callers give buffers that are long enough.
#![tactic(auto)]

ghost use Rattle.std.specs.Prelude.{◌≡◌, true};
ghost use Rattle.rows.specs.Found.{Kept};
ghost use Rattle.rows.specs.Rows.{row_at};
ghost use Rattle.sets.specs.Fits.{rows_for};
ghost use Rattle.sets.specs.Operations.{operation_of, is_pairing};
ghost use Rattle.turns.specs.Partial.{Turning, Turned};

use octets::number;
use rows::chains::Found;
use rows::pair::Pair;
use sets::operands::Operands;
use turns::Turn;

// Lays out one transition, that of a pair: its states are read, looked up and put by their numbers.
pub fn turn_pair(operands: &Operands, found: &mut Found, row: &[u8], turn: Turn) -> Option<()>
    requires turning { Turning operands.now found.old row.now turn }
    requires pairs { is_pairing (operation_of operands.now.op) ≡ true }
    ensures turned { Turned (rows_for operands.now) operands.now found.old turn found.new result }
    ensures row { row_at operands.now.width turn.state found.new.rows.now ≡ row_at operands.now.width turn.state found.old.rows.now }
    ensures kept { Kept found.old found.new }
{
    let from = found.row(operands.width, turn.state);
    let p = number::read(from, 0);
    let r = number::read(from, 2);
    let pair = Pair {
        x: operands.left.target(p, turn.column) as u16,
        y: operands.right.target(r, turn.column) as u16,
    };
    turns::lay(operands, found, turn, pair, pair.sum())
}
