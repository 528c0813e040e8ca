// One transition of a stage laid out: it repeats an earlier one, or its row is made, as a pair or as a row of flags.
// These are parts: callers give buffers that are long enough.
#![tactic(auto)]

ghost use Rattle.std.specs.Prelude.{ℕ, Some, ◌≡◌, ◌<◌, length};
ghost use Rattle.rows.specs.Found.{Kept};
ghost use Rattle.rows.specs.Rows.{row_at};
ghost use Rattle.sets.specs.Fits.{ListedFor, rows_for};
ghost use Rattle.sets.specs.Operations.{operation_of};
ghost use Rattle.repeats.specs.Twins.{Twins};
ghost use Rattle.turns.specs.Partial.{Turning, Turned};

use rows::chains::Found;
use sets::operands::Operands;
use turns::Turn;

// Lays out one transition. An earlier column of the same row may be its twin: then both lead to one row. And by the mark an erase leads every row to the empty one,
// so that the first row's transition is repeated.
pub fn advance(
    operands: &Operands,
    found: &mut Found,
    row: &mut [u8],
    members: &[u16],
    turn: Turn,
    twin: Option<usize>,
) -> Option<()>
    requires turning { Turning operands.now found.old row.old turn }
    requires listed { ListedFor operands.now (row_at operands.now.width turn.state found.old.rows.now) (length members.now) members.now }
    requires twins { (d : ℕ) → twin ≡ Some d → (d < turn.column) × Twins operands.now d turn.column }
    ensures turned { Turned (rows_for operands.now) operands.now found.old turn found.new result }
    ensures row { row_at operands.now.width turn.state found.new.rows.now ≡ row_at operands.now.width turn.state found.old.rows.now }
    ensures kept { Kept found.old found.new }
{
    if let Some(place) = repeats::earlier(operands, found.all(), members, turn, twin) {
        found.table[operands.limit + turn.place] = found.table[operands.limit + place];
        return Some(());
    }
    if operands.op.is_pair() {
        return pairs::turn_pair(operands, found, &row[..], turn);
    }
    subsets::turn(operands, found, row, members, turn)
}
