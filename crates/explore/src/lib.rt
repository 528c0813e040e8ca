// The stage loop: the sets that an operation on two machines reaches, as rows of bytes in a lent buffer, counted, with their transitions laid out as
// a table. These are parts: callers give buffers that are long enough.
#![tactic(auto)]

ghost use Rattle.sets.specs.Fits.{Listing, rows_for};
ghost use Rattle.turns.specs.Exploring.{Explores, Answers};

use repeats::{Turn, columns};
use rows::chains;
use rows::chains::Found;
use sets::Shape;
use sets::operands::Operands;

// All sets that are reached, each once, with their transitions and flags: how many there are, or none where they are more than the limit.
pub fn explore(
    operands: &Operands,
    rows: &mut [u8],
    row: &mut [u8],
    members: &mut [u16],
    table: &mut [u16],
) -> Option<usize>
    requires explores { Explores operands.now rows.old row.old table.old }
    requires listing { Listing operands.now members.old }
    ensures { Answers (rows_for operands.now) operands.now.left.columns operands.now.width operands.now.limit rows.new table.new result }
{
    let mut twins = [None; 64];
    columns::byte_twins(operands, &mut twins);
    let sum = dispatch::start_row(operands, row);
    let mut found = Found {
        rows,
        table,
        heads: [0; 512],
        count: 0,
    };
    found.push(operands.width, &row[..], chains::hash(sum));
    let shape = Shape {
        op: operands.op,
        left: operands.left.states,
        right: operands.right.states,
        width: operands.width,
    };
    let mut turn = Turn {
        state: 0,
        column: 0,
        place: 0,
    };
    let mut held = 0;
    // Stays: a queue, its end moves while it is read.
    while turn.state < found.count {
        held = readings::list(shape, found.all(), turn, held, members);
        let twin = columns::byte_twin(&twins, turn.column);
        advance::advance(operands, &mut found, row, &members[..held], turn, twin)?;
        turn = turn.next(operands.left.columns);
    }
    readings::flag_rows(operands, &mut found);
    Some(found.count)
}
