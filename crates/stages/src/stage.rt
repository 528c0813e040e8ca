// A stage: the sets that an operation on two machines reaches are counted, and their smallest machine is kept.
ghost use Rattle.std.specs.Prelude.{◌≡◌, ◌≤◌};
ghost use Rattle.sets.specs.Operations.{operation_of, row_width};
ghost use Rattle.answers.specs.Scratch.{SameRoom};
ghost use Rattle.answers.specs.Stage.{Reaches, Reached, Ready, StageDone};

use answers::{Limits, Made, Scratch, TooMany};
use entries::table::Table;
use sets::Operation;
use sets::operands::Operands;
use slots::slot;
use slots::slot::Sizes;

// The bytes of a row of the operation, for operands of na and nb states.
// Stays: a match on the operation, a number for each case; an instance of a trait for each operation would be chosen by the same match.
fn width(op: Operation, na: usize, nb: usize) -> usize
    requires na_bound { na ≤ 256 }
    requires nb_bound { nb ≤ 256 }
    ensures { result ≡ row_width (operation_of op) na nb }
{
    match op {
        Operation::Either | Operation::Both | Operation::Without => 4,
        Operation::Join => 2 + nb,
        Operation::Star => na + 1,
        Operation::Erase => na,
    }
}

// Reaches the sets of the operation on the two tables in `work`, the second half a buffer behind the first; none where they are more than the limit.
fn reach(
    op: Operation,
    k: usize,
    limits: Limits,
    sizes: Sizes,
    scratch: &mut Scratch,
) -> Option<usize>
    requires { Reaches k limits sizes scratch.old.work.now scratch.old.rows.now scratch.old.table.now }
    ensures reached { Reached op k limits sizes scratch.old.work.now scratch.new.rows.now scratch.new.table.now result }
    ensures room { SameRoom scratch.old scratch.new }
{
    let work = &mut *scratch.work;
    let tables = &work[..];
    let most = limits.states;
    let half = most + most * k;
    let width = width(op, sizes.left, sizes.right);
    let operands = Operands {
        op,
        left: Table {
            cells: tables,
            base: most,
            states: sizes.left,
            columns: k,
        },
        right: Table {
            cells: &tables[half..],
            base: most,
            states: sizes.right,
            columns: k,
        },
        width,
        limit: limits.sets,
    };
    let mut row = [0u8; 258];
    let mut members = [0u16; 256];
    explore::explore(
        &operands,
        scratch.rows,
        &mut row[..width],
        &mut members[..],
        scratch.table,
    )
}

// The stage of the operation on the machines in two slots, over m letters and the mark. Its machine is kept in the first slot; nothing outside that slot
// is changed. Star and erase take the first machine. When the sets are reached, the operands are not needed any more, and `work` is lent for the
// classes.
pub fn stage(
    op: Operation,
    m: usize,
    limits: Limits,
    slots: &mut [u8],
    left: usize,
    right: usize,
    scratch: &mut Scratch,
) -> Result<Made, TooMany>
    requires { Ready m limits left right slots.old scratch.old.work.now scratch.old.rows.now scratch.old.table.now }
    ensures done { StageDone op m limits left right slots.old slots.new result }
    ensures room { SameRoom scratch.old scratch.new }
{
    let k = m + 1;
    let most = limits.states;
    let sizes = slot::load(slots, left, right, most, k, scratch.work);
    let n = reach(op, k, limits, sizes, scratch).ok_or(TooMany::TooManySets)?;
    let table = &mut *scratch.table;
    let reached = Table {
        cells: table,
        base: limits.sets,
        states: n,
        columns: k,
    };
    let q = packing::keep(&reached, most, scratch.work, slots, left).ok_or(TooMany::TooManyStates)?;
    Ok(Made { sets: n, states: q })
}
