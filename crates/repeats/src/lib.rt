// Transitions that repeat an earlier one, so that nothing is made or looked up for them. These are parts: callers give transitions that lie within a stage.
#![tactic(auto)]

mod before;
pub mod columns;

ghost use Rattle.std.specs.Prelude.{true, ℕ, Some, IfSome, ◌≡◌, ◌+◌, ◌-◌, ◌^◌, ◌<◌, length};
ghost use Rattle.sets.specs.Operations.{operation_of, erase};
ghost use Rattle.repeats.specs.Repeats.{Asking, Repeats};
ghost use Rattle.repeats.specs.Order.{Follows};
ghost use Rattle.repeats.specs.Twins.{Twins};

use sets::Operation;
use sets::operands::Operands;

// A transition: that of the row `state` by the column `column`, and its place among all of them, row by row.
#[derive(Clone, Copy)]
pub struct Turn {
    pub state: usize,
    pub column: usize,
    pub place: usize,
}

impl Turn {
    // The transition behind this one, in rows of k columns.
    pub fn next(self, k: usize) -> Turn
        requires { (self.state + 1 < 2 ^ 64) × (self.column < k) × (self.place + 1 < 2 ^ 64) }
        ensures { Follows k self result }
    {
        let place = self.place + 1;
        let column = self.column + 1;
        if column == k {
            return Turn {
                state: self.state + 1,
                column: 0,
                place,
            };
        }
        Turn {
            state: self.state,
            column,
            place,
        }
    }
}

// Whether a transition is an erase's by the mark, from another row than the first.
fn erases(operands: &Operands, state: usize, column: usize) -> bool
    requires { column < operands.now.left.columns }
    ensures { result ≡ true → (operation_of operands.now.op ≡ erase) × (column ≡ operands.now.left.columns - 1) × (0 < state) }
{
    operands.op == Operation::Erase && operands.left.columns == column + 1 && 0 < state
}

// The place of an earlier transition that leads to the same row: an earlier column of the same row that is its twin; an erase's by the mark from the first
// row; the column before, where the row's states lead alike.
pub fn earlier(
    operands: &Operands,
    rows: &[u8],
    members: &[u16],
    turn: Turn,
    twin: Option<usize>,
) -> Option<usize>
    requires asking { Asking operands.now rows.now (length members.now) members.now turn.state turn.column turn.place }
    requires twins { (d : ℕ) → twin ≡ Some d → (d < turn.column) × Twins operands.now d turn.column }
    ensures { IfSome result (λ r. (r < turn.place) × Repeats operands.now rows.now turn.state turn.column r) }
{
    if let Some(twin) = twin {
        return Some(turn.place - (turn.column - twin));
    }
    if erases(operands, turn.state, turn.column) {
        return Some(turn.column);
    }
    if turn.column == 0 {
        return None;
    }
    let at = turn.state * operands.width;
    let row = &rows[at..at + operands.width];
    if before::same(operands, turn.column, row, members) {
        return Some(turn.place - 1);
    }
    None
}
