// One transition of a stage: what holds of the rows found and the transitions laid out so far, what one more asks and what it leaves, as definitions and
// laws; and the row that a transition leads to looked up, and put behind the others where it is new.
#![tactic(auto)]

ghost use Rattle.std.specs.Prelude.{◌≡◌, List, ℕ};
ghost use Rattle.automata.specs.Automaton.{Automaton};
ghost use Rattle.rows.specs.Found.{Kept};
ghost use Rattle.rows.specs.Rows.{row_at};
ghost use Rattle.rows.specs.Sums.{row_sum};
ghost use Rattle.turns.specs.Partial.{Laying, Standing, Turned};

pub use repeats::Turn;
use rows::chains;
use rows::chains::{Found, Row};
use sets::operands::Operands;

// Lays out a transition, where the row that it leads to and that row's sum are given; none where that is a new row that no room is left for.
pub fn lay<R: Row + Copy>(
    operands: &Operands,
    found: &mut Found,
    turn: Turn,
    row: R,
    sum: usize,
) -> Option<()>
    requires laying { Laying operands.now found.old (R.bytes row) turn }
    requires sum { sum ≡ row_sum 0 (R.bytes row) }
    ensures turned { (A : Automaton (List ℕ)) → Standing A operands.now found.old turn → R.bytes row ≡ A.step (row_at operands.now.width turn.state found.old.rows.now) turn.column → Turned A operands.now found.old turn found.new result }
    ensures row { row_at operands.now.width turn.state found.new.rows.now ≡ row_at operands.now.width turn.state found.old.rows.now }
    ensures kept { Kept found.old found.new }
{
    let h = chains::hash(sum);
    let at = operands.limit + turn.place;
    if let Some(j) = found.find(operands.width, row, h) {
        found.table[at] = j as u16;
        return Some(());
    }
    let j = found.count;
    if j < operands.limit {
        found.push(operands.width, row, h);
        found.table[at] = j as u16;
        return Some(());
    }
    None
}
