// "the fewest further letters after which the plan is allowed": from one state, by a search; and of all states, as a table made once for many plans.
ghost use Rattle.std.specs.Prelude.{◌≡◌, ◌<◌};
ghost use Rattle.automata.specs.Format.{narrow};
ghost use Rattle.card.specs.Layout.{mark_at};
ghost use Rattle.card.specs.Judge.{owed as owed_of};
ghost use Rattle.run.specs.Cards.{bytes_of, states_in};
ghost use Rattle.run.specs.Walk.{OwedTable};

use crate::Card;

// The letters owed in a state whose marks byte is 0.
pub fn owed(card: &Card, state: usize) -> usize
    requires { (state < states_in card.now) × (mark_at narrow (bytes_of card.now) state ≡ 0) }
    ensures { result ≡ owed_of narrow (bytes_of card.now) state }
{
    levels::distance(card.states(), state)
}

// The table of those of all such states.
pub fn owed_table(card: &Card) -> [u16; 120]
    ensures { OwedTable (bytes_of card.now) (states_in card.now) result }
{
    levels::distances(card.states())
}
