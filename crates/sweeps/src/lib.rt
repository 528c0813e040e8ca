// How far a change is from the states of a table of moves: of each state the fewest letters that change its answer. One split by these numbers does the work of
// as many rounds as there are letters in a long row. A part for the partition: it has requires, and is no entry.
#![tactic(auto)]

mod keyed;

ghost use Rattle.std.specs.Prelude.{true, ◌≡◌, ◌≤◌, ◌<◌, length};
ghost use Rattle.moves.specs.Holds.{AcceptKeys};
ghost use Rattle.sweeps.specs.Change.{Alike};

use keyed::Keyed;
use moves::States;

// The numbers, each less 1, where a few sweeps settle them: true; else they say nothing.
pub fn changes(states: States, keys: &[u8; 120], far: &mut [u8; 120]) -> bool
    requires { AcceptKeys states.marks.now keys.now }
    ensures { result ≡ true → Alike states.entry.letters states.entry.marks.now states.entry.moves.now far.new }
{
    let n = states.len();
    let near = &mut far[..n];
    near.fill((n - 1) as u8);
    distance::changes(&Keyed { states, keys }, near)
}
