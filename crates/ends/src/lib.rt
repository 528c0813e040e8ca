// For every state of a card the place of a plan where it is dead first, read from the plan's end: before any letter, and one letter more on the left. A card
// has one dead state at most. These are parts: what they require, one load establishes.
#![tactic(auto)]

ghost use Rattle.std.specs.Prelude.{◌≤◌, ◌<◌, length};
ghost use Rattle.ends.specs.Ends.{DeadState, Filled, Stepping, Stepped};

use moves::Mark;

// The first dead state, or the number of states.
// Stays: a place, and no Option: a row has an entry more for it, which each letter writes without a test; of an Option its one caller would make this place again.
pub fn dead_state(marks: &[u8]) -> usize
    ensures { DeadState marks.now result }
{
    marks
        .iter()
        .position(|mark| *mark == Mark::Dead as u8)
        .unwrap_or(marks.len())
}

// No letter: the dead state is dead here, the others nowhere.
pub fn fill(ends: &mut [usize], n: usize, dead: usize, here: usize, never: usize)
    requires { (n < length ends.old) × (dead ≤ n) }
    ensures { Filled n dead here never ends.old ends.new }
{
    ends[..n].fill(never);
    ends[dead] = here;
}

// One letter more, by its column: the dead state is dead here, each other one where the next state is. The places before are those of the word behind the letter;
// the last place of the next states is handed back.
pub fn step(
    moves: &[u8],
    m: usize,
    n: usize,
    column: usize,
    dead: usize,
    before: &[usize],
    after: &mut [usize],
    here: usize,
) -> usize
    requires { Stepping moves.now m n column dead before.now after.old }
    ensures { Stepped moves.now m n column dead here before.now after.old after.new result }
{
    let mut last = 0;
    for q in 0..n {
        let end = before[moves[q * m + column] as usize];
        after[q] = end;
        last = last.max(end);
    }
    after[dead] = here;
    last
}
