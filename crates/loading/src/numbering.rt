// Test 24: the states are numbered by first arrival, and all are reached. One scan over the moves, which counts the states seen.
ghost use Rattle.std.specs.Prelude.{◌*◌, ◌<◌, length};
ghost use Rattle.loading.specs.Rows.{RowSeen, NumberedExactly};

use moves::States;

// The moves of state p, where `seen` states were seen before: how many are after, or none where a move skips a new state.
fn row(states: States, p: usize, seen: usize) -> Option<usize>
    requires { p < length states.marks.now }
    ensures { RowSeen states.entry.moves.now (p * states.entry.letters) states.entry.letters seen result }
{
    let mut s = seen;
    for target in states.row(p) {
        let t = *target as usize;
        if s < t {
            return None;
        }
        s = s.max(t + 1);
    }
    Some(s)
}

// Each state is seen before its moves are read, each move is to a state seen or to the next, and all are seen in the end.
pub fn numbered(states: States) -> bool
    ensures { NumberedExactly states.entry.letters states.entry.marks.now states.entry.moves.now result }
{
    let mut seen = 1;
    for p in 0..states.len() {
        if seen <= p {
            return false;
        }
        let Some(after) = row(states, p, seen) else {
            return false;
        };
        seen = after;
    }
    seen == states.len()
}
