// Test 25: which states are live, and whether each is marked so. Reachability back from the accepting states, by sweeps over an array of flags, down and up in
// turn: a sweep looks at the moves of the states that are not live yet, and mostly one or two are enough, n + 1 at most. Nothing is assumed of the
// states but that their moves stay among them. Parts for the board: they have requires, and are no entries.
#![tactic(auto)]

ghost use Rattle.std.specs.Prelude.{◌≡◌, ℕ, ◌≤◌, ◌<◌, length, get_or, false};
ghost use Rattle.std.specs.List.{All, list_any, list_all, zip};
ghost use Rattle.live.specs.LiveSweeps.{right_mark, Visited, Sweep, LiveExactly, MarksExactly};

use moves::{Mark, States};

// Some move of the row leads to a state with its flag set.
fn leads(row: &[u8], flags: &[bool; 120]) -> bool
    requires { All (λ t. t < 120) row.now }
    ensures { result ≡ list_any (λ t. get_or flags.now t false) row.now }
{
    row.iter().any(|t| flags[*t as usize])
}

// State p becomes live where a move leads to a live state. Whether it did.
fn visit(states: States, p: usize, flags: &mut [bool; 120]) -> bool
    requires { p < length states.marks.now }
    ensures { Visited states.entry.letters states.entry.moves.now p flags.old flags.new result }
{
    if flags[p] || !leads(states.row(p), flags) {
        return false;
    }
    flags[p] = true;
    true
}

// One sweep, the last state first. Whether a state became live.
fn descend(states: States, flags: &mut [bool; 120]) -> bool
    ensures { Sweep states.entry.letters states.entry.marks.now states.entry.moves.now flags.old flags.new result }
{
    let mut changed = false;
    for p in (0..states.len()).rev() {
        changed |= visit(states, p, flags);
    }
    changed
}

// One sweep, the first state first. Whether a state became live.
// Stays: one loop over an order that is passed in would have to ask of it that it ends, that it gives states alone and that it gives each, and both callers to
// prove that, which is longer than the second loop.
fn ascend(states: States, flags: &mut [bool; 120]) -> bool
    ensures { Sweep states.entry.letters states.entry.marks.now states.entry.moves.now flags.old flags.new result }
{
    let mut changed = false;
    for p in 0..states.len() {
        changed |= visit(states, p, flags);
    }
    changed
}

// The flags of the live states: the accepting ones, and then as many sweeps as there are states, or fewer when one changes nothing. Most moves lead to later states, so the second
// goes down too.
fn live(states: States, flags: &mut [bool; 120])
    ensures { LiveExactly states.entry.letters states.entry.marks.now states.entry.moves.now flags.new }
{
    states.accepting(flags);
    if !descend(states, flags) {
        return;
    }
    for _ in 0..states.len() / 2 {
        if !descend(states, flags) || !ascend(states, flags) {
            return;
        }
    }
}

// Whether a marks byte is that of a state: 1 where it accepts, else 0 where it is live and 2 where it is dead.
fn right(mark: u8, lives: bool) -> bool
    ensures { result ≡ right_mark mark lives }
{
    let rejecting = if lives { Mark::Unfinished } else { Mark::Dead };
    mark == Mark::Accepting as u8 || mark == rejecting as u8
}

// The same of each marks byte.
fn all_right(marks: &[u8], flags: &[bool; 120]) -> bool
    ensures { result ≡ list_all (λ x. right_mark x.0 x.1) (zip marks.now flags.now) }
{
    marks
        .iter()
        .zip(flags)
        .all(|(mark, lives)| right(*mark, *lives))
}

// Each marks byte is 1 for an accepting state, 2 for a dead one, else 0.
pub fn marked(states: States) -> bool
    ensures { MarksExactly states.entry.letters states.entry.marks.now states.entry.moves.now result }
{
    let mut flags = [false; 120];
    live(states, &mut flags);
    all_right(states.marks, &flags)
}
