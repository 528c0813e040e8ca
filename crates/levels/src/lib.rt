// How far a state is from acceptance: the fewest letters of a word that is accepted from it. Breadth-first search: each state that is reached gets a level, the
// letters that lead to it, and a place in the order, and the first state in this order with a move to an accepting one ends the search. It looks at each move
// twice at most, with three bytes a state. Parts for the board: they have requires, and are no entries.
#![tactic(auto)]

ghost use Rattle.std.specs.Prelude.{◌≡◌, ◌≢◌, ◌+◌, ◌*◌, ◌<◌, length, get_or, eqb};
ghost use Rattle.std.specs.List.{All, list_any};
ghost use Rattle.levels.specs.Levels.{Front, Spread, DistanceExactly, DistancesExactly};

use moves::{Mark, States};

// No level: more than each, for a table has fewer states.
// Stays: as an Option each level would have to be unwrapped where the search knows that the state has one.
const UNSEEN: u16 = 65535;

// The states that a search has reached: the level of each, and in the first `count` places the states in the order in which they were reached.
#[derive(Drop)]
struct Reached {
    levels: [u16; 120],
    order: [u8; 120],
    count: usize,
}

impl Reached {
    // State t, where it has no level, gets this one and the next place in the order; so do all that the moves of state p lead to.
    fn spread(&mut self, states: States, p: usize, level: u16)
        requires front { Front (length states.marks.now) level self.old.levels self.old.order self.old.count }
        requires state { p < length states.marks.now }
        ensures { Spread (length states.entry.marks.now) states.entry.moves.now (p * states.entry.letters) states.entry.letters level self.old.levels self.old.order self.old.count self.new.levels self.new.order self.new.count }
    {
        for t in states.row(p) {
            let place = *t as usize;
            if self.levels[place] == UNSEEN {
                self.levels[place] = level;
                self.order[self.count] = *t;
                self.count += 1;
            }
        }
    }
}

// Some move of the row leads to an accepting state.
fn accepts(states: States, row: &[u8]) -> bool
    requires { All (λ t. t < length states.marks.now) row.now }
    ensures { result ≡ list_any (λ t. eqb 1 (get_or states.entry.marks.now t 0)) row.now }
{
    row.iter().any(|t| states.accepts(*t as usize))
}

// How far the state is, which does not accept: the states are looked at in the order in which they are reached.
pub fn distance(states: States, state: usize) -> usize
    requires { (state < length states.marks.now) × (get_or states.marks.now state 0 ≢ 1) }
    ensures { DistanceExactly states.entry.letters states.entry.marks.now states.entry.moves.now state result }
{
    let mut reached = Reached {
        levels: [UNSEEN; 120],
        order: [0; 120],
        count: 1,
    };
    reached.levels[state] = 0;
    reached.order[0] = state as u8;
    let mut i = 0;
    // Stays: a queue, whose end moves while it is read.
    while i < reached.count {
        let p = reached.order[i] as usize;
        let letters = reached.levels[p] + 1;
        if accepts(states, states.row(p)) {
            return letters as usize;
        }
        reached.spread(states, p, letters);
        i += 1;
    }
    states.len()
}

// How far each unfinished state is.
pub fn distances(states: States) -> [u16; 120]
    ensures { DistancesExactly states.entry.letters states.entry.marks.now states.entry.moves.now result }
{
    let mut all = [0u16; 120];
    for (p, mark) in states.marks.iter().enumerate() {
        if *mark == Mark::Unfinished as u8 {
            all[p] = distance(states, p) as u16;
        }
    }
    all
}
