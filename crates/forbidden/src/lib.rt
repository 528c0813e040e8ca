// The shortest factor of a plan that lies inside no allowed plan, in one pass from the plan's end: letters times states, and no lent buffer.
#![tactic(auto)]

ghost use Rattle.std.specs.Prelude.{◌≡◌, ◌≤◌, ◌<◌, length};
ghost use Rattle.automata.specs.Format.{narrow};
ghost use Rattle.factor.specs.Shortest.{shortest as shortest_of};
ghost use Rattle.card.specs.Layout.{letters_of};
ghost use Rattle.card.specs.Alphabet.{Known};
ghost use Rattle.run.specs.Cards.{bytes_of, states_in};
ghost use Rattle.forbidden.specs.Reading.{answer_of};
ghost use Rattle.forbidden.specs.Pass.{Searched, Bettered};

use board::Refusal;
use run::{Card, UnknownLetter, Walker};
use std::mem::swap;

// A row of places: 120 states, and an entry more where no state is dead.
const PLACES: usize = 121;

// A factor of a plan: where it starts, and its length.
#[derive(Clone, Copy, Debug, PartialEq, Eq)]
pub struct Stretch {
    pub start: usize,
    pub length: usize,
}

const EMPTY: Stretch = Stretch {
    start: 0,
    length: 0,
};

// The stretch from place i to `last`, where there is one and it is not longer than the best so far; else the best.
fn better(best: Option<Stretch>, i: usize, last: usize, never: usize) -> Option<Stretch>
    requires { i ≤ last }
    ensures { Bettered best i last never result }
{
    if never <= last {
        return best;
    }
    let length = last - i;
    if let Some(nearest) = best {
        if nearest.length < length {
            return best;
        }
    }
    Some(Stretch { start: i, length })
}

// The pass, over two rows of places with an entry for each state and one more.
fn pass<'a>(
    walker: &Walker,
    plan: &[u8],
    mut before: &'a mut [usize],
    mut after: &'a mut [usize],
) -> Option<Stretch>
    requires known { Known (letters_of narrow (bytes_of walker.now.card)) plan.now }
    requires room { (states_in walker.now.card < length before.old) × (states_in walker.now.card < length after.old) }
    ensures { Searched (bytes_of walker.now.card) plan.now result }
{
    let states = walker.card.states();
    let moves = states.moves;
    let m = states.letters;
    let n = states.len();
    let dead = ends::dead_state(states.marks);
    if dead == 0 {
        return Some(EMPTY);
    }
    let never = plan.len() + 1;
    ends::fill(before, n, dead, plan.len(), never);
    let mut best = None;
    for i in (0..plan.len()).rev() {
        let column = walker.columns[plan[i] as usize] as usize;
        let last = ends::step(moves, m, n, column, dead, before, after, i);
        swap(&mut before, &mut after);
        best = better(best, i, last, never);
    }
    best
}

// A card that loads: the letters are tested, then the pass is made.
fn on_card(card: &Card, plan: &[u8]) -> Result<Option<Stretch>, Refusal>
    ensures { answer_of result ≡ shortest_of narrow (bytes_of card.now) plan.now }
{
    let walker = Walker::of(card);
    let before = walker.known(plan, 0);
    if before < plan.len() {
        return Err(Refusal::Letter(UnknownLetter { before }));
    }
    let mut before = [0usize; PLACES];
    let mut after = [0usize; PLACES];
    Ok(pass(&walker, plan, &mut before[..], &mut after[..]))
}

// The card is tested, then all letters, then the plan's factors: the shortest that lies inside no allowed plan, if there is one.
pub fn shortest(bytes: &[u8], plan: &[u8]) -> Result<Option<Stretch>, Refusal>
    ensures { answer_of result ≡ shortest_of narrow bytes.now plan.now }
{
    let card = board::load(bytes)?;
    on_card(&card, plan)
}
