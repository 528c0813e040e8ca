// The walk over a card that loads, with the column of every byte beside it, made once for many pieces.
ghost use Rattle.automata.specs.Format.{narrow};
ghost use Rattle.card.specs.Layout.{letters_of};
ghost use Rattle.run.specs.Walk.{ColumnTable};

use crate::columns::columns;
use crate::{Card, Run, Walk, next};
use moves::Mark;

// A card, and of every byte its column on it.
#[derive(Drop)]
pub struct Walker<'a> {
    pub card: Card<'a>,
    pub columns: [u8; 256],
    pub ghost right: { ColumnTable (letters_of narrow card.layout.bytes.now) columns },
}

impl<'a> Walker<'a> {
    ghost use Rattle.std.specs.Prelude.{◌≡◌, ◌≢◌, ◌+◌, ◌-◌, ◌≤◌, ◌<◌, ◌^◌, length, drop};
    ghost use Rattle.automata.specs.Format.{narrow};
    ghost use Rattle.card.specs.Layout.{letters_of, mark_at};
    ghost use Rattle.card.specs.Judge.{found};
    ghost use Rattle.card.specs.Run.{going, run_on};
    ghost use Rattle.run.specs.Reading.{run_of};
    ghost use Rattle.run.specs.Cards.{bytes_of, states_in};
    ghost use Rattle.run.specs.Walk.{Underway, KnownTo, Walked, Runs};

    // A card and its columns.
    pub fn of(card: &Card<'a>) -> Walker<'a>
        ensures { result.card ≡ card.now }
    {
        Walker {
            card: *card,
            columns: columns(card.layout.letters()),
        }
    }

    // Letter by letter from a state, until one is dead.
    fn walk_on(&self, plan: &[u8], state: usize) -> Walk
        requires { (state < states_in self.now.card) × (mark_at narrow (bytes_of self.now.card) state ≢ 2) }
        ensures { Walked (bytes_of self.now.card) (states_in self.now.card) plan.now state result }
    {
        let columns = &self.columns;
        let marks = self.card.layout.marks();
        let moves = self.card.layout.moves();
        let m = self.card.layout.counts.letters;
        let mut s = state;
        for (k, b) in plan.iter().enumerate() {
            let i = columns[*b as usize] as usize;
            if m <= i {
                return Walk::Unknown { state: s, taken: k };
            }
            s = next(moves, m, s, i);
            if marks[s] == Mark::Dead as u8 {
                return Walk::Dead {
                    state: s,
                    taken: k + 1,
                };
            }
        }
        Walk::Done { state: s }
    }

    // The place of the first letter from `from` on that is not on the card, or the piece's length.
    pub fn known(&self, plan: &[u8], from: usize) -> usize
        requires { from ≤ length plan.now }
        ensures { KnownTo (letters_of narrow (bytes_of self.now.card)) plan.now from result }
    {
        let columns = &self.columns;
        let m = self.card.layout.counts.letters;
        for k in from..plan.len() {
            if m <= columns[plan[k] as usize] as usize {
                return k;
            }
        }
        plan.len()
    }

    // Past a dead state, which stays: only the letters are tested. The run has taken `letters` letters, those of the piece before `from` among them.
    fn past_dead(&self, plan: &[u8], from: usize, state: usize, letters: usize, place: usize) -> Run
        requires from_in_bounds { (from ≤ length plan.now) × (letters + (length plan.now - from) < 2 ^ 64) }
        requires state_lt_n { (state < states_in self.now.card) × (mark_at narrow (bytes_of self.now.card) state ≡ 2) }
        ensures { Runs (bytes_of self.now.card) (states_in self.now.card) (run_on narrow (bytes_of self.now.card) (going state letters (found place)) (drop from plan.now)) result }
    {
        let k = self.known(plan, from);
        let total = letters + (k - from);
        if k < plan.len() {
            return Run {
                state,
                letters: total,
                dead: Some(place),
                unknown: Some(total),
            };
        }
        Run {
            state,
            letters: total,
            dead: Some(place),
            unknown: None,
        }
    }

    // One piece more.
    pub fn piece(&self, run: Run, plan: &[u8]) -> Run
        requires { Underway (bytes_of self.now.card) (states_in self.now.card) run × (run.letters + length plan.now < 2 ^ 64) }
        ensures { Runs (bytes_of self.now.card) (states_in self.now.card) (run_on narrow (bytes_of self.now.card) (run_of run) plan.now) result }
    {
        let unknown = run.unknown;
        let dead = run.dead;
        let state = run.state;
        let letters = run.letters;
        if let Some(_) = unknown {
            return run;
        }
        if let Some(place) = dead {
            return self.past_dead(plan, 0, state, letters, place);
        }
        match self.walk_on(plan, state) {
            Walk::Done { state } => Run {
                state,
                letters: letters + plan.len(),
                dead: None,
                unknown: None,
            },
            Walk::Dead { state, taken } => {
                self.past_dead(plan, taken, state, letters + taken, letters + taken)
            }
            Walk::Unknown { state, taken } => Run {
                state,
                letters: letters + taken,
                dead: None,
                unknown: Some(letters + taken),
            },
        }
    }
}
