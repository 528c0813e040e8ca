// The walk over a card that was tested, whole or in pieces, and the answer at its end. These are parts: what they require, one load establishes. So a plan has no
// longest length, while the letters so far fit in 64 bits.
#![tactic(auto)]

mod columns;
pub mod judge;
pub mod loaded;
pub mod owed;
pub mod walker;

ghost use Rattle.std.specs.Prelude.{ℕ, ◌≡◌, ◌+◌, ◌*◌, ◌<◌, ◌^◌, length, get_or};
ghost use Rattle.automata.specs.Format.{narrow};
ghost use Rattle.card.specs.Layout.{mark_at};
ghost use Rattle.card.specs.Judge.{owed as owed_of};
ghost use Rattle.card.specs.Run.{run_start, run_on, run_reply};
ghost use Rattle.run.specs.Reading.{run_of, reply_of};
ghost use Rattle.run.specs.Cards.{bytes_of, states_in};
ghost use Rattle.run.specs.Walk.{Underway, OwedTable, Runs};

pub use judge::Judge;
pub use loaded::Card;
use moves::Mark;
pub use walker::Walker;

// What is kept between two pieces of a plan: the state, how many letters were taken, after how many the state was dead first, and how many precede
// the first letter that is not on the card.
#[derive(Clone, Copy)]
pub struct Run {
    pub state: usize,
    pub letters: usize,
    pub dead: Option<usize>,
    pub unknown: Option<usize>,
}

// "allowed, unfinished, or hopeless with a place"; unfinished with the fewest further letters after which the plan is allowed
#[derive(Clone, Copy)]
pub enum Verdict {
    Allowed,
    Unfinished(usize),
    Hopeless(usize),
}

// The plan has a letter that is not on the card: how many precede the first such letter.
#[derive(Clone, Copy, Debug, PartialEq, Eq)]
pub struct UnknownLetter {
    pub before: usize,
}

impl UnknownLetter {
    // The number of the refusal.
    pub const NUMBER: u8 = 27;
}

// How a walk ends: at the piece's end, or after some letters, in a dead state or before a letter that is not on the card.
#[derive(Clone, Copy)]
pub enum Walk {
    Done { state: usize },
    Dead { state: usize, taken: usize },
    Unknown { state: usize, taken: usize },
}

// Where the state s leads by the column i. The column's first place comes before the product, since only the product waits for the state before.
pub fn next(moves: &[u8], m: usize, s: usize, i: usize) -> usize
    requires { s * m + i < length moves.now }
    ensures { (result ≡ get_or moves.now (s * m + i) 0) × (result < 256) }
{
    let column = &moves[i..];
    column[s * m] as usize
}

// A run before the first letter.
pub fn start(card: &Card) -> Run
    ensures { Runs (bytes_of card.now) (states_in card.now) (run_start narrow (bytes_of card.now)) result }
{
    let dead = match card.mark(0) {
        Mark::Dead => Some(0),
        _ => None,
    };
    Run {
        state: 0,
        letters: 0,
        dead,
        unknown: None,
    }
}

// One piece more.
pub fn piece(card: &Card, run: Run, plan: &[u8]) -> Run
    requires { Underway (bytes_of card.now) (states_in card.now) run × (run.letters + length plan.now < 2 ^ 64) }
    ensures { Runs (bytes_of card.now) (states_in card.now) (run_on narrow (bytes_of card.now) (run_of run) plan.now) result }
{
    Walker::of(card).piece(run, plan)
}

// What a run says at the plan's end, where `owed` finds the letters owed of an unfinished state.
fn told<F: Fn(usize) -> usize>(card: &Card, run: Run, owed: F) -> Result<Verdict, UnknownLetter>
    requires underway { Underway (bytes_of card.now) (states_in card.now) run }
    requires callable { (q : ℕ) → q < states_in card.now → mark_at narrow (bytes_of card.now) q ≡ 0 → F.pre owed q }
    requires owes { (q r : ℕ) → q < states_in card.now → mark_at narrow (bytes_of card.now) q ≡ 0 → F.post owed q r → r ≡ owed_of narrow (bytes_of card.now) q }
    ensures { reply_of result ≡ run_reply narrow (bytes_of card.now) (run_of run) }
{
    let unknown = run.unknown;
    let dead = run.dead;
    let state = run.state;
    if let Some(before) = unknown {
        return Err(UnknownLetter { before });
    }
    if let Some(k) = dead {
        return Ok(Verdict::Hopeless(k));
    }
    match card.mark(state) {
        Mark::Accepting => Ok(Verdict::Allowed),
        _ => Ok(Verdict::Unfinished(owed(state))),
    }
}

// The answer of a run at the plan's end. Where the plan is unfinished the letters owed are searched for.
pub fn reply(card: &Card, run: Run) -> Result<Verdict, UnknownLetter>
    requires { Underway (bytes_of card.now) (states_in card.now) run }
    ensures { reply_of result ≡ run_reply narrow (bytes_of card.now) (run_of run) }
{
    told(card, run, |last| owed::owed(card, last))
}

// The same by the card's table of letters owed.
pub fn reply_by(card: &Card, owed: &[u16; 120], run: Run) -> Result<Verdict, UnknownLetter>
    requires { OwedTable (bytes_of card.now) (states_in card.now) owed.now × Underway (bytes_of card.now) (states_in card.now) run }
    ensures { reply_of result ≡ run_reply narrow (bytes_of card.now) (run_of run) }
{
    told(card, run, |last| owed[last] as usize)
}
