// The board: it knows a card's layout and nothing else, and is lent no work buffer. Its entries ask nothing of the caller: they answer every row of
// bytes, state, letter and plan.
#![tactic(auto)]

pub mod refusals;

ghost use Rattle.std.specs.Prelude.{◌≡◌, ◌<◌, IfOk, Ok};
ghost use Rattle.automata.specs.Format.{narrow};
ghost use Rattle.card.specs.Answer.{load as load_of};
ghost use Rattle.card.specs.Judge.{judge as judge_of};
ghost use Rattle.card.specs.Step.{landing as landing_of, step_on};
ghost use Rattle.run.specs.Cards.{bytes_of, states_in};
ghost use Rattle.board.specs.Answers.{loading, counting, reply_of, stepping};

use fields::{Counts, Layout};
use loading::Fault;
use moves::Mark;
pub use refusals::{Refusal, StepRefusal};
use run::{Card, Verdict};

// Tests a card: 21 to 26, in their order.
pub fn load(bytes: &[u8]) -> Result<Card<'_>, Fault>
    ensures loads { loading result ≡ load_of narrow bytes.now }
    ensures same { IfOk result (λ card. bytes_of card ≡ bytes.now) }
{
    let Some(layout) = Layout::of(bytes) else {
        return Err(Fault::BadContents);
    };
    loading::tested(&layout)?;
    Ok(Card { layout })
}

// The counts of a card that loads.
pub fn counts(bytes: &[u8]) -> Result<Counts, Fault>
    ensures { counting result ≡ load_of narrow bytes.now }
{
    let card = load(bytes)?;
    Ok(card.layout.counts)
}

// Where a step lands: the next state, by its mark; and, where it is unfinished, the fewest further letters.
#[derive(Clone, Copy, Debug, PartialEq, Eq)]
pub enum Stepped {
    Owing { next: usize, letters: usize },
    Accepting { next: usize },
    Dead { next: usize },
}

// Where a step to a state lands.
fn landing(card: &Card, next: usize) -> Stepped
    requires { next < states_in card.now }
    ensures { stepping (Ok result) ≡ landing_of narrow (bytes_of card.now) next }
{
    match card.mark(next) {
        Mark::Unfinished => Stepped::Owing {
            next,
            letters: run::owed::owed(card, next),
        },
        Mark::Accepting => Stepped::Accepting { next },
        Mark::Dead => Stepped::Dead { next },
    }
}

// One step on a card that was tested: 27, then 28.
fn step_on(card: &Card, state: usize, letter: u8) -> Result<Stepped, StepRefusal>
    ensures { stepping result ≡ step_on narrow (bytes_of card.now) state letter }
{
    let m = card.layout.counts.letters;
    let n = card.layout.counts.states;
    let i = octets::place(card.layout.letters(), letter);
    if m <= i {
        return Err(StepRefusal::UnknownLetter);
    }
    if n <= state {
        return Err(StepRefusal::StateOutOfRange);
    }
    let next = run::next(card.layout.moves(), m, state, i);
    Ok(landing(card, next))
}

// One step on any bytes: the card is tested 21 to 26, then the letter and the state. It costs a load, so that nothing walks a plan by it.
pub fn step(bytes: &[u8], state: usize, letter: u8) -> Result<Stepped, StepRefusal>
    ensures { stepping result ≡ step_on narrow bytes.now state letter }
{
    let card = load(bytes)?;
    step_on(&card, state, letter)
}

// Judges a plan: the card is tested, then all letters, then the plan.
pub fn judge(bytes: &[u8], plan: &[u8]) -> Result<Verdict, Refusal>
    ensures { reply_of result ≡ judge_of narrow bytes.now plan.now }
{
    let card = load(bytes)?;
    let run = run::piece(&card, run::start(&card), plan);
    let verdict = run::reply(&card, run)?;
    Ok(verdict)
}
