// The second half of the whole way: just the card's bytes are handed to the board, which loads them and judges a plan, each by the real entry. A part: the
// caller's answer has a card that is within its buffer.
#![tactic(auto)]

ghost use Rattle.std.specs.Prelude.{◌≡◌};
ghost use Rattle.automata.specs.Format.{narrow};
ghost use Rattle.card.specs.Answer.{load};
ghost use Rattle.card.specs.Judge.{judge};
ghost use Rattle.handing.specs.Answers.{on_board, board_says, delivery};
ghost use Rattle.handing.specs.Handing.{Within, handed};

use board::Refusal;
use compiler::{Compiled, Refusal as BookRefusal};
use fields::Counts;
use loading::Fault;
use run::Verdict;

// What the board answers on a card that loads and a plan: the card's letters and states, and the answer of judging.
#[derive(Clone, Copy)]
pub struct OnCard {
    pub counts: Counts,
    pub answer: Result<Verdict, Refusal>,
}

// What compiling gives, with what the board answers on the card.
#[derive(Clone, Copy)]
pub struct Delivered {
    pub compiled: Compiled,
    pub board: Result<OnCard, Fault>,
}

// The board's part: the card is loaded, and the plan is judged.
fn load_and_judge(bytes: &[u8], plan: &[u8]) -> Result<OnCard, Fault>
    ensures { on_board result ≡ board_says (load narrow bytes.now) (judge narrow bytes.now plan.now) }
{
    let card = board::load(bytes)?;
    let counts = card.layout.counts;
    Ok(OnCard {
        counts,
        answer: board::judge(bytes, plan),
    })
}

// The board is handed the card buffer's bytes up to the card's length, and no others.
pub fn hand_over(
    answer: Result<Compiled, BookRefusal>,
    card: &[u8],
    plan: &[u8],
) -> Result<Delivered, BookRefusal>
    requires { Within answer card.now }
    ensures { delivery result ≡ handed answer card.now plan.now }
{
    let compiled = answer?;
    let board = load_and_judge(&card[..compiled.length], plan);
    Ok(Delivered { compiled, board })
}
