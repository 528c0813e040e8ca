// A loaded card as a view of the caller's bytes: the slice, and beside it what loading answers. Every function asks nothing of the caller.
#![tactic(auto)]

ghost use Rattle.std.specs.Prelude.{◌≡◌};
ghost use Rattle.automata.specs.Format.{narrow};
ghost use Rattle.card.specs.Answer.{load as load_of, load_numbers};
ghost use Rattle.card.specs.Judge.{judge as judge_of};
ghost use Rattle.board.specs.Answers.{reply_of};
ghost use Rattle.view.specs.Numbers.{numbers_of, view_numbers};

use board::Refusal;
use fields::Counts;
use loading::Fault;
use run::Verdict;

// The caller's bytes, and what loading answers of them.
#[derive(Clone, Copy)]
pub struct View<'a> {
    pub bytes: &'a [u8],
    pub loaded: Result<Counts, Fault>,
}

// The work of loading, over the plain slice.
pub fn counts(bytes: &[u8]) -> Result<Counts, Fault>
    ensures { numbers_of result ≡ load_numbers (load_of narrow bytes.now) }
{
    board::counts(bytes)
}

// The caller's bytes stay where they are: the view holds them as they were lent.
pub fn load<'a>(bytes: &'a [u8]) -> View<'a>
    ensures { (result.bytes ≡ bytes.entry) × (view_numbers result ≡ load_numbers (load_of narrow bytes.now)) }
{
    let loaded = counts(bytes);
    View { bytes, loaded }
}

// Judges a plan by the view's bytes, whatever stands beside them: the card is tested, then all letters, then the plan.
pub fn judge<'a, 'p>(view: View<'a>, plan: &'p [u8]) -> Result<Verdict, Refusal>
    ensures { reply_of result ≡ judge_of narrow view.entry.bytes.now plan.now }
{
    board::judge(view.bytes, plan)
}

// The same on plain parameters, by a view made here: a caller of it holds no view.
pub fn judge_card<'a, 'p>(bytes: &'a [u8], plan: &'p [u8]) -> Result<Verdict, Refusal>
    ensures { reply_of result ≡ judge_of narrow bytes.now plan.now }
{
    judge(load(bytes), plan)
}
