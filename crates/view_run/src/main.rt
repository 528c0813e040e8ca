// Runs the view on the paper's first card: a view that judges plan after plan, a view whose counts are forged, and a card that is refused. A line for each
// answer.
#![tactic(auto)]

ghost use Rattle.std.specs.Prelude.{◌≡◌};
ghost use Rattle.automata.specs.Format.{narrow};
ghost use Rattle.card.specs.Judge.{judge as judge_of};
ghost use Rattle.board.specs.Answers.{reply_of};

use board::Refusal;
use fields::Counts;
use loading::Fault;
use run::Verdict;
use std::io;
use view::View;

// Two answers.
#[derive(Clone, Copy)]
struct Both {
    first: Result<Verdict, Refusal>,
    second: Result<Verdict, Refusal>,
}

fn together(first: Result<Verdict, Refusal>, second: Result<Verdict, Refusal>) -> Both
    ensures { (result.first ≡ first) × (result.second ≡ second) }
{
    Both { first, second }
}

// The card is loaded once, and the view judges one plan and then another.
fn several<'a, 'p, 'r>(card: &'a [u8], first: &'p [u8], second: &'r [u8]) -> Both
    ensures { (reply_of result.first ≡ judge_of narrow card.now first.now) × (reply_of result.second ≡ judge_of narrow card.now second.now) }
{
    let view = view::load(card);
    let one = view::judge(view, first);
    let other = view::judge(view, second);
    together(one, other)
}

// What stands in forged views: a refusal, and counts that no card has.
const FAULT: Result<Counts, Fault> = Err(Fault::EquivalentStates);

const COUNTS: Result<Counts, Fault> = Ok(Counts {
    letters: 9,
    states: 200,
});

// A view that was not loaded: what stands beside the bytes is not of them.
fn forged<'a, 'p>(
    card: &'a [u8],
    loaded: Result<Counts, Fault>,
    plan: &'p [u8],
) -> Result<Verdict, Refusal>
    ensures { reply_of result ≡ judge_of narrow card.now plan.now }
{
    view::judge(
        View {
            bytes: card,
            loaded,
        },
        plan,
    )
}

// The counts, or zeros, and the number of the refusal, or 0.
fn say_counts(rt: &impl Print, card: &[u8]) -> io::Result<()> {
    match view::counts(card) {
        Ok(counts) => {
            let letters = counts.letters;
            let states = counts.states;
            println!(rt; "letters {letters} states {states} number 0")
        }
        Err(fault) => {
            let number = fault.number();
            println!(rt; "letters 0 states 0 number {number}")
        }
    }
}

fn say_several(rt: &impl Print, card: &[u8], first: &[u8], second: &[u8]) -> io::Result<()> {
    let answers = several(card, first, second);
    let one = answers.first;
    let other = answers.second;
    printing::reply(rt, one)?;
    printing::reply(rt, other)
}

// The card of the book `:ab`, `>b / .*a _ .*`, with the given marks byte for state 0.
fn card(mark: u8) -> [u8; 23] {
    [
        12, 0, 2, 0, 14, 0, 3, 0, 17, 0, 6, 0, 97, 98, mark, 1, 2, 1, 2, 1, 0, 2, 2,
    ]
}

// The card is the paper's.
fn on_card(rt: &impl Print, card: &[u8]) -> io::Result<()> {
    let plan = b"ab";
    let longer = b"abb";
    say_counts(rt, card)?;
    say_several(rt, card, plan, longer)?;
    say_several(rt, card, b"b", b"abcb")?;
    printing::reply(rt, forged(card, COUNTS, plan))?;
    printing::reply(rt, forged(card, FAULT, longer))
}

// No card: each plan is refused with the card's number.
fn on_wrong(rt: &impl Print, card: &[u8]) -> io::Result<()> {
    let plan = b"ab";
    say_counts(rt, card)?;
    say_several(rt, card, plan, b"c")?;
    printing::reply(rt, forged(card, COUNTS, plan))
}

fn main(rt: HostRuntime) -> io::Result<()> {
    let good = card(1);
    on_card(&rt, &good)?;
    let wrong = card(2);
    on_wrong(&rt, &wrong)
}
