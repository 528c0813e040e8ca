// Many plans on one card: the lines of lent bytes, judged one after the other. The card is tested once, and its tables of columns and of letters owed are made
// once.
#![tactic(auto)]

ghost use Rattle.std.specs.Prelude.{Ok, ◌≡◌, ◌+◌, ◌≤◌, length};
ghost use Rattle.std.proofs.lemmas.List.Edits.{sets};
ghost use Rattle.automata.specs.Format.{narrow};
ghost use Rattle.card.specs.Answer.{reply_numbers};
ghost use Rattle.card.specs.Judge.{judge as judge_of};
ghost use Rattle.run.specs.Reading.{reply_of};
ghost use Rattle.run.specs.Cards.{bytes_of};
ghost use Rattle.plans.specs.Plans.{LineEnd};
ghost use Rattle.plans.specs.Many.{three, JudgesLines};

use loading::Fault;
use run::{Judge, UnknownLetter, Verdict};

// "A line ends with byte 0x0A"
const LINE_END: u8 = 10;

// How many plans were judged, and how many bytes they took.
#[derive(Clone, Copy, Debug, PartialEq, Eq)]
pub struct Judged {
    pub plans: usize,
    pub bytes: usize,
}

// The place of the first line end from `from` on, or the length.
pub fn line_end(bytes: &[u8], from: usize) -> usize
    requires { from ≤ length bytes.now }
    ensures { LineEnd bytes.now from result }
{
    octets::place_from(bytes, from, LINE_END)
}

// An answer's three numbers.
fn numbers(answer: Result<Verdict, UnknownLetter>) -> [u64; 3]
    ensures { result ≡ three (reply_numbers (reply_of answer)) }
{
    match answer {
        Ok(Verdict::Allowed) => [0, 1, 0],
        Ok(Verdict::Unfinished(owed)) => [0, 0, owed as u64],
        Ok(Verdict::Hopeless(k)) => [0, 2, k as u64],
        Err(letter) => [UnknownLetter::NUMBER as u64, 0, letter.before as u64],
    }
}

// An answer's numbers, from the place `at` on.
fn put(replies: &mut [u64], at: usize, answer: Result<Verdict, UnknownLetter>)
    requires { at + 3 ≤ length replies.old }
    ensures { replies.new ≡ sets replies.old at (three (reply_numbers (reply_of answer))) }
{
    replies[at..at + 3].copy_from_slice(&numbers(answer));
}

// The answer to a plan.
fn judge_line(judge: &Judge, plan: &[u8]) -> Result<Verdict, UnknownLetter>
    ensures { reply_of result ≡ judge_of narrow (bytes_of judge.now.walker.card) plan.now }
{
    let start = run::start(&judge.walker.card);
    let last = judge.walker.piece(start, plan);
    judge.reply(last)
}

// The plans on a card that was tested.
fn judge_each(judge: &Judge, plans: &[u8], replies: &mut [u64]) -> Judged
    ensures { JudgesLines (bytes_of judge.now.walker.card) plans.now replies.old replies.new (Ok result) }
{
    let mut count = 0;
    let mut at = 0;
    let mut from = 0;
    // Stays: no index is counted; a turn takes a line, as long as there is room for its numbers, so that a range over the bytes would be no plainer.
    while from < plans.len() {
        let room = replies.len() - at;
        if room < 3 {
            return Judged {
                plans: count,
                bytes: from,
            };
        }
        let end = line_end(plans, from);
        put(replies, at, judge_line(judge, &plans[from..end]));
        count += 1;
        at += 3;
        from = end;
        if end < plans.len() {
            from = end + 1;
        }
    }
    Judged {
        plans: count,
        bytes: from,
    }
}

// Judges as many plans as `replies` has room for, three numbers a plan.
pub fn judge_lines(bytes: &[u8], plans: &[u8], replies: &mut [u64]) -> Result<Judged, Fault>
    ensures { JudgesLines bytes.now plans.now replies.old replies.new result }
{
    let card = board::load(bytes)?;
    Ok(judge_each(&Judge::of(&card), plans, replies))
}
