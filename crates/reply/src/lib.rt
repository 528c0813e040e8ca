// An answer as a line of text. This is a part: its caller gives a place with room for the longest line.
#![tactic(auto)]

ghost use Rattle.std.specs.Prelude.{◌+◌, ◌≤◌, length};
ghost use Rattle.reply.specs.Text.{PutNumbered, PutLine, longest};

use board::Refusal;
use run::Verdict;

// No line of an answer is longer.
pub const LONGEST: usize = 32;

// A word, a number and the line's end, from the place `at` on. The next place.
// Stays: a format promises its text only of a write that gives Ok, and a line that has room is always written.
// Within its caller the word's length is known, so that it is put by a few moves and no call.
#[inline(always)]
fn numbered(out: &mut [u8], at: usize, word: &[u8], number: usize) -> usize
    requires { at + (length word.now + 21) ≤ length out.old }
    ensures { PutNumbered out.old at word.now number out.new result }
{
    let next = stream::put(out, at, word);
    let last = stream::put_number(out, next, number);
    stream::put(out, last, b"\n")
}

// The line of an answer, its end included, from the place `at` on. The next place.
pub fn line(out: &mut [u8], at: usize, answer: Result<Verdict, Refusal>) -> usize
    requires { at + longest ≤ length out.old }
    ensures { PutLine out.old at answer out.new result }
{
    match answer {
        Ok(Verdict::Allowed) => stream::put(out, at, b"allowed\n"),
        Ok(Verdict::Unfinished(owed)) => numbered(out, at, b"unfinished ", owed),
        Ok(Verdict::Hopeless(k)) => numbered(out, at, b"hopeless ", k),
        Err(refusal) => numbered(out, at, b"refused ", refusal.number() as usize),
    }
}
