// Read after read: the bytes are taken in, and the lines of the plans that ended in them are written.
ghost use Rattle.std.specs.Prelude.{◌≡◌, List, ℕ, ◌≤◌, length, IfOk};
ghost use Rattle.std.specs.Io.KnownBytes.{Appends};
ghost use Rattle.reply.specs.Text.{longest, reply_lines};
ghost use Rattle.plans.specs.Plans.{ended};
ghost use Rattle.judging.specs.Lines.{Counted, Since};
ghost use Rattle.judge.specs.Lines.{Wrote, Replies};

use judging::{State, Tested, feed};
use std::io;
use std::io::{Read, Write};
use stream::Failure;

// The most reads, of 65,536 bytes each: so a plan's letters can be counted.
const READS: u64 = 140737488355328;

// How judging ended: at the input's end, or after the most reads.
#[derive(Clone, Copy, PartialEq, Eq)]
pub enum Ending {
    Whole,
    TooLong,
}

// Takes in all bytes of a read, and writes their answers.
fn answer_all<W: Write>(
    tested: &Tested,
    state: State,
    bytes: &[u8],
    out: &mut [u8],
    output: &mut W,
) -> io::Result<State>
    requires { Counted tested.now.bytes.now state (length bytes.now) × (longest ≤ length out.old) }
    ensures wrote { IfOk result (Wrote tested.now.bytes.now state bytes.now) }
    ensures text { IfOk result (λ s. (u : List ℕ) → Since tested.now.bytes.now u state
        → Appends (W.contents output.old) (W.contents output.new) (reply_lines tested.now.bytes.now (ended u bytes.now))) }
{
    let mut state = state;
    let mut from = 0;
    // Stays: a piece takes in as many bytes as there is room to answer, so that no range tells the steps.
    while from < bytes.len() {
        let fed = feed(tested, state, &bytes[from..], out);
        state = fed.state;
        let used = fed.used;
        let at = fed.at;
        output.write_all(&out[..at])?;
        from += used;
    }
    Ok(state)
}

// All plans, and their answers. What is ready is written before the next read; a read that fails is not the end of the input.
pub fn judge_all<R: Read, W: Write>(
    input: &mut R,
    output: &mut W,
    card: &[u8],
) -> Result<Ending, Failure>
    ensures { Replies card.now (R.remaining input.old) (R.remaining input.new) (W.contents output.old) (W.contents output.new) result }
{
    let mut bytes = [0u8; 65536];
    let mut out = [0u8; 65536];
    let tested = Tested::of(card);
    let mut state = tested.start();
    for _ in 0..READS {
        let Ok(n) = input.read(&mut bytes) else {
            return Err(Failure::NotRead);
        };
        if n == 0 {
            let last = tested.finish(state, &mut out);
            let Ok(()) = output.write_all(&out[..last]) else {
                return Err(Failure::NotWritten);
            };
            return Ok(Ending::Whole);
        }
        let Ok(next) = answer_all(&tested, state, &bytes[..n], &mut out, output) else {
            return Err(Failure::NotWritten);
        };
        state = next;
    }
    Ok(Ending::TooLong)
}
