// What stands before a book's lines and behind them: the lengths of the text and the lent buffers, line 1, and the card. Parts of the compiler's entry: callers
// give a slot that holds the book's machine.

#![tactic(auto)]

ghost use Rattle.std.specs.List.{list_all, zip};
ghost use Rattle.std.specs.Prelude.{◌≡◌, ◌≤◌, leb, length};
ghost use Rattle.frame.specs.Frame.{Writable, PutsCard, Heads, Opens};

use compiler::{Compiled, LineRefusal, Reason, Refusal};
use numbering::kept::KeptMachine;
use octets::number;
use scans::{ends, head};

// The lengths that the lent buffers need: bytes, and for `table` and `work` 16-bit numbers.
pub const NAMES: usize = 43706;

pub const REGISTERS: usize = 10086;

pub const STACK: usize = 63878;

pub const ROWS: usize = 62464;

pub const TABLE: usize = 14336;

pub const WORK: usize = 6720;

pub const CODE: usize = 32832;

// The longest text, in bytes.
pub const TEXT: usize = 16384;

// The documented lengths, in the order of the entry's parameters: the names A to M and N to Z, then the others.
const DOCUMENTED: [usize; 8] = [NAMES, NAMES, REGISTERS, STACK, ROWS, TABLE, WORK, CODE];

// No length is below the least one for it.
fn long_enough(least: &[usize; 8], lengths: &[usize; 8]) -> bool
    ensures { result ≡ list_all (λ x. leb x.0 x.1) (zip least.now lengths.now) }
{
    least
        .iter()
        .zip(lengths)
        .all(|(least, length)| *least <= *length)
}

// The card of the machine in a slot.
pub fn put_card(
    letters: &[u8],
    peak: usize,
    slot: &[u8],
    card: &mut [u8],
) -> Result<Compiled, Refusal>
    requires { Writable letters.now slot.now }
    ensures { PutsCard letters.now slot.now peak card.old card.new result }
{
    let machine = KeptMachine {
        bytes: &slot[2..],
        states: number::read(slot, 0),
        letters: letters.len(),
    };
    let length = writer::write(&machine, letters, card).ok_or(Refusal::OutputTooShort)?;
    Ok(Compiled { length, peak })
}

// Where the letters of line 1 start and end. A text of no bytes has no letters, and no line behind them.
#[derive(Clone, Copy, Debug, PartialEq, Eq)]
pub struct Opened {
    pub start: usize,
    pub end: usize,
}

// Line 1.
fn first_line(text: &[u8]) -> Result<Opened, LineRefusal>
    requires { length text.now ≤ 16384 }
    ensures { Heads text.now result }
{
    if text.len() == 0 {
        return Ok(Opened { start: 0, end: 0 });
    }
    let end = ends::line_end(text, 0);
    let ended = end < text.len();
    match head::read_head(&text[0..end], ended) {
        Ok(_letters) => Ok(Opened { start: 1, end }),
        Err(refusal) => Err(LineRefusal {
            reason: Reason::NotRead(refusal),
            line: 1,
        }),
    }
}

// The lengths of the text and the lent buffers, then line 1.
pub fn opening(text: &[u8], lengths: &[usize; 8]) -> Result<Opened, Refusal>
    ensures { Opens text.now lengths.now result }
{
    if TEXT < text.len() {
        return Err(Refusal::TextTooLong);
    }
    if !long_enough(&DOCUMENTED, lengths) {
        return Err(Refusal::BufferTooShort);
    }
    Ok(first_line(text)?)
}
