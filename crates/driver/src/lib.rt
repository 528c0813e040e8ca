// The compiler's entry: the lines of a book in order, their stages, and the card. It has no requires; all below it are its parts.
#![tactic(auto)]

ghost use Rattle.std.specs.Prelude.{length};
ghost use Rattle.automata.specs.Format.{narrow};
ghost use Rattle.compiler.specs.Outcome.{outcome};
ghost use Rattle.driver.specs.Entry.{documented, lent_lengths, Answers};

use answers::Scratch;
use compiler::{Compiled, Refusal};

// Compiles a book: its card, or why there is none; whatever the lent buffers held.
pub fn compile(
    text: &[u8],
    card: &mut [u8],
    low: &mut [u8],
    high: &mut [u8],
    registers: &mut [u8],
    stack: &mut [u8],
    rows: &mut [u8],
    table: &mut [u16],
    work: &mut [u16],
    code: &mut [u8],
) -> Result<Compiled, Refusal>
    ensures { Answers (outcome narrow documented text.now (lent_lengths low.old high.old registers.old stack.old rows.old table.old work.old code.old) (length card.old)) card.old card.new result }
{
    let lengths = [
        low.len(),
        high.len(),
        registers.len(),
        stack.len(),
        rows.len(),
        table.len(),
        work.len(),
        code.len(),
    ];
    let opened = frame::opening(text, &lengths)?;
    let letters = &text[opened.start..opened.end];
    let mut scratch = Scratch { rows, table, work };
    let peak = lines::lines(
        text,
        letters,
        opened.end + 1,
        low,
        high,
        registers,
        stack,
        &mut scratch,
        code,
    )?;
    frame::put_card(letters, peak, &registers[..], card)
}
