// The lines of a book in their order, behind line 1. This is a part: its caller gives the letters of line 1 and buffers that are long enough.
#![tactic(auto)]

ghost use Rattle.answers.specs.Scratch.{SameRoom};
ghost use Rattle.compiler.specs.Rest.{Placed};
ghost use Rattle.lines.specs.Lines.{Lent, CompilesLines};

use answers::Scratch;
use compiler::LineRefusal;
use progress::Book;

// Compiles the lines from line 2 on, which starts at a place. The machine of the book is left in the first register; the most sets that a stage made.
// Stays: `low` and `high` beside each other: the borrow checker does not cover a function that lends both fields of a `&mut` struct to be read, and the struct again to be written.
// The registers, the stack and the code too: one is read while another is written, and two fields of one lent struct are not proved so.
pub fn lines(
    text: &[u8],
    letters: &[u8],
    next: usize,
    low: &mut [u8],
    high: &mut [u8],
    registers: &mut [u8],
    stack: &mut [u8],
    scratch: &mut Scratch,
    code: &mut [u8],
) -> Result<usize, LineRefusal>
    requires placed { Placed text.now letters.now next }
    requires lent { Lent low.old high.old registers.old stack.old scratch.old code.old }
    ensures compiled { CompilesLines text.now letters.now next registers.new result }
    ensures room { SameRoom scratch.old scratch.new }
{
    kept::begin(letters.len(), registers, stack);
    let mut book = Book::start(next);
    // Stays: where a line ends tells where the next begins, no index is counted.
    while book.at < text.len() {
        book = line::one_line(
            text, letters, book, low, high, registers, stack, scratch, code,
        )?;
    }
    Ok(book.peak)
}
