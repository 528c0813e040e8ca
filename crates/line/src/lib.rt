// One line of a book: it is read, its stages are made, and its machine is kept. These are parts: callers give a book in the making and buffers that are
// long enough.
#![tactic(auto)]

ghost use Rattle.std.specs.Prelude.{◌≡◌, ◌≢◌, ◌≤◌, ◌<◌, length};
ghost use Rattle.compiler.specs.Refusals.{reason_number};
ghost use Rattle.answers.specs.Scratch.{SameRoom};
ghost use Rattle.evaluate.specs.Steps.{number_of};
ghost use Rattle.evaluate.specs.declared.run.Failure.TheVariants.{Stuck};
ghost use Rattle.kept.specs.Stored.{Right, Shelves};
ghost use Rattle.line.specs.Line.{NotStuck, Finishes, Going, CompilesLine};

use answers::{Limits, Scratch, TooMany};
use compiler::{LineRefusal, Reason};
use evaluate::run;
use evaluate::run::Failure;
use operands::{Layout, Names};
use progress::{Book, Read};
use reader::line;

// The most sets that a stage may make, and the most states that a kept machine may have.
pub const SETS: usize = 512;

pub const STATES: usize = 120;

// Why the line stops the book, where its program runs to its end.
fn reason(failure: Failure) -> Reason
    requires { failure ≢ Stuck }
    ensures { reason_number result ≡ number_of failure }
{
    match failure {
        Failure::TooMany(TooMany::TooManySets) => Reason::TooManySets,
        Failure::TooMany(TooMany::TooManyStates) => Reason::TooManyStates,
        Failure::Stuck => unreachable!(),
    }
}

// What a line's program made is kept at the line's place, from the front of the stack, and the book goes on; or it stops.
fn finish(
    made: Result<usize, Failure>,
    read: Read,
    book: Book,
    stack: &[u8],
    low: &mut [u8],
    high: &mut [u8],
    registers: &mut [u8],
) -> Result<Book, LineRefusal>
    requires right { Right read.place × (book.line < 65536) }
    requires in_bounds { 3362 ≤ length stack.now }
    requires shelves { Shelves low.old high.old registers.old }
    requires stages { NotStuck made }
    ensures { Finishes read book stack.now low.old high.old registers.old low.new high.new registers.new result made }
{
    match made {
        Ok(peak) => {
            kept::keep(read.place, stack, low, high, registers);
            Ok(book.behind(read.place, read.next, peak))
        }
        Err(failure) => Err(LineRefusal {
            reason: reason(failure),
            line: book.line,
        }),
    }
}

// The line at the book's place.
pub fn one_line(
    text: &[u8],
    letters: &[u8],
    book: Book,
    low: &mut [u8],
    high: &mut [u8],
    registers: &mut [u8],
    stack: &mut [u8],
    scratch: &mut Scratch,
    code: &mut [u8],
) -> Result<Book, LineRefusal>
    requires going { Going text.now letters.now book low.old high.old registers.old stack.old scratch.old code.old }
    requires at_in_bounds { book.at < length text.now }
    ensures line { CompilesLine text.now letters.now book low.old high.old registers.old low.new high.new registers.new result }
    ensures room { SameRoom scratch.old scratch.new }
{
    let answer = line::read_line(text, book.at, letters, book.names, code);
    let read = progress::tell(answer, book.line)?;
    let l = Layout {
        limits: Limits {
            sets: SETS,
            states: STATES,
        },
        size: kept::SLOT,
    };
    let names = Names {
        low: &*low,
        high: &*high,
    };
    let made = run::run(
        &code[..read.len],
        l,
        letters,
        &names,
        registers,
        stack,
        scratch,
    );
    finish(made, read, book, &stack[..], low, high, registers)
}
