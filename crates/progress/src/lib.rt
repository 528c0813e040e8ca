// A book in the making, as far as it is no machine: where the next line starts and its number, the names defined so far, and the most sets that a
// stage made; and what the reader says of a line. These are parts: callers give a line's number that fits.

#![tactic(auto)]

ghost use Rattle.std.specs.Prelude.{◌≡◌};
ghost use Prim.Native.Nat.{◌<◌};
ghost use Rattle.kept.specs.Stored.{Right};
ghost use Rattle.progress.specs.Progress.{Follows, Behind, Starts, tell_of};

use book::refusal;
use compiler::{LineRefusal, Reason};
use forms::Code;
use kept::Place;
use reader::line::Line;
use reader::names::Names;

#[derive(Clone, Copy)]
pub struct Book {
    pub at: usize,
    pub line: usize,
    pub names: Names,
    pub peak: usize,
}

impl Book {
    // The book behind line 1, whose next line starts at a place.
    pub fn start(next: usize) -> Self
        ensures { Starts next result }
    {
        Book {
            at: next,
            line: 2,
            names: Names::none(),
            peak: 0,
        }
    }

    // The book behind a line, with the names behind it, and whose stages made at most so many sets.
    fn next_line(self, names: Names, next: usize, peak: usize) -> Self
        requires { self.line < 65536 }
        ensures { Follows self names next peak result }
    {
        Book {
            at: next,
            line: self.line + 1,
            names,
            peak: self.peak.max(peak),
        }
    }

    // The book behind a line, by the place of its machine.
    pub fn behind(self, place: Place, next: usize, peak: usize) -> Self
        requires { Right place × (self.line < 65536) }
        ensures { Behind place self next peak result }
    {
        let names = self.names;
        match place {
            Place::Name(name) => self.next_line(names.with(name), next, peak),
            Place::Book => self.next_line(names, next, peak),
        }
    }
}

// A line that was read: where its machine is kept, the length of its program and where the next line starts.
#[derive(Clone, Copy)]
pub struct Read {
    pub place: Place,
    pub len: usize,
    pub next: usize,
}

// What the reader says of the line of a number.
pub fn tell(answer: Result<Line, refusal::Refusal>, line: usize) -> Result<Read, LineRefusal>
    ensures { result ≡ tell_of answer line }
{
    match answer {
        Ok(read) => match read.code {
            Code::Define { name, length } => Ok(Read {
                place: Place::Name(name),
                len: length,
                next: read.next,
            }),
            Code::Rule { length } => Ok(Read {
                place: Place::Book,
                len: length,
                next: read.next,
            }),
        },
        Err(refusal) => Err(LineRefusal {
            reason: Reason::NotRead(refusal),
            line,
        }),
    }
}
