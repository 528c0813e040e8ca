// What each code of a line's program asks for.
#![tactic(auto)]

ghost use Rattle.std.specs.Prelude.{◌≡◌};
ghost use Rattle.codes.specs.Codes.{Leafless, Sorted, index_of};

use book::codes::{
    ALL_CODE, BOTH_CODE, COMPLEMENT_CODE, DOT_CODE, EITHER_CODE, EMPTY_CODE, ERASE_CODE, JOIN_CODE,
    MARK_CODE, MEET_CODE, OPTION_CODE, PATTERN_CODE, PLUS_CODE, RIGHT_CODE, STAR_CODE,
    STORE_PATTERN_CODE, STORE_RIGHT_CODE, WITHOUT_CODE,
};
use sets::Operation;

// The machines that no stage makes: `@`, `.*`, `.` and the mark.
#[derive(Clone, Copy, Debug, PartialEq, Eq)]
pub enum Given {
    Empty,
    All,
    Dot,
    Mark,
}

// The registers: the book so far, the pattern, the right side.
#[derive(Clone, Copy, Debug, PartialEq, Eq)]
pub enum Register {
    Book,
    Pattern,
    Right,
}

impl Register {
    // Its place among the registers.
    pub fn index(self) -> usize
        ensures { result ≡ index_of self }
    {
        self as usize
    }
}

// Where an operand comes from: a letter and a name by their bytes, a given machine, a register.
#[derive(Clone, Copy)]
pub enum Source {
    Letter(u8),
    Name(u8),
    Given(Given),
    Register(Register),
}

// A code pushes an operand; or has an operation on machines of the stack, or on an operand and the top; or makes `A+`; or stores the top in a register.
#[derive(Clone, Copy)]
pub enum Sort {
    Push(Source),
    Top(Operation),
    Beside {
        operation: Operation,
        operand: Source,
    },
    Plus,
    Store(Register),
}

// The signs and the codes that no sign has.
fn sign(c: u8) -> Option<Sort>
    requires { Leafless c }
    ensures { Sorted c result }
{
    match c {
        DOT_CODE => Some(Sort::Push(Source::Given(Given::Dot))),
        EMPTY_CODE => Some(Sort::Push(Source::Given(Given::Empty))),
        ALL_CODE => Some(Sort::Push(Source::Given(Given::All))),
        MARK_CODE => Some(Sort::Push(Source::Given(Given::Mark))),
        PATTERN_CODE => Some(Sort::Push(Source::Register(Register::Pattern))),
        RIGHT_CODE => Some(Sort::Push(Source::Register(Register::Right))),
        EITHER_CODE => Some(Sort::Top(Operation::Either)),
        BOTH_CODE => Some(Sort::Top(Operation::Both)),
        WITHOUT_CODE => Some(Sort::Top(Operation::Without)),
        JOIN_CODE => Some(Sort::Top(Operation::Join)),
        STAR_CODE => Some(Sort::Top(Operation::Star)),
        ERASE_CODE => Some(Sort::Top(Operation::Erase)),
        OPTION_CODE => Some(Sort::Beside {
            operation: Operation::Either,
            operand: Source::Given(Given::Empty),
        }),
        COMPLEMENT_CODE => Some(Sort::Beside {
            operation: Operation::Without,
            operand: Source::Given(Given::All),
        }),
        MEET_CODE => Some(Sort::Beside {
            operation: Operation::Both,
            operand: Source::Register(Register::Book),
        }),
        PLUS_CODE => Some(Sort::Plus),
        STORE_PATTERN_CODE => Some(Sort::Store(Register::Pattern)),
        STORE_RIGHT_CODE => Some(Sort::Store(Register::Right)),
        _ => None,
    }
}

// What a code asks for; nothing, if it is no code.
pub fn sort_of(c: u8) -> Option<Sort>
    ensures { Sorted c result }
{
    match c {
        b'a'..=b'z' => Some(Sort::Push(Source::Letter(c))),
        b'A'..=b'Z' => Some(Sort::Push(Source::Name(c))),
        _ => sign(c),
    }
}
