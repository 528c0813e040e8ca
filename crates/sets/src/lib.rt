// The sets of an operation on two machines as rows of bytes, an automaton of rows for each operation, as definitions and laws; the operations, an
// operation's operands, and its shape.
#![tactic(auto)]

pub mod operands;

ghost use Rattle.std.specs.Prelude.{◌≡◌};
ghost use Rattle.sets.specs.Operations.{operation_of, is_pairing, operands_of, numbered};

// `|`, `&`, `-`, concatenation, star and erase.
#[derive(Clone, Copy, PartialEq, Eq)]
pub enum Operation {
    Either,
    Both,
    Without,
    Join,
    Star,
    Erase,
}

// By its number: 0 `|`, 1 `&`, 2 `-`, 3 concatenation, 4 star, 5 and above erase.
impl From<u8> for Operation {
    ghost from_gives = { λ number r. r ≡ numbered number };

    fn from(number: u8) -> Operation {
        match number {
            0 => Operation::Either,
            1 => Operation::Both,
            2 => Operation::Without,
            3 => Operation::Join,
            4 => Operation::Star,
            _ => Operation::Erase,
        }
    }
}

// The operation, for each operand its number of states, and the bytes of a row: all that reading a row takes.
#[derive(Clone, Copy)]
pub struct Shape {
    pub op: Operation,
    pub left: usize,
    pub right: usize,
    pub width: usize,
}

impl Operation {
    // Whether the sets are pairs of states.
    pub fn is_pair(self) -> bool
        ensures { result ≡ is_pairing (operation_of self) }
    {
        match self {
            Operation::Either | Operation::Both | Operation::Without => true,
            Operation::Join | Operation::Star | Operation::Erase => false,
        }
    }

    // How many machines it is of.
    pub fn operands(self) -> usize
        ensures { result ≡ operands_of self }
    {
        match self {
            Operation::Star | Operation::Erase => 1,
            Operation::Either | Operation::Both | Operation::Without | Operation::Join => 2,
        }
    }
}
