// What a stage over lent buffers answers: the types; the definitions and laws stand in specs/ and proofs/.
#![tactic(auto)]

// The most sets that a stage may make, and the most states that a kept machine may have.
#[derive(Clone, Copy)]
pub struct Limits {
    pub sets: usize,
    pub states: usize,
}

// What a stage works in: the sets' rows, their table, and the operands with the classes in their place.
#[derive(Drop)]
pub struct Scratch<'a> {
    pub rows: &'a mut [u8],
    pub table: &'a mut [u16],
    pub work: &'a mut [u16],
}

// How many sets a stage made, and how many states its machine has.
#[derive(Clone, Copy, PartialEq, Eq, Debug)]
pub struct Made {
    pub sets: usize,
    pub states: usize,
}

// Why a stage is refused: more sets than the limit, or else more states.
#[derive(Clone, Copy, PartialEq, Eq, Debug)]
pub enum TooMany {
    TooManySets,
    TooManyStates,
}

impl TooMany {
    ghost use Rattle.std.specs.Prelude.{◌≡◌};
    ghost use Rattle.answers.specs.Refusal.{refusal_of};

    // The number of the refusal.
    pub fn number(self) -> u8
        ensures { result ≡ refusal_of self }
    {
        match self {
            TooMany::TooManySets => 8,
            TooMany::TooManyStates => 9,
        }
    }
}
