// Why a line of a book is refused.
ghost use Rattle.std.specs.Prelude.{◌≡◌};
ghost use Rattle.book.specs.Refusals.{refusal_number};

#[derive(Clone, Copy, Debug, PartialEq, Eq)]
pub enum Refusal {
    NestingTooDeep,
    TooManyContexts,
    MalformedLine,
    UndefinedSymbol,
    DuplicateName,
}

impl Refusal {
    // Its number.
    pub fn number(self) -> u8
        ensures { result ≡ refusal_number self }
    {
        match self {
            Refusal::NestingTooDeep => 3,
            Refusal::TooManyContexts => 4,
            Refusal::MalformedLine => 5,
            Refusal::UndefinedSymbol => 6,
            Refusal::DuplicateName => 7,
        }
    }
}
