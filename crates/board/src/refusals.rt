// What stops a plan or a step.
ghost use Rattle.std.specs.Prelude.{◌≡◌};
ghost use Rattle.board.specs.declared.refusals.Refusal.TheVariants as refusal;
ghost use Rattle.board.specs.declared.refusals.StepRefusal.TheVariants as step_refusal;
ghost use Rattle.board.specs.Refusals.{refusal_number, refusal_before, step_refusal_number};

use loading::Fault;
use run::UnknownLetter;

// What stops an answer about a plan: the card, or a letter of the plan.
#[derive(Clone, Copy, Debug, PartialEq, Eq)]
pub enum Refusal {
    Card(Fault),
    Letter(UnknownLetter),
}

impl Refusal {
    // The number of the refusal, 21 to 27.
    pub fn number(self) -> u8
        ensures { result ≡ refusal_number self }
    {
        match self {
            Self::Card(fault) => fault.number(),
            Self::Letter(_) => UnknownLetter::NUMBER,
        }
    }

    // How many letters precede the first that is not on the card, or 0 where it is the card that is refused.
    pub fn before(self) -> usize
        ensures { result ≡ refusal_before self }
    {
        match self {
            Self::Card(_) => 0,
            Self::Letter(letter) => letter.before,
        }
    }
}

impl From<Fault> for Refusal {
    ghost from_gives = { λ fault refused. refused ≡ refusal.Card fault };

    fn from(fault: Fault) -> Refusal {
        Refusal::Card(fault)
    }
}

impl From<UnknownLetter> for Refusal {
    ghost from_gives = { λ letter refused. refused ≡ refusal.Letter letter };

    fn from(letter: UnknownLetter) -> Refusal {
        Refusal::Letter(letter)
    }
}

// What stops one step: the card, the letter or the state.
#[derive(Clone, Copy, Debug, PartialEq, Eq)]
pub enum StepRefusal {
    Card(Fault),
    UnknownLetter,
    StateOutOfRange,
}

impl StepRefusal {
    // The number of the refusal, 21 to 28.
    pub fn number(self) -> u8
        ensures { result ≡ step_refusal_number self }
    {
        match self {
            Self::Card(fault) => fault.number(),
            Self::UnknownLetter => UnknownLetter::NUMBER,
            Self::StateOutOfRange => 28,
        }
    }
}

impl From<Fault> for StepRefusal {
    ghost from_gives = { λ fault refused. refused ≡ step_refusal.Card fault };

    fn from(fault: Fault) -> StepRefusal {
        StepRefusal::Card(fault)
    }
}
