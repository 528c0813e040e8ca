// What stops counting.
ghost use Rattle.std.specs.Prelude.{◌≡◌};
ghost use Rattle.counting.specs.declared.refusals.Refusal.TheVariants as refusal;
ghost use Rattle.counting.specs.Refusals.{refusal_number};

use loading::Fault;

// The card does not load, or its plans are "past counting".
#[derive(Clone, Copy, Debug, PartialEq, Eq)]
pub enum Refusal {
    Card(Fault),
    CountTooLarge,
}

impl Refusal {
    // The number of the refusal: 21 to 26, or 31.
    pub fn number(self) -> u8
        ensures { result ≡ refusal_number self }
    {
        match self {
            Self::Card(fault) => fault.number(),
            Self::CountTooLarge => 31,
        }
    }
}

impl From<Fault> for Refusal {
    ghost from_gives = { λ fault refused. refused ≡ refusal.Card fault };

    fn from(fault: Fault) -> Refusal {
        Refusal::Card(fault)
    }
}
