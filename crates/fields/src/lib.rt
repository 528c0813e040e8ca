// The parts of a card's bytes: the counts of its contents, and, where these are right, its letters, marks and moves. No judgement but that of the contents.
#![tactic(auto)]

pub mod parts;

ghost use Rattle.std.specs.Prelude.{◌≡◌};
ghost use Rattle.automata.specs.Format.{narrow};
ghost use Rattle.fields.specs.Counts.{counts_of};

use octets::number;
pub use parts::Layout;

// How many letters and how many states the contents give.
#[derive(Clone, Copy, Debug, PartialEq, Eq)]
pub struct Counts {
    pub letters: usize,
    pub states: usize,
}

// Offsets and lengths are those of m letters and n states, 0 to 26 and 1 to 120, and nothing follows.
pub fn contents(card: &[u8]) -> Option<Counts>
    ensures { result ≡ counts_of narrow card.now }
{
    if card.len() < 12 {
        return None;
    }
    let m = number::read(card, 2);
    let n = number::read(card, 6);
    if 26 < m {
        return None;
    }
    if n < 1 {
        return None;
    }
    if 120 < n {
        return None;
    }
    if number::read(card, 0) != 12 {
        return None;
    }
    if number::read(card, 4) != 12 + m {
        return None;
    }
    if number::read(card, 8) != 12 + m + n {
        return None;
    }
    if number::read(card, 10) != n * m {
        return None;
    }
    if card.len() != 12 + m + n + n * m {
        return None;
    }
    Some(Counts {
        letters: m,
        states: n,
    })
}
