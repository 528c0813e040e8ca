// Tests 22 to 26 of a card whose contents are right, in their order, and the number of each fault. Parts for the board, and no entries.
#![tactic(auto)]

mod numbering;

ghost use Rattle.std.specs.Prelude.{◌≡◌, ◌+◌, ◌<◌, ◌≤◌, ◌↔◌, ℕ, IsTrue, length, get_or, MatchResult};
ghost use Rattle.automata.specs.Format.{narrow};
ghost use Rattle.card.specs.Layout.{letters_of};
ghost use Rattle.card.specs.Alphabet.{Alphabet, alphabet_test};
ghost use Rattle.card.specs.Load.{CardInside, load_test};
ghost use Rattle.loading.specs.Faults.{fault_number};
ghost use Rattle.loading.specs.Inside.{InsideExactly};

use fields::Layout;

// Each letter is above the one before it.
fn rising(letters: &[u8]) -> bool
    ensures { IsTrue result ↔ ((i : ℕ) → i + 1 < length letters.now → get_or letters.now i 0 < get_or letters.now (i + 1) 0) }
{
    letters.windows(2).all(|pair| pair[0] < pair[1])
}

// Each letter is one of a to z.
fn lowercase(letters: &[u8]) -> bool
    ensures { IsTrue result ↔ ((i : ℕ) → i < length letters.now → (97 ≤ get_or letters.now i 0) × (get_or letters.now i 0 ≤ 122)) }
{
    letters.iter().all(|letter| letter.is_ascii_lowercase())
}

// Test 22: letters strictly rising, a to z.
fn alphabet(letters: &[u8]) -> bool
    ensures { result ≡ alphabet_test letters.now }
{
    rising(letters) && lowercase(letters)
}

// Test 23: each move is to a state below n.
fn inside(moves: &[u8], n: usize) -> bool
    ensures { InsideExactly n moves.now result }
{
    moves.iter().all(|target| (*target as usize) < n)
}

// Why a card does not load, in the order of the tests: its contents, its letters, a move past the states, states not numbered by first arrival, marks that
// are not those defined, two states that are equivalent.
#[derive(Clone, Copy, PartialEq, Eq, Debug)]
pub enum Fault {
    BadContents,
    BadAlphabet,
    TransitionOutOfRange,
    NotNumbered,
    WrongMarks,
    EquivalentStates,
}

impl Fault {
    // Its number, 21 to 26.
    pub fn number(self) -> u8
        ensures { result ≡ fault_number self }
    {
        match self {
            Fault::BadContents => 21,
            Fault::BadAlphabet => 22,
            Fault::TransitionOutOfRange => 23,
            Fault::NotNumbered => 24,
            Fault::WrongMarks => 25,
            Fault::EquivalentStates => 26,
        }
    }
}

// The first of the tests 24 to 26 that stops a card whose letters and moves are right.
fn states_tested(layout: &Layout) -> Result<(), Fault>
    requires letters { Alphabet (letters_of narrow layout.now.bytes.now) }
    requires moves { CardInside narrow layout.now.bytes.now }
    ensures { MatchResult result (λ _. load_test narrow layout.now.bytes.now ≡ 0) (λ fault. load_test narrow layout.now.bytes.now ≡ fault_number fault) }
{
    let states = layout.states();
    if !numbering::numbered(states) {
        return Err(Fault::NotNumbered);
    }
    if !live::marked(states) {
        return Err(Fault::WrongMarks);
    }
    if !partition::reduced(states) {
        return Err(Fault::EquivalentStates);
    }
    Ok(())
}

// The first of the tests 22 to 26 that stops the card.
pub fn tested(layout: &Layout) -> Result<(), Fault>
    ensures { MatchResult result (λ _. load_test narrow layout.now.bytes.now ≡ 0) (λ fault. load_test narrow layout.now.bytes.now ≡ fault_number fault) }
{
    if !alphabet(layout.letters()) {
        return Err(Fault::BadAlphabet);
    }
    if !inside(layout.moves(), layout.counts.states) {
        return Err(Fault::TransitionOutOfRange);
    }
    states_tested(layout)
}
