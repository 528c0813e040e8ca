// The letters, marks and moves of a card whose contents are right.
ghost use Rattle.std.specs.Prelude.{◌≡◌, IfSome, option_map};
ghost use Rattle.automata.specs.Format.{narrow};
ghost use Rattle.card.specs.Layout.{letters_of, marks_of, moves_of};
ghost use Rattle.card.specs.Load.{CardInside};
ghost use Rattle.fields.specs.Counts.{Counted, counts_of};

use crate::Counts;
use moves::States;

// A card whose contents are right, and the counts that they give.
#[derive(Clone, Copy)]
pub struct Layout<'a> {
    pub bytes: &'a [u8],
    pub counts: Counts,
    pub ghost right: { Counted narrow bytes.now counts.letters counts.states },
}

impl<'a> Layout<'a> {
    // The parts of these bytes, where their contents are right.
    pub fn of(bytes: &'a [u8]) -> Option<Layout<'a>>
        ensures counts { option_map (λ l. l.counts) result ≡ counts_of narrow bytes.now }
        ensures bytes { IfSome result (λ l. l.bytes.now ≡ bytes.now) }
    {
        let counts = crate::contents(bytes)?;
        Some(Layout { bytes, counts })
    }

    // The letters.
    pub fn letters(&self) -> &'a [u8]
        ensures { result.now ≡ letters_of narrow self.now.bytes.now }
    {
        let start = 12;
        let end = 12 + self.counts.letters;
        &self.bytes[start..end]
    }

    // The marks bytes, one a state.
    pub fn marks(&self) -> &'a [u8]
        ensures { result.now ≡ marks_of narrow self.now.bytes.now }
    {
        let start = 12 + self.counts.letters;
        let end = start + self.counts.states;
        &self.bytes[start..end]
    }

    // The moves, state by state, letter by letter.
    pub fn moves(&self) -> &'a [u8]
        ensures { result.now ≡ moves_of narrow self.now.bytes.now }
    {
        let start = 12 + self.counts.letters + self.counts.states;
        &self.bytes[start..]
    }

    // The table of moves, where each move is to a state.
    pub fn states(&self) -> States<'a>
        requires { CardInside narrow self.now.bytes.now }
        ensures marks { result.marks.now ≡ marks_of narrow self.now.bytes.now }
        ensures moves { result.moves.now ≡ moves_of narrow self.now.bytes.now }
        ensures letters { result.letters ≡ self.now.counts.letters }
    {
        States {
            marks: self.marks(),
            moves: self.moves(),
            letters: self.counts.letters,
        }
    }
}
