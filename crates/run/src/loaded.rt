// A card that loads.
ghost use Rattle.std.specs.Prelude.{◌≡◌};
ghost use Rattle.automata.specs.Format.{narrow};
ghost use Rattle.card.specs.Load.{load_test};

use fields::Layout;
use moves::{Mark, States};

// The parts of a card that passes all its tests: what one load establishes.
#[derive(Clone, Copy)]
pub struct Card<'a> {
    pub layout: Layout<'a>,
    pub ghost loads: { load_test narrow layout.bytes.now ≡ 0 },
}

impl<'a> Card<'a> {
    ghost use Rattle.std.specs.Prelude.{◌≡◌, ◌<◌};
    ghost use Rattle.automata.specs.Format.{narrow};
    ghost use Rattle.card.specs.Layout.{marks_of, moves_of, mark_at};
    ghost use Rattle.run.specs.Cards.{bytes_of, letters_in, states_in};
    ghost use Rattle.moves.specs.Marks.{mark_byte};

    // Its table of moves.
    pub fn states(&self) -> States<'a>
        ensures marks { result.marks.now ≡ marks_of narrow (bytes_of self.now) }
        ensures moves { result.moves.now ≡ moves_of narrow (bytes_of self.now) }
        ensures letters { result.letters ≡ letters_in self.now }
    {
        self.layout.states()
    }

    // The mark of one of its states.
    pub fn mark(&self, state: usize) -> Mark
        requires { state < states_in self.now }
        ensures { mark_byte result ≡ mark_at narrow (bytes_of self.now) state }
    {
        match self.layout.marks()[state] {
            0 => Mark::Unfinished,
            1 => Mark::Accepting,
            _ => Mark::Dead,
        }
    }
}
