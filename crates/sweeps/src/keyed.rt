// A table of moves as the sweeps read it: states answer by keys.
ghost use Rattle.moves.specs.Holds.{AcceptKeys};

use distance::steps::Steps;
use moves::States;

#[derive(Clone, Copy)]
pub struct Keyed<'a> {
    pub states: States<'a>,
    pub keys: &'a [u8; 120],
    pub ghost right: { AcceptKeys states.marks.now keys.now },
}

impl<'a> Steps for Keyed<'a> {
    ghost use Rattle.sweeps.specs.Change.{stepping};

    ghost steps = { λ keyed. stepping keyed.states.letters keyed.states.marks.now keyed.states.moves.now keyed.keys.now };

    fn states(&self) -> usize {
        self.states.len()
    }

    fn letters(&self) -> usize {
        self.states.letters
    }

    fn alike(&self, p: usize, q: usize) -> bool {
        self.keys[p] == self.keys[q]
    }

    fn step(&self, p: usize, c: usize) -> usize {
        self.states.target(p, c)
    }
}
