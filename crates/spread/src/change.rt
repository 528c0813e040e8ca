// How far a change is from the states of a table: a list has of each state the fewest letters that are read before one which changes its answer.
ghost use Rattle.std.specs.Prelude.{◌≡◌, ◌<◌, length};
ghost use Rattle.spread.specs.Change.{stepping, Settling};

use distance::steps::Steps;
use entries::table::Table;

// A table as the sweeps read it: states answer by their flags.
#[derive(Clone, Copy)]
struct Flagged<'a> {
    table: Table<'a>,
}

impl<'a> Steps for Flagged<'a> {
    ghost steps = { λ flagged. stepping flagged.table };

    fn states(&self) -> usize {
        self.table.states
    }

    fn letters(&self) -> usize {
        self.table.columns
    }

    fn alike(&self, p: usize, q: usize) -> bool {
        self.table.accepts(p) == self.table.accepts(q)
    }

    fn step(&self, p: usize, c: usize) -> usize {
        self.table.target(p, c)
    }
}

// The numbers, where a few sweeps settle them: true; else they say nothing.
pub fn changes(table: &Table, far: &mut [u16]) -> bool
    requires { (length far.old ≡ table.now.states) × (table.now.states < 65536) }
    ensures { Settling table.now far.new result }
{
    far.fill((table.states - 1) as u16);
    distance::changes(&Flagged { table: *table }, far)
}
