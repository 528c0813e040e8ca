// A machine over letters and the mark as a table of bytes, lent.
ghost use Rattle.std.specs.Prelude.{suc};
ghost use Rattle.automata.specs.Table.{ClosedTable};

// A flag of each state, and from place 120 on the moves, state by state: where each letter leads, in rising order, and behind them where the mark does.
#[derive(Clone, Copy)]
pub struct KeptMachine<'a> {
    pub bytes: &'a [u8],
    pub states: usize,
    pub letters: usize,
    pub ghost closed: { ClosedTable 120 states (suc letters) bytes.now },
}

impl<'a> KeptMachine<'a> {
    ghost use Rattle.std.specs.Prelude.{◌≡◌, ◌<◌, get_or};
    ghost use Rattle.automata.specs.Table.{flag_of};
    ghost use Rattle.numbering.specs.Arrival.{LetterRow};

    // Whether state s accepts.
    pub fn accepts(&self, s: usize) -> bool
        requires { s < self.now.states }
        ensures { result ≡ flag_of (get_or self.now.bytes.now s 0) }
    {
        self.bytes[s] != 0
    }

    // Where the letters lead from state s, in rising order.
    pub fn row(&self, s: usize) -> &'a [u8]
        requires { s < self.now.states }
        ensures { LetterRow self.now.states self.now.letters self.now.bytes.now s result.now }
    {
        let at = 120 + s * (self.letters + 1);
        &self.bytes[at..at + self.letters]
    }
}
