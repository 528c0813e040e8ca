// A table of moves as it lies in a card's bytes, lent. Its definitions and laws stand in specs/.
#![tactic(auto)]

ghost use Rattle.std.specs.Prelude.{◌≡◌, ℕ, ◌<◌, ◌≤◌, ◌*◌, ◌+◌, length, get_or, eqb};
ghost use Rattle.std.specs.List.{HoldsAt};
ghost use Rattle.moves.specs.Holds.{Table, Row};

// A marks byte: 0 where no plan may end and some continuation is allowed, 1 where a plan may end, 2 where no continuation is allowed.
#[derive(Clone, Copy, PartialEq, Eq, Debug)]
pub enum Mark {
    Unfinished = 0,
    Accepting = 1,
    Dead = 2,
}

impl Mark {
    ghost use Rattle.moves.specs.Marks.{mark_byte};

    // Its byte.
    pub fn byte(self) -> u8
        ensures { result ≡ mark_byte self }
    {
        self as u8
    }
}

// The states of a table, MOST at most: marks bytes, one a state, and moves, state by state and letter by letter.
#[derive(Clone, Copy)]
pub struct StatesTo<'a, const MOST: usize> {
    pub marks: &'a [u8],
    pub moves: &'a [u8],
    pub letters: usize,
    pub ghost table: { Table MOST letters marks.now moves.now },
}

// As many as a card has at most.
pub type States<'a> = StatesTo<'a, 120>;

impl<'a, const MOST: usize> StatesTo<'a, MOST> {
    // How many states.
    pub fn len(self) -> usize
        ensures { result ≡ length self.entry.marks.now }
    {
        self.marks.len()
    }

    // The moves of state p, letter by letter.
    pub fn row(self, p: usize) -> &'a [u8]
        requires { p < length self.marks.now }
        ensures { Row self.entry.letters self.entry.marks.now self.entry.moves.now p result.now }
    {
        let at = p * self.letters;
        &self.moves[at..at + self.letters]
    }

    // The state that letter i leads to from state p.
    pub fn target(self, p: usize, i: usize) -> usize
        requires { (p < length self.marks.now) × (i < self.letters) }
        ensures { result ≡ get_or self.entry.moves.now (p * self.entry.letters + i) 0 }
    {
        self.moves[p * self.letters + i] as usize
    }

    // Whether state p accepts.
    pub fn accepts(self, p: usize) -> bool
        requires { p < length self.marks.now }
        ensures { result ≡ eqb 1 (get_or self.entry.marks.now p 0) }
    {
        Mark::Accepting as u8 == self.marks[p]
    }

    // Of each state whether it accepts.
    pub fn accepting<T: From<bool> + Copy>(self, of: &mut [T])
        requires { length self.marks.now ≤ length of.old }
        ensures long { length of.new ≡ length of.old }
        ensures told { (p : ℕ) → p < length self.entry.marks.now → HoldsAt (T.from_gives (eqb 1 (get_or self.entry.marks.now p 0))) of.new p }
    {
        for p in 0..self.len() {
            of[p] = T::from(self.accepts(p));
        }
    }
}
