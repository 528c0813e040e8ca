// A table of a machine in a lent list: its flags and its moves.
ghost use Rattle.automata.specs.Table.{ClosedTable};

// A machine laid out in a list: a flag of each state, and from place `base` on the moves, state by state, column by column.
#[derive(Clone, Copy)]
pub struct Table<'a> {
    pub cells: &'a [u16],
    pub base: usize,
    pub states: usize,
    pub columns: usize,
    pub ghost closed: { ClosedTable base states columns cells.now },
}

impl<'a> Table<'a> {
    ghost use Rattle.std.specs.Prelude.{◌≡◌, ◌<◌, length};
    ghost use Rattle.entries.specs.Entries.{Target, flag_at};

    // Whether a state accepts.
    pub fn accepts(&self, p: usize) -> bool
        requires { p < length self.now.cells.now }
        ensures { result ≡ flag_at self.now.cells.now p }
    {
        self.cells[p] != 0
    }

    // The state that column c leads to from state p.
    pub fn target(&self, p: usize, c: usize) -> usize
        requires p_lt_states { p < self.now.states }
        requires c_lt_columns { c < self.now.columns }
        ensures { Target self.now p c result }
    {
        usize::from(self.cells[self.base + (p * self.columns + c)])
    }
}
