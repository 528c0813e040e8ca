// What the sweeps read and write: a machine's answers and moves, and a number of each state.
ghost use Rattle.std.specs.Prelude.{◌≡◌, ℕ, ◌<◌, eqb};
ghost use Rattle.distance.specs.Changes.{Stepping};

// States that answer, and letters that lead from one to another.
pub trait Steps {
    ghost steps: { Self → Stepping };

    // How many states.
    fn states(&self) -> usize
        ensures { result ≡ (steps self.now).states };

    // How many letters.
    fn letters(&self) -> usize
        ensures { result ≡ (steps self.now).letters };

    // Whether two states answer alike.
    fn alike(&self, p: usize, q: usize) -> bool
        requires { (p < (steps self.now).states) × (q < (steps self.now).states) }
        ensures { result ≡ eqb ((steps self.now).key p) ((steps self.now).key q) };

    // The state that letter c leads to from state p.
    fn step(&self, p: usize, c: usize) -> usize
        requires { (p < (steps self.now).states) × (c < (steps self.now).letters) }
        ensures { (result ≡ (steps self.now).step p c) × (result < (steps self.now).states) };
}

// How the number of a state is kept.
pub trait Number: Copy {
    // So many numbers there are.
    ghost limit: { ℕ };

    ghost value: { Self → ℕ };

    fn wide(self) -> usize
        ensures { result ≡ value self };

    fn narrow(x: usize) -> Self
        requires { x < limit }
        ensures { value result ≡ x };
}

impl Number for u8 {
    ghost limit = { 256 };

    ghost value = { λ x. x };

    fn wide(self) -> usize {
        usize::from(self)
    }

    fn narrow(x: usize) -> u8 {
        x as u8
    }
}

impl Number for u16 {
    ghost limit = { 65536 };

    ghost value = { λ x. x };

    fn wide(self) -> usize {
        usize::from(self)
    }

    fn narrow(x: usize) -> u16 {
        x as u16
    }
}
