// The states that letters reach, numbered by first arrival: states in rising order and for each the letters in rising order; the mark column is passed over.
// Parts for the card writer: they have requires, and are no entries.
#![tactic(auto)]

pub mod kept;
pub mod order;

ghost use Rattle.std.specs.Prelude.{◌≡◌, ◌<◌, replicate};
ghost use Rattle.numbering.specs.Arrival.{Roll, Arrived, Rowed, Ordered, Arranged, row_place};

use kept::KeptMachine;
use order::arrive;

// The states that have numbers: `count` of them, in the order of their numbers, and for each state its number, which counts only where the state stands in the
// order at that number.
#[derive(Drop)]
pub struct Numbering {
    pub order: [u8; 120],
    pub number: [u8; 120],
    pub count: usize,
    pub ghost roll: { Roll 120 count order number },
}

impl Numbering {
    // State 0 has number 0.
    fn new() -> Numbering
        ensures { (result.order ≡ replicate 120 0) × (result.number ≡ replicate 120 0) × (result.count ≡ 1) }
    {
        Numbering {
            order: [0; 120],
            number: [0; 120],
            count: 1,
        }
    }

    // State s takes the next number where it has none.
    fn arrive(&mut self, s: usize)
        requires { s < 120 }
        ensures { Arrived 120 self.old.count s self.old.order self.old.number self.new.order self.new.number self.new.count }
    {
        if let Some(x) = arrive(&mut self.number, &mut self.order, 120, self.count, s) {
            self.count = self.count.max(x + 1);
        }
    }

    // What letters lead to from state s takes numbers, in the order of the letters.
    fn row(&mut self, machine: &KeptMachine, s: usize)
        requires { s < machine.now.states }
        ensures { Rowed 120 (row_place machine.now.letters s) machine.now.letters self.old.count machine.now.bytes.now self.old.order self.old.number self.new.order self.new.number self.new.count }
    {
        for state in machine.row(s) {
            self.arrive(*state as usize);
        }
    }
}

// A machine, and its states that letters reach, all numbered.
#[derive(Drop)]
pub struct Reached<'a> {
    pub machine: KeptMachine<'a>,
    pub numbering: Numbering,
    pub ghost ordered: { Ordered machine.states machine.letters machine.bytes.now numbering.order numbering.count },
}

// All that letters reach from state 0 takes numbers.
pub fn number<'a>(machine: &KeptMachine<'a>) -> Reached<'a>
    ensures same { result.machine ≡ machine.now }
    ensures arranged { Arranged machine.now.states machine.now.letters machine.now.bytes.now result.numbering.order result.numbering.number result.numbering.count }
{
    let mut numbering = Numbering::new();
    let mut i = 0;
    // Stays: a queue, its end moves while it is read.
    // Stays: minimise's queue writes each row as it goes and may end early: one loop for both would be lent a row as a closure over lists, which is longer.
    while i < numbering.count {
        let s = numbering.order[i] as usize;
        numbering.row(machine, s);
        i += 1;
    }
    Reached {
        machine: *machine,
        numbering,
    }
}
