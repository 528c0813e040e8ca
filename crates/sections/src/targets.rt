// The moves, state by state and letter by letter: the number of the state that the letter leads to. The mark column is passed over.
ghost use Rattle.std.specs.Prelude.{◌+◌, ◌*◌, ◌≤◌, ◌<◌, length};
ghost use Rattle.numbering.specs.Arrival.{row_place};
ghost use Rattle.sections.specs.Laid.{Laid};
ghost use Rattle.sections.specs.Parts.{row_bytes, move_bytes};

use numbering::Reached;
use numbering::kept::KeptMachine;

// The moves of state s, to the place `to` of the card.
fn put_row(machine: &KeptMachine, s: usize, number: &[u8; 120], to: usize, card: &mut [u8])
    requires s_lt_states { s < machine.now.states }
    requires m_in_bounds { to + machine.now.letters ≤ length card.old }
    ensures { Laid to (to + machine.now.letters) (row_bytes (row_place machine.now.letters s) machine.now.letters machine.now.bytes.now number.now) card.old card.new }
{
    for (c, target) in machine.row(s).iter().enumerate() {
        card[to + c] = number[*target as usize];
    }
}

// The moves of the numbered states, behind the marks.
pub fn put_moves(reached: &Reached, card: &mut [u8])
    requires { 12 + reached.now.machine.letters + reached.now.numbering.count + reached.now.numbering.count * reached.now.machine.letters ≤ length card.old }
    ensures { Laid (12 + reached.now.machine.letters + reached.now.numbering.count) (12 + reached.now.machine.letters + reached.now.numbering.count + reached.now.numbering.count * reached.now.machine.letters) (move_bytes reached.now.machine.states reached.now.machine.letters reached.now.machine.bytes.now) card.old card.new }
{
    let m = reached.machine.letters;
    let start = 12 + m + reached.numbering.count;
    for i in 0..reached.numbering.count {
        let s = reached.numbering.order[i] as usize;
        put_row(
            &reached.machine,
            s,
            &reached.numbering.number,
            start + i * m,
            card,
        );
    }
}
