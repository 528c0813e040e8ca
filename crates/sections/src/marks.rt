// The marks bytes: 1 for an accepting state, 2 for a dead one, else 0.
ghost use Rattle.std.specs.Prelude.{◌≡◌, ◌≢◌, true, false, ℕ, ◌+◌, ◌≤◌, ◌<◌, length, get_or};
ghost use Rattle.moves.specs.Marks.{mark_byte};
ghost use Rattle.sections.specs.Laid.{Laid};
ghost use Rattle.sections.specs.Parts.{mark_bytes};
ghost use Rattle.sections.specs.StateMark.{StateMark};
ghost use Rattle.sections.specs.Kept.{Kept};

use moves::Mark;
use numbering::Reached;
use numbering::kept::KeptMachine;

// Each of these moves leads to state s.
fn stays(row: &[u8], s: usize) -> bool
    ensures back { result ≡ true → (c : ℕ) → c < length row.now → get_or row.now c 0 ≡ s }
    ensures away { result ≡ false → (c : ℕ) × (c < length row.now) × (get_or row.now c 0 ≢ s) }
{
    row.iter().all(|target| *target as usize == s)
}

// The mark of state s: no two states are equivalent, so a state is dead just when it does not accept and every letter leads back to it.
fn mark(machine: &KeptMachine, s: usize) -> Mark
    requires { s < machine.now.states }
    ensures { StateMark machine.now.letters machine.now.bytes.now s (mark_byte result) }
{
    if machine.accepts(s) {
        return Mark::Accepting;
    }
    if stays(machine.row(s), s) {
        return Mark::Dead;
    }
    Mark::Unfinished
}

// The marks bytes of the numbered states, behind the letters.
pub fn put_marks(reached: &Reached, card: &mut [u8])
    requires kept { Kept reached.now.machine.states reached.now.machine.letters reached.now.machine.bytes.now }
    requires count_in_bounds { 12 + reached.now.machine.letters + reached.now.numbering.count ≤ length card.old }
    ensures { Laid (12 + reached.now.machine.letters) (12 + reached.now.machine.letters + reached.now.numbering.count) (mark_bytes reached.now.machine.states reached.now.machine.letters reached.now.machine.bytes.now) card.old card.new }
{
    let start = 12 + reached.machine.letters;
    for i in 0..reached.numbering.count {
        card[start + i] = mark(&reached.machine, reached.numbering.order[i] as usize).byte();
    }
}
