// An operand brought into a slot of the stack.
ghost use Rattle.std.specs.Prelude.{suc};
ghost use Rattle.slots.specs.Slot.{Holds};
ghost use Rattle.codes.specs.Codes.{given_of};
ghost use Rattle.operands.specs.Operand.{Writable, Bringing, Brought};

use crate::{Layout, Names, copies};
use codes::{Given, Source};

// A given machine, written into a slot.
fn given(given: Given, most: usize, m: usize, slot: &mut [u8])
    requires { Writable most m slot.old }
    ensures { Holds most (suc m) slot.new (given_of m given) }
{
    match given {
        Given::Empty => slots::given::empty(slot, most, m),
        Given::All => slots::given::all(slot, most, m),
        Given::Dot => slots::given::dot(slot, most, m),
        Given::Mark => slots::given::letter(slot, most, m, m),
    }
}

// Brings an operand into the slot of a number. Nothing before the slot is changed.
pub fn bring(
    source: Source,
    l: Layout,
    letters: &[u8],
    names: &Names,
    registers: &[u8],
    stack: &mut [u8],
    i: usize,
)
    requires { Bringing l letters.now names.now.low.now names.now.high.now registers.now stack.old i source }
    ensures { Brought l letters.now names.now.low.now names.now.high.now registers.now stack.old stack.new i source }
{
    let size = l.size;
    let most = l.limits.states;
    let at = i * size;
    let end = at + size;
    let m = letters.len();
    let k = m + 1;
    match source {
        Source::Letter(b) => {
            let c = octets::place(letters, b);
            slots::given::letter(&mut stack[at..end], most, m, c);
        }
        Source::Name(b) => {
            if b <= 77 {
                copies::copy(names.low, (b - 65) as usize * size, stack, at, most, k);
            } else {
                copies::copy(names.high, (b - 78) as usize * size, stack, at, most, k);
            }
        }
        Source::Given(source) => {
            given(source, most, m, &mut stack[at..end]);
        }
        Source::Register(register) => {
            copies::copy(registers, register.index() * size, stack, at, most, k);
        }
    }
}
