// Machines kept for later lines: a definition's in its name's slot, a rule's in the register of the book so far. These are parts: callers give buffers
// that are long enough.

#![tactic(auto)]

ghost use Rattle.std.specs.Prelude.{◌+◌, ◌≤◌, ◌≡◌, true, length, get_or};
ghost use Rattle.book.specs.Kind.{is_name};
ghost use Rattle.slots.specs.Slot.{Written};
ghost use Rattle.kept.specs.Stored.{StoresName, Begins, Right, Shelves, Keeps};

use slots::given;

// A slot: the number of states in two bytes, 120 flags, 120 rows of moves over 26 letters and the mark.
pub const SLOT: usize = 3362;

// Where a line's machine is kept: in the slot of a name, or as the book so far.
#[derive(Clone, Copy)]
pub enum Place {
    Name(u8),
    Book,
}

// Copies the slot in front of one buffer to a place of another.
// Stays: it copies all of a slot, whatever it holds; `operands::copies::copy` goes as far as a machine, and asks its callers for one.
fn copy(from: &[u8], to: &mut [u8], at: usize)
    requires in_bounds { 3362 ≤ length from.now }
    requires at_in_bounds { at + 3362 ≤ length to.old }
    ensures { Written to.old to.new at 3362 (λ i. get_or from.now i 0) }
{
    octets::copy(&mut to[at..at + SLOT], &from[..SLOT]);
}

// Keeps the machine in front of the buffer as that of the name.
fn store(from: &[u8], name: u8, low: &mut [u8], high: &mut [u8])
    requires name_value { is_name name ≡ true }
    requires in_bounds { 3362 ≤ length from.now }
    requires in_bounds_2 { (43706 ≤ length low.old) × (43706 ≤ length high.old) }
    ensures { StoresName name from.now low.old high.old low.new high.new }
{
    let x = name as usize;
    if x <= 77 {
        copy(from, low, (x - 65) * SLOT);
    } else {
        copy(from, high, (x - 78) * SLOT);
    }
}

// Keeps the machine in front of the buffer at its place.
pub fn keep(place: Place, from: &[u8], low: &mut [u8], high: &mut [u8], registers: &mut [u8])
    requires right { Right place }
    requires in_bounds { 3362 ≤ length from.now }
    requires shelves { Shelves low.old high.old registers.old }
    ensures { Keeps place from.now low.old high.old registers.old low.new high.new registers.new }
{
    match place {
        Place::Name(name) => {
            store(from, name, low, high);
        }
        Place::Book => {
            copy(from, registers, 0);
        }
    }
}

// The registers at the start: the book starts as `.*`, which is made in front of the stack; the others are not used before they are written.
pub fn begin(m: usize, registers: &mut [u8], stack: &mut [u8])
    requires m_bound { m ≤ 26 }
    requires in_bounds { 10086 ≤ length registers.old }
    requires in_bounds_2 { 63878 ≤ length stack.old }
    ensures { Begins m registers.new }
{
    given::all(stack, 120, m);
    copy(&stack[..], registers, 0);
    copy(&stack[..], registers, SLOT);
    copy(&stack[..], registers, 2 * SLOT);
}
