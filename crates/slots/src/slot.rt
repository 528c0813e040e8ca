// A kept machine in a slot of bytes: the number of its states in two bytes, then its table. Unpacking widens the table to 16-bit numbers, in which a
// stage's own states fit.
ghost use Rattle.std.specs.Prelude.{◌≡◌, ◌+◌, ◌*◌, ◌<◌, ◌≤◌, length, get_or, drop};
ghost use Rattle.rows.specs.Rows.{number_at};
ghost use Rattle.slots.specs.Slot.{Slot, Written, UnpackedAt, Loaded};

use octets::number;

// The numbers of states of the two operands.
#[derive(Clone, Copy)]
pub struct Sizes {
    pub left: usize,
    pub right: usize,
}

// The bytes of src from a place on, as numbers of dst from a place on.
fn widen(src: &[u8], from: usize, dst: &mut [u16], to: usize, len: usize)
    requires len_in_bounds { from + len ≤ length src.now }
    requires len_in_bounds_2 { to + len ≤ length dst.old }
    ensures { Written dst.old dst.new to len (λ i. get_or src.now (from + i) 0) }
{
    for i in 0..len {
        dst[to + i] = u16::from(src[from + i]);
    }
}

// The table of the slot that begins at a place, in a buffer from a place on; the number of its states.
pub fn unpack(slots: &[u8], at: usize, most: usize, k: usize, out: &mut [u16], to: usize) -> usize
    requires slot { Slot most k (drop at slots.now) }
    requires k_in_bounds { to + (most + number_at (drop at slots.now) 0 * k) ≤ length out.old }
    ensures { UnpackedAt most k (drop at slots.now) out.old out.new to result }
{
    let n = number::read(slots, at);
    widen(slots, at + 2, out, to, most + n * k);
    n
}

// The tables of two slots, the second half a buffer behind the first.
pub fn load(
    slots: &[u8],
    left: usize,
    right: usize,
    most: usize,
    k: usize,
    out: &mut [u16],
) -> Sizes
    requires slot { Slot most k (drop left slots.now) }
    requires slot_2 { Slot most k (drop right slots.now) }
    requires k_in_bounds { (most + most * k) + (most + most * k) ≤ length out.old }
    ensures { Loaded most k (drop left slots.now) (drop right slots.now) out.new result }
{
    let half = most + most * k;
    let left_states = unpack(slots, left, most, k, out, 0);
    let right_states = unpack(slots, right, most, k, out, half);
    Sizes {
        left: left_states,
        right: right_states,
    }
}
