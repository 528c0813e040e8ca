// Slots copied, from one buffer to another and one place up in the same: as far as their machines go.
ghost use Rattle.std.specs.Prelude.{◌≡◌, ◌+◌, ◌≤◌, length, get_or, drop};
ghost use Rattle.slots.specs.Slot.{Slot, Written};
ghost use Rattle.operands.specs.Stack.{needs, fills};

use octets::number;

// How many bytes the machine of the slot at a place fills.
fn filled(s: &[u8], at: usize, most: usize, k: usize) -> usize
    requires { Slot most k (drop at s.now) }
    ensures bytes { result ≡ fills most k (drop at s.now) }
    ensures bounds { (result ≤ needs most k) × (at + result ≤ length s.now) }
{
    let len = 2 + (most + number::read(s, at) * k);
    len
}

// The slot that begins at a place of src, in dst from a place on.
pub fn copy(src: &[u8], from: usize, dst: &mut [u8], to: usize, most: usize, k: usize)
    requires slot { Slot most k (drop from src.now) }
    requires k_in_bounds { to + needs most k ≤ length dst.old }
    ensures { Written dst.old dst.new to (fills most k (drop from src.now)) (λ i. get_or src.now (from + i) 0) }
{
    let len = filled(src, from, most, k);
    octets::copy(&mut dst[to..to + len], &src[from..from + len]);
}

// The slot that begins at a place, in the next one too; slots are `size` bytes long.
pub fn raise(s: &mut [u8], at: usize, size: usize, most: usize, k: usize)
    requires slot { Slot most k (drop at s.old) }
    requires k_bound { (needs most k ≤ size) × (at + size + size ≤ length s.old) }
    ensures { Written s.old s.new (at + size) (fills most k (drop at s.old)) (λ i. get_or s.old (at + i) 0) }
{
    let len = filled(&s[..], at, most, k);
    let (below, above) = s.split_at_mut(at + size);
    octets::copy(&mut above[..len], &below[at..at + len]);
}
