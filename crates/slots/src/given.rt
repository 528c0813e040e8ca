// The given machines, written into a slot: a letter, `.`, the mark, `@`, `.*`. They make no sets. m letters, columns 0 to m - 1, and the mark, column m.
ghost use Rattle.std.specs.Prelude.{◌≡◌, ◌+◌, ◌*◌, ◌<◌, ◌≤◌, suc, length, get_or};
ghost use Rattle.automata.specs.Given.{one_sign, many_signs, given, letter_machine, dot_machine, empty_machine, all_machine, mark_machine};
ghost use Rattle.slots.specs.Slot.{Holds, Written};
ghost use Rattle.slots.specs.GivenSlots.{Room, Header, Signs, within};

// Each of the bytes from a place on becomes b.
fn fill(s: &mut [u8], from: usize, len: usize, b: u8)
    requires { from + len ≤ length s.old }
    ensures { Written s.old s.new from len (λ i. b) }
{
    s[from..from + len].fill(b);
}

// The number of states, and a flag for each: only that of the state `good` is set.
fn header(slot: &mut [u8], n: u8, good: u8)
    requires good_lt_n { good < n }
    requires n_in_bounds { 2 + n ≤ length slot.old }
    ensures { Header n good slot.old slot.new }
{
    slot[0] = n;
    slot[1] = 0;
    fill(slot, 2, n as usize, 0);
    slot[2 + good as usize] = 1;
}

// n states, of which `good` is accepting: the columns from lo on and below hi lead to it from state 0, all else leads to `bad`.
fn signs(slot: &mut [u8], most: usize, k: usize, n: u8, lo: usize, hi: usize, good: u8, bad: u8)
    requires { Room most k n lo hi good bad slot.old }
    ensures { Signs most k n lo hi good bad slot.new }
{
    header(slot, n, good);
    fill(slot, 2 + most, n as usize * k, bad);
    fill(slot, 2 + (most + lo), hi - lo, good);
}

// One sign, of the columns from lo on and below hi. The state behind it is numbered first where column 0 is one of them.
fn one_sign(slot: &mut [u8], most: usize, k: usize, lo: usize, hi: usize)
    requires le_most { (3 ≤ most) × (2 + (most + 3 * k) ≤ length slot.old) }
    requires lo_lt_hi { (lo < hi) × (hi ≤ k) }
    ensures { Holds most k slot.new (given k (one_sign (within lo hi))) }
{
    if lo == 0 {
        signs(slot, most, k, 3, lo, hi, 1, 2);
    } else {
        signs(slot, most, k, 3, lo, hi, 2, 1);
    }
}

// Any number of signs of the columns below hi.
fn many_signs(slot: &mut [u8], most: usize, k: usize, hi: usize)
    requires le_most { (2 ≤ most) × (2 + (most + 2 * k) ≤ length slot.old) }
    requires hi_lt_k { hi < k }
    ensures { Holds most k slot.new (given k (many_signs (within 0 hi))) }
{
    signs(slot, most, k, 2, 0, hi, 0, 1);
}

// The letter of column c; the mark is the column m.
pub fn letter(slot: &mut [u8], most: usize, m: usize, c: usize)
    requires le_most { (3 ≤ most) × (2 + (most + 3 * (m + 1)) ≤ length slot.old) }
    requires c_le_m { c ≤ m }
    ensures { Holds most (suc m) slot.new (letter_machine m c) }
{
    one_sign(slot, most, m + 1, c, c + 1);
}

// `.`
pub fn dot(slot: &mut [u8], most: usize, m: usize)
    requires le_most { (3 ≤ most) × (2 + (most + 3 * (m + 1)) ≤ length slot.old) }
    requires le_m { 1 ≤ m }
    ensures { Holds most (suc m) slot.new (dot_machine m) }
{
    one_sign(slot, most, m + 1, 0, m);
}

// `@`
pub fn empty(slot: &mut [u8], most: usize, m: usize)
    requires { (3 ≤ most) × (2 + (most + 3 * (m + 1)) ≤ length slot.old) }
    ensures { Holds most (suc m) slot.new (empty_machine m) }
{
    many_signs(slot, most, m + 1, 0);
}

// `.*`
pub fn all(slot: &mut [u8], most: usize, m: usize)
    requires { (3 ≤ most) × (2 + (most + 3 * (m + 1)) ≤ length slot.old) }
    ensures { Holds most (suc m) slot.new (all_machine m) }
{
    many_signs(slot, most, m + 1, m);
}
