// Bytes as they are read on either side, the compiler's and the board's: the first place of a byte, and numbers of two bytes; and a copy, of items of any type.
#![tactic(auto)]

pub mod number;

ghost use Rattle.std.specs.Prelude.{◌≡◌, ◌+◌, ◌≤◌, length, drop};
ghost use Rattle.automata.specs.Basics.{nat_test, find};

// The first place of a byte; the length where it has none.
pub fn place(bytes: &[u8], byte: u8) -> usize
    ensures { result ≡ find nat_test byte bytes.now }
{
    bytes.iter().position(|x| *x == byte).unwrap_or(bytes.len())
}

// The first place of a byte from `from` on; the length where it has none.
pub fn place_from(bytes: &[u8], from: usize, byte: u8) -> usize
    requires { from ≤ length bytes.now }
    ensures { result ≡ from + find nat_test byte (drop from bytes.now) }
{
    from + place(&bytes[from..], byte)
}

// The items of one slice, copied to another one as long.
// Stays: the library's `copy_from_slice` is a `memmove` in machine code, wherever LLVM doesn't see that the two are apart, and the archive for C would need
// that name from outside.
pub fn copy<T: Copy>(to: &mut [T], from: &[T])
    requires { length to.old ≡ length from.now }
    ensures { to.new ≡ from.now }
{
    for i in 0..from.len() {
        to[i] = from[i];
    }
}
