// A number in two bytes, low byte first.
ghost use Rattle.std.specs.Prelude.{◌≡◌, ◌+◌, ◌/◌, ◌%◌, ◌<◌, length, set};
ghost use Rattle.octets.specs.Numbers.{number_at};

// The number in the bytes i and i + 1.
pub fn read(bytes: &[u8], i: usize) -> usize
    requires { i + 1 < length bytes.now }
    ensures { result ≡ number_at bytes.now i }
{
    usize::from(u16::from_le_bytes([bytes[i], bytes[i + 1]]))
}

// Puts the number p into the bytes i and i + 1.
pub fn write(bytes: &mut [u8], i: usize, p: usize)
    requires i_in_bounds { i + 1 < length bytes.old }
    requires p_bound { p < 65536 }
    ensures { bytes.new ≡ set (set bytes.old i (p % 256)) (i + 1) (p / 256) }
{
    [bytes[i], bytes[i + 1]] = (p as u16).to_le_bytes();
}
