// Whether a power fits in 64 bits.
ghost use Rattle.std.specs.Prelude.{◌≡◌, ◌^◌};
ghost use Rattle.arrivals.specs.Weights.{fits as fits_of};

// m to the power k is at most 18,446,744,073,709,551,615: so is each product on the way, a factor at a time. A power of 0
// is known at once, whatever k is.
pub fn fits(m: usize, k: usize) -> bool
    ensures { result ≡ fits_of (m ^ k) }
{
    if m == 0 {
        return true;
    }
    let mut power: usize = 1;
    for _ in 0..k {
        let Some(product) = power.checked_mul(m) else {
            return false;
        };
        power = product;
    }
    true
}
