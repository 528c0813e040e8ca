// What arrives takes the next number: two lists, of each its number, which counts only where it stands in the order at that number (nothing is cleared first), and
// the order.
ghost use Rattle.std.specs.Prelude.{◌≡◌, ◌≤◌, ◌<◌, length, map};
ghost use Rattle.numbering.specs.Order.{Roll, NumberOf, Arrived};

use distance::steps::Number;

// The number of d, where it has one of the m.
fn number_of<N: Number>(
    numbers: &[N],
    order: &[N],
    most: usize,
    m: usize,
    d: usize,
) -> Option<usize>
    requires { Roll most m (map N.value numbers.now) (map N.value order.now) × (d < length numbers.now) }
    ensures { NumberOf m d (map N.value order.now) result }
{
    let x = numbers[d].wide();
    if x < m && order[x].wide() == d {
        return Some(x);
    }
    None
}

// The number of d, or the next, m, where it has none: it then takes its place in the order. None where there is no room for it.
pub fn arrive<N: Number>(
    numbers: &mut [N],
    order: &mut [N],
    most: usize,
    m: usize,
    d: usize,
) -> Option<usize>
    requires roll { Roll most m (map N.value numbers.old) (map N.value order.old) × (d < length numbers.old) }
    requires kept { (length numbers.old ≤ N.limit) × (most ≤ N.limit) }
    ensures arrived { Arrived most m d (map N.value order.old) (map N.value numbers.new) (map N.value order.new) result }
    ensures long { (length numbers.new ≡ length numbers.old) × (length order.new ≡ length order.old) }
{
    if let Some(x) = number_of(numbers, order, most, m, d) {
        return Some(x);
    }
    if m < most {
        order[m] = N::narrow(d);
        numbers[d] = N::narrow(m);
        return Some(m);
    }
    None
}
