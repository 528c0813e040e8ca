// The sum of a row's bytes by the weights of their places, by which a row is found. It is kept while the row is made, so that no pass over the row is needed.
ghost use Rattle.std.specs.Prelude.{◌≡◌, ◌+◌, ◌*◌, ◌/◌, ◌%◌, ◌<◌, ◌≤◌, length, set};
ghost use Rattle.rows.specs.Sums.{weight, Summed};

// The weight of a place: numbers without a simple pattern, so that few rows share a hash.
pub fn weigh(i: usize) -> usize
    requires { i < 65540 }
    ensures { (result ≡ weight i) × (result < 65536) }
{
    ((i * 40503 + 12347) * i + 30011) % 65536
}

// Sets the flag i of a row of flags that begins at the place `first`; the sum then.
pub fn flag(row: &mut [u8], first: usize, i: usize, sum: usize) -> usize
    requires summed { Summed first row.old sum }
    requires i_in_bounds { i < length row.old }
    ensures { (row.new ≡ set row.old i 1) × Summed first row.new result }
{
    if row[i] != 0 {
        return sum;
    }
    row[i] = 1;
    sum + weigh(first + i)
}

// The sum of a row that has the number p in the bytes from the place `first` on, and behind it what the sum is of.
pub fn with_number(p: usize, first: usize, sum: usize) -> usize
    requires { (p < 65536) × (first ≤ 2) × (sum ≤ 4295229440) }
    ensures { result ≡ p % 256 * weight first + (p / 256 * weight (first + 1) + sum) }
{
    p % 256 * weigh(first) + (p / 256 * weigh(first + 1) + sum)
}
