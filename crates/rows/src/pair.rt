// A pair of states as a row of four bytes: looked up and put by its two numbers.
ghost use Rattle.std.specs.Prelude.{◌≡◌};
ghost use Rattle.rows.specs.Rows.{pair_row};
ghost use Rattle.rows.specs.Sums.{row_sum};

use crate::chains::Row;
use crate::sum;
use octets::number;

#[derive(Clone, Copy)]
pub struct Pair {
    pub x: u16,
    pub y: u16,
}

impl Pair {
    // The sum of the pair's row.
    pub fn sum(self) -> usize
        ensures { result ≡ row_sum 0 (pair_row self.x self.y) }
    {
        let high = sum::with_number(self.y as usize, 2, 0);
        sum::with_number(self.x as usize, 0, high)
    }
}

impl Row for Pair {
    ghost bytes = { λ pair. pair_row pair.x pair.y };

    fn is(self, row: &[u8]) -> bool {
        number::read(row, 0) == self.x as usize && number::read(row, 2) == self.y as usize
    }

    fn put(self, row: &mut [u8]) {
        number::write(row, 0, self.x as usize);
        number::write(row, 2, self.y as usize);
    }
}
