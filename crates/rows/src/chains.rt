// The rows found so far: rows of one width, end to end in a lent buffer, each once. One is found by its hash, and put behind the others. Rows with the same
// hash are chained: `heads` has for each hash the last such row, and `table` for each row the one before it, each plus 1, or 0 where there is none. What lies
// behind the rows' places in `table` is the caller's.
ghost use Rattle.std.specs.Prelude.{true, ◌≡◌, List, ℕ, ◌+◌, ◌*◌, ◌/◌, ◌%◌, ◌<◌, ◌≤◌, length, get_or, set};
ghost use Rattle.rows.specs.Chains.{Chained, Looked, Appended};
ghost use Rattle.rows.specs.Found.{Kept, Pushed};
ghost use Rattle.rows.specs.Rows.{row_at};
ghost use Rattle.rows.specs.Sums.{row_hash};

// A row that is looked for among others, and put behind them.
pub trait Row {
    // Its bytes.
    ghost bytes: { Self → List ℕ };

    // Whether a row as wide has the same bytes.
    fn is(self, row: &[u8]) -> bool
        requires { length row.now ≡ length (bytes self) }
        ensures { (result ≡ true → row.now ≡ bytes self) × (row.now ≡ bytes self → result ≡ true) };

    // Puts the bytes into a row as wide.
    fn put(self, row: &mut [u8])
        requires { length row.old ≡ length (bytes self) }
        ensures { row.new ≡ bytes self };
}

impl<'a> Row for &'a [u8] {
    ghost bytes = { λ row. row.now };

    fn is(self, row: &[u8]) -> bool {
        row == self
    }

    fn put(self, row: &mut [u8]) {
        octets::copy(row, self);
    }
}

// The hash of a row whose sum is given.
pub fn hash(sum: usize) -> usize
    ensures { (result ≡ sum / 64 % 512) × (result < 512) }
{
    sum / 64 % 512
}

// The first `count` rows of two lent buffers.
#[derive(Drop)]
pub struct Found<'a> {
    pub rows: &'a mut [u8],
    pub table: &'a mut [u16],
    pub heads: [u16; 512],
    pub count: usize,
}

impl<'a> Found<'a> {
    // The bytes of all rows, and what lies behind them.
    pub fn all(&self) -> &[u8]
        ensures { result.now ≡ self.now.rows.now }
    {
        &self.rows[..]
    }

    // The i-th row of w bytes.
    pub fn row(&self, w: usize, i: usize) -> &[u8]
        requires { i * w + w ≤ length self.now.rows.now }
        ensures { result.now ≡ row_at w i self.now.rows.now }
    {
        let at = i * w;
        &self.rows[at..at + w]
    }

    // Where the row with the hash h stands among those of w bytes: only rows with the same hash are compared.
    pub fn find<R: Row + Copy>(&self, w: usize, row: R, h: usize) -> Option<usize>
        requires w_in_bounds { self.now.count * w ≤ length self.now.rows.now }
        requires count_in_bounds { (self.now.count ≤ length self.now.table.now) × (length (R.bytes row) ≡ w) }
        requires chained { Chained w self.now.count self.now.rows.now self.now.table.now self.now.heads }
        requires h_value { (h ≡ row_hash (R.bytes row)) × (h < 512) }
        ensures { Looked w self.now.count self.now.rows.now (R.bytes row) result }
    {
        let mut next = self.heads[h] as usize;
        // Stays: a walk along links, no index is counted.
        while 0 < next {
            let j = next - 1;
            if row.is(self.row(w, j)) {
                return Some(j);
            }
            next = self.table[j] as usize;
        }
        None
    }

    // Puts the row of w bytes, whose hash is h, behind the others: it becomes the last of its chain.
    pub fn push<R: Row>(&mut self, w: usize, row: R, h: usize)
        requires row_len { length (R.bytes row) ≡ w }
        requires w_in_bounds { self.old.count * w + w ≤ length self.old.rows.now }
        requires count_in_bounds { (self.old.count < length self.old.table.now) × (self.old.count + 1 < 65536) }
        requires h_bound { h < 512 }
        ensures pushed { Pushed w self.old (R.bytes row) h self.new }
        ensures kept { Kept self.old self.new }
    {
        let count = self.count;
        let at = count * w;
        row.put(&mut self.rows[at..at + w]);
        self.table[count] = self.heads[h];
        self.heads[h] = (count + 1) as u16;
        self.count = count + 1;
    }
}
