// Rows of flags, a byte for each state: filled with what the members of another lead to, and tested for an accepting member.
ghost use Rattle.std.specs.Prelude.{◌≡◌, ◌<◌, ◌≤◌, length, replicate};
ghost use Rattle.rows.specs.Rows.{flag_at};
ghost use Rattle.flags.specs.Flags.{some_accepting};
ghost use Rattle.flags.specs.Members.{Lists, Pours, Filled};

use entries::table::Table;
use rows::sum;

// What is seen while a row is filled: its sum, and whether a state in it is accepting.
#[derive(Clone, Copy)]
pub struct Poured {
    pub sum: usize,
    pub accepting: bool,
}

// The members of a row, listed; how many there are. They are listed once for all columns. Each state is written, and counts only where it is a member, so
// that nothing waits for a guess which flags are set.
pub fn gather(from: &[u8], members: &mut [u16]) -> usize
    requires { (length from.now ≤ length members.old) × (length from.now ≤ 65536) }
    ensures { Lists (flag_at from.now) (length from.now) result members.new }
{
    let mut count = 0;
    for (q, flag) in from.iter().enumerate() {
        members[count] = q as u16;
        if *flag != 0 {
            count += 1;
        }
    }
    count
}

// Sets the flags of the states that the members lead to by the column c.
fn pour(table: &Table, c: usize, members: &[u16], first: usize, row: &mut [u8]) -> Poured
    requires pours { Pours table.now c (length members.now) first members.now row.old }
    requires row_value { row.old ≡ replicate (length row.old) 0 }
    ensures { Filled table.now c (length members.now) first members.now (length row.old) row.new result }
{
    let mut sum = 0;
    let mut accepting = false;
    for q in members {
        let to = table.target(*q as usize, c);
        sum = sum::flag(row, first, to, sum);
        if table.accepts(to) {
            accepting = true;
        }
    }
    Poured { sum, accepting }
}

// The flags of the states that the members lead to by the column c.
pub fn lead(table: &Table, c: usize, members: &[u16], first: usize, row: &mut [u8]) -> Poured
    requires { Pours table.now c (length members.now) first members.now row.old }
    ensures { Filled table.now c (length members.now) first members.now (length row.old) row.new result }
{
    row.fill(0);
    pour(table, c, members, first, row)
}

// Whether a state in the row is accepting.
pub fn some_accepting(cells: &[u16], row: &[u8]) -> bool
    requires { length row.now ≤ length cells.now }
    ensures { result ≡ some_accepting (flag_at row.now) (flag_at cells.now) (length row.now) }
{
    row.iter()
        .zip(cells)
        .any(|(flag, accepting)| *accepting != 0 && *flag != 0)
}
