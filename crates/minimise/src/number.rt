// The numbering of the classes by first arrival, and the machine over them, written as a table of bytes: the number of each class, which counts only where the
// class stands in the order at that number (nothing is cleared first), and the order.
ghost use Rattle.std.specs.Prelude.{◌≡◌, ◌≤◌, ◌<◌, length};
ghost use Rattle.entries.specs.Entries.{machine_of};
ghost use Rattle.minimise.specs.Number.{Rolling, Rowed, Markable, Marked, Classified};
ghost use Rattle.minimise.specs.Minimised.{Minimised};

use entries::table::Table;
use numbering::order::arrive;

// Row i of the numbered machine: the numbers of what its columns lead to, in the order of the columns. How many classes have numbers then; none where they
// are too many. A column that leads to the same state as the one before it repeats that one's number: letters that a rule does not tell apart are most of a
// large alphabet.
fn row(
    table: &Table,
    most: usize,
    i: usize,
    count: usize,
    classes: &[u16],
    numbers: &mut [u16],
    order: &mut [u16],
    slot: &mut [u8],
) -> Option<usize>
    requires { Rolling table.now most i count classes.now numbers.old order.old slot.old }
    ensures { Rowed table.now most i count classes.now order.old slot.old numbers.new order.new slot.new result }
{
    let p = usize::from(order[i]);
    let mut m = count;
    // Stays: no state yet is the number of states; with an Option in its place the step of the loop did not close, for want of a law of its `!=`.
    let mut last = table.states;
    let mut x = 0;
    for c in 0..table.columns {
        let t = table.target(p, c);
        if t != last {
            x = arrive(numbers, order, most, m, usize::from(classes[t]))?;
            m = m.max(x + 1);
            last = t;
        }
        slot[most + (i * table.columns + c)] = x as u8;
    }
    Some(m)
}

// The flags of the m numbered classes.
fn mark(table: &Table, m: usize, order: &[u16], slot: &mut [u8])
    requires { Markable table.now m order.now slot.old }
    ensures { Marked table.now m order.now slot.old slot.new }
{
    for i in 0..m {
        slot[i] = u8::from(table.accepts(usize::from(order[i])));
    }
}

// The machine over the classes, numbered by first arrival from the class of state 0 on, is written into the slot.
pub fn number(
    table: &Table,
    most: usize,
    classes: &[u16],
    numbers: &mut [u16],
    order: &mut [u16],
    slot: &mut [u8],
) -> Option<usize>
    requires { Classified table.now most classes.now numbers.old order.old slot.old }
    ensures { Minimised table.now.columns most (machine_of table.now) slot.new result }
{
    order[0] = 0;
    numbers[0] = 0;
    let mut m = 1;
    let mut i = 0;
    // Stays: a queue, its end moves while it is read.
    while i < m {
        m = row(table, most, i, m, classes, numbers, order, slot)?;
        i += 1;
    }
    mark(table, m, order, slot);
    Some(m)
}
