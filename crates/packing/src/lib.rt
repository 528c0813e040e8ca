// The smallest machine of a table, kept in a slot: its number of states, then its table of bytes. A part: callers give a slot that is long enough.
#![tactic(auto)]

ghost use Rattle.entries.specs.Entries.{machine_of};
ghost use Rattle.packing.specs.Keep.{Keepable, KeptAt};

use entries::table::Table;
use minimise::smallest;
use octets::number;

// Keeps the smallest machine of the table in the slot that begins at a place: how many states it has. None where they are more than `most`. Nothing outside the
// slot is changed.
pub fn keep(
    table: &Table,
    most: usize,
    work: &mut [u16],
    slots: &mut [u8],
    at: usize,
) -> Option<usize>
    requires { Keepable table.now most at work.old slots.old }
    ensures { KeptAt table.now.columns most at (machine_of table.now) slots.old slots.new result }
{
    let from = at + 2;
    let end = from + (most + most * table.columns);
    let m = smallest(table, most, work, &mut slots[from..end])?;
    number::write(slots, at, m);
    Some(m)
}
