// The smallest machine of a table, numbered by first arrival. Parts for the compiler's stages: they have requires, and are no entries.
#![tactic(auto)]

mod number;

ghost use Rattle.entries.specs.Entries.{machine_of};
ghost use Rattle.minimise.specs.Minimised.{Fitting, Minimised};

use classes::refine::refine;
use entries::table::Table;

// The smallest machine that accepts the words of the table's machine, as a table of bytes in the slot, its moves from place `most` on: how many states it has.
// None where they are more than `most`; what the slot holds is then free. The lent list is parted once: into the class of each state, a number of each, and
// what is left, which holds links while the classes are parted, and then the order of the numbers.
pub fn smallest(table: &Table, most: usize, work: &mut [u16], slot: &mut [u8]) -> Option<usize>
    requires { Fitting table.now most work.old slot.old }
    ensures { Minimised table.now.columns most (machine_of table.now) slot.new result }
{
    let (classes, rest) = work.split_at_mut(table.states);
    let (numbers, order) = rest.split_at_mut(table.states);
    refine(table, classes, numbers, order);
    number::number(table, most, classes, numbers, order, slot)
}
