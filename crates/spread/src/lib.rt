// The states of a table spread over classes by answer and by how far a change is. A part for the refinement: it has requires, and is no entry.
#![tactic(auto)]

mod change;
mod gather;

ghost use Rattle.entries.specs.Classes.{Sized, Refining};

use entries::table::Table;

// Classes by answer and number, in place of those that some rounds found; where the numbers do not settle, the classes stay.
pub fn spread(table: &Table, classes: &mut [u16], far: &mut [u16], firsts: &mut [u16])
    requires sized { Sized table.now classes.old far.old firsts.old }
    requires refining { Refining table.now classes.old 0 }
    ensures { Refining table.now classes.new 0 }
{
    if !change::changes(table, far) {
        return;
    }
    gather::gather(table, classes, far, firsts, false);
    gather::gather(table, classes, far, firsts, true);
}
