// Which leader of its class a state goes with in a round: two states are compared by the classes that their columns lead to. A part for the refinement: it has
// requires, and is no entry.
#![tactic(auto)]

ghost use Rattle.std.specs.Prelude.{◌≡◌, ◌<◌, get_or};
ghost use Rattle.automata.specs.Machine.{automaton};
ghost use Rattle.automata.specs.Refinement.{SameSignature};
ghost use Rattle.entries.specs.Entries.{class_of, machine_of};
ghost use Rattle.leaders.specs.Round.{Says, Compared, SameClass, Underway, LedBy};

use entries::table::Table;

// Whether column c leads states p and q to one class.
fn agree(table: &Table, classes: &[u16], p: usize, q: usize, c: usize) -> bool
    requires compared { Compared table.now p q classes.now }
    requires c_lt_columns { c < table.now.columns }
    ensures { Says result (SameClass (machine_of table.now) (class_of classes.now) p q c) }
{
    classes[table.target(p, c)] == classes[table.target(q, c)]
}

// Whether a round sees the same of states p and q, of which both accept or neither: each column leads to one class.
// Stays: two columns a turn, as a chain over the columns takes half as many instructions again for a compile of a row of 110 letters, and misses the bar there.
fn alike(table: &Table, classes: &[u16], p: usize, q: usize) -> bool
    requires compared { Compared table.now p q classes.now }
    requires p_value { (automaton (machine_of table.now)).accepting p ≡ (automaton (machine_of table.now)).accepting q }
    ensures { Says result (SameSignature table.now.columns (machine_of table.now) (class_of classes.now) p q) }
{
    for h in 0..table.columns / 2 {
        let c = 2 * h;
        if !agree(table, classes, p, q, c) || !agree(table, classes, p, q, c + 1) {
            return false;
        }
    }
    if table.columns % 2 == 1 {
        return agree(table, classes, p, q, table.columns - 1);
    }
    true
}

// The leader that p goes with, of those that its class has so far: the class's own, by which it goes in most rounds, then the others, the latest first.
pub fn leader(table: &Table, classes: &[u16], links: &[u16], p: usize) -> Option<usize>
    requires under { Underway table.now p classes.now links.now }
    requires fact { get_or classes.now p 0 ≡ p → ⊥ }
    ensures { LedBy table.now p classes.now links.now result }
{
    let c = usize::from(classes[p]);
    if alike(table, classes, c, p) {
        return Some(c);
    }
    let mut r = usize::from(links[c]);
    // Stays: a walk along links, no index is counted.
    while r != c {
        if alike(table, classes, r, p) {
            return Some(r);
        }
        r = usize::from(links[r]);
    }
    None
}
