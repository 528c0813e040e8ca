// Partition refinement over a table (Moore's algorithm, with a split by distances where it drags on): each state's class, rounds that part the classes, until
// a round parts none. A class goes by its first state, its leader. In a round a state is compared only with the leaders that its old class has so far, which
// are linked: of each state the class, the class after the round and the link stand in three lists.
ghost use Rattle.std.specs.Prelude.{◌≡◌, ◌<◌, length, get_or};
ghost use Rattle.automata.specs.Partition.{classes as classes_of};
ghost use Rattle.entries.specs.Entries.{machine_of};
ghost use Rattle.entries.specs.Classes.{Sized, Refining};
ghost use Rattle.leaders.specs.Round.{Under};
ghost use Rattle.classes.specs.Refine.{FirstOther, side_of, Parted, Begun, Placing, Rounded, Turned};

use entries::table::Table;
use leaders::leader;
use spread::spread;

// Rounds before the distances are looked at. No stage of the books in bench/books takes more than 22.
const FIRST_ROUNDS: usize = 24;

// State p is placed: under an earlier leader of its class, or as the latest leader that the class has. Whether it leads.
fn place(table: &Table, classes: &[u16], next: &mut [u16], links: &mut [u16], p: usize) -> bool
    requires { Under table.now p classes.now next.old links.old }
    ensures { Placing table.now p classes.now next.old next.new links.new result }
{
    let c = usize::from(classes[p]);
    if c == p {
        next[p] = p as u16;
        links[p] = p as u16;
        return true;
    }
    if let Some(r) = leader(table, classes, links, p) {
        next[p] = r as u16;
        return false;
    }
    next[p] = p as u16;
    links[p] = links[c];
    links[c] = p as u16;
    true
}

// One round: each state is placed. How many classes there are then.
fn round(table: &Table, classes: &[u16], next: &mut [u16], links: &mut [u16]) -> usize
    requires { Begun table.now classes.now next.old links.old }
    ensures { Rounded table.now classes.now next.new result }
{
    let mut count = 0;
    for p in 0..table.states {
        if place(table, classes, next, links, p) {
            count += 1;
        }
    }
    count
}

// The first state that does not answer as state 0 does.
fn first_other(table: &Table) -> Option<usize>
    ensures { FirstOther table.now result }
{
    let first = table.accepts(0);
    (0..table.states).find(|p| table.accepts(*p) != first)
}

// The class of a state when states are parted by acceptance: that of state 0, or of the first other one.
fn side(table: &Table, other: Option<usize>, p: usize) -> usize
    requires { p < table.now.states }
    ensures { result ≡ side_of table.now other p }
{
    match other {
        Some(q) if table.accepts(p) != table.accepts(0) => q,
        _ => 0,
    }
}

// States parted by acceptance.
fn part(table: &Table, classes: &mut [u16])
    requires { (length classes.old ≡ table.now.states) × (table.now.states < 65536) }
    ensures { Parted table.now classes.new }
{
    let other = first_other(table);
    for p in 0..table.states {
        classes[p] = side(table, other, p) as u16;
    }
}

// Rounds until one parts no class: true; or so many of them.
fn rounds(
    table: &Table,
    classes: &mut [u16],
    next: &mut [u16],
    links: &mut [u16],
    most: usize,
) -> bool
    requires sized { Sized table.now classes.old next.old links.old }
    requires refining { Refining table.now classes.old 0 }
    ensures { Turned table.now classes.new most result }
{
    let mut count = 0;
    for _ in 0..most {
        let parts = round(table, classes, next, links);
        if parts == count {
            return true;
        }
        octets::copy(classes, next);
        count = parts;
    }
    false
}

// The classes of equivalent states, each by its first state: some rounds from the two classes by acceptance on, which are enough for most tables; where
// they drag on, classes by how far a change is, and rounds until one parts none: no more than there are states, and one.
pub fn refine(table: &Table, classes: &mut [u16], next: &mut [u16], links: &mut [u16])
    requires { Sized table.now classes.old next.old links.old }
    ensures { classes.new ≡ classes_of table.now.columns (machine_of table.now) }
{
    part(table, classes);
    let mut most = FIRST_ROUNDS;
    // Stays: the rounds are called from one place, so that they are a part of the stage's own function in the machine code.
    while !rounds(table, classes, next, links, most) {
        spread(table, classes, next, links);
        most = table.states + 1;
    }
}
