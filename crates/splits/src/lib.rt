// Classes of states in an array, each named by its least state, split by keys: a class is split by linking the classes that it falls into, least states first,
// without a table of pairs. A split costs n steps and the links followed. Parts for the partition: they have requires, and are no entries.
#![tactic(auto)]

ghost use Rattle.std.specs.Prelude.{◌≡◌, ◌≤◌, ◌<◌, length};
ghost use Rattle.moves.specs.Holds.{AcceptKeys};
ghost use Rattle.splits.specs.Splits.{Links, Found, Named, Split, Columns, ColumnKeys, Refined};

use moves::Mark;

// Along the links from `start`, the first state with the key, or the last one.
fn find(keys: &[u8; 120], link: &[u8; 120], start: usize, key: u8, n: usize) -> usize
    requires links { Links link.now n }
    requires start_le_n { (start ≤ n) × (n < 120) }
    ensures { Found keys.now link.now start key n result }
{
    let mut r = start;
    // Stays: a walk along links, no index is counted.
    while keys[r] != key && link[r] != 0 {
        r = link[r] as usize;
    }
    r
}

// Splits each class by the keys of its states, in place: the new class of a state is stored over its old one, and the least state of a class stays.
// How many classes there are then.
pub fn split(n: usize, keys: &[u8; 120], classes: &mut [u8; 120]) -> usize
    requires { (n ≤ 120) × (length classes.old ≡ 120) × Named classes.old n }
    ensures { Split n keys.now classes.old classes.new result }
{
    let mut link = [0u8; 120];
    let mut count = 0;
    for p in 0..n {
        let start = classes[p] as usize;
        if start == p {
            count += 1;
        } else {
            let key = keys[p];
            let found = find(keys, &link, start, key, p);
            if keys[found] == key {
                classes[p] = found as u8;
            } else {
                link[found] = p as u8;
                classes[p] = p as u8;
                count += 1;
            }
        }
    }
    count
}

// Of each state whether it accepts.
pub fn accept_keys(marks: &[u8], keys: &mut [u8; 120])
    requires { (length marks.now ≤ 120) × (length keys.old ≡ 120) }
    ensures { AcceptKeys marks.now keys.new }
{
    for (p, mark) in marks.iter().enumerate() {
        keys[p] = u8::from(Mark::Accepting as u8 == *mark);
    }
}

// Of each state the class that column c leads to.
fn column_keys(
    moves: &[u8],
    m: usize,
    n: usize,
    c: usize,
    classes: &[u8; 120],
    keys: &mut [u8; 120],
)
    requires { Columns m n c moves.now × (length keys.old ≡ 120) }
    ensures { ColumnKeys m moves.now n c classes.now keys.new }
{
    for p in 0..n {
        keys[p] = classes[moves[p * m + c] as usize];
    }
}

// Splits each class by where column c leads.
pub fn refine(
    moves: &[u8],
    m: usize,
    n: usize,
    c: usize,
    keys: &mut [u8; 120],
    classes: &mut [u8; 120],
) -> usize
    requires columns { Columns m n c moves.now × (length classes.old ≡ 120) × Named classes.old n }
    requires keys_len { length keys.old ≡ 120 }
    ensures { Refined m moves.now n c classes.old classes.new result × (length keys.new ≡ 120) }
{
    column_keys(moves, m, n, c, classes, keys);
    split(n, keys, classes)
}
