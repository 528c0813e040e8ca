// Classes by number: each state that answers alike goes by the first state that has its number. One pass over the states.
ghost use Rattle.std.specs.Prelude.{◌≡◌, ◌≤◌, ◌<◌, length, get_or};
ghost use Rattle.spread.specs.Gather.{Numbered, Gathered, Joined};

use entries::table::Table;

// State p goes by the first state that has its number; where that is p, it is listed.
fn join(classes: &mut [u16], far: &[u16], firsts: &mut [u16], p: usize)
    requires { (p < length classes.old) × (p < length far.now) × (length far.now ≤ length firsts.old) × (get_or far.now p 0 < length firsts.old) × (p < 65535) }
    ensures { Joined far.now classes.old firsts.old classes.new firsts.new p }
{
    let d = usize::from(far[p]);
    let f = firsts[d];
    if f == 0 {
        firsts[d] = (p + 1) as u16;
        classes[p] = p as u16;
        return;
    }
    classes[p] = f - 1;
}

// The states with the answer `side` go by the first state that has their number.
pub fn gather(table: &Table, classes: &mut [u16], far: &[u16], firsts: &mut [u16], side: bool)
    requires numbered { Numbered table.now far.now }
    requires room { (length classes.old ≡ table.now.states) × (table.now.states ≤ length firsts.old) }
    ensures { Gathered table.now side far.now classes.old classes.new table.now.states }
{
    firsts[..table.states].fill(0);
    for p in 0..table.states {
        if table.accepts(p) == side {
            join(classes, far, firsts, p);
        }
    }
}
