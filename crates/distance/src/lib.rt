// How far a change is: of each state the fewest letters that are read before one which changes its answer. Equivalent states are equally far from a change,
// and in a long row of letters no two states are, so that one look at these numbers parts what would take as many rounds as there are letters. Bellman and
// Ford's relaxation in place, with Yen's sweeps in turn: most moves lead to later states, so that the sweep from the last state to the first does nearly all
// of it. A sweep looks at each move once; after eight pairs of sweeps the numbers are given up. A part for refinements: it has requires, and is no entry.
#![tactic(auto)]

pub mod steps;

ghost use Rattle.std.specs.Prelude.{◌≡◌, ◌≤◌, ◌<◌, length, map};
ghost use Rattle.distance.specs.Changes.{Near, Unknown, Numbers, Lowered, Swept, Settled};

use steps::{Number, Steps};

// So many pairs of sweeps at most.
const PAIRS: usize = 8;

// The least that is known behind the letters of state p, less than there are states.
fn nearest<M: Steps, N: Number>(machine: &M, far: &[N], p: usize) -> usize
    requires { Numbers (M.steps machine.now) (map N.value far.now) × (p < (M.steps machine.now).states) }
    ensures { Near (M.steps machine.now) (map N.value far.now) p (M.steps machine.now).letters result }
{
    let mut best = machine.states() - 1;
    for c in 0..machine.letters() {
        let t = machine.step(p, c);
        if !machine.alike(t, p) {
            return 0;
        }
        best = best.min(far[t].wide() + 1);
    }
    best
}

// Lowers the number of state p. Whether it did.
fn lower<M: Steps, N: Number>(machine: &M, far: &mut [N], p: usize) -> bool
    requires numbers { Numbers (M.steps machine.now) (map N.value far.old) × (p < (M.steps machine.now).states) }
    requires limit { (M.steps machine.now).states ≤ N.limit }
    ensures { Lowered (M.steps machine.now) (map N.value far.old) (map N.value far.new) p result }
{
    let x = nearest(machine, far, p);
    if x < far[p].wide() {
        far[p] = N::narrow(x);
        return true;
    }
    false
}

// Two sweeps, the last state first and then the first state first. Whether the second lowered a number.
fn sweep<M: Steps, N: Number>(machine: &M, far: &mut [N]) -> bool
    requires numbers { Numbers (M.steps machine.now) (map N.value far.old) }
    requires limit { (M.steps machine.now).states ≤ N.limit }
    ensures { Swept (M.steps machine.now) (map N.value far.new) (M.steps machine.now).states result }
{
    for p in (0..machine.states()).rev() {
        lower(machine, far, p);
    }
    let mut changed = false;
    for p in 0..machine.states() {
        changed |= lower(machine, far, p);
    }
    changed
}

// From numbers that say that no change is known: the numbers, where a few sweeps settle them: true; else they say nothing.
pub fn changes<M: Steps, N: Number>(machine: &M, far: &mut [N]) -> bool
    requires limit { (M.steps machine.now).states ≤ N.limit }
    requires unknown { Unknown (M.steps machine.now) (map N.value far.old) }
    ensures { Settled (M.steps machine.now) (map N.value far.new) result }
{
    for _ in 0..PAIRS {
        if !sweep(machine, far) {
            return true;
        }
    }
    false
}
