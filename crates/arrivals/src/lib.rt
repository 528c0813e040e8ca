// How many words of k letters lead from state 0 of a table of moves to each state: forward, letter after letter, over two rows of numbers with one a state. A
// round looks at each state, and at the moves of those that some word leads to. Parts for the board: they have requires, and are no entries.
#![tactic(auto)]

pub mod power;

ghost use Rattle.std.specs.Prelude.{◌≡◌, ◌<◌, length};
ghost use Rattle.arrivals.specs.Weights.{weighed, mark_weight};
ghost use Rattle.arrivals.specs.Rounds.{Passable, Passed, Roomy, Advanced, Started, Startable, Begun, Arrived, Countable};

// The words of a state, with a letter more: so many more for each state to which a move of its row leads.
fn pass_on(row: &[u8], words: u64, next: &mut [u64])
    requires { Passable row.now words next.old }
    ensures { Passed row.now (length row.now) words next.old next.new }
{
    for t in row {
        next[*t as usize] += words;
    }
}

// A letter more: the words of `here` passed on to `next`.
fn advance(moves: &[u8], m: usize, here: &[u64], next: &mut [u64])
    requires { Roomy moves.now m here.now next.old }
    ensures { Advanced moves.now m here.now next.old next.new }
{
    next.fill(0);
    for (p, words) in here.iter().enumerate() {
        if *words != 0 {
            let at = p * m;
            pass_on(&moves[at..at + m], *words, next);
        }
    }
}

// The empty word: it leads to state 0.
fn start(row: &mut [u64])
    requires { 0 < length row.old }
    ensures { Started row.old row.new }
{
    row.fill(0);
    row[0] = 1;
}

// The words of no letter or of one, in `here`.
fn begin(moves: &[u8], m: usize, k: usize, here: &mut [u64], next: &mut [u64])
    requires { Startable moves.now m k here.old next.old × (k < 2) }
    ensures { Begun moves.now m k here.old here.new next.new }
{
    if k == 0 {
        start(here);
        return;
    }
    start(next);
    advance(moves, m, &next[..], here);
}

// The words of k letters, in `here`: the odd letter first, then two rounds a turn, so that no row is copied.
pub fn arrive(moves: &[u8], m: usize, k: usize, here: &mut [u64], next: &mut [u64])
    requires { Startable moves.now m k here.old next.old }
    ensures { Arrived moves.now m k (length here.old) here.new }
{
    begin(moves, m, k % 2, here, next);
    for _ in 0..k / 2 {
        advance(moves, m, &here[..], next);
        advance(moves, m, &next[..], here);
    }
}

// How many words lead to states with this marks byte.
pub fn total(words: &[u64], marks: &[u8], mark: u8) -> u64
    requires { Countable words.now marks.now }
    ensures { result ≡ weighed (mark_weight marks.now mark) words.now }
{
    let mut sum = 0;
    for (p, count) in words.iter().enumerate() {
        if marks[p] == mark {
            sum += *count;
        }
    }
    sum
}
