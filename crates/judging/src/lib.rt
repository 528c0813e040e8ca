// Plans judged as their bytes come, in pieces of any length: a plan ends with a line end, and bytes after the last one are one more plan. The text of
// their answers is left in a lent buffer. These are parts: callers give the state that the last piece left, and room for a line.
#![tactic(auto)]

pub mod plan;

ghost use Rattle.std.specs.Prelude.{[], ◌≤◌, length};
ghost use Rattle.judging.specs.Plan.{Owed};
ghost use Rattle.reply.specs.Text.{longest};
ghost use Rattle.judging.specs.Lines.{Since, Counted, Feeds, Finishes};

pub use plan::{Loaded, Tested};
use reply::LONGEST;
use run::Run;

// Between two pieces: the run of the plan so far, and whether a byte of it has come.
#[derive(Clone, Copy)]
pub struct State {
    pub run: Run,
    pub open: bool,
}

// The state behind the bytes that were used, and how long the text of the plans that ended in them is.
#[derive(Clone, Copy)]
pub struct Fed {
    pub state: State,
    pub used: usize,
    pub at: usize,
}

// Before the first byte. The card is tested, and no table is made.
pub fn start(card: &[u8]) -> State
    ensures { Since card.now [] result }
{
    let run = Loaded::of(card).begin();
    State { run, open: false }
}

// Takes in bytes while there is room for one answer more.
pub fn feed(tested: &Tested, state: State, bytes: &[u8], out: &mut [u8]) -> Fed
    requires { Counted tested.now.bytes.now state (length bytes.now) × (longest ≤ length out.old) }
    ensures { Feeds tested.now.bytes.now state bytes.now out.new result }
{
    let mut run = state.run;
    let mut open = state.open;
    let mut at = 0;
    let mut from = 0;
    // Stays: no index is counted; a turn takes a line, as long as there is room for an answer, so that a range over the bytes would be no plainer.
    while from < bytes.len() {
        let room = out.len() - at;
        if room < LONGEST {
            return Fed {
                state: State { run, open },
                used: from,
                at,
            };
        }
        let end = plans::line_end(bytes, from);
        run = tested.more(run, &bytes[from..end]);
        if end == bytes.len() {
            return Fed {
                state: State { run, open: true },
                used: end,
                at,
            };
        }
        at = reply::line(out, at, tested.answer(run));
        run = tested.begin();
        open = false;
        from = end + 1;
    }
    Fed {
        state: State { run, open },
        used: from,
        at,
    }
}

// Bytes after the last line end are one more plan.
pub fn finish(loaded: &Loaded, owed: &[u16; 120], state: State, out: &mut [u8]) -> usize
    requires { Counted loaded.now.bytes.now state 0 × (longest ≤ length out.old) × Owed loaded.now.bytes.now owed.now }
    ensures { Finishes loaded.now.bytes.now state out.new result }
{
    let run = state.run;
    let open = state.open;
    if open {
        return reply::line(out, 0, loaded.answer(owed, run));
    }
    0
}
