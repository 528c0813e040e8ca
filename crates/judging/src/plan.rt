// One plan after another on a card that is tested once, each plan in pieces.
ghost use Rattle.judging.specs.Plan.{Loads, Tests};

use crate::State;
use board::Refusal;
use loading::Fault;
use run::{Card, Judge, Run, Verdict, Walker};

// The caller's bytes, and what their test gave: the card, or why it does not load. Its tables are lent to what needs them.
#[derive(Clone, Copy)]
pub struct Loaded<'a> {
    pub bytes: &'a [u8],
    pub card: Result<Card<'a>, Fault>,
    pub ghost loads: { Loads bytes.now card },
}

impl<'a> Loaded<'a> {
    ghost use Rattle.std.specs.Prelude.{◌≡◌, [], ◌+◌, ◌<◌, ◌^◌, length};
    ghost use Rattle.automata.specs.Format.{narrow};
    ghost use Rattle.card.specs.Load.{load_test};
    ghost use Rattle.judging.specs.Plan.{Columns, Owed, Goes, Judges, More, Answers};

    // Tests the card.
    pub fn of(bytes: &'a [u8]) -> Loaded<'a>
        ensures { result.bytes.now ≡ bytes.now }
    {
        Loaded {
            bytes,
            card: board::load(bytes),
        }
    }

    // The table of its columns; a refused card needs none.
    pub fn columns(&self) -> [u8; 256]
        ensures { Columns self.now.bytes.now result }
    {
        match &self.card {
            Ok(card) => Walker::of(card).columns,
            Err(_) => [0u8; 256],
        }
    }

    // The table of the letters owed; a refused card needs none.
    pub fn owed(&self) -> [u16; 120]
        ensures { Owed self.now.bytes.now result }
    {
        match &self.card {
            Ok(card) => run::owed::owed_table(card),
            Err(_) => [0u16; 120],
        }
    }

    // A plan begins.
    pub fn begin(&self) -> Run
        ensures { Judges self.now.bytes.now [] result }
    {
        match &self.card {
            Ok(card) => run::start(card),
            Err(_) => Run {
                state: 0,
                letters: 0,
                dead: None,
                unknown: None,
            },
        }
    }

    // One piece more of the plan, by the table of columns.
    pub fn more(&self, columns: &[u8; 256], run: Run, piece: &[u8]) -> Run
        requires { Columns self.now.bytes.now columns.now × Goes self.now.bytes.now run × (load_test narrow self.now.bytes.now ≡ 0 → run.letters + length piece.now < 2 ^ 64) }
        ensures { More self.now.bytes.now run piece.now result }
    {
        match &self.card {
            Ok(card) => {
                let walk = Walker {
                    card: *card,
                    columns: *columns,
                };
                walk.piece(run, piece)
            }
            Err(_) => run,
        }
    }

    // The answer to the plan, by the table of letters owed.
    pub fn answer(&self, owed: &[u16; 120], run: Run) -> Result<Verdict, Refusal>
        requires { Goes self.now.bytes.now run × Owed self.now.bytes.now owed.now }
        ensures { Answers self.now.bytes.now run result }
    {
        match &self.card {
            Ok(card) => Ok(run::reply_by(card, owed, run)?),
            Err(fault) => Err(Refusal::Card(*fault)),
        }
    }
}

// The caller's bytes, and what their test gave: the card with its tables, or why it does not load.
#[derive(Drop)]
pub struct Tested<'a> {
    pub bytes: &'a [u8],
    pub judge: Result<Judge<'a>, Fault>,
    pub ghost tests: { Tests bytes.now judge },
}

impl<'a> Tested<'a> {
    ghost use Rattle.std.specs.Prelude.{◌≡◌, [], ◌+◌, ◌≤◌, ◌<◌, ◌^◌, length};
    ghost use Rattle.automata.specs.Format.{narrow};
    ghost use Rattle.card.specs.Load.{load_test};
    ghost use Rattle.reply.specs.Text.{longest};
    ghost use Rattle.judging.specs.Plan.{Goes, Judges, More, Answers};
    ghost use Rattle.judging.specs.Lines.{Since, Counted, Finishes};

    // Tests the card, and makes its tables; a refused card needs none.
    pub fn of(bytes: &'a [u8]) -> Tested<'a>
        ensures { result.bytes.now ≡ bytes.now }
    {
        match board::load(bytes) {
            Ok(card) => Tested {
                bytes,
                judge: Ok(Judge::of(&card)),
            },
            Err(fault) => Tested {
                bytes,
                judge: Err(fault),
            },
        }
    }

    // A plan begins.
    pub fn begin(&self) -> Run
        ensures { Judges self.now.bytes.now [] result }
    {
        match &self.judge {
            Ok(judge) => run::start(&judge.walker.card),
            Err(_) => Run {
                state: 0,
                letters: 0,
                dead: None,
                unknown: None,
            },
        }
    }

    // One piece more of the plan.
    pub fn more(&self, run: Run, piece: &[u8]) -> Run
        requires { Goes self.now.bytes.now run × (load_test narrow self.now.bytes.now ≡ 0 → run.letters + length piece.now < 2 ^ 64) }
        ensures { More self.now.bytes.now run piece.now result }
    {
        match &self.judge {
            Ok(judge) => judge.walker.piece(run, piece),
            Err(_) => run,
        }
    }

    // The answer to the plan.
    pub fn answer(&self, run: Run) -> Result<Verdict, Refusal>
        requires { Goes self.now.bytes.now run }
        ensures { Answers self.now.bytes.now run result }
    {
        match &self.judge {
            Ok(judge) => Ok(judge.reply(run)?),
            Err(fault) => Err(Refusal::Card(*fault)),
        }
    }

    // Before the first byte of many plans.
    pub fn start(&self) -> State
        ensures { Since self.now.bytes.now [] result }
    {
        let run = self.begin();
        State { run, open: false }
    }

    // Behind the last byte of many plans, as `finish`.
    pub fn finish(&self, state: State, out: &mut [u8]) -> usize
        requires { Counted self.now.bytes.now state 0 × (longest ≤ length out.old) }
        ensures { Finishes self.now.bytes.now state out.new result }
    {
        let run = state.run;
        let open = state.open;
        if open {
            return reply::line(out, 0, self.answer(run));
        }
        0
    }
}
