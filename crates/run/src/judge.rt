// Judging many plans on one card: the columns and the letters owed are found once.
ghost use Rattle.run.specs.Walk.{OwedTable};

use crate::owed::owed_table;
use crate::{Card, Run, UnknownLetter, Verdict, Walker, reply_by};

// A card with its columns, and of every unfinished state the letters owed.
#[derive(Drop)]
pub struct Judge<'a> {
    pub walker: Walker<'a>,
    pub owed: [u16; 120],
    pub ghost right: { OwedTable walker.card.layout.bytes.now walker.card.layout.counts.states owed },
}

impl<'a> Judge<'a> {
    ghost use Rattle.std.specs.Prelude.{◌≡◌};
    ghost use Rattle.automata.specs.Format.{narrow};
    ghost use Rattle.card.specs.Run.{run_reply};
    ghost use Rattle.run.specs.Reading.{run_of, reply_of};
    ghost use Rattle.run.specs.Cards.{bytes_of, states_in};
    ghost use Rattle.run.specs.Walk.{Underway};

    // A card and its tables.
    pub fn of(card: &Card<'a>) -> Judge<'a>
        ensures { result.walker.card ≡ card.now }
    {
        Judge {
            walker: Walker::of(card),
            owed: owed_table(card),
        }
    }

    // The answer of a run at the plan's end.
    pub fn reply(&self, run: Run) -> Result<Verdict, UnknownLetter>
        requires { Underway (bytes_of self.now.walker.card) (states_in self.now.walker.card) run }
        ensures { reply_of result ≡ run_reply narrow (bytes_of self.now.walker.card) (run_of run) }
    {
        reply_by(&self.walker.card, &self.owed, run)
    }
}
