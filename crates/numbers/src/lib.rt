// Each entry's answer handed over as numbers: the paper's number of it, 0 where nothing is refused, is handed back, and the rest of it is put into `out`.
#![tactic(auto)]

ghost use Rattle.std.specs.Prelude.{◌≡◌, ◌∷◌, []};
ghost use Rattle.card.specs.Answer.{load_numbers, step_numbers, reply_numbers};
ghost use Rattle.board.specs.Answers.{counting, stepping, reply_of};
ghost use Rattle.forbidden.specs.Reading.{answer_of};
ghost use Rattle.counting.specs.Reading.{answer_of as census_of};
ghost use Rattle.plans.specs.Many.{many_of};
ghost use Rattle.compiler.specs.Reading.{reading};
ghost use Rattle.numbers.specs.Handed.{handed, numbers, step_handed, answer_numbers, shortest_numbers, census_numbers};

use board::{Refusal, StepRefusal, Stepped};
use compiler::Compiled;
use fields::Counts;
use forbidden::Stretch;
use loading::Fault;
use run::Verdict;

// The number handed back, and three numbers in `out`.
fn put(out: &mut [u64; 3], number: u64, first: u64, second: u64, third: u64) -> u64
    ensures { handed result out.new ≡ handed number (first ∷ second ∷ third ∷ []) }
{
    *out = [first, second, third];
    number
}

// Loading: 0, and letters, states, 0; or 21 to 26.
pub fn loaded(answer: Result<Counts, Fault>, out: &mut [u64; 3]) -> u64
    ensures { handed result out.new ≡ numbers (load_numbers (counting answer)) }
{
    match answer {
        Ok(counts) => put(out, 0, counts.letters as u64, counts.states as u64, 0),
        Err(fault) => put(out, fault.number() as u64, 0, 0, 0),
    }
}

// One step: 0, and the next state, its marks byte, the letters owed where that is 0; or 21 to 28.
pub fn stepped(answer: Result<Stepped, StepRefusal>, out: &mut [u64; 3]) -> u64
    ensures { handed result out.new ≡ step_handed (step_numbers (stepping answer)) }
{
    match answer {
        Ok(Stepped::Owing { next, letters }) => put(out, 0, next as u64, 0, letters as u64),
        Ok(Stepped::Accepting { next }) => put(out, 0, next as u64, 1, 0),
        Ok(Stepped::Dead { next }) => put(out, 0, next as u64, 2, 0),
        Err(refusal) => put(out, refusal.number() as u64, 0, 0, 0),
    }
}

// Judging: 0, and the verdict (1 allowed, 0 unfinished, 2 hopeless), the letters owed of unfinished or the place of hopeless, 0; or 21 to 26; or 27, and 0,
// the letters before the first unknown one, 0.
pub fn judged(answer: Result<Verdict, Refusal>, out: &mut [u64; 3]) -> u64
    ensures { handed result out.new ≡ numbers (reply_numbers (reply_of answer)) }
{
    match answer {
        Ok(Verdict::Allowed) => put(out, 0, 1, 0, 0),
        Ok(Verdict::Unfinished(owed)) => put(out, 0, 0, owed as u64, 0),
        Ok(Verdict::Hopeless(k)) => put(out, 0, 2, k as u64, 0),
        Err(refusal) => put(out, refusal.number() as u64, 0, refusal.before() as u64, 0),
    }
}

// The shortest factor inside no allowed plan: 0, and 1, its start, its length, or three zeros for none; or 21 to 26; or 27, and 0, the letters before the
// first unknown one, 0.
pub fn blamed(answer: Result<Option<Stretch>, Refusal>, out: &mut [u64; 3]) -> u64
    ensures { handed result out.new ≡ shortest_numbers (answer_of answer) }
{
    match answer {
        Ok(None) => put(out, 0, 0, 0, 0),
        Ok(Some(Stretch { start, length })) => put(out, 0, 1, start as u64, length as u64),
        Err(refusal) => put(out, refusal.number() as u64, 0, refusal.before() as u64, 0),
    }
}

// How many plans of a length: 0, and the allowed, the unfinished, the hopeless ones; or 21 to 26, or 31.
pub fn census(answer: Result<counting::Census, counting::Refusal>, out: &mut [u64; 3]) -> u64
    ensures { handed result out.new ≡ census_numbers (census_of answer) }
{
    match answer {
        Ok(counts) => put(out, 0, counts.allowed, counts.unfinished, counts.hopeless),
        Err(refusal) => put(out, refusal.number() as u64, 0, 0, 0),
    }
}

// Many plans: 0, and how many were judged, the bytes they took, 0; or 21 to 26.
pub fn counted(answer: Result<plans::Judged, Fault>, out: &mut [u64; 3]) -> u64
    ensures { handed result out.new ≡ numbers (many_of answer) }
{
    match answer {
        Ok(judged) => put(out, 0, judged.plans as u64, judged.bytes as u64, 0),
        Err(fault) => put(out, fault.number() as u64, 0, 0, 0),
    }
}

// Compiling: 0, and 0, the card's length, the peak; or the number of a refusal, and its line, 0, 0.
pub fn compiled(answer: Result<Compiled, compiler::Refusal>, out: &mut [u64; 3]) -> u64
    ensures { handed result out.new ≡ answer_numbers (reading answer) }
{
    match answer {
        Ok(compiled) => put(out, 0, 0, compiled.length as u64, compiled.peak as u64),
        Err(refusal) => put(out, refusal.number() as u64, refusal.line() as u64, 0, 0),
    }
}
