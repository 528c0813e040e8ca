// The entries for Rust and C, on numbers and slices: each hands back the paper's number of its answer, 0 where nothing is refused, and puts the rest of the
// answer into `out`. They ask nothing of the caller.
#![tactic(auto)]

mod many;

ghost use Rattle.std.specs.Prelude.{◌≡◌, length};
ghost use Rattle.automata.specs.Format.{narrow};
ghost use Rattle.card.specs.Answer.{load, load_numbers, step_numbers, reply_numbers};
ghost use Rattle.card.specs.Judge.{judge};
ghost use Rattle.card.specs.Step.{step_on};
ghost use Rattle.compiler.specs.Outcome.{outcome};
ghost use Rattle.driver.specs.Entry.{documented, lent_lengths};
ghost use Rattle.factor.specs.Shortest.{shortest};
ghost use Rattle.census.specs.Census.{census};
ghost use Rattle.numbers.specs.Handed.{handed, numbers, step_handed, shortest_numbers, census_numbers};
ghost use Rattle.capi.specs.Compiles.{Compiles};

// Loading: 0, and letters, states, 0; or 21 to 26.
#[unsafe(no_mangle)]
pub extern "C" fn pier_load(card: &[u8], out: &mut [u64; 3]) -> u64
    ensures { handed result out.new ≡ numbers (load_numbers (load narrow card.now)) }
{
    numbers::loaded(board::counts(card), out)
}

// One step: 0, and the next state, its marks byte, the letters owed where that is 0; or 21 to 28. The card is tested first, so that a step costs a load.
#[unsafe(no_mangle)]
pub extern "C" fn pier_step(card: &[u8], state: usize, letter: u8, out: &mut [u64; 3]) -> u64
    ensures { handed result out.new ≡ step_handed (step_numbers (step_on narrow card.now state letter)) }
{
    numbers::stepped(board::step(card, state, letter), out)
}

// Judging: 0, and the verdict (1 allowed, 0 unfinished, 2 hopeless), the letters owed of unfinished or the place of hopeless, 0; or 21 to 26; or 27, and 0,
// the letters before the first unknown one, 0.
#[unsafe(no_mangle)]
pub extern "C" fn pier_judge(card: &[u8], plan: &[u8], out: &mut [u64; 3]) -> u64
    ensures { handed result out.new ≡ numbers (reply_numbers (judge narrow card.now plan.now)) }
{
    numbers::judged(board::judge(card, plan), out)
}

// The shortest factor of a plan that lies inside no allowed plan: 0, and 1, its start, its length, or three zeros for none; or 21 to 26; or 27, and 0, the
// letters before the first unknown one, 0.
#[unsafe(no_mangle)]
pub extern "C" fn pier_shortest(card: &[u8], plan: &[u8], out: &mut [u64; 3]) -> u64
    ensures { handed result out.new ≡ shortest_numbers (shortest narrow card.now plan.now) }
{
    numbers::blamed(forbidden::shortest(card, plan), out)
}

// How many plans of a length there are: 0, and the allowed, the unfinished, the hopeless ones; or 21 to 26, or 31.
#[unsafe(no_mangle)]
pub extern "C" fn pier_count(card: &[u8], letters: usize, out: &mut [u64; 3]) -> u64
    ensures { handed result out.new ≡ census_numbers (census narrow card.now letters) }
{
    numbers::census(counting::of_length(card, letters), out)
}

// Compiling: 0, and 0, the card's length, the peak; or the number of a refusal, and its line, 0, 0. The card stands in front of the card buffer, or the
// buffer is left alone; the other buffers are free.
#[unsafe(no_mangle)]
pub extern "C" fn pier_compile(
    text: &[u8],
    card: &mut [u8],
    low: &mut [u8],
    high: &mut [u8],
    registers: &mut [u8],
    stack: &mut [u8],
    rows: &mut [u8],
    table: &mut [u16],
    work: &mut [u16],
    code: &mut [u8],
    out: &mut [u64; 3],
) -> u64
    ensures { Compiles (outcome narrow documented text.now (lent_lengths low.old high.old registers.old stack.old rows.old table.old work.old code.old) (length card.old)) card.old card.new result out.new }
{
    let answer = driver::compile(
        text, card, low, high, registers, stack, rows, table, work, code,
    );
    numbers::compiled(answer, out)
}
