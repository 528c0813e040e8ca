// The whole way: a book is compiled, just its card's bytes are handed to the board, the board loads them and judges a plan, each by the real entry. The
// contract is demand 3 for these arguments. It asks nothing of the caller.
#![tactic(auto)]

ghost use Rattle.driver.specs.Entry.{lent_lengths};
ghost use Rattle.delivery.specs.Delivers.{Delivers};

use compiler::Refusal;
use handing::Delivered;

// Compiles a book and judges a plan by its card.
pub fn deliver(
    text: &[u8],
    plan: &[u8],
    card: &mut [u8],
    low: &mut [u8],
    high: &mut [u8],
    registers: &mut [u8],
    stack: &mut [u8],
    rows: &mut [u8],
    table: &mut [u16],
    work: &mut [u16],
    code: &mut [u8],
) -> Result<Delivered, Refusal>
    ensures { Delivers text.now plan.now (lent_lengths low.old high.old registers.old stack.old rows.old table.old work.old code.old) card.old card.new result }
{
    let answer = driver::compile(
        text, card, low, high, registers, stack, rows, table, work, code,
    );
    handing::hand_over(answer, &card[..], plan)
}
