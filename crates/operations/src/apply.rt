// Operations on machines of the stack: each leaves its machine in the slot of its left operand, and answers the most sets that one of its stages made.
ghost use Rattle.automata.specs.Stage.{then_made};
ghost use Rattle.std.specs.Prelude.{suc, length};
ghost use Rattle.automata.specs.Stages.{star_stage, concat_stage};
ghost use Rattle.sets.specs.Operations.{operation_of};
ghost use Rattle.answers.specs.Operate.{operate};
ghost use Rattle.answers.specs.Scratch.{SameRoom};
ghost use Rattle.operands.specs.Stack.{slot_at};
ghost use Rattle.operands.specs.Operand.{operand_in};
ghost use Rattle.operations.specs.Apply.{format_of, Applying, Makes, Doubling, Besides, Starred};

use answers::{Scratch, TooMany};
use codes::Source;
use operands::{Layout, Names, copies, operand};
use sets::Operation;
use stages::stage;

// An operation on the machines of two slots.
pub fn apply(
    op: Operation,
    m: usize,
    l: Layout,
    left: usize,
    right: usize,
    stack: &mut [u8],
    scratch: &mut Scratch,
) -> Result<usize, TooMany>
    requires { Applying l m left right stack.old scratch.old }
    ensures made { Makes l m left stack.old stack.new result (operate (format_of l) m (operation_of op) (slot_at l.limits.states (suc m) l.size stack.old left) (slot_at l.limits.states (suc m) l.size stack.old right)) }
    ensures room { SameRoom scratch.old scratch.new }
{
    let size = l.size;
    let made = stage::stage(op, m, l.limits, stack, left * size, right * size, scratch)?;
    Ok(made.sets)
}

// An operation on an operand and the top, which moves up for it.
pub fn beside(
    op: Operation,
    source: Source,
    l: Layout,
    letters: &[u8],
    names: &Names,
    registers: &[u8],
    top: usize,
    stack: &mut [u8],
    scratch: &mut Scratch,
) -> Result<usize, TooMany>
    requires { Besides l letters.now names.now.low.now names.now.high.now registers.now source top stack.old scratch.old }
    ensures made { Makes l (length letters.now) top stack.old stack.new result (operate (format_of l) (length letters.now) (operation_of op) (operand_in l letters.now names.now.low.now names.now.high.now registers.now source) (slot_at l.limits.states (suc (length letters.now)) l.size stack.old top)) }
    ensures room { SameRoom scratch.old scratch.new }
{
    let size = l.size;
    let m = letters.len();
    copies::raise(stack, top * size, size, l.limits.states, m + 1);
    operand::bring(source, l, letters, names, registers, stack, top);
    apply(op, m, l, top, top + 1, stack, scratch)
}

// A stays, and `A*` stands above it.
fn star_above(
    m: usize,
    l: Layout,
    top: usize,
    stack: &mut [u8],
    scratch: &mut Scratch,
) -> Result<usize, TooMany>
    requires { Doubling l m top stack.old scratch.old }
    ensures made { Starred l m top stack.old stack.new result }
    ensures room { SameRoom scratch.old scratch.new }
{
    let size = l.size;
    copies::raise(stack, top * size, size, l.limits.states, m + 1);
    apply(Operation::Star, m, l, top + 1, top + 1, stack, scratch)
}

// `A+`: `A*` beside A, and A joined with it.
pub fn plus(
    m: usize,
    l: Layout,
    top: usize,
    stack: &mut [u8],
    scratch: &mut Scratch,
) -> Result<usize, TooMany>
    requires { Doubling l m top stack.old scratch.old }
    ensures made { Makes l m top stack.old stack.new result (then_made (star_stage (format_of l) (suc m) (slot_at l.limits.states (suc m) l.size stack.old top)) λ B. concat_stage (format_of l) (suc m) (slot_at l.limits.states (suc m) l.size stack.old top) B) }
    ensures room { SameRoom scratch.old scratch.new }
{
    let starred = star_above(m, l, top, stack, scratch)?;
    let joined = apply(Operation::Join, m, l, top, top + 1, stack, scratch)?;
    Ok(starred.max(joined))
}
