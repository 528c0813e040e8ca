// A program's codes, one after another, and the machine that they leave.
ghost use Rattle.answers.specs.Scratch.{SameRoom};
ghost use Rattle.evaluate.specs.Steps.{Stepping, Steps};
ghost use Rattle.evaluate.specs.declared.run.Failure.TheVariants.{TooMany as Failed};
ghost use Rattle.evaluate.specs.Run.{Running, height_of};
ghost use Rattle.evaluate.specs.Evaluated.{Evaluates};
ghost use Rattle.std.specs.Prelude.{◌≡◌};

use answers::{Scratch, TooMany};
use codes::Sort;
use operands::{Layout, Names, copies, operand};
use operations::apply;

// The height of the stack behind a code, and the most sets that one of its stages made.
#[derive(Clone, Copy)]
struct Stepped {
    height: usize,
    sets: usize,
}

// Why a program makes no machine: a stage keeps none, or there are too few machines on the stack, or there is no such code.
#[derive(Clone, Copy, Debug, PartialEq, Eq)]
pub enum Failure {
    TooMany(TooMany),
    Stuck,
}

impl From<TooMany> for Failure {
    ghost from_gives = { λ refusal r. r ≡ Failed refusal };

    fn from(refusal: TooMany) -> Failure {
        Failure::TooMany(refusal)
    }
}

// One code.
fn step(
    c: u8,
    sp: usize,
    l: Layout,
    letters: &[u8],
    names: &Names,
    registers: &mut [u8],
    stack: &mut [u8],
    scratch: &mut Scratch,
) -> Result<Stepped, Failure>
    requires { Stepping l letters.now names.now.low.now names.now.high.now registers.old c sp stack.old scratch.old }
    ensures steps { Steps l letters.now names.now.low.now names.now.high.now c sp registers.old stack.old registers.new stack.new result }
    ensures room { SameRoom scratch.old scratch.new }
{
    let sort = codes::sort_of(c).ok_or(Failure::Stuck)?;
    match sort {
        Sort::Push(source) => {
            operand::bring(source, l, letters, names, registers, stack, sp);
            Ok(Stepped {
                height: sp + 1,
                sets: 0,
            })
        }
        Sort::Top(operation) => {
            let count = operation.operands();
            if sp < count {
                return Err(Failure::Stuck);
            }
            let left = sp - count;
            let sets = apply::apply(operation, letters.len(), l, left, sp - 1, stack, scratch)?;
            Ok(Stepped {
                height: left + 1,
                sets,
            })
        }
        Sort::Beside { operation, operand } => {
            if sp < 1 {
                return Err(Failure::Stuck);
            }
            let sets = apply::beside(
                operation,
                operand,
                l,
                letters,
                names,
                registers,
                sp - 1,
                stack,
                scratch,
            )?;
            Ok(Stepped { height: sp, sets })
        }
        Sort::Plus => {
            if sp < 1 {
                return Err(Failure::Stuck);
            }
            let sets = apply::plus(letters.len(), l, sp - 1, stack, scratch)?;
            Ok(Stepped { height: sp, sets })
        }
        Sort::Store(register) => {
            if sp < 1 {
                return Err(Failure::Stuck);
            }
            let size = l.size;
            copies::copy(
                &stack[..],
                (sp - 1) * size,
                registers,
                register.index() * size,
                l.limits.states,
                letters.len() + 1,
            );
            Ok(Stepped {
                height: sp - 1,
                sets: 0,
            })
        }
    }
}

// A line's program: its machine is left in front of the stack. The most sets that one of its stages made.
pub fn run(
    code: &[u8],
    l: Layout,
    letters: &[u8],
    names: &Names,
    registers: &mut [u8],
    stack: &mut [u8],
    scratch: &mut Scratch,
) -> Result<usize, Failure>
    requires running { Running l letters.now names.now.low.now names.now.high.now registers.old code.now stack.old scratch.old }
    requires code_value { height_of 0 code.now ≡ 1 }
    ensures made { Evaluates l letters.now names.now.low.now names.now.high.now code.now registers.old registers.new stack.new result }
    ensures room { SameRoom scratch.old scratch.new }
{
    let mut sp = 0;
    let mut peak: usize = 0;
    for c in code {
        let made = step(*c, sp, l, letters, names, registers, stack, scratch)?;
        sp = made.height;
        peak = peak.max(made.sets);
    }
    Ok(peak)
}
