// Runs each line of a text by itself, over the letters a and b: the line is read, and its program is run on lent buffers of the documented lengths, which
// hold other bytes. Writes for each line the most sets that a stage made with the states of its machine, or the number of its refusal. A rule is met with
// `.*`, as in a book of this one rule; no line may use a name.
#![tactic(auto)]

ghost use Rattle.std.specs.Prelude.{◌≡◌, ◌*◌, ◌<◌, ◌≤◌, length, IfOk};
ghost use Rattle.operands.specs.Stack.{Slots};
ghost use Rattle.evaluate_run.specs.Ready.{Coded};

use answers::{Limits, Scratch};
use evaluate::run;
use evaluate::run::Failure;
use octets::number;
use operands::Layout;
use reader::line::{program_length, read_line};
use reader::names::Names;
use slots::given;
use std::io;

// `.*` in each of n slots.
fn fill(n: usize, slots: &mut [u8])
    requires { (n ≤ 13) × (n * 3362 ≤ length slots.old) }
    ensures { Slots 120 3 3362 n slots.new }
{
    for i in 0..n {
        let at = i * 3362;
        given::all(&mut slots[at..at + 3362], 120, 2);
    }
}

fn say_refused(rt: &impl Print, n: u8) -> io::Result<()> {
    println!(rt; "refused {n}")
}

// What was made; its machine is in front of the stack.
fn say(rt: &impl Print, r: Result<usize, Failure>, stack: &[u8]) -> io::Result<()>
    requires { 2 ≤ length stack.now }
{
    match r {
        Ok(peak) => {
            let states = number::read(stack, 0);
            println!(rt; "{peak} sets {states} states")
        }
        Err(Failure::TooMany(refusal)) => say_refused(rt, refusal.number()),
        Err(Failure::Stuck) => say_refused(rt, 0),
    }
}

// The buffers: `.*` for each name and in each register, and other bytes.
fn names() -> [u8; 43706]
    ensures { Slots 120 3 3362 13 result }
{
    let mut s = [7u8; 43706];
    fill(13, &mut s);
    s
}

fn registers() -> [u8; 10086]
    ensures { Slots 120 3 3362 3 result }
{
    let mut s = [7u8; 10086];
    fill(3, &mut s);
    s
}

fn stack() -> [u8; 63878] {
    [7; 63878]
}

fn rows() -> [u8; 62464] {
    [7; 62464]
}

fn table() -> [u16; 14336] {
    [7; 14336]
}

fn work() -> [u16; 6720] {
    [7; 6720]
}

// A line's program, run.
fn make(rt: &impl Print, code: &[u8], letters: &[u8]) -> io::Result<()>
    requires coded { Coded code.now }
    requires value { 2 ≡ length letters.now }
{
    let names = names();
    let mut registers = registers();
    let mut stack = stack();
    let mut rows = rows();
    let mut table = table();
    let mut work = work();
    let l = Layout {
        limits: Limits {
            sets: 512,
            states: 120,
        },
        size: 3362,
    };
    let shelves = operands::Names {
        low: &names,
        high: &names,
    };
    let mut scratch = Scratch {
        rows: &mut rows,
        table: &mut table,
        work: &mut work,
    };
    let r = run::run(
        code,
        l,
        letters,
        &shelves,
        &mut registers,
        &mut stack,
        &mut scratch,
    );
    say(rt, r, &stack)
}

fn code() -> [u8; 32832] {
    [7; 32832]
}

// The line that starts at `at`, with no names above it: where the next line starts. A line that is refused as it is read is the last.
fn line(rt: &impl Print, text: &[u8], at: usize, letters: &[u8]) -> io::Result<usize>
    requires at_in_bounds { (at < length text.now) × (length text.now ≤ 4096) }
    requires value { 2 ≡ length letters.now }
    ensures { IfOk result (λ next. at < next) }
{
    let mut code = code();
    match read_line(text, at, letters, Names::none(), &mut code) {
        Ok(line) => {
            make(rt, &code[..program_length(line.code)], letters)?;
            Ok(line.next)
        }
        Err(refusal) => {
            say_refused(rt, refusal.number())?;
            Ok(text.len())
        }
    }
}

fn lines(rt: &impl Print, text: &[u8], letters: &[u8]) -> io::Result<()>
    requires text_len_bound { length text.now ≤ 4096 }
    requires value { 2 ≡ length letters.now }
{
    let mut at = 0;
    // Stays: where a line ends tells where the next begins, no index is counted.
    while at < text.len() {
        at = line(rt, text, at, letters)?;
    }
    Ok(())
}

fn main(rt: HostRuntime) -> io::Result<()> {
    let mut text = [0u8; 4096];
    let mut input = rt.stdin();
    let size = stream::read_full(&mut input, &mut text)?;
    lines(&rt, &text[..size], b"ab")
}
