// The compiling program: the book from standard input; its card, or the line `refused N line L`, to standard output.
#![tactic(auto)]

ghost use Rattle.std.specs.Prelude.{OnOk};
ghost use Rattle.compile.specs.Prints.{Prints, Printed, Compiles};

use std::io;
use std::io::{Read, Write};
use stream::Failure;

// Compiles a text with buffers of its own.
// Stays: one struct for this program and `delivery_run` has eight fields and eight fills, and each lends the fields one by one: as many lines, and a crate more.
fn compile(text: &[u8], card: &mut [u8; 3278]) -> usize
    ensures { Prints text.now card.old card.new result }
{
    let mut low = [0u8; 43706];
    let mut high = [0u8; 43706];
    let mut registers = [0u8; 10086];
    let mut stack = [0u8; 63878];
    let mut rows = [0u8; 62464];
    let mut table = [0u16; 14336];
    let mut work = [0u16; 6720];
    let mut code = [0u8; 32832];
    let answer = driver::compile(
        text,
        card,
        &mut low[..],
        &mut high[..],
        &mut registers[..],
        &mut stack[..],
        &mut rows[..],
        &mut table[..],
        &mut work[..],
        &mut code[..],
    );
    report::show(answer, card)
}

// The longest card has 3,278 bytes.
fn print<W: Write>(output: &mut W, text: &[u8]) -> io::Result<()>
    ensures { OnOk result (Printed text.now (W.contents output.old) (W.contents output.new)) }
{
    let mut card = [0u8; 3278];
    let n = compile(text, &mut card);
    output.write_all(&card[..n])
}

// A text is read one byte past the longest one, so that a longer one is refused. A read that fails is not the end of the text.
fn compile_all<R: Read, W: Write>(input: &mut R, output: &mut W) -> Result<(), Failure>
    ensures { Compiles (R.remaining input.old) (R.remaining input.new) (W.contents output.old) (W.contents output.new) result }
{
    let mut text = [0u8; 16385];
    let Ok(size) = stream::read_full(input, &mut text) else {
        return Err(Failure::NotRead);
    };
    let Ok(()) = print(output, &text[..size]) else {
        return Err(Failure::NotWritten);
    };
    Ok(())
}

fn main(rt: HostRuntime) -> io::Result<()> {
    let mut input = rt.stdin();
    let mut output = rt.stdout();
    match compile_all(&mut input, &mut output) {
        Ok(()) => Ok(()),
        Err(failure) => eprintln!(rt; "compile: {failure}"),
    }
}
