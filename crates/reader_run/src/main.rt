// Reads texts from standard input, each ended by a byte 0x1E, and writes for each the number and the line of the first refusal that reading it
// gives, 3 to 7 in a line; `0 0` where it gives none, as for a text of no bytes. No stage is made.
#![tactic(auto)]

ghost use Rattle.std.specs.Prelude.{◌≤◌, length};

use book::refusal::Refusal;
use forms::Code;
use reader::line::read_line;
use reader::names::Names;
use scans::ends::line_end;
use scans::head::read_head;
use std::io;

// Why a text is refused, and the line that is at fault.
#[derive(Clone, Copy)]
struct Refused {
    refusal: Refusal,
    line: usize,
}

// The lines behind line 1, whose letters these are.
fn later(text: &[u8], start: usize, letters: &[u8]) -> Result<(), Refused>
    requires text_len_bound { length text.now ≤ 4096 }
    requires le_start { 2 ≤ start }
{
    let mut out = [0u8; 65536];
    let mut names = Names::none();
    let mut line = 2;
    let mut at = start;
    // Stays: where a line ends tells where the next begins, no index is counted.
    while at < text.len() {
        match read_line(text, at, letters, names, &mut out) {
            Ok(read) => {
                if let Code::Define { name, .. } = read.code {
                    names = names.with(name);
                }
                at = read.next;
            }
            Err(refusal) => return Err(Refused { refusal, line }),
        }
        line += 1;
    }
    Ok(())
}

// Each line of a text.
fn check(text: &[u8]) -> Result<(), Refused>
    requires { length text.now ≤ 4096 }
{
    if text.is_empty() {
        return Ok(());
    }
    let end = line_end(text, 0);
    let ended = end < text.len();
    match read_head(&text[..end], ended) {
        Err(refusal) => Err(Refused { refusal, line: 1 }),
        Ok(_) if end < 1 || !ended => Err(Refused {
            refusal: Refusal::MalformedLine,
            line: 1,
        }),
        Ok(_) => later(text, end + 1, &text[1..end]),
    }
}

fn report(rt: &impl Print, text: &[u8]) -> io::Result<()>
    requires { length text.now ≤ 4096 }
{
    match check(text) {
        Ok(()) => println!(rt; "0 0"),
        Err(refused) => {
            let number = refused.refusal.number();
            let line = refused.line;
            println!(rt; "{number} {line}")
        }
    }
}

// Each text of the input.
fn report_all(rt: &impl Print, input: &[u8]) -> io::Result<()>
    requires { length input.now ≤ 4096 }
{
    let mut from = 0;
    for (i, byte) in input.iter().enumerate() {
        if *byte == 0x1E {
            report(rt, &input[from..i])?;
            from = i + 1;
        }
    }
    Ok(())
}

fn main(rt: HostRuntime) -> io::Result<()> {
    let mut text = [0u8; 4096];
    let mut input = rt.stdin();
    let n = stream::read_full(&mut input, &mut text)?;
    report_all(&rt, &text[..n])
}
