// Reads a choice from each line of standard input, and one of as many `!` as fit into a text before a letter, and writes its code, or `refused`; of the
// longest code only that it has the right length. What is left of the line behind the choice follows in a second column.
#![tactic(auto)]

ghost use Rattle.std.specs.Prelude.{◌≤◌, length};

use lexer::Cursor;
use scans::ends::line_end;
use signs::Spot;
use std::io;

// The code, and the bytes of the line from a place on.
fn say(rt: &impl Print, code: &[u8], line: &[u8], at: usize) -> io::Result<()> {
    if code.len() == 16377 {
        return rt.write_all(b"longest\n");
    }
    rt.write_all(code)?;
    if at < line.len() {
        rt.write_all(b" ")?;
        rt.write_all(&line[at..])?;
    }
    rt.write_all(b"\n")
}

// The code of the choice at the start of the line s.
fn show(rt: &impl Print, s: &[u8]) -> io::Result<()>
    requires { length s.now ≤ 32768 }
{
    let mut out = [0u8; 65536];
    let start = Spot {
        cursor: Cursor { at: 0 },
        pos: 0,
    };
    let Some(n) = choice::choice(s, &mut out, start) else {
        return rt.write_all(b"refused\n");
    };
    let pos = n.pos;
    let cursor = n.cursor;
    say(rt, &out[..pos], s, cursor.at)
}

// Each line.
fn show_all(rt: &impl Print, text: &[u8]) -> io::Result<()>
    requires { length text.now ≤ 32768 }
{
    let mut at = 0;
    // Stays: where a line ends tells where the next begins, no index is counted.
    while at < text.len() {
        let end = line_end(text, at);
        show(rt, &text[at..end])?;
        at = end + 1;
    }
    Ok(())
}

fn longest() -> [u8; 16377] {
    let mut s = [33; 16377];
    s[16376] = 97;
    s
}

fn main(rt: HostRuntime) -> io::Result<()> {
    let mut text = [0u8; 4096];
    let mut input = rt.stdin();
    let n = stream::read_full(&mut input, &mut text)?;
    show_all(&rt, &text[..n])?;
    let s = longest();
    show(&rt, &s)
}
