// A later line: 3 to 7 in this order, each a test of the whole line, and the program of its form.

ghost use Rattle.std.specs.Prelude.{◌≡◌, ◌<◌, ◌*◌, ◌+◌, ◌≤◌, length};
ghost use Rattle.forms.specs.Forms.{Room};
ghost use Rattle.scans.specs.Lines.{line_of};
ghost use Rattle.reader.specs.Answers.{program_length, ReadsLine, ReadsNext};

use crate::names::Names;
use crate::symbols;
use book::refusal::Refusal;
use forms::Code;
use scans::{ends, tests};

// What a line of a text says, with the place where the next line starts.
#[derive(Clone, Copy, Debug)]
pub struct Line {
    pub code: Code,
    pub next: usize,
}

// How long the program of a form is.
pub fn program_length(code: Code) -> usize
    ensures { result ≡ program_length code }
{
    match code {
        Code::Define { name, length } => length,
        Code::Rule { length } => length,
    }
}

// The line of these bytes, which has its end or not. A name's own line does not define it.
pub fn check(
    line: &[u8],
    ended: bool,
    letters: &[u8],
    names: Names,
    out: &mut [u8],
) -> Result<Code, Refusal>
    requires { Room line.now out.old }
    ensures { ReadsLine (line_of line.now ended) letters.now names out.old out.new result }
{
    tests::line_test(line, ended)?;
    let code = forms::form(line, out).ok_or(Refusal::MalformedLine)?;
    let end = program_length(code);
    if !symbols::all_known(&out[..end], letters, names) {
        return Err(Refusal::UndefinedSymbol);
    }
    if let Code::Define { name, .. } = code {
        if names.has(name) {
            return Err(Refusal::DuplicateName);
        }
    }
    Ok(code)
}

// The line that starts at `at`.
pub fn read_line(
    text: &[u8],
    at: usize,
    letters: &[u8],
    names: Names,
    out: &mut [u8],
) -> Result<Line, Refusal>
    requires at_in_bounds { at < length text.now }
    requires text_in_bounds { 2 * length text.now + 64 ≤ length out.old }
    ensures { ReadsNext text.now at letters.now names out.old out.new result }
{
    let end = ends::line_end(text, at);
    let code = check(&text[at..end], end < text.len(), letters, names, out)?;
    Ok(Line {
        code,
        next: end + 1,
    })
}
