// Line 1: `:` and then 1 to 26 letters, strictly rising.
ghost use Rattle.std.specs.Prelude.{◌≡◌};
ghost use Rattle.automata.specs.Format.{narrow};
ghost use Rattle.book.specs.Text.{rising, is_head};
ghost use Rattle.book.specs.Line.{read_head};
ghost use Rattle.scans.specs.Lines.{line_of};
ghost use Rattle.scans.specs.Head.{head_of};

use crate::tests;
use book::refusal::Refusal;
use lexer::kinds::Kind;

// The bytes are letters, each above the one before.
fn rises(letters: &[u8]) -> bool
    ensures { result ≡ rising 0 letters.now }
{
    let mut low: u8 = 0;
    for b in letters {
        if Kind::of(*b) != Kind::Letter {
            return false;
        }
        if *b <= low {
            return false;
        }
        low = *b;
    }
    true
}

pub fn is_head(line: &[u8]) -> bool
    ensures { result ≡ is_head narrow line.now }
{
    if line.is_empty() {
        return false;
    }
    if Kind::of(line[0]) != Kind::Colon {
        return false;
    }
    if line.len() < 2 {
        return false;
    }
    if 27 < line.len() {
        return false;
    }
    rises(&line[1..])
}

// How many letters stand behind the line's `:`.
pub fn read_head(line: &[u8], ended: bool) -> Result<usize, Refusal>
    ensures { read_head narrow (line_of line.now ended) ≡ head_of line.now result }
{
    tests::line_test(line, ended)?;
    if is_head(line) {
        Ok(line.len() - 1)
    } else {
        Err(Refusal::MalformedLine)
    }
}
