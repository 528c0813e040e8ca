// The tests along a whole line, whatever its form: 3, 4, and 5 for a line without its end.
ghost use Rattle.std.specs.Prelude.{◌≡◌};
ghost use Rattle.book.specs.Text.{line_test};
ghost use Rattle.scans.specs.Lines.{line_of, test_number};

use book::refusal::Refusal;

// One pass along the line. The count of `(` less `)` may fall below 0, so both are counted apart.
pub fn line_test(line: &[u8], ended: bool) -> Result<(), Refusal>
    ensures { line_test (line_of line.now ended) ≡ test_number result }
{
    let mut opens: usize = 0;
    let mut closes: usize = 0;
    let mut gaps: usize = 0;
    for b in line {
        if *b == b'(' {
            opens += 1;
            if closes + 4 < opens {
                return Err(Refusal::NestingTooDeep);
            }
        } else if *b == b')' {
            closes += 1;
        } else if *b == b'_' {
            gaps += 1;
        }
    }
    if 4 < gaps {
        return Err(Refusal::TooManyContexts);
    }
    if ended {
        Ok(())
    } else {
        Err(Refusal::MalformedLine)
    }
}
