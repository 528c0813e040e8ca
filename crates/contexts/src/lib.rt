// The contexts of a rule, and choices with codes behind them, written as code behind the code so far. Parts below an entry: callers give room there, and a
// line whose brackets and contexts are counted already.

#![tactic(auto)]

ghost use Rattle.std.specs.Prelude.{[], ◌∷◌, ◌++◌, ◌+◌, ◌*◌, ◌-◌, ◌≤◌, length};
ghost use Rattle.book.specs.Program.{context_program};
ghost use Rattle.contexts.specs.Contexts.{Row, ReadsThen, ReadsRight, ReadsContext, MayEnd, ReadsContexts};

use book::codes::{JOIN_CODE, MARK_CODE, PATTERN_CODE, RIGHT_CODE, STORE_RIGHT_CODE};
use lexer::kinds::Kind;
use signs::{Spot, put};

// "then l M p M r joined left to right": specs/Program.antt of `book`
const CONTEXT_PROGRAM: [u8; 9] = [
    STORE_RIGHT_CODE,
    MARK_CODE,
    JOIN_CODE,
    PATTERN_CODE,
    JOIN_CODE,
    MARK_CODE,
    JOIN_CODE,
    RIGHT_CODE,
    JOIN_CODE,
];

// A row of codes, written from pos on.
pub fn put_row(out: &mut [u8], pos: usize, row: &[u8]) -> usize
    requires { pos + length row.now ≤ length out.old }
    ensures { Row out.old pos row.now out.new result }
{
    let end = pos + row.len();
    octets::copy(&mut out[pos..end], row);
    end
}

// A choice, and a row of codes behind its own.
pub fn choice_then(line: &[u8], out: &mut [u8], c: Spot, row: &[u8]) -> Option<Spot>
    requires { c.pos + 2 * (length line.now - c.cursor.at) + length row.now ≤ length out.old }
    ensures { ReadsThen line.now out.old c row.now out.new result }
{
    let n = choice::choice(line, out, c)?;
    let pos = put_row(out, n.pos, row);
    Some(Spot { pos, ..n })
}

// "`_`, a choice": with l, r on the stack, l M p M r is made.
fn right(line: &[u8], out: &mut [u8], c: Spot) -> Option<Spot>
    requires { c.pos + 2 * (length line.now - c.cursor.at) + length context_program ≤ length out.old }
    ensures { ReadsRight line.now out.old c out.new result }
{
    let t = c.cursor.token(line);
    if t.kind != Kind::Underscore {
        return None;
    }
    let behind = Spot {
        cursor: t.next,
        ..c
    };
    choice_then(line, out, behind, &CONTEXT_PROGRAM)
}

// "a choice, `_`, a choice"
pub fn context(line: &[u8], out: &mut [u8], c: Spot) -> Option<Spot>
    requires { c.pos + 2 * (length line.now - c.cursor.at) + length context_program ≤ length out.old }
    ensures { ReadsContext line.now out.old c context_program out.new result }
{
    let n = choice::choice(line, out, c)?;
    right(line, out, n)
}

// The same behind other contexts: "then X becomes X minus it", or "`|` of those so far with it".
fn further(line: &[u8], out: &mut [u8], c: Spot, operator: u8) -> Option<Spot>
    requires { c.pos + 2 * (length line.now - c.cursor.at) + (length context_program + 1) ≤ length out.old }
    ensures { ReadsContext line.now out.old c (context_program ++ (operator ∷ [])) out.new result }
{
    let n = context(line, out, c)?;
    Some(put(out, n, operator))
}

// "then per context `/`, a choice, `_`, a choice", up to the line's end
pub fn contexts(line: &[u8], out: &mut [u8], c: Spot, operator: u8) -> Option<Spot>
    requires { MayEnd line.now out.old c operator }
    ensures { ReadsContexts line.now out.old c operator out.new result }
{
    let mut here = c;
    // Stays: a walk along tokens, which tell its end; no index is counted.
    loop {
        let t = here.cursor.token(line);
        if line.len() <= t.start.at {
            return Some(here);
        }
        if t.kind != Kind::Slash {
            return None;
        }
        let behind = Spot {
            cursor: t.next,
            ..here
        };
        here = further(line, out, behind, operator)?;
    }
}
