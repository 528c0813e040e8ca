// The signs before and behind an item, and the code behind the code so far: `!` before an item is counted, `*`, `+` and `?` behind it are written as they
// come, and the codes of `!` behind them. These are parts: callers lend room in the buffer for what is written.

#![tactic(auto)]

ghost use Rattle.std.specs.Prelude.{◌+◌, ◌<◌, ◌≤◌, length};
ghost use Rattle.signs.specs.Spots.{Room};
ghost use Rattle.signs.specs.Steps.{Put, PutIf, Suffixed, Nots, Negated};

use book::codes::COMPLEMENT_CODE;
use lexer::Cursor;
use lexer::kinds::Kind;

// How far the line is read, and how far the code is written.
#[derive(Clone, Copy)]
pub struct Spot {
    pub cursor: Cursor,
    pub pos: usize,
}

// How many '!' stand in a row, and where they end.
#[derive(Clone, Copy)]
pub struct Negations {
    pub cursor: Cursor,
    pub count: usize,
}

// One more byte of code.
pub fn put(out: &mut [u8], c: Spot, b: u8) -> Spot
    requires { c.pos < length out.old }
    ensures { Put out.old c b out.new result }
{
    out[c.pos] = b;
    Spot {
        pos: c.pos + 1,
        ..c
    }
}

// The same with a code if there is one: the first part of a row has no operator before it.
pub fn put_if(out: &mut [u8], c: Spot, code: Option<u8>) -> Spot
    requires { c.pos < length out.old }
    ensures { PutIf code out.old c out.new result }
{
    match code {
        Some(b) => put(out, c, b),
        None => c,
    }
}

// Past any number of '!', counting them, and past the spaces behind them.
pub fn nots(s: &[u8], from: Cursor) -> Negations
    ensures { Nots s.now from.at result.cursor.at result.count }
{
    let mut here = from;
    let mut count: usize = 0;
    // Stays: a walk along tokens, which tell its end; no index is counted.
    loop {
        let t = here.token(s);
        if t.kind != Kind::Bang {
            return Negations {
                cursor: t.start,
                count,
            };
        }
        count += 1;
        here = t.next;
    }
}

// Past any number of '*', '+' and '?', each of which is its own code, and past the spaces behind them: the calls above look at the next token at once.
pub fn suffixed(s: &[u8], out: &mut [u8], c: Spot) -> Spot
    requires { Room s.now out.old c }
    ensures { Suffixed s.now out.old c out.new result }
{
    let mut here = c;
    // Stays: a walk along tokens, which tell its end; no index is counted.
    loop {
        let t = here.cursor.token(s);
        if !t.kind.is_suffix() {
            return Spot {
                cursor: t.start,
                ..here
            };
        }
        let sign = t.byte;
        let behind = Spot {
            cursor: t.next,
            ..here
        };
        here = put(out, behind, sign);
    }
}

// The code of `count` complements, one after the other.
pub fn negate(out: &mut [u8], c: Spot, count: usize) -> Spot
    requires { c.pos + count ≤ length out.old }
    ensures { Negated out.old c count out.new result }
{
    let mut here = c;
    for _ in 0..count {
        here = put(out, here, COMPLEMENT_CODE);
    }
    here
}
