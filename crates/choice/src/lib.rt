// Reads a choice of a line and writes its postfix code into a lent buffer; where there is none, it answers nothing. choice, blend, chain, item and atom call each other. Each call is at a
// later byte of the line, or of a smaller part: only brackets make calls deeper. What goes before or behind an item is passed by loops (`signs`). Each of
// the five is called from one place alone, so that they become one function in the machine code, and only a bracket is a call.
// `choice` is a part below the entries: its caller has counted the brackets and lends two bytes of code for each byte that is left of the line.

#![tactic(auto)]

ghost use Rattle.signs.specs.Spots.{Room};
ghost use Rattle.choice.specs.Reading.{Reads, a_choice, a_blend, a_chain, an_item, an_atom};

use book::codes::{EITHER_CODE, JOIN_CODE};
use lexer::kinds::Kind;
use signs::{Spot, negate, nots, put, put_if, suffixed};

// Blends separated by '|'.
#[cycle(atom_blend_chain_choice_item)]
pub fn choice(s: &[u8], out: &mut [u8], c: Spot) -> Option<Spot>
    requires { Room s.now out.old c }
    ensures { Reads a_choice s.now out.old c out.new result }
{
    let mut here = c;
    let mut bar: Option<u8> = None;
    // Stays: a walk along tokens, which tell its end; no index is counted.
    loop {
        let n = blend(s, out, here)?;
        let end = put_if(out, n, bar);
        let t = end.cursor.token(s);
        if t.kind != Kind::Bar {
            return Some(end);
        }
        bar = Some(EITHER_CODE);
        here = Spot {
            cursor: t.next,
            ..end
        };
    }
}

// Chains separated by '&' or '-', each of which is its own code.
#[cycle(atom_blend_chain_choice_item)]
fn blend(s: &[u8], out: &mut [u8], c: Spot) -> Option<Spot>
    requires { Room s.now out.old c }
    ensures { Reads a_blend s.now out.old c out.new result }
{
    let mut here = c;
    let mut operator: Option<u8> = None;
    // Stays: a walk along tokens, which tell its end; no index is counted.
    loop {
        let n = chain(s, out, here)?;
        let end = put_if(out, n, operator);
        let t = end.cursor.token(s);
        if !t.kind.is_operator() {
            return Some(end);
        }
        operator = Some(t.byte);
        here = Spot {
            cursor: t.next,
            ..end
        };
    }
}

// One item or more in a row.
#[cycle(atom_blend_chain_choice_item)]
fn chain(s: &[u8], out: &mut [u8], c: Spot) -> Option<Spot>
    requires { Room s.now out.old c }
    ensures { Reads a_chain s.now out.old c out.new result }
{
    let mut here = c;
    let mut join: Option<u8> = None;
    // Stays: a walk along tokens, which tell its end; no index is counted.
    loop {
        let n = item(s, out, here)?;
        let end = put_if(out, n, join);
        let t = end.cursor.token(s);
        if !t.kind.begins_item() {
            return Some(end);
        }
        join = Some(JOIN_CODE);
        here = end;
    }
}

// '!' before an item, or an atom with its suffixes. The '!' before it are counted, and their codes written behind it.
#[cycle(atom_blend_chain_choice_item)]
fn item(s: &[u8], out: &mut [u8], c: Spot) -> Option<Spot>
    requires { Room s.now out.old c }
    ensures { Reads an_item s.now out.old c out.new result }
{
    let first = nots(s, c.cursor);
    let start = Spot {
        cursor: first.cursor,
        ..c
    };
    let n = atom(s, out, start)?;
    let m = suffixed(s, out, n);
    Some(negate(out, m, first.count))
}

// A letter, a name, '.' or '@', each of which is its own code; or a choice in brackets.
#[cycle(atom_blend_chain_choice_item)]
fn atom(s: &[u8], out: &mut [u8], c: Spot) -> Option<Spot>
    requires { Room s.now out.old c }
    ensures { Reads an_atom s.now out.old c out.new result }
{
    let t = c.cursor.token(s);
    let past = Spot {
        cursor: t.next,
        ..c
    };
    if t.kind.is_leaf() {
        return Some(put(out, past, t.byte));
    }
    if t.kind != Kind::Open {
        return None;
    }
    let n = choice(s, out, past)?;
    let end = n.cursor.token(s);
    if end.kind != Kind::Close {
        return None;
    }
    Some(Spot {
        cursor: end.next,
        ..n
    })
}
