// The form of a later line, a definition or a rule, written as its program into a lent buffer. Parts below an entry: callers give room there, and a line
// whose brackets and contexts are counted already.

#![tactic(auto)]

ghost use Rattle.std.specs.Prelude.{◌≡◌, ◌≤◌, get_or};
ghost use Rattle.book.specs.Kind.{kind_of, equals_kind, greater_kind, underscore_kind};
ghost use Rattle.book.specs.Text.{count_of};
ghost use Rattle.contexts.specs.Contexts.{MayEnd};
ghost use Rattle.forms.specs.Forms.{Room, ReadsRest, Sister, ReadsForm};

use book::codes::{
    ALL_CODE, COMPLEMENT_CODE, EITHER_CODE, ERASE_CODE, JOIN_CODE, MARK_CODE, MEET_CODE,
    PATTERN_CODE, STORE_PATTERN_CODE, WITHOUT_CODE,
};
use contexts::{choice_then, context, contexts, put_row};
use lexer::Cursor;
use lexer::kinds::Kind;
use signs::Spot;

// What stands behind the pattern, by specs/Program.antt of `book`: of `>`, where the pattern is stored and `pattern_program` follows; of `<` and of `^`, which
// are `store_program`. Then `finish_program`.
const RESTRICTING_PROGRAM: [u8; 10] = [
    STORE_PATTERN_CODE,
    ALL_CODE,
    MARK_CODE,
    JOIN_CODE,
    PATTERN_CODE,
    JOIN_CODE,
    MARK_CODE,
    JOIN_CODE,
    ALL_CODE,
    JOIN_CODE,
];

const FORBIDDING_PROGRAM: [u8; 1] = [STORE_PATTERN_CODE];

const OBLIGING_PROGRAM: [u8; 2] = [COMPLEMENT_CODE, STORE_PATTERN_CODE];

const FINISH_PROGRAM: [u8; 3] = [ERASE_CODE, COMPLEMENT_CODE, MEET_CODE];

// A definition's name with the length of its program, or the length of a rule's program.
#[derive(Clone, Copy, Debug)]
pub enum Code {
    Define { name: u8, length: usize },
    Rule { length: usize },
}

// Behind the sign that a line begins with.
const START: Spot = Spot {
    cursor: Cursor { at: 1 },
    pos: 0,
};

// The contexts up to the line's end, and the last codes of a rule: the length of its program.
fn rest(line: &[u8], out: &mut [u8], c: Spot, operator: u8) -> Option<usize>
    requires { MayEnd line.now out.old c operator }
    ensures { ReadsRest line.now out.old c out.new result }
{
    let n = contexts(line, out, c, operator)?;
    Some(put_row(out, n.pos, &FINISH_PROGRAM))
}

// "a rule, `>`, a choice, then per context ..": behind the `>`
fn rule(line: &[u8], out: &mut [u8]) -> Option<Code>
    requires room { Room line.now out.old }
    requires line_value { kind_of (get_or line.now 0 0) ≡ greater_kind }
    requires line_bound { count_of underscore_kind line.now ≤ 4 }
    ensures { ReadsForm line.now out.old out.new result }
{
    let p = choice_then(line, out, START, &RESTRICTING_PROGRAM)?;
    let length = rest(line, out, p, WITHOUT_CODE)?;
    Some(Code::Rule { length })
}

// "A line `<` in a rule's form", "a line `^`": behind that sign, with the row of codes that stands behind the pattern. "Both need at least one context."
fn sister(line: &[u8], out: &mut [u8], row: &[u8]) -> Option<Code>
    requires room { Room line.now out.old }
    requires sister { Sister line.now row.now }
    requires line_bound { count_of underscore_kind line.now ≤ 4 }
    ensures { ReadsForm line.now out.old out.new result }
{
    let p = choice_then(line, out, START, row)?;
    let t = p.cursor.token(line);
    if t.kind != Kind::Slash {
        return None;
    }
    let behind = Spot {
        cursor: t.next,
        ..p
    };
    let n = context(line, out, behind)?;
    let length = rest(line, out, n, EITHER_CODE)?;
    Some(Code::Rule { length })
}

// "a definition, `=`, a name, a choice": behind the `=`
fn definition(line: &[u8], out: &mut [u8]) -> Option<Code>
    requires room { Room line.now out.old }
    requires line_value { kind_of (get_or line.now 0 0) ≡ equals_kind }
    ensures { ReadsForm line.now out.old out.new result }
{
    let t = START.cursor.token(line);
    if t.kind != Kind::Name {
        return None;
    }
    let body = Spot {
        cursor: t.next,
        pos: 0,
    };
    let n = choice::choice(line, out, body)?;
    if n.cursor.skip(line).at < line.len() {
        return None;
    }
    Some(Code::Define {
        name: t.byte,
        length: n.pos,
    })
}

// The form of a line whose brackets and contexts are counted already; a malformed line has none.
pub fn form(line: &[u8], out: &mut [u8]) -> Option<Code>
    requires room { Room line.now out.old }
    requires line_bound { count_of underscore_kind line.now ≤ 4 }
    ensures { ReadsForm line.now out.old out.new result }
{
    if line.is_empty() {
        return None;
    }
    match Kind::of(line[0]) {
        Kind::Equals => definition(line, out),
        Kind::Greater => rule(line, out),
        Kind::Less => sister(line, out, &FORBIDDING_PROGRAM),
        Kind::Caret => sister(line, out, &OBLIGING_PROGRAM),
        _ => None,
    }
}
