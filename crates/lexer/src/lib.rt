// The kinds of a book's bytes, and a cursor by value over a line's bytes: it skips spaces, gives one token and hands itself back past it.

#![tactic(auto)]

pub mod kinds;

ghost use Rattle.lexer.specs.Token.{Past, Lexed};

use kinds::Kind;

#[derive(Clone, Copy)]
pub struct Cursor {
    pub at: usize,
}

// A token, as its kind and its byte, with the cursor before it, where the spaces end, and past it. At the line's end it is the line's end, with which
// no part of a choice begins or goes on, and the cursor stays.
#[derive(Clone, Copy)]
pub struct Lexeme {
    pub kind: Kind,
    pub byte: u8,
    pub start: Cursor,
    pub next: Cursor,
}

impl Cursor {
    // The next token, past the spaces. A space is known by its byte, so that only the token is looked up.
    pub fn token(self, s: &[u8]) -> Lexeme
        ensures { Lexed s.now self.at result }
    {
        for at in self.at..s.len() {
            let byte = s[at];
            if byte != b' ' {
                return Lexeme {
                    kind: Kind::of(byte),
                    byte,
                    start: Cursor { at },
                    next: Cursor { at: at + 1 },
                };
            }
        }
        let end = Cursor {
            at: self.at.max(s.len()),
        };
        Lexeme {
            kind: Kind::LineEnd,
            byte: b'\n',
            start: end,
            next: end,
        }
    }

    // Past the spaces, to where the next token stands, or the line's end.
    pub fn skip(self, s: &[u8]) -> Cursor
        ensures { Past s.now self.at result.at }
    {
        self.token(s).start
    }
}
