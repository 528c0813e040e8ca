// 6: a letter not in line 1, or a name not defined above. The letters and names of a line's choices are those of its program.
ghost use Rattle.std.specs.Prelude.{◌≡◌};
ghost use Rattle.language.specs.Expression.{member};
ghost use Rattle.reader.specs.Known.{KnowsSymbol, Knows};

use crate::names::Names;
use lexer::kinds::Kind;

// b is one of the letters.
pub fn has_letter(letters: &[u8], b: u8) -> bool
    ensures { result ≡ member b letters.now }
{
    letters.iter().any(|x| *x == b)
}

// One code of a program: a letter or a name is known; any other code is no symbol.
fn symbol_known(b: u8, letters: &[u8], names: Names) -> bool
    ensures { KnowsSymbol b letters.now names result }
{
    match Kind::of(b) {
        Kind::Letter => has_letter(letters, b),
        Kind::Name => names.has(b),
        _ => true,
    }
}

// Each letter and each name of the program is known.
pub fn all_known(code: &[u8], letters: &[u8], names: Names) -> bool
    ensures { Knows code.now letters.now names result }
{
    for b in code {
        if !symbol_known(*b, letters, names) {
            return false;
        }
    }
    true
}
