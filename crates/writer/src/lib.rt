// The card writer: from the kept machine over letters and mark to the card's bytes. Parts for the compiler: they have requires, and are no entries.
#![tactic(auto)]

ghost use Rattle.std.specs.Prelude.{◌≡◌, length};
ghost use Rattle.writer.specs.Written.{Kept, Written, kept_card};

use numbering::kept::KeptMachine;
use sections::{contents, marks, targets};

// The card of the machine over the letters, and what lies behind the card stays. Its length; or none where the buffer is too short for it, and then all of it
// stays.
pub fn write(machine: &KeptMachine, letters: &[u8], card: &mut [u8]) -> Option<usize>
    requires kept { Kept machine.now.states machine.now.letters machine.now.bytes.now }
    requires letters_len { length letters.now ≡ machine.now.letters }
    ensures { Written (kept_card machine.now.states letters.now machine.now.bytes.now) card.old card.new result }
{
    let m = letters.len();
    let reached = numbering::number(machine);
    let count = reached.numbering.count;
    let length = 12 + m + count + count * m;
    if card.len() < length {
        return None;
    }
    contents::put_contents(m, count, card);
    contents::put_letters(letters, card);
    marks::put_marks(&reached, card);
    targets::put_moves(&reached, card);
    Some(length)
}
