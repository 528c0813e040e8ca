// The card's contents, six numbers of two bytes, and its letters.
ghost use Rattle.std.specs.Prelude.{◌+◌, ◌≤◌, length};
ghost use Rattle.automata.specs.Format.{narrow};
ghost use Rattle.card.specs.Number.{little_endian};
ghost use Rattle.card.specs.Layout.{contents, card_length};
ghost use Rattle.sections.specs.Laid.{Laid};

// A number of two bytes, low byte first.
fn put_number(card: &mut [u8], at: usize, x: usize)
    requires { at + 2 ≤ length card.old }
    ensures { Laid at (at + 2) (little_endian 2 x) card.old card.new }
{
    card[at..at + 2].copy_from_slice(&x.to_le_bytes()[..2]);
}

// For letters, marks and moves in turn an offset and a length.
pub fn put_contents(m: usize, n: usize, card: &mut [u8])
    requires { card_length narrow m n ≤ length card.old }
    ensures { Laid 0 12 (contents narrow m n) card.old card.new }
{
    put_number(card, 0, 12);
    put_number(card, 2, m);
    put_number(card, 4, 12 + m);
    put_number(card, 6, n);
    put_number(card, 8, 12 + m + n);
    put_number(card, 10, n * m);
}

// The letters.
pub fn put_letters(letters: &[u8], card: &mut [u8])
    requires { 12 + length letters.now ≤ length card.old }
    ensures { Laid 12 (12 + length letters.now) letters.now card.old card.new }
{
    octets::copy(&mut card[12..12 + letters.len()], letters);
}
