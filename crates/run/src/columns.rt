// The column of every byte, as a table of 256 entries: one lookup a letter.
ghost use Rattle.std.specs.Prelude.{◌≡◌, ◌≤◌, length};
ghost use Rattle.run.specs.Walk.{ColumnTable};

// Of every byte its column among the letters, or as many as there are letters. The last letter is entered first, so that the first one counts where a
// letter stands twice.
pub fn columns(letters: &[u8]) -> [u8; 256]
    requires { length letters.now ≤ 255 }
    ensures { ColumnTable letters.now result }
{
    let mut table = [letters.len() as u8; 256];
    for i in (0..letters.len()).rev() {
        table[letters[i] as usize] = i as u8;
    }
    table
}
