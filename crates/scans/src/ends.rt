// Where a line ends.
ghost use Rattle.std.specs.Prelude.{◌≤◌, length};
ghost use Rattle.scans.specs.Lines.{Ends};

// The end of the line that starts at `at`: the place of its 0x0A, or the text's length where it has none.
pub fn line_end(text: &[u8], at: usize) -> usize
    requires { at ≤ length text.now }
    ensures { Ends text.now at result }
{
    octets::place_from(text, at, b'\n')
}
