// The judging program: the card is board.bin, the plans are the lines of standard input, and each answer is a line of standard output. The card is
// tested once; a plan of any length goes through in pieces, and so does the text.
#![tactic(auto)]

mod lines;

ghost use Rattle.stream.specs.Input.{IsPrefixLen};

use std::rt::Files;
use std::{fs, io};

// The file's bytes, one more at most than the longest card has, so that a longer file fails by its length. A file that cannot be opened or read has none.
fn read_card(files: &impl Files, bytes: &mut [u8; 3279]) -> usize
    ensures { IsPrefixLen result bytes.new }
{
    let Ok(mut file) = fs::open(files, "board.bin") else {
        return 0;
    };
    stream::read_full(&mut file, bytes).unwrap_or(0)
}

fn main(rt: HostRuntime) -> io::Result<()> {
    let mut bytes = [0u8; 3279];
    let size = read_card(&rt, &mut bytes);
    let mut input = rt.stdin();
    let mut output = rt.stdout();
    match lines::judge_all(&mut input, &mut output, &bytes[..size]) {
        Ok(_) => Ok(()),
        Err(failure) => eprintln!(rt; "judge: {failure}"),
    }
}
