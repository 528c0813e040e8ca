// What the compiling program writes for an answer: the card, or the line `refused N line L`. A part: the caller gives a buffer that the longest line fits.
#![tactic(auto)]

ghost use Rattle.std.specs.Prelude.{◌≤◌, length};
ghost use Rattle.report.specs.Shown.{longest, Shows};

use compiler::{Compiled, Refusal};

// The bytes to be written for an answer, in front of `card`, where the card stands already. How many they are.
pub fn show(answer: Result<Compiled, Refusal>, card: &mut [u8]) -> usize
    requires { longest ≤ length card.old }
    ensures { Shows answer card.old card.new result }
{
    match answer {
        Ok(compiled) => compiled.length.min(card.len()),
        Err(refusal) => {
            let number = refusal.number() as usize;
            let line = refusal.line();
            let a = stream::put(card, 0, b"refused ");
            let b = stream::put_number(card, a, number);
            let c = stream::put(card, b, b" line ");
            let d = stream::put_number(card, c, line);
            stream::put(card, d, b"\n")
        }
    }
}
