// Runs the whole way on some of the paper's books and plans, on a book of the three kinds of rules, on one without rules and on a text of no bytes, a line
// each: length, peak, letters and states of the card and the board's reply; or the refusal with its line. The card buffer is longer than the card and holds other bytes, and so do the work buffers.
#![tactic(auto)]

use std::io;

// The whole way with buffers of its own.
// Stays: one struct for this program and `compile` has eight fields and eight fills, and each lends the fields one by one: as many lines, and a crate more.
fn deliver(rt: &impl Print, text: &[u8], plan: &[u8]) -> io::Result<()> {
    let mut card = [7u8; 4000];
    let mut low = [7u8; 43706];
    let mut high = [7u8; 43706];
    let mut registers = [7u8; 10086];
    let mut stack = [7u8; 63878];
    let mut rows = [7u8; 62464];
    let mut table = [7u16; 14336];
    let mut work = [7u16; 6720];
    let mut code = [7u8; 32832];
    let answer = delivery::deliver(
        text,
        plan,
        &mut card[..],
        &mut low[..],
        &mut high[..],
        &mut registers[..],
        &mut stack[..],
        &mut rows[..],
        &mut table[..],
        &mut work[..],
        &mut code[..],
    );
    printing::delivered(rt, answer)
}

fn main(rt: HostRuntime) -> io::Result<()> {
    deliver(&rt, b":ab\n>b / .*a _ .*\n", b"ab")?;
    deliver(&rt, b":ab\n>b / .*a _ .*\n", b"abb")?;
    deliver(&rt, b":ab\n>b / .*a _ .*\n", b"abcb")?;
    deliver(&rt, b":abc\n>b / a _ a / c _ c\n", b"ab")?;
    let mixed = b":ab\n>a / .*b _ .*\n<aa / .* _ .*\n^(.*b)? / @ _ @\n";
    deliver(&rt, mixed, b"ba")?;
    deliver(&rt, mixed, b"baa")?;
    deliver(&rt, b":ab\n>c\n", b"ab")?;
    deliver(&rt, b":ab\n=Aa+\n", b"abba")?;
    deliver(&rt, b"", b"")?;
    deliver(&rt, b"", b"a")
}
