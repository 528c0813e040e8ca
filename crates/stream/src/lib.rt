// What the programs share: a whole input in a lent buffer, and text in one.
#![tactic(auto)]

ghost use Rattle.std.specs.Prelude.{◌+◌, ◌≤◌, ◌<◌, Some, length, IfOk};
ghost use Rattle.stream.specs.Failures.{failure_text};
ghost use Rattle.stream.specs.Text.{Put, PutNumber, decimal};
ghost use Rattle.stream.specs.Input.{IsPrefixLen, ReadsFirst};

use std::io::Read;
use std::{fmt, io};

// The byte of the digit 0.
const ZERO: u8 = 48;

// What a program could not do, so that it stopped.
#[derive(Clone, Copy, PartialEq, Eq, Debug)]
pub enum Failure {
    NotRead,
    NotWritten,
}

impl fmt::Display for Failure {
    ghost output = { λ failure. Some (failure_text failure) };

    fn fmt<W: fmt::Write>(&self, f: &mut fmt::Formatter<W>) -> fmt::Result {
        match self {
            Failure::NotRead => write!(f, "standard input cannot be read"),
            Failure::NotWritten => write!(f, "standard output cannot be written"),
        }
    }
}

// Reads until the input ends or the buffer is full, and gives the number of bytes; or the error of the read that failed, which is not the input's end.
pub fn read_full<R: Read>(input: &mut R, buf: &mut [u8]) -> io::Result<usize>
    ensures within { IfOk result (λ n. IsPrefixLen n buf.new) }
    ensures bytes { IfOk result (λ n. ReadsFirst (R.remaining input.old) (R.remaining input.new) n buf.new) }
{
    let mut done = 0;
    // Stays: a read gives as many bytes as it likes, so that no range tells the steps.
    while done < buf.len() {
        let n = input.read(&mut buf[done..])?;
        if n == 0 {
            return Ok(done);
        }
        done += n;
    }
    Ok(done)
}

// Copies a text into `out` from the place `at` on. The next place.
pub fn put(out: &mut [u8], at: usize, text: &[u8]) -> usize
    requires { at + length text.now ≤ length out.old }
    ensures { Put out.old at text.now out.new result }
{
    let end = at + text.len();
    out[at..end].copy_from_slice(text);
    end
}

// A number below 10 as its digit.
fn put_digit(out: &mut [u8], at: usize, digit: u8) -> usize
    requires { (at < length out.old) × (digit < 10) }
    ensures { Put out.old at (decimal digit) out.new result }
{
    out[at] = ZERO + digit;
    at + 1
}

// A number in decimal digits, whatever it is. A call of its own, so that a number of one digit, which most are, costs none.
#[inline(never)]
fn put_digits(out: &mut [u8], at: usize, number: usize) -> usize
    requires { at + 20 ≤ length out.old }
    ensures { PutNumber out.old at number out.new result }
{
    let mut digits = itoa::Buffer::new();
    put(out, at, digits.format(number).as_bytes())
}

// A number in decimal digits. Most have one.
#[inline(always)]
pub fn put_number(out: &mut [u8], at: usize, number: usize) -> usize
    requires { at + 20 ≤ length out.old }
    ensures { PutNumber out.old at number out.new result }
{
    if number < 10 {
        return put_digit(out, at, number as u8);
    }
    put_digits(out, at, number)
}
