// What `view_run` and `delivery_run` print, on standard output: a board's reply, and the answers of the whole way.
#![tactic(auto)]

use board::Refusal;
use handing::{Delivered, OnCard};
use loading::Fault;
use run::Verdict;
use std::io;

pub fn reply(rt: &impl Print, answer: Result<Verdict, Refusal>) -> io::Result<()> {
    match answer {
        Ok(Verdict::Allowed) => println!(rt; "allowed"),
        Ok(Verdict::Unfinished(owed)) => println!(rt; "unfinished {owed}"),
        Ok(Verdict::Hopeless(k)) => println!(rt; "hopeless {k}"),
        Err(refusal) => {
            let number = refusal.number();
            let before = refusal.before();
            println!(rt; "refused {number} after {before}")
        }
    }
}

fn board(rt: &impl Print, answer: Result<OnCard, Fault>) -> io::Result<()> {
    match answer {
        Ok(on_card) => {
            let letters = on_card.counts.letters;
            let states = on_card.counts.states;
            print!(rt; " letters {letters} states {states}: ")?;
            reply(rt, on_card.answer)
        }
        Err(fault) => {
            let number = fault.number();
            println!(rt; " not loaded {number}")
        }
    }
}

pub fn delivered(rt: &impl Print, answer: Result<Delivered, compiler::Refusal>) -> io::Result<()> {
    match answer {
        Ok(delivered) => {
            let length = delivered.compiled.length;
            let peak = delivered.compiled.peak;
            print!(rt; "length {length} peak {peak}")?;
            board(rt, delivered.board)
        }
        Err(refusal) => {
            let number = refusal.number();
            let line = refusal.line();
            println!(rt; "refused {number} line {line}")
        }
    }
}
