//! Prints the circuit of one operator as a formula in DIMACS form, with the literals of its operands and of its
//! result in comment lines, so that bench/circuits.py can compare it with whole-number arithmetic. The words are the
//! operator, the kind of its operands, and each operand: `fresh`, or the number of a constant word.
#![tactic(auto)]

mod circuit;
mod print;
mod request;

use crate::circuit::circuit_of;
use crate::print::text_of;
use crate::request::read_request;
use lz_base::{Bytes, Memory, Name, Sequence};
use std::alloc::Global;
use std::io::Write;
use std::process::ExitCode;
use std::rt::Env;
use std::{env, io};

/// Why there is no text.
enum Failure {
    /// The words ask for no circuit.
    Usage,
    Memory,
}

impl From<Memory> for Failure {
    fn from(_memory: Memory) -> Failure {
        Failure::Memory
    }
}

fn main(rt: HostRuntime) -> ExitCode {
    match text(&rt, rt.alloc()) {
        Ok(text) => match io::writer(&rt).write_all(text.items()) {
            Ok(()) => ExitCode::from(0),
            Err(_) => ExitCode::from(7),
        },
        Err(Failure::Usage) => ExitCode::from(3),
        Err(Failure::Memory) => ExitCode::from(8),
    }
}

/// The formula that the words of the command line ask for, as text.
fn text<R: Env + AllocGlobal>(rt: &R, alloc: Global) -> Result<Bytes, Failure> {
    let words = words_of(rt, alloc)?;
    match read_request(words.items()) {
        Some(request) => {
            let circuit = circuit_of(alloc, request)?;
            Ok(text_of(alloc, &circuit)?)
        }
        None => Err(Failure::Usage),
    }
}

/// The words after the program's name.
fn words_of<R: Env + AllocGlobal>(rt: &R, alloc: Global) -> Result<Sequence<Name>, Failure> {
    let mut words = Sequence::new(alloc);
    match env::args(rt) {
        Ok(all) => {
            for word in all.skip(1) {
                words.push(Name::new(alloc, word.as_str())?)?;
            }
            Ok(words)
        }
        Err(_) => Err(Failure::Usage),
    }
}
