//! `joee check TAMING FILE...` judges the program in the files under a taming text, and prints `accepted` or what is
//! found in it. `joee run FILE` runs `main` of the class in a file, and prints its reply.
//!
//! The call `je_top::joee` does the work, and has the contract. This program hands it the system's files, standard
//! output and the words of the command line, and ends with the number of the status.
#![tactic(auto)]

#[cfg(test)]
mod calls;
#[cfg(test)]
mod checking;
#[cfg(test)]
mod commands;
#[cfg(test)]
mod flowing;
#[cfg(test)]
mod programs;
#[cfg(test)]
mod running;

use je_base::Memory;
use je_top::{RealFiles, RealSink, Status, joee};
use std::alloc::Global;
use std::env;
use std::io::ErrorKind;
use std::process::ExitCode;
use std::rt::Env;

/// The words of the command line. Where the system gives a word that is no text there are none, which are wrong
/// words.
fn command_words<R: Env + Alloc<A = Global>>(runtime: &R) -> Result<Vec<String>, Memory> {
    match env::args(runtime) {
        Ok(words) => Ok(words.collect(runtime.alloc())?),
        Err(e) => match e.kind() {
            ErrorKind::OutOfMemory => Err(Memory),
            _ => Ok(Vec::new(runtime.alloc())),
        },
    }
}

fn main(rt: HostRuntime) -> ExitCode {
    let alloc = rt.alloc();
    let status = match command_words(&rt) {
        Ok(words) => joee(
            alloc,
            &words,
            &mut RealFiles::new(alloc, &rt),
            &mut RealSink::new(&rt),
        ),
        Err(Memory) => Status::Memory,
    };
    ExitCode::from(status.number())
}
