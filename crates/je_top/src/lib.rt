//! The top call `joee` and what it stands on: files by name, a sink of text, statuses and the command line.
//!
//! `joee(alloc, &words, &mut files, &mut out)` does what the words of a command line say, puts its text to `out` and
//! answers a `Status`, whose `number` a program ends with. Its clauses say which status comes exactly where, which
//! text is put for it, and that a fault comes only where a count of faults rose. What the program comes to is a
//! definition, `specs/Due.antt`, over what the words ask for and what the files hold; the code is not in it.
//!
//! `judge` accepts exactly the bytes of files that come to a program which fits and breaks no rule of Joe-E under the
//! rows of a taming text, and else gives the findings (`specs/Judgement.antt`).
//!
//! `Files` and `Sink` are how the call reaches the outside. Contracts see of files what is held (the bytes of each
//! name, where that is told), a count of faults and the name of the last read that failed; and of a sink the bytes
//! that it took (where that is told) and a count of faults. `MemFiles` and `MemSink` tell all. `RealFiles` and
//! `RealSink`, over the system's files and standard output, tell nothing: they are the trusted edge.
#![tactic(auto)]

mod deciding;
mod files;
mod in_memory;
mod judging;
mod laws;
mod outcome;
mod reading;
mod real;
mod refusal;
mod running;
mod sink;
mod status;
mod texts;
mod top;
mod words;

pub use files::{FileFault, Files};
pub use in_memory::{MemFiles, MemSink};
pub use judging::judge;
pub use laws::{accepted_is_one, breaks_are_one, one_outcome_is_due, verdict_is_one};
pub use real::{RealFiles, RealSink};
pub use refusal::Refusal;
pub use sink::{Sink, SinkFault};
pub use status::Status;
pub use top::joee;

/// The most bytes that a file may have to be read whole.
pub const FILE_LIMIT: usize = 1_048_576;
