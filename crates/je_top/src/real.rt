// The system's files and standard output. They tell nothing of content: no contract can say what a file has or what
// a terminal shows. They are trusted to read what is there and to write what they are given.

ghost use Rattle.std.specs.Prelude.{◌≡◌, ◌≤◌, ◌+◌, None, OnOk, IsErrOf, vec_len, string_bytes};
ghost use Rattle.je_top.specs.Files.{file_limit};

use crate::FILE_LIMIT;
use crate::files::{FileFault, Files};
use crate::sink::{Sink, SinkFault};
use std::alloc::Global;
use std::fs;
use std::io::{ErrorKind, Read};
use std::rt::Files as SystemFiles;

/// The system's files, by their paths.
///
/// A path that the system says isn't there is `NotThere`. Want of memory is `Memory`. Anything else that goes wrong,
/// a folder in place of a file among it, is `Failed`. Each refusal but `Memory` raises the count of faults.
#[derive(Drop)]
pub struct RealFiles<'a, R: SystemFiles> {
    runtime: &'a R,
    alloc: Global,
    faults: u64,
    last: String,
}

impl<'a, R: SystemFiles> RealFiles<'a, R> {
    /// The files that this runtime reaches.
    pub fn new(alloc: Global, runtime: &'a R) -> Self {
        RealFiles {
            runtime,
            alloc,
            faults: 0,
            last: String::new(alloc),
        }
    }
}

impl<'a, R: SystemFiles> Files for RealFiles<'a, R> {
    ghost held = { λ _. None };

    ghost faults = { λ s. s.faults };

    ghost last = { λ s. string_bytes s.last };

    ghost plan = { λ _. None };

    ghost is_calm = { λ _. ⊥ };

    fn read(&mut self, name: &str, into: &mut Vec<u8>) -> Result<(), FileFault> {
        into.clear();
        let Ok(kept) = String::from_str(self.alloc, name) else {
            return Err(FileFault::Memory);
        };
        match read_file(self.runtime, name, into) {
            Ok(()) => Ok(()),
            Err(FileFault::NotThere) => {
                into.clear();
                self.faults = self.faults.saturating_add(1);
                Err(FileFault::NotThere)
            }
            Err(FileFault::TooLong) => {
                self.faults = self.faults.saturating_add(1);
                Err(FileFault::TooLong)
            }
            Err(FileFault::Failed) => {
                into.clear();
                self.last = kept;
                self.faults = self.faults.saturating_add(1);
                Err(FileFault::Failed)
            }
            Err(FileFault::Memory) => {
                into.clear();
                Err(FileFault::Memory)
            }
        }
    }
}

/// Opens a file and reads it to its end, or to one byte past the limit.
fn read_file<R: SystemFiles>(runtime: &R, name: &str, into: &mut Vec<u8>) -> Result<(), FileFault>
    requires { vec_len into.old ≡ 0 }
    ensures ok { OnOk result (vec_len into.new ≤ file_limit) }
    ensures too_long { IsErrOf result FileFault.TooLong → vec_len into.new ≡ file_limit + 1 }
{
    match fs::open(runtime, name) {
        Ok(mut file) => read_capped(&mut file, into),
        Err(e) => match e.kind() {
            ErrorKind::NotFound => Err(FileFault::NotThere),
            ErrorKind::OutOfMemory => Err(FileFault::Memory),
            _ => Err(FileFault::Failed),
        },
    }
}

/// Reads to the end, or to one byte past the limit.
fn read_capped<R: Read>(reader: &mut R, into: &mut Vec<u8>) -> Result<(), FileFault>
    requires { vec_len into.old ≡ 0 }
    ensures ok { OnOk result (vec_len into.new ≤ file_limit) }
    ensures too_long { IsErrOf result FileFault.TooLong → vec_len into.new ≡ file_limit + 1 }
{
    let mut buffer = [0u8; 4096];
    for _ in 0..u64::MAX {
        if into.len() > FILE_LIMIT {
            return Err(FileFault::TooLong);
        }
        match reader.read(&mut buffer) {
            Ok(0) => return Ok(()),
            Ok(n) => {
                let n = n.min(FILE_LIMIT + 1 - into.len());
                if into.extend_from_slice(&buffer[..n]).is_err() {
                    return Err(FileFault::Memory);
                }
            }
            Err(e) => match e.kind() {
                ErrorKind::Interrupted => {}
                ErrorKind::OutOfMemory => return Err(FileFault::Memory),
                _ => return Err(FileFault::Failed),
            },
        }
    }
    Err(FileFault::Failed)
}

/// Standard output. A piece that isn't written to its end has failed, and raises the count of faults.
#[derive(Drop)]
pub struct RealSink<'a, R: Print> {
    runtime: &'a R,
    faults: u64,
}

impl<'a, R: Print> RealSink<'a, R> {
    /// The standard output of this runtime.
    pub fn new(runtime: &'a R) -> Self {
        RealSink { runtime, faults: 0 }
    }
}

impl<'a, R: Print> Sink for RealSink<'a, R> {
    ghost taken = { λ _. None };

    ghost faults = { λ s. s.faults };

    ghost plan = { λ _. None };

    ghost is_calm = { λ _. ⊥ };

    fn put(&mut self, piece: &[u8]) -> Result<(), SinkFault> {
        if is_written(self.runtime, piece) {
            Ok(())
        } else {
            self.faults = self.faults.saturating_add(1);
            Err(SinkFault::Failed)
        }
    }
}

/// Writes a piece, and says whether it was written to its end. A write that takes nothing is the end of the tries.
fn is_written<R: Print>(runtime: &R, piece: &[u8]) -> bool {
    let mut rest = piece;
    for _ in 0..u64::MAX {
        if rest.is_empty() {
            return true;
        }
        match runtime.write_some(rest) {
            Ok(0) => return false,
            Ok(n) => rest = &rest[n..],
            Err(e) => {
                if e.kind() != ErrorKind::Interrupted {
                    return false;
                }
            }
        }
    }
    false
}
