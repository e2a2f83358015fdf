// Files and a sink in memory. They tell all, and fail where they are told to.

ghost use Rattle.std.specs.Prelude.{◌≡◌, [], Some, string_bytes};
ghost use Rattle.je_top.specs.InMemory.{files_of};
ghost use Rattle.planned_faults.specs.Plan.{Plan};

use crate::FILE_LIMIT;
use crate::files::{FileFault, Files};
use crate::sink::{Sink, SinkFault};
use planned_faults::Calls;
use std::alloc::Global;
use std::collections::BTreeMap;

/// Files that stand in memory.
#[derive(Drop)]
pub struct MemFiles {
    alloc: Global,
    held: BTreeMap<String, Vec<u8>>,
    reads: Calls,
    faults: u64,
    last: String,
}

impl MemFiles {
    /// Files with these names and bytes. `fails` has the numbers, from 1, of the reads that answer `Failed`. A read
    /// of a name that isn't held has a number too, but answers `NotThere`.
    pub fn new(alloc: Global, held: BTreeMap<String, Vec<u8>>, fails: Vec<u64>) -> Self
        ensures held { ⟦<MemFiles as Files>⟧.held result ≡ Some (files_of held) }
        ensures faults { ⟦<MemFiles as Files>⟧.faults result ≡ 0 }
        ensures last { ⟦<MemFiles as Files>⟧.last result ≡ [] }
        ensures plan { ⟦<MemFiles as Files>⟧.plan result
            ≡ Some (record { to_fail = fails.items; made = 0 }) }
        ensures calm { fails.items ≡ [] → ⟦<MemFiles as Files>⟧.is_calm result }
    {
        MemFiles {
            alloc,
            held,
            reads: Calls::new(fails),
            faults: 0,
            last: String::new(alloc),
        }
    }
}

impl Files for MemFiles {
    ghost held = { λ s. Some (files_of s.held) };

    ghost faults = { λ s. s.faults };

    ghost last = { λ s. string_bytes s.last };

    ghost plan = { λ s. Some s.reads };

    ghost is_calm = { λ s. s.reads.to_fail ≡ [] };

    fn read(&mut self, name: &str, into: &mut Vec<u8>) -> Result<(), FileFault> {
        into.clear();
        let fails = self.reads.next_fails();
        let Some(bytes) = self.held.get(name) else {
            return Err(FileFault::NotThere);
        };
        if fails {
            let Ok(name) = String::from_str(self.alloc, name) else {
                return Err(FileFault::Memory);
            };
            self.last = name;
            self.faults = self.faults.saturating_add(1);
            return Err(FileFault::Failed);
        }
        let bytes = bytes.as_slice();
        if bytes.len() > FILE_LIMIT {
            if into.extend_from_slice(&bytes[..FILE_LIMIT + 1]).is_err() {
                return Err(FileFault::Memory);
            }
            return Err(FileFault::TooLong);
        }
        if into.extend_from_slice(bytes).is_err() {
            return Err(FileFault::Memory);
        }
        Ok(())
    }
}

/// A sink that keeps what it takes.
#[derive(Drop)]
pub struct MemSink {
    taken: Vec<u8>,
    puts: Calls,
    faults: u64,
}

impl MemSink {
    /// A sink that has taken nothing. `fails` has the numbers, from 1, of the puts that answer `Failed`; these take
    /// nothing.
    pub fn new(alloc: Global, fails: Vec<u64>) -> Self
        ensures taken { ⟦<MemSink as Sink>⟧.taken result ≡ Some [] }
        ensures faults { ⟦<MemSink as Sink>⟧.faults result ≡ 0 }
        ensures plan { ⟦<MemSink as Sink>⟧.plan result
            ≡ Some (record { to_fail = fails.items; made = 0 }) }
        ensures calm { fails.items ≡ [] → ⟦<MemSink as Sink>⟧.is_calm result }
    {
        MemSink {
            taken: Vec::new(alloc),
            puts: Calls::new(fails),
            faults: 0,
        }
    }

    /// The bytes that were taken so far.
    pub fn taken(&self) -> &[u8]
        ensures { ⟦<MemSink as Sink>⟧.taken self.now ≡ Some result.now }
    {
        &self.taken
    }
}

impl Sink for MemSink {
    ghost taken = { λ s. Some s.taken.items };

    ghost faults = { λ s. s.faults };

    ghost plan = { λ s. Some s.puts };

    ghost is_calm = { λ s. s.puts.to_fail ≡ [] };

    fn put(&mut self, piece: &[u8]) -> Result<(), SinkFault> {
        if self.puts.next_fails() {
            self.faults = self.faults.saturating_add(1);
            return Err(SinkFault::Failed);
        }
        if self.taken.extend_from_slice(piece).is_err() {
            return Err(SinkFault::Memory);
        }
        Ok(())
    }
}
