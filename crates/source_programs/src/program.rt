// A program that was read.

use je_base::Names;
use je_core::Program;

/// A program as it is written: what it comes to, and the names by their numbers.
#[derive(Drop)]
pub struct SourceProgram {
    pub program: Program,
    pub names: Names,
}
