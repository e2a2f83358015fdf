// Files in memory.

ghost use Rattle.std.specs.Prelude.{◌≡◌, ◌≤◌, ◌^◌, [], All, IfErr, IfOk, length};
ghost use Rattle.class_names.specs.Words.{all_interned, library_words as the_library_words};
ghost use Rattle.je_core.specs.View.{program_view};
ghost use Rattle.source_units.specs.Faults.{IsRefusal};
ghost use Rattle.source_units.specs.Files.{bytes_of};
ghost use Rattle.source_programs.specs.Findings.{ComesTo, IsFirst};

use crate::judging::judged;
use crate::program::SourceProgram;
use class_names::library_words;
use je_base::{Memory, Names};
use source_units::{Refusal, SourceUnits, read_units};
use std::alloc::Global;

// The words that the library's classes bring, which are few.
fn words(alloc: Global) -> Result<Names, Memory>
    ensures words { IfOk result (λ names. names ≡ all_interned [] the_library_words) }
    ensures few { IfOk result (λ names. length names ≤ 2 ^ 30) }
{
    let mut names = Names::new(alloc);
    library_words(&mut names)?;
    if names.len() > 1_073_741_824 {
        return Err(Memory);
    }
    Ok(names)
}

/// The program of 1 to 16 files of at most 1 MiB each, or its first finding: of tokens, of the grammar, of names, of
/// types, or of flow, in this order, and in each the first one.
#[tactic(auto, using(crate::proofs::Phases::in_text, crate::proofs::Phases::in_units))]
pub fn read_program(alloc: Global, files: &[Vec<u8>]) -> Result<SourceProgram, Refusal>
    requires count { length files.now ≤ 16 }
    requires small { All (λ file. length file.items ≤ 2 ^ 20) files.now }
    ensures ok { IfOk result (λ s. ComesTo (bytes_of files.now) s.names
        (program_view s.program)) }
    ensures err { IfErr result (IsRefusal (IsFirst (bytes_of files.now))) }
{
    let words = words(alloc)?;
    let SourceUnits { units, names } = read_units(alloc, files, words)?;
    let program = judged(alloc, &names, &units)?;
    Ok(SourceProgram { program, names })
}
