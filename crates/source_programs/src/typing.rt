// Files to programs that fit.

ghost use Rattle.std.specs.Prelude.{◌≡◌, ◌≤◌, ◌^◌, All, IfErr, IfOk, OnOk, length};
ghost use Rattle.je_core.specs.View.{program_view};
ghost use Rattle.je_fitting.specs.Program.{FitsProgram};
ghost use Rattle.je_types.specs.Checked.{IsFault};
ghost use Rattle.je_types.specs.Views.{program_of};
ghost use Rattle.library_classes.specs.Library.{LibraryStands};
ghost use Rattle.source_units.specs.Files.{bytes_of};
ghost use Rattle.source_programs.specs.Findings.{ComesTo, IsFrontFault};

use crate::fault::FrontFault;
use crate::program::SourceProgram;
use crate::reading::read_program;
use je_base::Names;
use je_core::Program;
use je_types::{CheckFault, Typed, is_small};
use std::alloc::Global;

// A program as one that fits, or its first misfit. No memory holds one whose parts have no numbers.
fn typed(alloc: Global, program: Program) -> Result<Typed, CheckFault>
    requires library { LibraryStands (program_view program) }
    ensures ok { IfOk result (λ typed. program_of typed ≡ program_view program) }
    ensures fits { OnOk result (FitsProgram (program_view program)) }
    ensures misfit { IfErr result (IsFault (program_view program)) }
{
    if !is_small(&program) {
        return Err(CheckFault::Memory);
    }
    Typed::check(alloc, program)
}

/// The program of 1 to 16 files of at most 1 MiB each, as one that fits, with the names by their numbers; or the first
/// finding: of tokens, of the grammar, of names, of types, or of flow, in this order, and in each the first one.
///
/// # Errors
///
/// `Found` exactly where a phase has a finding, `Misfit` where none has and the core program doesn't fit, and `Memory`
/// for want of memory.
#[tactic(auto, using(crate::proofs::Phases::refused, crate::proofs::Phases::misfits, crate::proofs::Library::library_stands))]
pub fn front(alloc: Global, files: &[Vec<u8>]) -> Result<(Typed, Names), FrontFault>
    requires count { length files.now ≤ 16 }
    requires small { All (λ file. length file.items ≤ 2 ^ 20) files.now }
    ensures ok { IfOk result (λ r. ComesTo (bytes_of files.now) r.1 (program_of r.0)) }
    ensures fits { IfOk result (λ r. FitsProgram (program_of r.0)) }
    ensures err { IfErr result (IsFrontFault (bytes_of files.now)) }
{
    let SourceProgram { program, names } = read_program(alloc, files)?;
    let typed = typed(alloc, program)?;
    Ok((typed, names))
}
