// What tells which hidden fields classes have.

ghost use Rattle.std.specs.Prelude.{◌≡◌};
ghost use Rattle.type_faults.specs.Program.{source_in};
ghost use Rattle.program_tables.specs.Library.{IsLibraryFirst, LibraryComesFirst};

use core_making::CapturedLocal;
use je_base::Names;
use source_subtypes::ClassHeads;
use type_faults::Program as Source;

/// What tells which hidden fields classes have: where they are written and with what names, their headers, and what
/// they capture.
#[derive(Clone, Copy)]
pub struct Layout<'a> {
    pub source: Source<'a>,
    pub names: &'a Names,
    pub heads: &'a ClassHeads,
    /// The locals that each class captures, in the order of the fields that keep them.
    pub captured: &'a [Vec<CapturedLocal>],
    ghost named: { names.now ≡ (source_in source).texts },
    ghost library_first: { IsLibraryFirst (source_in source) },
}

/// The library's classes are the first ones of the source of all units.
#[tactic(auto, using(crate::proofs::Library::library_comes_first))]
pub fn library_comes_first()
    ensures { LibraryComesFirst }
{}
