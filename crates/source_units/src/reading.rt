// Files to units.

ghost use Rattle.std.specs.Prelude.{◌<◌, ◌≤◌, ◌^◌, length, map, All, IfOk, IfErr};
ghost use Rattle.je_ast.specs.View.{unit_view};
ghost use Rattle.name_walk.specs.Sizes.{units_size};
ghost use Rattle.source_units.specs.Files.{bytes_of};
ghost use Rattle.source_units.specs.Units.{AreUnitsOf};
ghost use Rattle.source_units.specs.Faults.{IsRefusal, IsFirstFault};

use crate::lexing::lex_all;
use crate::parsing::parse_all;
use crate::refusal::Refusal;
use crate::units::SourceUnits;
use je_base::Names;
use std::alloc::Global;

/// The units of at most 16 files of at most 1,048,576 bytes each (JLS 3, 7.3). Their names stand
/// behind `names`, those of each file in turn, each once. The first fault is that of the first file
/// without tokens, or else of the first file that is no unit; Memory is answered where an allocation
/// is refused.
#[tactic(auto, using(crate::proofs::Refused::of_tokens, crate::proofs::Refused::of_syntax))]
pub fn read_units(alloc: Global, files: &[Vec<u8>], names: Names) -> Result<SourceUnits, Refusal>
    requires count { length files.now ≤ 16 }
    requires small { All (λ file. length file.items ≤ 2 ^ 20) files.now }
    requires few_names { length names ≤ 2 ^ 30 }
    ensures ok { IfOk result
        (λ s. AreUnitsOf (bytes_of files.now) names (map unit_view s.units.items) s.names) }
    ensures small { IfOk result (λ s. units_size (map unit_view s.units.items) ≤ 2 ^ 26) }
    ensures few_names { IfOk result (λ s. length s.names < 2 ^ 32) }
    ensures err { IfErr result (IsRefusal (IsFirstFault (bytes_of files.now))) }
{
    let all = lex_all(alloc, files)?;
    parse_all(alloc, &all, names)
}
