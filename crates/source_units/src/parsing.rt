// The units of all files.

ghost use Rattle.std.specs.Prelude.{◌≡◌, ◌+◌, ◌*◌, ◌<◌, ◌≤◌, ◌^◌, length, map, All, IfOk, IfErr, OnOk};
ghost use Rattle.je_ast.specs.View.{unit_view};
ghost use Rattle.je_ast.specs.Size.{unit_size};
ghost use Rattle.name_walk.specs.Sizes.{units_size};
ghost use Rattle.parse_expr.specs.Answers.{IsFile};
ghost use Rattle.source_units.specs.Files.{IsUnit, file_tokens};
ghost use Rattle.source_units.specs.Names.{all_interned};
ghost use Rattle.source_units.specs.Units.{IsUnitAmong, AreRead};
ghost use Rattle.source_units.specs.Faults.{IsRefusal, IsSyntaxFault, IsFirstSyntaxFault};
ghost use Rattle.source_units.specs.way.Ready.{IsReady};

use crate::numbering::numbers;
use crate::refusal::Refusal;
use crate::units::SourceUnits;
use host_text::{Finding, Rule};
use je_ast::{Unit, renumber};
use je_base::Names;
use je_lexer::Tokens;
use parse_decl::{ParseFault, unit};
use std::alloc::Global;

// The units of all files over one list of names, in which `names` stand first; or the fault of the
// first file that has none.
pub(crate) fn parse_all(alloc: Global, all: &[Tokens], names: Names) -> Result<SourceUnits, Refusal>
    requires count { length all.now ≤ 16 }
    requires ready { All IsReady all.now }
    requires few_names { length names ≤ 2 ^ 30 }
    ensures ok { IfOk result (λ s. AreRead (map file_tokens all.now) names
        (map unit_view s.units.items) s.names) }
    ensures small { IfOk result (λ s. units_size (map unit_view s.units.items) ≤ 2 ^ 26) }
    ensures few_names { IfOk result (λ s. length s.names < 2 ^ 32) }
    ensures err { IfErr result (IsRefusal (IsFirstSyntaxFault (map file_tokens all.now))) }
{
    let mut names = names;
    let mut units = Vec::new(alloc);
    for tokens in all {
        let unit = parse_file(alloc, tokens, &mut names)?;
        units.push(unit)?;
    }
    Ok(SourceUnits { units, names })
}

// The unit of a file, its names put to the numbers that they have in `names`.
#[tactic(auto, using(crate::proofs::Parsed::among, crate::proofs::Sizes::small_kept))]
fn parse_file(alloc: Global, tokens: &Tokens, names: &mut Names) -> Result<Unit, Refusal>
    requires file { IsFile tokens.now }
    requires room { length names.old + length tokens.now.names ≤ 2 ^ 31 }
    ensures unit { IfOk result
        (λ unit. IsUnitAmong names.new (file_tokens tokens.now) (unit_view unit)) }
    ensures names { OnOk result (names.new ≡ all_interned names.old tokens.now.names) }
    ensures few { OnOk result
        (length names.new ≤ length names.old + length tokens.now.names) }
    ensures small { IfOk result
        (λ unit. unit_size (unit_view unit).declarations ≤ 2 * length tokens.now.list.items) }
    ensures err { IfErr result (IsRefusal (IsSyntaxFault (file_tokens tokens.now))) }
{
    let mut unit = own_unit(alloc, tokens)?;
    let numbers = numbers(alloc, &tokens.names, names)?;
    renumber(&mut unit, &numbers);
    Ok(unit)
}

// The unit of a file, with the numbers of the file's own names.
#[tactic(auto, using(crate::proofs::Parsed::is_unit, crate::proofs::Parsed::refused))]
fn own_unit(alloc: Global, tokens: &Tokens) -> Result<Unit, Refusal>
    requires file { IsFile tokens.now }
    ensures unit { IfOk result (λ unit. IsUnit (file_tokens tokens.now) (unit_view unit)) }
    ensures small { IfOk result
        (λ unit. unit_size (unit_view unit).declarations ≤ 2 * length tokens.now.list.items) }
    ensures err { IfErr result (IsRefusal (IsSyntaxFault (file_tokens tokens.now))) }
{
    match unit(alloc, tokens) {
        Ok(unit) => Ok(unit),
        Err(ParseFault::Memory) => Err(Refusal::Memory),
        Err(ParseFault::Syntax(span)) => Err(Refusal::Fault(Finding {
            rule: Rule::Syntax,
            span,
        })),
    }
}
