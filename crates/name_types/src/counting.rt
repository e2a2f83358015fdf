// How many type arguments a class takes.

ghost use Rattle.std.specs.Prelude.{◌≡◌, ◌<◌, ◌≤◌, ◌^◌, length, map, slice_get};
ghost use Rattle.je_table.specs.Library.{classes};
ghost use Rattle.je_ast.specs.Types.{parameter_view};
ghost use Rattle.je_scopes.specs.SourceTypes.{arity_of, count_of_parameters, has_parameter, is_generic_row};
ghost use Rattle.name_sites.specs.View.{source_of};

use je_ast::TypeParam;
use je_base::NameId;
use je_core::ClassId;
use je_table::class_rows;
use name_sites::Sites;

/// How many type arguments a class takes: as many as it has type parameters, of which those of one name count once, and 1 for
/// a class of the library that is generic (JLS 4.5, 8.1.2).
pub fn arity(sites: &Sites, class: ClassId) -> usize
    ensures { result ≡ arity_of (source_of sites.now) class.0 }
{
    library_arity(class) + count_of_names(sites.parameters(class))
}

// The same of a class of the library; 0 for any other.
fn library_arity(class: ClassId) -> usize
    ensures count { result ≡ is_generic_row (slice_get classes class.0) }
    ensures few { result ≤ 1 }
{
    match class_rows().get(class.0 as usize) {
        Some(row) => row.bound.is_some() as usize,
        None => 0,
    }
}

// How many names type parameters have.
fn count_of_names(parameters: &[TypeParam]) -> usize
    ensures count { result ≡ count_of_parameters (map parameter_view parameters.now) }
    ensures few { result ≤ length parameters.now }
    ensures small { length parameters.now < 2 ^ 63 }
{
    let mut count = 0;
    let mut further = parameters;
    while let Some((first, rest)) = further.split_first() {
        if !has_name(rest, first.name.name) {
            count += 1;
        }
        further = rest;
    }
    count
}

fn has_name(parameters: &[TypeParam], name: NameId) -> bool
    ensures { result ≡ has_parameter name (map parameter_view parameters.now) }
{
    for parameter in parameters {
        if parameter.name.name.0 == name.0 {
            return true;
        }
    }
    false
}
