// Which arguments go to which parameters (JLS 5.3, 15.12.2.2).

ghost use Rattle.std.specs.Prelude.{◌≡◌, IfOk};
ghost use Rattle.je_core.specs.View.{program_view};
ghost use Rattle.je_classes.specs.Methods.{params_of, widens as the_widens, passes as the_passes, all_pass as the_all_pass};

use class_members::{method_at, same_type};
use je_classes::is_subtype;
use je_core::{Base, ClassId, Memory, Program, Ty};
use std::alloc::Global;

/// The parameters of the method of a class at a place; none where there is no such method.
pub fn params(program: &Program, class: ClassId, at: usize) -> &[Ty]
    ensures { result.now ≡ params_of (program_view program.now)
        (record { class = class; at = at }) }
{
    match method_at(program, class, at) {
        None => &[],
        Some(method) => &method.params,
    }
}

// Whether the second primitive type is wider than the first (JLS 5.1.2).
fn widens(from: Base, to: Base) -> bool
    ensures { result ≡ the_widens from to }
{
    match from {
        Base::Byte => match to {
            Base::Short | Base::Int | Base::Long => true,
            _ => false,
        },
        Base::Short | Base::Char => match to {
            Base::Int | Base::Long => true,
            _ => false,
        },
        Base::Int => match to {
            Base::Long => true,
            _ => false,
        },
        _ => false,
    }
}

// Whether an argument of the first type goes to a parameter of the second.
fn passes(alloc: Global, program: &Program, from: Ty, to: Ty) -> Result<bool, Memory>
    ensures { IfOk result (λ passes. passes ≡ the_passes (program_view program.now) from to) }
{
    if same_type(from, to) || (from.dims == 0 && to.dims == 0 && widens(from.base, to.base)) {
        return Ok(true);
    }
    is_subtype(alloc, program, from, to)
}

/// Whether arguments of the first types go to parameters of the second ones, as many.
#[tactic(auto, using(crate::proofs::Lists::passing_end))]
pub fn all_pass(alloc: Global, program: &Program, from: &[Ty], to: &[Ty]) -> Result<bool, Memory>
    ensures { IfOk result (λ pass. pass ≡ the_all_pass (program_view program.now) from.now to.now) }
{
    let mut left = to;
    for ty in from {
        let Some((param, rest)) = left.split_first() else {
            return Ok(false);
        };
        if !passes(alloc, program, *ty, *param)? {
            return Ok(false);
        }
        left = rest;
    }
    Ok(left.is_empty())
}
