// What goes to a place of a type (JLS 5.2, 5.3).

ghost use Rattle.std.specs.Prelude.{◌≡◌, IfOk};
ghost use Rattle.std.specs.List.{list_all};
ghost use Rattle.je_core.specs.Core.{cores, list_of};
ghost use Rattle.je_core.specs.View.{views, program_view};
ghost use Rattle.je_fitting.specs.Types.{agrees as the_agrees, all_agree as the_all_agree, is_int as the_is_int, types_of};

use crate::parts::type_of;
use crate::types::{is_int, is_primitive};
use class_members::same_type;
use je_classes::is_subtype;
use je_core::{Expr, Memory, Program, Ty};
use std::alloc::Global;
use std::rc::Rc;

/// Whether a value of the first type goes to a place of the second: the same primitive, or a subtype.
pub fn agrees(alloc: Global, program: &Program, from: Ty, to: Ty) -> Result<bool, Memory>
    ensures { IfOk result (λ agree. agree ≡ the_agrees (program_view program.now) from to) }
{
    if is_primitive(from) && same_type(from, to) {
        return Ok(true);
    }
    is_subtype(alloc, program, from, to)
}

// Whether expressions go to places of these types, as many.
fn agree_in_turn(
    alloc: Global,
    program: &Program,
    list: &[Rc<Expr>],
    types: &[Ty],
) -> Result<bool, Memory>
    ensures { IfOk result (λ agree. agree ≡
        the_all_agree (program_view program.now) (types_of (views list.now)) types.now) }
{
    let mut left = types;
    for e in list {
        let Some((ty, rest)) = left.split_first() else {
            return Ok(false);
        };
        if !agrees(alloc, program, type_of(e), *ty)? {
            return Ok(false);
        }
        left = rest;
    }
    Ok(left.is_empty())
}

/// Whether a call's arguments go to parameters of these types, as many.
#[tactic(auto, using(je_core::proofs::Views::list_of_cores))]
pub fn all_agree(
    alloc: Global,
    program: &Program,
    args: &[Rc<Expr>],
    params: &[Ty],
) -> Result<bool, Memory>
    ensures { IfOk result (λ agree. agree ≡ the_all_agree (program_view program.now)
        (types_of (list_of (cores (views args.now)))) params.now) }
{
    agree_in_turn(alloc, program, args, params)
}

// Whether each of some expressions goes to a place of a type.
fn each_agrees(alloc: Global, program: &Program, list: &[Rc<Expr>], ty: Ty) -> Result<bool, Memory>
    ensures { IfOk result (λ agree. agree ≡ list_all
        (λ v. the_agrees (program_view program.now) v ty) (types_of (views list.now))) }
{
    for e in list {
        if !agrees(alloc, program, type_of(e), ty)? {
            return Ok(false);
        }
    }
    Ok(true)
}

/// Whether each element goes to a place of a type.
#[tactic(auto, using(je_core::proofs::Views::list_of_cores))]
pub fn all_agree_with(
    alloc: Global,
    program: &Program,
    elements: &[Rc<Expr>],
    ty: Ty,
) -> Result<bool, Memory>
    ensures { IfOk result
        (λ agree. agree ≡ list_all (λ v. the_agrees (program_view program.now) v ty)
        (types_of (list_of (cores (views elements.now))))) }
{
    each_agrees(alloc, program, elements, ty)
}

fn each_is_int(list: &[Rc<Expr>]) -> bool
    ensures { result ≡ list_all the_is_int (types_of (views list.now)) }
{
    for e in list {
        if !is_int(type_of(e)) {
            return false;
        }
    }
    true
}

/// Whether each length is an int.
#[tactic(auto, using(je_core::proofs::Views::list_of_cores))]
pub fn all_ints(lengths: &[Rc<Expr>]) -> bool
    ensures { result ≡ list_all the_is_int (types_of (list_of (cores (views lengths.now)))) }
{
    each_is_int(lengths)
}
