// Arguments (JLS 5.3, 15.12.4.2).

ghost use Rattle.std.specs.Prelude.{◌≡◌, ◌∷◌, ◌++◌, IfOk, List, OnOk, map};
ghost use Rattle.call_typing.specs.Calls.{passed as the_passed, type_of};
ghost use Rattle.je_core.specs.Core.{Core};
ghost use Rattle.je_core.specs.View.{view, views};
ghost use Rattle.je_typing.specs.Conversions.{converted_if as the_converted_if};
ghost use Rattle.je_typing.specs.Typed.{primitive as the_primitive};
ghost use Rattle.name_types.specs.View.{shown};
ghost use Rattle.typed_nodes.specs.Seen.{seen};

use folded_nodes::converted_if;
use je_base::Memory;
use je_core::Expr;
use name_types::SrcTy;
use source_subtypes::copied;
use std::alloc::Global;
use std::rc::Rc;
use typed_nodes::{TypedExpr, primitive};

/// The types of arguments.
pub fn types_of(alloc: Global, arguments: &[TypedExpr]) -> Result<Vec<SrcTy>, Memory>
    ensures { IfOk result (λ ts. map shown ts.items ≡ map type_of (map seen arguments.now)) }
{
    let mut types = Vec::new(alloc);
    for at in 0..arguments.len() {
        types.push(copied(alloc, &arguments[at].ty)?)?;
    }
    Ok(types)
}

// An argument for a parameter of a type.
fn passed_as(alloc: Global, ty: &SrcTy, argument: TypedExpr) -> Result<Expr, Memory>
    ensures { IfOk result (λ e. view e ≡
        the_converted_if (the_primitive (shown ty.now)) (seen argument).node) }
{
    let TypedExpr { node, .. } = argument;
    let value = converted_if(alloc, primitive(ty), node)?;
    Ok(value)
}

/// Arguments, each converted to the type of its parameter.
#[tactic(auto, using(crate::proofs::Passing::passing))]
pub fn passed(
    alloc: Global,
    parameters: &[SrcTy],
    arguments: Vec<TypedExpr>,
) -> Result<Vec<Rc<Expr>>, Memory>
    ensures { IfOk result (λ es. views es.items ≡
        the_passed (map shown parameters.now) (map seen arguments.items)) }
{
    let mut values = Vec::new(alloc);
    let mut left = parameters;
    for argument in arguments {
        let Some((ty, rest)) = left.split_first() else {
            return Ok(values);
        };
        let value = passed_as(alloc, ty, argument)?;
        values.push(Rc::new(alloc, value)?)?;
        left = rest;
    }
    Ok(values)
}
