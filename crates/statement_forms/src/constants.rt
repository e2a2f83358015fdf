// Constant variables (JLS 4.12.4).

ghost use Rattle.std.specs.Prelude.{◌≡◌, IfOk, option_map};
ghost use Rattle.body_typing.specs.ConstantVariables.{constant_as as the_constant_as, constant_text_if as the_constant_text_if, variable_constant as the_variable_constant};
ghost use Rattle.je_core.specs.View.{view};
ghost use Rattle.je_typing.specs.Typed.{primitive as the_primitive};
ghost use Rattle.name_types.specs.View.{shown};
ghost use Rattle.body_places.specs.Tables.{constant_seen};

use body_places::Constant;
use folded_nodes::{constant_text, constant_value, value_in};
use je_base::Memory;
use je_core::Expr;
use name_types::SrcTy;
use source_subtypes::is_same;
use std::alloc::Global;
use text_members::copied;
use typed_nodes::{primitive, string_ty};

fn constant_text_if(alloc: Global, is_string: bool, node: &Expr) -> Result<Option<Constant>, Memory>
    ensures { IfOk result (λ c. option_map constant_seen c ≡
        the_constant_text_if is_string (view node.now)) }
{
    if !is_string {
        return Ok(None);
    }
    let Some(units) = constant_text(node) else {
        return Ok(None);
    };
    let text = copied(alloc, units.as_slice())?;
    Ok(Some(Constant::Text(text)))
}

// The constant that an initializer is for a type, converted to it.
fn constant_as(alloc: Global, ty: &SrcTy, node: &Expr) -> Result<Option<Constant>, Memory>
    ensures { IfOk result (λ c. option_map constant_seen c ≡
        the_constant_as (shown ty.now) (the_primitive (shown ty.now)) (view node.now)) }
{
    match primitive(ty) {
        Some(base) => match value_in(base, constant_value(node)) {
            Some(value) => Ok(Some(Constant::Value(value))),
            None => Ok(None),
        },
        None => constant_text_if(alloc, is_same(ty, &string_ty()), node),
    }
}

/// The constant of a variable of a type with that initializer: a final one's of a primitive type or String, where the
/// initializer is a constant.
#[tactic(auto, unfolding(body_typing::specs::ConstantVariables::variable_constant))]
pub fn variable_constant(
    alloc: Global,
    is_final: bool,
    ty: &SrcTy,
    node: &Expr,
) -> Result<Option<Constant>, Memory>
    ensures { IfOk result (λ c. option_map constant_seen c ≡
        the_variable_constant is_final (shown ty.now) (view node.now)) }
{
    if !is_final {
        return Ok(None);
    }
    constant_as(alloc, ty, node)
}
