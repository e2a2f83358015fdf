// The value of a variable (JLS 4.6, 15.28).

ghost use Rattle.std.specs.Prelude.{◌≡◌, IfOk, option_map};
ghost use Rattle.je_core.specs.Making.{IsNode};
ghost use Rattle.je_core.specs.View.{view};
ghost use Rattle.name_typing.specs.Variables.{constant_form, constant_or as the_constant_or, uses_for as the_uses_for, value_of as the_value_of};
ghost use Rattle.typed_nodes.specs.Seen.{seen};
ghost use Rattle.body_places.specs.Tables.{constant_seen};
ghost use Rattle.name_steps.specs.Variables.{variable_seen};
ghost use Rattle.body_places.specs.View.{program_seen};

use body_places::Constant;
use je_base::{Memory, Span};
use je_core::{ClassId, Expr, Mark, Ty, Use, make_const, make_text};
use std::alloc::Global;
use text_members::copied;
use typed_nodes::TypedExpr;

fn constant_node(
    alloc: Global,
    mark: Mark,
    uses: Vec<Use>,
    constant: &Constant,
) -> Result<Expr, Memory>
    ensures { IfOk result (λ e. IsNode e mark (constant_form uses.items (constant_seen constant.now))) }
{
    match constant {
        Constant::Value(value) => Ok(make_const(mark, *value, uses)),
        Constant::Text(units) => Ok(make_text(mark, copied(alloc, units.as_slice())?, uses)),
    }
}

/// What is read of a variable, or the constant that it is, at the place where it is named; `uses` are the fields of
/// the library that the constant is made of.
#[tactic(auto, using(je_core::proofs::Views::view_is))]
pub fn constant_or(
    alloc: Global,
    uses: Vec<Use>,
    read: TypedExpr,
    constant: Option<&Constant>,
) -> Result<TypedExpr, Memory>
    ensures { IfOk result (λ t. seen t ≡ the_constant_or uses.items (seen read)
        (option_map (λ c. constant_seen c.now) constant.entry)) }
{
    let Some(constant) = constant else {
        return Ok(read);
    };
    let TypedExpr { node, ty } = read;
    let mark = Mark {
        ty: node.ty,
        span: node.span,
        at: node.at,
    };
    let node = constant_node(alloc, mark, uses, constant)?;
    Ok(TypedExpr { node, ty })
}
