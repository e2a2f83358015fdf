// What a `switch` selects by, and its labels of an enum (JLS 8.9, 14.11).

ghost use Rattle.std.specs.Prelude.{◌≡◌, ◌<◌, ◌^◌, IfOk, IfSome, option_map};
ghost use Rattle.std.specs.List.{position};
ghost use Rattle.je_ast.specs.View.{node_view, view};
ghost use Rattle.je_core.specs.declared.types.ClassId.{ClassId as ClassNumber};
ghost use Rattle.name_types.specs.View.{shown};
ghost use Rattle.source_subtypes.specs.View.{heads_of};
ghost use Rattle.body_typing.specs.Switches.{constant_place as the_constant_place, enum_of as the_enum_of, is_constant_name, place_node as the_place_node, selected_by as the_selected_by};
ghost use Rattle.typed_nodes.specs.Seen.{seen};
ghost use Rattle.statement_forms.specs.way.Enums.{enum_in as the_enum_in};

use folded_nodes::mark_of;
use header_steps::class_of;
use je_ast::{Expr, Identifier};
use je_base::{Memory, NameId, Span};
use je_core::{Base, ClassId, Sort, Value, make_const, make_field};
use name_types::SrcTy;
use source_subtypes::ClassHeads;
use std::alloc::Global;
use typed_nodes::{TypedExpr, null_ty, of_base};

fn enum_in(heads: &ClassHeads, class: Option<ClassId>) -> Option<ClassId>
    ensures { option_map (λ (c : ClassNumber). c.0) result ≡
        the_enum_in (heads_of heads.now) (option_map (λ (c : ClassNumber). c.0) class) }
{
    let class = class?;
    match heads.class(class)?.kind.sort {
        Sort::Enum => Some(class),
        _ => None,
    }
}

/// The enum that a type is, if it is one.
#[tactic(auto, using(crate::proofs::Enums::enum_by))]
pub fn enum_of(heads: &ClassHeads, ty: &SrcTy) -> Option<ClassId>
    ensures { option_map (λ (c : ClassNumber). c.0) result ≡
        the_enum_of (heads_of heads.now) (shown ty.now) }
{
    if ty.dims == 0 {
        enum_in(heads, class_of(ty))
    } else {
        None
    }
}

// The field in which a constant of an enum keeps its place.
const ORDINAL: u32 = 1;

/// What is selected by: the value itself, or the place of a constant of an enum.
#[tactic(auto, using(je_core::proofs::Views::view_is))]
pub fn selected_by(
    alloc: Global,
    of_enum: Option<ClassId>,
    value: TypedExpr,
) -> Result<TypedExpr, Memory>
    ensures { IfOk result (λ t. seen t ≡
        the_selected_by (option_map (λ (c : ClassNumber). c.0) of_enum) (seen value)) }
{
    let Some(class) = of_enum else {
        return Ok(value);
    };
    let TypedExpr { node, .. } = value;
    let mark = mark_of(Base::Int, node.at, node.span);
    let node = make_field(alloc, mark, node, class, ORDINAL)?;
    Ok(of_base(Base::Int, node))
}

fn place_of(constants: &[Identifier], name: NameId) -> Option<usize>
    ensures { result ≡ position (is_constant_name name) constants.now }
{
    constants
        .iter()
        .position(|constant| constant.name.0 == name.0)
}

/// The place of the constant of an enum that an expression names.
#[tactic(auto, using(je_ast::proofs::Views::view_is))]
pub fn constant_place(constants: &[Identifier], expr: &Expr) -> Option<usize>
    ensures { result ≡ the_constant_place constants.now (view expr.now) }
{
    constant_place_here(constants, expr)
}

fn constant_place_here(constants: &[Identifier], expr: &Expr) -> Option<usize>
    ensures { result ≡ the_constant_place constants.now (node_view expr.now) }
{
    match expr {
        Expr::Name { name } => place_of(constants, name.name),
        _ => None,
    }
}

/// The place of a constant of an enum as a constant; an expression that names none is no constant.
pub fn place_node(alloc: Global, span: Span, place: Option<usize>) -> TypedExpr
    requires { IfSome place (λ n. n < 2 ^ 31) }
    ensures { seen result ≡ the_place_node span place }
{
    match place {
        Some(place) => {
            let mark = mark_of(Base::Int, span, span);
            let value = Value::Int(place as i32);
            of_base(Base::Int, make_const(mark, value, Vec::new(alloc)))
        }
        None => {
            let mark = mark_of(Base::Null, span, span);
            let node = make_const(mark, Value::Null, Vec::new(alloc));
            TypedExpr {
                node,
                ty: null_ty(),
            }
        }
    }
}
