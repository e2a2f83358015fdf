// An element of an array, and an array's length (JLS 10.7, 15.13).

ghost use Rattle.std.specs.Prelude.{◌≡◌, IfOk, IfErr};
ghost use Rattle.je_core.specs.View.{view};
ghost use Rattle.je_typing.specs.Answers.{IsFault};
ghost use Rattle.je_typing.specs.Arrays.{element as the_element, element_node as the_element_node, int_index as the_int_index, is_int_if as the_is_int_if, length_of as the_length_of};
ghost use Rattle.je_typing.specs.declared.fault.TypeRule.TheVariants.{BadIndex};
ghost use Rattle.je_typing.specs.Judged.{gives, need as the_need};
ghost use Rattle.je_typing.specs.Typed.{element_type as the_element_type};
ghost use Rattle.name_types.specs.View.{shown};
ghost use Rattle.source_subtypes.specs.View.{heads_of};
ghost use Rattle.typed_nodes.specs.Seen.{seen};

use folded_nodes::{converted, mark_of};
use je_base::{Memory, Span};
use je_core::{Base, Expr, Mark, make_index, make_length};
use je_typing::{Refusal, TypeRule, check};
use name_types::SrcTy;
use source_subtypes::{ClassHeads, erased};
use std::alloc::Global;
use typed_nodes::{TypedExpr, element_type, need_type, of_base, promoted};

fn is_int_if(base: Option<Base>) -> bool
    ensures { result ≡ the_is_int_if base }
{
    match base {
        Some(Base::Int) => true,
        _ => false,
    }
}

/// An index or a length, which is promoted to int.
#[tactic(auto, unfolding(je_typing::specs::Arrays::int_index), using(je_typing::proofs::Walks::walks))]
pub fn int_index(alloc: Global, span: Span, index: TypedExpr) -> Result<Expr, Refusal>
    ensures ok { IfOk result (λ e. the_int_index span (seen index) ≡ gives (view e)) }
    ensures err { IfErr result (IsFault (the_int_index span (seen index))) }
{
    check(TypeRule::BadIndex, span, is_int_if(promoted(&index.ty)))?;
    let TypedExpr { node, .. } = index;
    let node = converted(alloc, Base::Int, node)?;
    Ok(node)
}

// The type of an indexed array's elements, else the fault.
fn needed_element(span: Span, ty: SrcTy) -> Result<SrcTy, Refusal>
    ensures ok { IfOk result (λ t. the_need BadIndex span (the_element_type (shown ty))
        ≡ gives (shown t)) }
    ensures err { IfErr result (IsFault (the_need BadIndex span (the_element_type (shown ty)))) }
{
    let element = element_type(ty);
    need_type(TypeRule::BadIndex, span, element)
}

// An element of a type.
fn typed_element(
    alloc: Global,
    heads: &ClassHeads,
    ty: SrcTy,
    span: Span,
    array: Expr,
    index: Expr,
) -> Result<TypedExpr, Memory>
    ensures { IfOk result (λ t. seen t ≡
        the_element_node (heads_of heads.now) (shown ty) span (view array) (view index)) }
{
    let mark = Mark {
        ty: erased(heads, &ty),
        span,
        at: span,
    };
    let node = make_index(alloc, mark, array, index)?;
    Ok(TypedExpr { node, ty })
}

/// `array[index]`
#[tactic(auto, unfolding(je_typing::specs::Arrays::element), using(je_typing::proofs::Walks::walks, crate::proofs::IndexFaults::index_faults))]
pub fn element(
    alloc: Global,
    heads: &ClassHeads,
    array_span: Span,
    index_span: Span,
    span: Span,
    array: TypedExpr,
    index: TypedExpr,
) -> Result<TypedExpr, Refusal>
    ensures ok { IfOk result (λ t. the_element (heads_of heads.now) array_span index_span span
        (seen array) (seen index) ≡ gives (seen t)) }
    ensures err { IfErr result (IsFault (the_element (heads_of heads.now) array_span index_span span
        (seen array) (seen index))) }
{
    let TypedExpr {
        node: indexed,
        ty: array_ty,
    } = array;
    let ty = needed_element(array_span, array_ty)?;
    let index = int_index(alloc, index_span, index)?;
    let whole = typed_element(alloc, heads, ty, span, indexed, index)?;
    Ok(whole)
}

/// `array.length`, of an array; `at` is the name.
pub fn length_of(alloc: Global, at: Span, span: Span, array: Expr) -> Result<TypedExpr, Memory>
    ensures { IfOk result (λ t. seen t ≡ the_length_of at span (view array)) }
{
    let node = make_length(alloc, mark_of(Base::Int, at, span), array)?;
    Ok(of_base(Base::Int, node))
}
