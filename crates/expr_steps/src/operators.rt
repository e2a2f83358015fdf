// Unary and binary operators (JLS 15.15, 15.17 to 15.24), on numbers, booleans and texts.

ghost use Rattle.std.specs.Prelude.{◌≡◌, ◌&&◌, ◌||◌, IfOk, IfErr, not};
ghost use Rattle.je_typing.specs.Answers.{IsFault};
ghost use Rattle.je_typing.specs.Judged.{gives};
ghost use Rattle.je_typing.specs.Operators.{concatenation as the_concatenation, logical as the_logical, plus as the_plus, primitive_operation as the_operation, unary as the_unary};
ghost use Rattle.je_typing.specs.Typed.{is_boolean as the_is_boolean, is_void as the_is_void};
ghost use Rattle.name_types.specs.View.{shown};
ghost use Rattle.typed_nodes.specs.Seen.{seen};

use folded_nodes::{binary_node, concat_node, conversion_node, logical_node, unary_node};
use je_base::Span;
use je_core::{Base, BinOp, UnOp};
use je_typing::{Refusal, TypeRule, check, need};
use name_types::SrcTy;
use std::alloc::Global;
use typed_nodes::{
    TypedExpr, is_boolean, is_void, of_base, operand_base, operands, promoted, result_base,
    string_ty,
};

/// Unary plus. `at` is the operator's token, here and below, and `span` the whole expression.
#[tactic(auto, unfolding(je_typing::specs::Operators::plus), using(je_typing::proofs::Walks::walks, typed_nodes::proofs::PrimitiveBases::promoted_is_primitive))]
pub fn plus(alloc: Global, at: Span, span: Span, operand: TypedExpr) -> Result<TypedExpr, Refusal>
    ensures ok { IfOk result (λ t. the_plus at span (seen operand) ≡ gives (seen t)) }
    ensures err { IfErr result (IsFault (the_plus at span (seen operand))) }
{
    let TypedExpr { node, ty } = operand;
    let base = need(TypeRule::BadOperand, at, promoted(&ty))?;
    let node = conversion_node(alloc, base, at, span, node)?;
    Ok(of_base(base, node))
}

/// Unary minus, `~` and `!`.
#[tactic(auto, unfolding(je_typing::specs::Operators::unary), using(je_typing::proofs::Walks::walks, typed_nodes::proofs::PrimitiveBases::operand_is_primitive))]
pub fn unary(
    alloc: Global,
    op: UnOp,
    at: Span,
    span: Span,
    operand: TypedExpr,
) -> Result<TypedExpr, Refusal>
    ensures ok { IfOk result (λ t. the_unary op at span (seen operand) ≡ gives (seen t)) }
    ensures err { IfErr result (IsFault (the_unary op at span (seen operand))) }
{
    let TypedExpr { node, ty } = operand;
    let base = need(TypeRule::BadOperand, at, operand_base(op, &ty))?;
    let node = unary_node(alloc, op, base, at, span, node)?;
    Ok(of_base(base, node))
}

/// A binary operator on two numbers or two booleans.
#[tactic(auto, unfolding(je_typing::specs::Operators::primitive_operation), using(je_typing::proofs::Walks::walks, typed_nodes::proofs::PrimitiveBases::result_is_primitive))]
pub fn primitive_operation(
    alloc: Global,
    op: BinOp,
    at: Span,
    span: Span,
    left: TypedExpr,
    right: TypedExpr,
) -> Result<TypedExpr, Refusal>
    ensures ok { IfOk result (λ t. the_operation op at span (seen left) (seen right)
        ≡ gives (seen t)) }
    ensures err { IfErr result (IsFault (the_operation op at span (seen left) (seen right))) }
{
    let to = need(TypeRule::BadOperand, at, operands(op, &left.ty, &right.ty))?;
    let base = result_base(op, to.left);
    let TypedExpr { node: before, .. } = left;
    let TypedExpr { node: behind, .. } = right;
    let node = binary_node(alloc, op, to, base, at, span, before, behind)?;
    Ok(of_base(base, node))
}

fn are_values(left: &SrcTy, right: &SrcTy) -> bool
    ensures { result ≡ not (the_is_void (shown left.now) || the_is_void (shown right.now)) }
{
    !(is_void(left) || is_void(right))
}

/// `+` where an operand is a String.
#[tactic(auto, unfolding(je_typing::specs::Operators::concatenation), using(je_typing::proofs::Walks::walks))]
pub fn concatenation(
    alloc: Global,
    at: Span,
    span: Span,
    left: TypedExpr,
    right: TypedExpr,
) -> Result<TypedExpr, Refusal>
    ensures ok { IfOk result (λ t. the_concatenation at span (seen left) (seen right)
        ≡ gives (seen t)) }
    ensures err { IfErr result (IsFault (the_concatenation at span (seen left) (seen right))) }
{
    check(TypeRule::BadOperand, at, are_values(&left.ty, &right.ty))?;
    let TypedExpr { node: before, .. } = left;
    let TypedExpr { node: behind, .. } = right;
    let node = concat_node(alloc, at, span, before, behind)?;
    let ty = string_ty();
    Ok(TypedExpr { node, ty })
}

fn are_booleans(left: &SrcTy, right: &SrcTy) -> bool
    ensures { result ≡ (the_is_boolean (shown left.now) && the_is_boolean (shown right.now)) }
{
    is_boolean(left) && is_boolean(right)
}

/// `&&`, or `||`.
#[tactic(auto, unfolding(je_typing::specs::Operators::logical), using(je_typing::proofs::Walks::walks))]
pub fn logical(
    alloc: Global,
    is_and: bool,
    at: Span,
    span: Span,
    left: TypedExpr,
    right: TypedExpr,
) -> Result<TypedExpr, Refusal>
    ensures ok { IfOk result (λ t. the_logical is_and at span (seen left) (seen right)
        ≡ gives (seen t)) }
    ensures err { IfErr result (IsFault (the_logical is_and at span (seen left) (seen right))) }
{
    check(TypeRule::BadOperand, at, are_booleans(&left.ty, &right.ty))?;
    let TypedExpr { node: before, .. } = left;
    let TypedExpr { node: behind, .. } = right;
    let node = logical_node(alloc, is_and, at, span, before, behind)?;
    Ok(of_base(Base::Bool, node))
}
