// Equality of references, and all binary operators as they are written (JLS 15.17 to 15.24).

ghost use Rattle.std.specs.Prelude.{◌≡◌, IfOk, IfErr};
ghost use Rattle.je_fitting.specs.Operators.{sort_of};
ghost use Rattle.je_typing.specs.Answers.{IsFault};
ghost use Rattle.je_typing.specs.Judged.{gives};
ghost use Rattle.je_typing.specs.Operators.{binary as the_binary, compares_references as the_compares_references, is_and as the_is_and, is_equality as the_is_equality, joins as the_joins, operation as the_operation, reference_equality as the_reference_equality};
ghost use Rattle.name_types.specs.View.{shown};
ghost use Rattle.source_subtypes.specs.View.{heads_of};
ghost use Rattle.typed_nodes.specs.Seen.{seen};

use expr_steps::{concatenation, logical, primitive_operation};
use folded_nodes::reference_node;
use je_ast::BinaryOp;
use je_base::Span;
use je_core::{Base, BinOp};
use je_typing::{Refusal, TypeRule, check};
use name_types::SrcTy;
use reference_tests::may_be;
use source_subtypes::{ClassHeads, is_same};
use std::alloc::Global;
use typed_nodes::{TypedExpr, core_op, is_reference, of_base, string_ty};

/// `==` or `!=` between two references, of which one may be the other.
#[tactic(auto, unfolding(je_typing::specs::Operators::reference_equality), using(je_typing::proofs::Walks::walks))]
pub fn reference_equality(
    alloc: Global,
    heads: &ClassHeads,
    op: BinOp,
    at: Span,
    span: Span,
    left: TypedExpr,
    right: TypedExpr,
) -> Result<TypedExpr, Refusal>
    ensures ok { IfOk result (λ t. the_reference_equality (heads_of heads.now) op at span
        (seen left) (seen right) ≡ gives (seen t)) }
    ensures err { IfErr result (IsFault (the_reference_equality (heads_of heads.now) op at span
        (seen left) (seen right))) }
{
    let may = may_be(alloc, heads, &left.ty, &right.ty)?;
    check(TypeRule::BadOperand, at, may)?;
    let TypedExpr { node: before, .. } = left;
    let TypedExpr { node: behind, .. } = right;
    let node = reference_node(alloc, op, at, span, before, behind)?;
    Ok(of_base(Base::Bool, node))
}

fn is_and(op: BinaryOp) -> bool
    ensures { result ≡ the_is_and op }
{
    match op {
        BinaryOp::And => true,
        _ => false,
    }
}

// Whether `+` joins texts.
fn joins(op: BinOp, left: &SrcTy, right: &SrcTy) -> bool
    ensures { result ≡ the_joins op (shown left.now) (shown right.now) }
{
    match op {
        BinOp::Add => is_same(left, &string_ty()) || is_same(right, &string_ty()),
        _ => false,
    }
}

fn is_equality(op: BinOp) -> bool
    ensures { result ≡ the_is_equality (sort_of op) }
{
    match op {
        BinOp::Eq | BinOp::Ne => true,
        _ => false,
    }
}

// Whether `==` or `!=` has a reference on one side.
fn compares_references(op: BinOp, left: &SrcTy, right: &SrcTy) -> bool
    ensures { result ≡ the_compares_references op (shown left.now) (shown right.now) }
{
    is_equality(op) && (is_reference(left) || is_reference(right))
}

// An operator of the core program.
fn operation(
    alloc: Global,
    heads: &ClassHeads,
    op: BinOp,
    at: Span,
    span: Span,
    left: TypedExpr,
    right: TypedExpr,
) -> Result<TypedExpr, Refusal>
    ensures ok { IfOk result (λ t. the_operation (heads_of heads.now) op at span (seen left)
        (seen right) ≡ gives (seen t)) }
    ensures err { IfErr result (IsFault (the_operation (heads_of heads.now) op at span (seen left)
        (seen right))) }
{
    if joins(op, &left.ty, &right.ty) {
        return concatenation(alloc, at, span, left, right);
    }
    if compares_references(op, &left.ty, &right.ty) {
        return reference_equality(alloc, heads, op, at, span, left, right);
    }
    primitive_operation(alloc, op, at, span, left, right)
}

/// A binary operator as it is written, `instanceof` aside.
#[tactic(auto, unfolding(je_typing::specs::Operators::binary))]
pub fn binary(
    alloc: Global,
    heads: &ClassHeads,
    op: BinaryOp,
    at: Span,
    span: Span,
    left: TypedExpr,
    right: TypedExpr,
) -> Result<TypedExpr, Refusal>
    ensures ok { IfOk result (λ t. the_binary (heads_of heads.now) op at span (seen left)
        (seen right) ≡ gives (seen t)) }
    ensures err { IfErr result (IsFault (the_binary (heads_of heads.now) op at span (seen left)
        (seen right))) }
{
    match core_op(op) {
        Some(core) => operation(alloc, heads, core, at, span, left, right),
        None => logical(alloc, is_and(op), at, span, left, right),
    }
}
