// Assignment and compound assignment (JLS 15.26).

ghost use Rattle.std.specs.Prelude.{◌≡◌, IfOk, IfErr};
ghost use Rattle.je_fitting.specs.Operators.{sort_of};
ghost use Rattle.je_core.specs.View.{view};
ghost use Rattle.je_typing.specs.Answers.{IsFault};
ghost use Rattle.je_typing.specs.Assignments.{appends as the_appends, are_numeric as the_are_numeric, assign_node as the_assign_node, assignment as the_assignment, combines as the_combines, compound as the_compound, update as the_update, update_node as the_update_node, updates as the_updates};
ghost use Rattle.je_typing.specs.Judged.{gives};
ghost use Rattle.name_types.specs.View.{shown};
ghost use Rattle.source_subtypes.specs.View.{heads_of};
ghost use Rattle.typed_nodes.specs.Seen.{seen};
ghost use Rattle.operator_steps.specs.way.Judging.{judged_sides as the_judged_sides, judged_value as the_judged_value};

use conversion_steps::assigned;
use expr_steps::is_place;
use je_ast::BinaryOp;
use je_base::{Memory, Span};
use je_core::{BinOp, Expr, Mark, make_assign, make_update};
use je_typing::{Refusal, TypeRule, check, need};
use name_types::SrcTy;
use source_subtypes::{ClassHeads, erased, is_same};
use std::alloc::Global;
use typed_nodes::{TypedExpr, core_op, is_boolean, is_numeric, is_void, string_ty};

// The value for a variable, which the left side must be.
#[tactic(auto, unfolding(crate::specs::way::Judging::judged_value, je_typing::specs::Assignments::place), using(je_typing::proofs::Walks::walks))]
fn judged_value(
    alloc: Global,
    heads: &ClassHeads,
    left_span: Span,
    right_span: Span,
    left: &TypedExpr,
    right: TypedExpr,
) -> Result<Expr, Refusal>
    ensures ok { IfOk result (λ v. the_judged_value (heads_of heads.now) left_span right_span
        (seen left.now) (seen right) ≡ gives (view v)) }
    ensures err { IfErr result (IsFault (the_judged_value (heads_of heads.now) left_span right_span
        (seen left.now) (seen right))) }
{
    let value = assigned(alloc, heads, &left.ty, right_span, right)?;
    check(TypeRule::BadTarget, left_span, is_place(&left.node))?;
    Ok(value)
}

/// An assignment of a value of the variable's type.
pub fn typed_assignment(
    alloc: Global,
    heads: &ClassHeads,
    at: Span,
    span: Span,
    left: TypedExpr,
    value: Expr,
) -> Result<TypedExpr, Memory>
    ensures { IfOk result (λ t. seen t ≡
        the_assign_node (heads_of heads.now) at span (seen left) (view value)) }
{
    let TypedExpr { node, ty } = left;
    let mark = Mark {
        ty: erased(heads, &ty),
        span,
        at,
    };
    let node = make_assign(alloc, mark, node, value)?;
    Ok(TypedExpr { node, ty })
}

/// `left = right`; the spans of the two sides are those of what is written, brackets included.
#[tactic(auto, using(je_typing::proofs::Walks::walks, crate::proofs::Judging::assignment_faults))]
pub fn assignment(
    alloc: Global,
    heads: &ClassHeads,
    at: Span,
    left_span: Span,
    right_span: Span,
    span: Span,
    left: TypedExpr,
    right: TypedExpr,
) -> Result<TypedExpr, Refusal>
    ensures ok { IfOk result (λ t. the_assignment (heads_of heads.now) at left_span right_span span
        (seen left) (seen right) ≡ gives (seen t)) }
    ensures err { IfErr result (IsFault (the_assignment (heads_of heads.now) at left_span right_span
        span (seen left) (seen right))) }
{
    let value = judged_value(alloc, heads, left_span, right_span, &left, right)?;
    let whole = typed_assignment(alloc, heads, at, span, left, value)?;
    Ok(whole)
}

fn are_numeric(left: &SrcTy, right: &SrcTy) -> bool
    ensures { result ≡ the_are_numeric (shown left.now) (shown right.now) }
{
    is_numeric(left) && is_numeric(right)
}

fn combines(op: BinOp, left: &SrcTy, right: &SrcTy) -> bool
    ensures { result ≡ the_combines (sort_of op) (shown left.now) (shown right.now) }
{
    match op {
        BinOp::BitAnd | BinOp::BitXor | BinOp::BitOr => {
            are_numeric(left, right) || (is_boolean(left) && is_boolean(right))
        }
        BinOp::Lt | BinOp::Gt | BinOp::Le | BinOp::Ge | BinOp::Eq | BinOp::Ne => false,
        BinOp::Mul | BinOp::Div | BinOp::Rem | BinOp::Add | BinOp::Sub => {
            are_numeric(left, right)
        }
        BinOp::Shl | BinOp::Shr | BinOp::Ushr => are_numeric(left, right),
    }
}

// Whether `+=` appends a value to a String.
fn appends(op: BinOp, left: &SrcTy, right: &SrcTy) -> bool
    ensures { result ≡ the_appends op (shown left.now) (shown right.now) }
{
    match op {
        BinOp::Add => is_same(left, &string_ty()) && !is_void(right),
        _ => false,
    }
}

fn updates(op: BinOp, left: &SrcTy, right: &SrcTy) -> bool
    ensures { result ≡ the_updates op (shown left.now) (shown right.now) }
{
    combines(op, left, right) || appends(op, left, right)
}

// Nothing where an operator of the core program takes the types of two sides, of which the left one must be a variable.
#[tactic(auto, unfolding(crate::specs::way::Judging::judged_sides, je_typing::specs::Assignments::place), using(je_typing::proofs::Walks::walks))]
fn judged_sides(
    op: BinOp,
    at: Span,
    left_span: Span,
    left: &TypedExpr,
    right: &TypedExpr,
) -> Result<(), Refusal>
    ensures ok { IfOk result (λ done. the_judged_sides op at left_span (seen left.now)
        (seen right.now) ≡ gives done) }
    ensures err { IfErr result (IsFault
        (the_judged_sides op at left_span (seen left.now) (seen right.now))) }
{
    check(TypeRule::BadOperand, at, updates(op, &left.ty, &right.ty))?;
    check(TypeRule::BadTarget, left_span, is_place(&left.node))
}

// A compound assignment of these sides.
#[tactic(auto, using(je_core::proofs::Views::view_is))]
fn typed_update(
    alloc: Global,
    heads: &ClassHeads,
    op: BinOp,
    at: Span,
    span: Span,
    left: TypedExpr,
    right: TypedExpr,
) -> Result<TypedExpr, Memory>
    ensures { IfOk result (λ t. seen t ≡
        the_update_node (heads_of heads.now) op at span (seen left) (view right.node)) }
{
    let TypedExpr { node, ty } = left;
    let mark = Mark {
        ty: erased(heads, &ty),
        span,
        at,
    };
    let TypedExpr { node: operand, .. } = right;
    let node = make_update(alloc, mark, node, op, Some(operand), false)?;
    Ok(TypedExpr { node, ty })
}

// A compound assignment by an operator of the core program.
#[tactic(auto, using(je_typing::proofs::Walks::walks, crate::proofs::Judging::update_faults))]
fn update(
    alloc: Global,
    heads: &ClassHeads,
    op: BinOp,
    at: Span,
    left_span: Span,
    span: Span,
    left: TypedExpr,
    right: TypedExpr,
) -> Result<TypedExpr, Refusal>
    ensures ok { IfOk result (λ t. the_update (heads_of heads.now) op at left_span span (seen left)
        (seen right) ≡ gives (seen t)) }
    ensures err { IfErr result (IsFault (the_update (heads_of heads.now) op at left_span span
        (seen left) (seen right))) }
{
    judged_sides(op, at, left_span, &left, &right)?;
    let whole = typed_update(alloc, heads, op, at, span, left, right)?;
    Ok(whole)
}

/// A compound assignment (JLS 15.26.2). The operand stays as it is, since the conversions are those of the assignment.
#[tactic(auto, unfolding(je_typing::specs::Assignments::compound), using(je_typing::proofs::Walks::walks))]
pub fn compound(
    alloc: Global,
    heads: &ClassHeads,
    op: BinaryOp,
    at: Span,
    left_span: Span,
    span: Span,
    left: TypedExpr,
    right: TypedExpr,
) -> Result<TypedExpr, Refusal>
    ensures ok { IfOk result (λ t. the_compound (heads_of heads.now) op at left_span span (seen left)
        (seen right) ≡ gives (seen t)) }
    ensures err { IfErr result (IsFault (the_compound (heads_of heads.now) op at left_span span
        (seen left) (seen right))) }
{
    let core = need(TypeRule::BadOperand, at, core_op(op))?;
    let whole = update(alloc, heads, core, at, left_span, span, left, right)?;
    Ok(whole)
}
