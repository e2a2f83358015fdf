// Casts and `instanceof` (JLS 5.5, 15.16, 15.20.2).

ghost use Rattle.std.specs.Prelude.{◌≡◌, IfOk, IfErr, option_map, true};
ghost use Rattle.je_core.specs.declared.types.Base.TheVariants.{Bool};
ghost use Rattle.je_core.specs.Core.{InstanceOf, node};
ghost use Rattle.je_core.specs.View.{view};
ghost use Rattle.je_fitting.specs.Types.{of};
ghost use Rattle.je_typing.specs.Answers.{IsFault};
ghost use Rattle.je_typing.specs.Casts.{cast as the_cast, casts_to as the_casts_to, instance_of as the_instance_of, primitive_cast as the_primitive_cast, reference_cast as the_reference_cast, reference_cast_node as the_reference_cast_node, tests_as as the_tests_as, text_kept as the_text_kept};
ghost use Rattle.je_typing.specs.Judged.{gives};
ghost use Rattle.je_typing.specs.Typed.{is_primitive_base};
ghost use Rattle.name_types.specs.View.{shown};
ghost use Rattle.source_subtypes.specs.View.{heads_of};
ghost use Rattle.source_types.specs.Erasure.{erased as the_erased};
ghost use Rattle.typed_nodes.specs.Seen.{seen};

use fit_parts::string;
use folded_nodes::{constant_text, conversion_node, mark_of, uses_of};
use je_base::{Memory, Span, Units};
use je_core::{Base, Expr, Mark, make_cast, make_instance_of, make_text};
use je_typing::{Refusal, TypeRule, check};
use name_types::SrcTy;
use reference_tests::{is_reifiable, may_be};
use source_subtypes::{ClassHeads, erased, is_same};
use std::alloc::Global;
use text_members::copied;
use typed_nodes::{TypedExpr, is_boolean, is_numeric, of_base, primitive, string_ty};

// Whether a value of a type casts to a primitive type: a number to a number, a boolean to boolean.
fn casts_to(base: Base, ty: &SrcTy) -> bool
    ensures { result ≡ the_casts_to base (shown ty.now) }
{
    match base {
        Base::Bool => is_boolean(ty),
        _ => is_numeric(ty),
    }
}

// To a primitive type; of a constant a constant.
#[tactic(auto, unfolding(je_typing::specs::Casts::primitive_cast), using(je_typing::proofs::Walks::walks))]
fn primitive_cast(
    alloc: Global,
    base: Base,
    type_span: Span,
    span: Span,
    operand: TypedExpr,
) -> Result<TypedExpr, Refusal>
    requires { is_primitive_base base ≡ true }
    ensures ok { IfOk result (λ t. the_primitive_cast base type_span span (seen operand)
        ≡ gives (seen t)) }
    ensures err { IfErr result (IsFault
        (the_primitive_cast base type_span span (seen operand))) }
{
    check(TypeRule::BadCast, type_span, casts_to(base, &operand.ty))?;
    let TypedExpr { node, .. } = operand;
    let node = conversion_node(alloc, base, type_span, span, node)?;
    Ok(of_base(base, node))
}

// Whether a value of one type may be asked for another one when the program runs.
fn tests_as(alloc: Global, heads: &ClassHeads, to: &SrcTy, ty: &SrcTy) -> Result<bool, Memory>
    ensures { IfOk result (λ tests. tests ≡
        the_tests_as (heads_of heads.now) (shown to.now) (shown ty.now)) }
{
    if !is_reifiable(heads, to) {
        return Ok(false);
    }
    may_be(alloc, heads, ty, to)
}

// The units of a constant string, where the type is String.
fn text_kept<'a>(to: &SrcTy, node: &'a Expr) -> Option<&'a Units>
    ensures { option_map (λ u. u.now) result ≡ the_text_kept (shown to.now) (view node.now) }
{
    if is_same(to, &string_ty()) {
        constant_text(node)
    } else {
        None
    }
}

fn reference_cast_node(
    alloc: Global,
    heads: &ClassHeads,
    to: &SrcTy,
    at: Span,
    span: Span,
    operand: Expr,
) -> Result<Expr, Memory>
    ensures { IfOk result (λ made. view made ≡
        the_reference_cast_node (heads_of heads.now) (shown to.now) at span (view operand)) }
{
    match text_kept(to, &operand) {
        Some(units) => {
            let units = copied(alloc, units.as_slice())?;
            let uses = uses_of(alloc, &operand)?;
            let ty = string();
            Ok(make_text(Mark { ty, span, at }, units, uses))
        }
        None => {
            let ty = erased(heads, to);
            make_cast(alloc, Mark { ty, span, at }, operand)
        }
    }
}

// To a reference type; of a constant string to String a constant.
#[tactic(auto, unfolding(je_typing::specs::Casts::reference_cast), using(je_typing::proofs::Walks::walks))]
fn reference_cast(
    alloc: Global,
    heads: &ClassHeads,
    to: SrcTy,
    type_span: Span,
    span: Span,
    operand: TypedExpr,
) -> Result<TypedExpr, Refusal>
    ensures ok { IfOk result (λ t. the_reference_cast (heads_of heads.now) (shown to) type_span span
        (seen operand) ≡ gives (seen t)) }
    ensures err { IfErr result (IsFault (the_reference_cast (heads_of heads.now) (shown to)
        type_span span (seen operand))) }
{
    let tests = tests_as(alloc, heads, &to, &operand.ty)?;
    check(TypeRule::BadCast, type_span, tests)?;
    let TypedExpr { node, .. } = operand;
    let node = reference_cast_node(alloc, heads, &to, type_span, span, node)?;
    Ok(TypedExpr { node, ty: to })
}

/// A cast to a type; `type_span` is that of the type as it is written, brackets included.
#[tactic(auto, unfolding(je_typing::specs::Casts::cast), using(typed_nodes::proofs::PrimitiveBases::primitive_is_primitive))]
pub fn cast(
    alloc: Global,
    heads: &ClassHeads,
    to: SrcTy,
    type_span: Span,
    span: Span,
    operand: TypedExpr,
) -> Result<TypedExpr, Refusal>
    ensures ok { IfOk result (λ t. the_cast (heads_of heads.now) (shown to) type_span span
        (seen operand) ≡ gives (seen t)) }
    ensures err { IfErr result (IsFault (the_cast (heads_of heads.now) (shown to) type_span span
        (seen operand))) }
{
    match primitive(&to) {
        Some(base) => primitive_cast(alloc, base, type_span, span, operand),
        None => reference_cast(alloc, heads, to, type_span, span, operand),
    }
}

fn instance_of_node(
    alloc: Global,
    heads: &ClassHeads,
    to: &SrcTy,
    at: Span,
    span: Span,
    operand: Expr,
) -> Result<Expr, Memory>
    ensures { IfOk result (λ made. view made ≡ node
        (InstanceOf (view operand) (the_erased (heads_of heads.now) (shown to.now))) (of Bool) span at) }
{
    let ty = erased(heads, to);
    make_instance_of(alloc, mark_of(Base::Bool, at, span), operand, ty)
}

/// `operand instanceof to`; `at` is the word.
#[tactic(auto, unfolding(je_typing::specs::Casts::instance_of), using(je_typing::proofs::Walks::walks))]
pub fn instance_of(
    alloc: Global,
    heads: &ClassHeads,
    to: &SrcTy,
    type_span: Span,
    at: Span,
    span: Span,
    operand: TypedExpr,
) -> Result<TypedExpr, Refusal>
    ensures ok { IfOk result (λ t. the_instance_of (heads_of heads.now) (shown to.now) type_span at
        span (seen operand) ≡ gives (seen t)) }
    ensures err { IfErr result (IsFault (the_instance_of (heads_of heads.now) (shown to.now)
        type_span at span (seen operand))) }
{
    let tests = tests_as(alloc, heads, to, &operand.ty)?;
    check(TypeRule::BadInstanceOf, type_span, tests)?;
    let TypedExpr { node, .. } = operand;
    let node = instance_of_node(alloc, heads, to, at, span, node)?;
    Ok(of_base(Base::Bool, node))
}
