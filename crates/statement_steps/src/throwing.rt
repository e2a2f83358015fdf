// What is thrown, and what a catch takes (JLS 14.18, 14.20).

ghost use Rattle.std.specs.Prelude.{◌≡◌, IfOk, IfErr};
ghost use Rattle.je_core.specs.View.{stmt_view};
ghost use Rattle.je_typing.specs.Answers.{IsFault};
ghost use Rattle.header_typing.specs.Supers.{throwable_type};
ghost use Rattle.je_typing.specs.Judged.{check as the_check, gives};
ghost use Rattle.name_types.specs.View.{shown};
ghost use Rattle.source_subtypes.specs.View.{heads_of};
ghost use Rattle.source_types.specs.Subtypes.{is_subtype as the_is_subtype};
ghost use Rattle.statement_steps.specs.Thrown.{caught_class as the_caught_class, class_named as the_class_named, thrown as the_thrown};
ghost use Rattle.typed_nodes.specs.Seen.{seen};

use header_steps::{class_of, throwable};
use je_base::Span;
use je_core::{ClassId, Stmt, make_throw};
use je_typing::{Refusal, TypeRule, check, need};
use name_types::SrcTy;
use source_subtypes::{ClassHeads, is_subtype};
use std::alloc::Global;
use typed_nodes::TypedExpr;

// Nothing where a type is below Throwable, else the fault.
#[tactic(auto, using(je_typing::proofs::Walks::walks))]
fn check_throwable(
    alloc: Global,
    heads: &ClassHeads,
    rule: TypeRule,
    span: Span,
    ty: &SrcTy,
) -> Result<(), Refusal>
    ensures ok { IfOk result (λ done. the_check rule span
        (the_is_subtype (heads_of heads.now) (shown ty.now) throwable_type) ≡ gives done) }
    ensures err { IfErr result (IsFault (the_check rule span
        (the_is_subtype (heads_of heads.now) (shown ty.now) throwable_type))) }
{
    let below = is_subtype(alloc, heads, ty, &throwable())?;
    check(rule, span, below)
}

/// `throw`; a fault is BadThrow, at the value, brackets included.
#[tactic(auto, unfolding(crate::specs::Thrown::thrown), using(je_typing::proofs::Walks::walks))]
pub fn thrown(
    alloc: Global,
    heads: &ClassHeads,
    span: Span,
    value_span: Span,
    value: TypedExpr,
) -> Result<Stmt, Refusal>
    ensures ok { IfOk result (λ made. the_thrown (heads_of heads.now) span value_span (seen value)
        ≡ gives (stmt_view made)) }
    ensures err { IfErr result (IsFault
        (the_thrown (heads_of heads.now) span value_span (seen value))) }
{
    let TypedExpr { node, ty } = value;
    check_throwable(alloc, heads, TypeRule::BadThrow, value_span, &ty)?;
    let made = make_throw(alloc, span, span, node)?;
    Ok(made)
}

// The class that a type names, and no type variable.
#[tactic(auto, using(crate::proofs::Named::no_class))]
fn class_named(ty: &SrcTy) -> Option<ClassId>
    ensures { result ≡ the_class_named (shown ty.now) }
{
    if ty.dims != 0 {
        return None;
    }
    class_of(ty)
}

/// The class that a catch takes; a fault is BadCatch, at the name of the class.
#[tactic(auto, unfolding(crate::specs::Thrown::caught_class), using(je_typing::proofs::Walks::walks))]
pub fn caught_class(
    alloc: Global,
    heads: &ClassHeads,
    name_span: Span,
    ty: &SrcTy,
) -> Result<ClassId, Refusal>
    ensures ok { IfOk result (λ class. the_caught_class (heads_of heads.now) name_span
        (shown ty.now) ≡ gives class) }
    ensures err { IfErr result (IsFault
        (the_caught_class (heads_of heads.now) name_span (shown ty.now))) }
{
    let class = need(TypeRule::BadCatch, name_span, class_named(ty))?;
    check_throwable(alloc, heads, TypeRule::BadCatch, name_span, ty)?;
    Ok(class)
}
