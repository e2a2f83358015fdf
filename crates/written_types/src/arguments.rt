// Type arguments and their bounds.

ghost use Rattle.std.specs.Prelude.{◌≡◌, IfOk, IfErr};
ghost use Rattle.je_ast.specs.Types.{type_node_view, type_view, type_views_of};
ghost use Rattle.je_typing.specs.Answers.{IsFault};
ghost use Rattle.je_typing.specs.Judged.{gives};
ghost use Rattle.name_types.specs.View.{all_shown, base_shown, shown};
ghost use Rattle.source_subtypes.specs.View.{heads_of};
ghost use Rattle.source_types.specs.Subtypes.{is_subtype as is_subtype_of};
ghost use Rattle.source_types.specs.Substitution.{argument_at, substituted as the_substituted};
ghost use Rattle.header_typing.specs.WrittenTypes.{bounded as the_bounded, bound_if, bounded_from, is_in_bound as the_is_in_bound, span_of as the_span_of};

use je_ast::TyName;
use je_base::{Memory, Span};
use je_typing::{Refusal, TypeRule, check};
use name_types::{SrcBase, SrcTy};
use source_subtypes::{Arguments, ClassHeads, argument, is_subtype, substituted};
use std::alloc::Global;

/// Where a type is written.
#[tactic(auto, using(je_ast::proofs::Views::type_is))]
pub fn span_of(ty: &TyName) -> Span
    ensures { result ≡ the_span_of (type_view ty.now) }
{
    span_of_here(ty)
}

fn span_of_here(ty: &TyName) -> Span
    ensures { result ≡ the_span_of (type_node_view ty.now) }
{
    match ty {
        TyName::Primitive { span, .. } => *span,
        TyName::Class { span, .. } => *span,
    }
}

/// Nothing where each type argument that is written of a type is below its bound, else the fault of the first
/// that isn't.
#[tactic(auto, using(name_types::proofs::Views::type_is))]
pub fn bounded(
    alloc: Global,
    heads: &ClassHeads,
    ty: &SrcTy,
    written: &[TyName],
) -> Result<(), Refusal>
    ensures ok { IfOk result (λ done. the_bounded (heads_of heads.now) (shown ty.now)
        (type_views_of written.now) ≡ gives done) }
    ensures err { IfErr result (IsFault (the_bounded (heads_of heads.now) (shown ty.now)
        (type_views_of written.now))) }
{
    bounded_base(alloc, heads, &ty.base, ty.dims, written)
}

#[tactic(auto, unfolding(header_typing::specs::WrittenTypes::bounded), using(name_types::proofs::Views::base_is, crate::proofs::PlainTypes::plain_is_bounded))]
fn bounded_base(
    alloc: Global,
    heads: &ClassHeads,
    base: &SrcBase,
    dims: u8,
    written: &[TyName],
) -> Result<(), Refusal>
    ensures ok { IfOk result (λ done. the_bounded (heads_of heads.now) (base_shown base.now dims)
        (type_views_of written.now) ≡ gives done) }
    ensures err { IfErr result (IsFault (the_bounded (heads_of heads.now) (base_shown base.now dims)
        (type_views_of written.now))) }
{
    match base {
        SrcBase::Made(class, args) => {
            let arguments = Arguments {
                class: *class,
                types: args,
            };
            bounded_arguments(alloc, heads, arguments, written)
        }
        SrcBase::Plain(_) => Ok(()),
        SrcBase::Var(_, _) => Ok(()),
    }
}

#[tactic(auto, using(je_typing::proofs::Walks::walks))]
fn bounded_arguments(
    alloc: Global,
    heads: &ClassHeads,
    arguments: Arguments,
    written: &[TyName],
) -> Result<(), Refusal>
    ensures ok { IfOk result (λ done. bounded_from (heads_of heads.now) arguments.entry.class.0
        (all_shown arguments.entry.types.now) 0 (type_views_of written.now) ≡ gives done) }
    ensures err { IfErr result (IsFault (bounded_from (heads_of heads.now) arguments.entry.class.0
        (all_shown arguments.entry.types.now) 0 (type_views_of written.now))) }
{
    for at in 0..written.len() {
        let below = is_in_bound(alloc, heads, arguments, at)?;
        check(TypeRule::BadBound, span_of(&written[at]), below)?;
    }
    Ok(())
}

// Whether the type argument at a place is below the bound there.
fn is_in_bound(
    alloc: Global,
    heads: &ClassHeads,
    arguments: Arguments,
    at: usize,
) -> Result<bool, Memory>
    ensures { IfOk result (λ below. below ≡ the_is_in_bound (heads_of heads.now)
        arguments.entry.class.0 (all_shown arguments.entry.types.now)
        (bound_if (heads_of heads.now) arguments.entry.class.0 at)
        (argument_at (all_shown arguments.entry.types.now) at)) }
{
    let Some(bound) = heads.bound(arguments.class, at) else {
        return Ok(true);
    };
    match argument(arguments.types, at) {
        None => Ok(true),
        Some(argument) => {
            let below = is_below(alloc, heads, arguments, argument, bound)?;
            Ok(below)
        }
    }
}

fn is_below(
    alloc: Global,
    heads: &ClassHeads,
    arguments: Arguments,
    argument: &SrcTy,
    bound: &SrcTy,
) -> Result<bool, Memory>
    ensures { IfOk result (λ below. below ≡ is_subtype_of (heads_of heads.now)
        (shown argument.now) (the_substituted arguments.entry.class.0
        (all_shown arguments.entry.types.now) (shown bound.now))) }
{
    let put = substituted(alloc, arguments, bound)?;
    let below = is_subtype(alloc, heads, argument, &put)?;
    Ok(below)
}
