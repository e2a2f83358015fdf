// Types as they are written, their arguments first.

ghost use Rattle.std.specs.Prelude.{◌≡◌, ◌+◌, IfOk, IfErr};
ghost use Rattle.je_ast.specs.Types.{formal_view, type_node_view, type_view, type_view_of_option, type_views_of};
ghost use Rattle.je_typing.specs.Answers.{IsFault};
ghost use Rattle.je_typing.specs.Judged.{gives};
ghost use Rattle.name_lookup.specs.View.{part_view};
ghost use Rattle.name_types.specs.View.{shown};
ghost use Rattle.source_subtypes.specs.View.{heads_of};
ghost use Rattle.type_faults.specs.Program.{source_in};
ghost use Rattle.declarations.specs.Declarations.{type_at};
ghost use Rattle.header_typing.specs.WrittenTypes.{all_well_written, bounded as the_bounded, is_in_limit as the_is_in_limit, well_declared, well_formed_formal, well_written, well_written_if, written_dims as the_written_dims};
ghost use Rattle.written_types.specs.Meaning.{means};

use crate::arguments::bounded;
use je_ast::{Formal, Identifier, TyName};
use je_base::Memory;
use je_typing::{Refusal, TypeRule, check};
use name_lookup::Place;
use name_types::{SrcTy, source_type};
use source_subtypes::ClassHeads;
use type_faults::Program;

/// What types are judged by: a program, and the headers of all classes.
#[derive(Clone, Copy)]
pub struct Surroundings<'a> {
    pub program: &'a Program<'a>,
    pub heads: &'a ClassHeads,
}

/// Nothing where a type is well written at a place, else the first fault in it: a type argument that isn't
/// below its bound, or more than 255 dimensions. The arguments are judged before the whole.
#[cycle(types)]
#[tactic(auto, using(je_ast::proofs::Views::type_is))]
pub fn judge_type(all: Surroundings, place: Place, ty: &TyName) -> Result<(), Refusal>
    ensures ok { IfOk result (λ done. well_written (heads_of all.entry.heads.now)
        (means all.entry place) (type_view ty.now) ≡ gives done) }
    ensures err { IfErr result (IsFault (well_written (heads_of all.entry.heads.now)
        (means all.entry place) (type_view ty.now))) }
{
    judge_type_here(all, place, ty)
}

#[cycle(types)]
#[tactic(auto, using(je_typing::proofs::Walks::walks))]
fn judge_type_here(all: Surroundings, place: Place, ty: &TyName) -> Result<(), Refusal>
    ensures ok { IfOk result (λ done. well_written (heads_of all.entry.heads.now)
        (means all.entry place) (type_node_view ty.now) ≡ gives done) }
    ensures err { IfErr result (IsFault (well_written (heads_of all.entry.heads.now)
        (means all.entry place) (type_node_view ty.now))) }
{
    match ty {
        TyName::Primitive { dims, span, .. } => {
            check(TypeRule::BadArray, *span, is_in_limit(*dims))
        }
        TyName::Class {
            args,
            dims,
            span,
            ..
        } => {
            judge_types(all, place, args)?;
            judge_bounds(all, place, ty, args)?;
            check(TypeRule::BadArray, *span, is_in_limit(*dims))
        }
    }
}

#[cycle(types)]
#[tactic(auto, using(je_typing::proofs::Walks::walks))]
fn judge_types(all: Surroundings, place: Place, types: &[TyName]) -> Result<(), Refusal>
    ensures ok { IfOk result (λ done. all_well_written (heads_of all.entry.heads.now)
        (means all.entry place) (type_views_of types.now) ≡ gives done) }
    ensures err { IfErr result (IsFault (all_well_written (heads_of all.entry.heads.now)
        (means all.entry place) (type_views_of types.now))) }
{
    for ty in types {
        judge_type(all, place, ty)?;
    }
    Ok(())
}

// The type arguments that are written of a type.
#[tactic(auto, using(je_ast::proofs::Views::type_is, je_typing::proofs::Walks::walks))]
fn judge_bounds(
    all: Surroundings,
    place: Place,
    ty: &TyName,
    args: &[TyName],
) -> Result<(), Refusal>
    ensures ok { IfOk result (λ done. the_bounded (heads_of all.entry.heads.now)
        (means all.entry place (type_node_view ty.now)) (type_views_of args.now) ≡ gives done) }
    ensures err { IfErr result (IsFault (the_bounded (heads_of all.entry.heads.now)
        (means all.entry place (type_node_view ty.now)) (type_views_of args.now))) }
{
    let meant = meaning(all, place, ty)?;
    bounded(all.program.alloc, all.heads, &meant, args)
}

/// What a type means that is written at a place.
pub fn meaning(all: Surroundings, place: Place, ty: &TyName) -> Result<SrcTy, Memory>
    ensures { IfOk result (λ t. shown t ≡ means all.entry place (type_view ty.now)) }
{
    let program = all.program;
    source_type(program.headers, program.alloc, program.sites, place, ty)
}

/// Whether a type may have so many dimensions (JVMS 4.3.2).
pub fn is_in_limit(dims: usize) -> bool
    ensures { result ≡ the_is_in_limit dims }
{
    dims <= 255
}

/// The same of a type that may be left out.
pub fn judge_optional_type(
    all: Surroundings,
    place: Place,
    ty: &Option<TyName>,
) -> Result<(), Refusal>
    ensures ok { IfOk result (λ done. well_written_if (heads_of all.entry.heads.now)
        (means all.entry place) (type_view_of_option ty.now) ≡ gives done) }
    ensures err { IfErr result (IsFault (well_written_if (heads_of all.entry.heads.now)
        (means all.entry place) (type_view_of_option ty.now))) }
{
    match ty {
        Some(ty) => judge_type(all, place, ty),
        None => Ok(()),
    }
}

/// Nothing where a variable of a written type, with further brackets behind its name, has 255 dimensions at
/// most, else the fault at its name (JLS 8.3, 8.4.1).
pub fn judge_declared(ty: &TyName, dims: usize, name: Identifier) -> Result<(), Refusal>
    ensures ok { IfOk result (λ done. well_declared (type_view ty.now) dims name ≡ gives done) }
    ensures err { IfErr result (IsFault (well_declared (type_view ty.now) dims name)) }
{
    check(
        TypeRule::BadArray,
        name.span,
        is_sum_in_limit(written_dims(ty), dims),
    )
}

fn is_sum_in_limit(a: usize, b: usize) -> bool
    ensures { result ≡ the_is_in_limit (a + b) }
{
    a <= 255 && b <= 255 - a
}

#[tactic(auto, using(je_ast::proofs::Views::type_is))]
fn written_dims(ty: &TyName) -> usize
    ensures { result ≡ the_written_dims (type_view ty.now) }
{
    written_dims_here(ty)
}

fn written_dims_here(ty: &TyName) -> usize
    ensures { result ≡ the_written_dims (type_node_view ty.now) }
{
    match ty {
        TyName::Primitive { dims, .. } => *dims,
        TyName::Class { dims, .. } => *dims,
    }
}

/// Nothing where the type of a formal parameter is well written, and with the brackets behind its name has
/// 255 dimensions at most, else the first fault.
#[tactic(auto, using(je_typing::proofs::Walks::walks))]
pub fn judge_formal(all: Surroundings, place: Place, formal: &Formal) -> Result<(), Refusal>
    ensures ok { IfOk result (λ done. well_formed_formal (heads_of all.entry.heads.now)
        (means all.entry place) (formal_view formal.now) ≡ gives done) }
    ensures err { IfErr result (IsFault (well_formed_formal (heads_of all.entry.heads.now)
        (means all.entry place) (formal_view formal.now))) }
{
    judge_type(all, place, &formal.ty)?;
    judge_declared(&formal.ty, formal.dims, formal.name)
}
