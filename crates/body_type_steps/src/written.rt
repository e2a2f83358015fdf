// Types that are written in a body, their arguments first (JLS 4.3 to 4.5).

ghost use Rattle.std.specs.Prelude.{◌≡◌, IfErr, IfOk};
ghost use Rattle.body_types.specs.BodyTypes.{body_type as the_body_type, body_types as the_body_types};
ghost use Rattle.je_ast.specs.Types.{name_view, type_node_view, type_view, type_views_of};
ghost use Rattle.je_scopes.specs.SourceTypes.{base_of as the_base_of, plain};
ghost use Rattle.je_typing.specs.Answers.{IsFault};
ghost use Rattle.je_typing.specs.Judged.{gives};
ghost use Rattle.name_types.specs.View.{all_shown, base_shown, shown};
ghost use Rattle.name_steps.specs.Places.{frame_seen, program_seen};
ghost use Rattle.body_type_steps.specs.way.Checked.{behind_arguments, sized as the_sized};

use crate::meaning::body_meaning;
use crate::named::{accessible_type, base_of_look, sized, takes};
use je_ast::{Name, Primitive, TyName};
use je_base::Span;
use je_typing::{Refusal, TypeRule, check};
use name_steps::{Frame, Program};
use name_types::{SrcBase, SrcTy, base_of};
use written_types::bounded;

// A class type as it is written.
#[derive(Clone, Copy)]
struct ClassType<'a> {
    name: &'a Name,
    args: &'a [TyName],
    dims: usize,
    span: Span,
}

/// A primitive type with so many bracket pairs behind it.
pub(crate) fn primitive_type(
    primitive: Primitive,
    dims: usize,
    span: Span,
) -> Result<SrcTy, Refusal>
    ensures ok { IfOk result (λ t. the_sized (plain (the_base_of primitive)) dims span ≡
        gives (shown t)) }
    ensures err { IfErr result (IsFault (the_sized (plain (the_base_of primitive)) dims span)) }
{
    sized(SrcBase::Plain(base_of(primitive)), dims, span)
}

/// The type of a local or a catch, or behind `new`.
#[cycle(types)]
#[tactic(auto, using(je_ast::proofs::Views::type_is))]
pub fn body_type(program: &Program, here: &Frame, ty: &TyName) -> Result<SrcTy, Refusal>
    ensures ok { IfOk result (λ t. the_body_type (program_seen program.now) (frame_seen here.now)
        (type_view ty.now) ≡ gives (shown t)) }
    ensures err { IfErr result (IsFault (the_body_type (program_seen program.now)
        (frame_seen here.now) (type_view ty.now))) }
{
    body_type_here(program, here, ty)
}

#[cycle(types)]
#[tactic(auto, using(je_typing::proofs::Walks::walks))]
fn body_type_here(program: &Program, here: &Frame, ty: &TyName) -> Result<SrcTy, Refusal>
    ensures ok { IfOk result (λ t. the_body_type (program_seen program.now) (frame_seen here.now)
        (type_node_view ty.now) ≡ gives (shown t)) }
    ensures err { IfErr result (IsFault (the_body_type (program_seen program.now)
        (frame_seen here.now) (type_node_view ty.now))) }
{
    match ty {
        TyName::Primitive {
            primitive,
            dims,
            span,
        } => primitive_type(*primitive, *dims, *span),
        TyName::Class {
            name,
            args,
            dims,
            span,
        } => {
            let types = body_types(program, here, args)?;
            let class = ClassType {
                name,
                args,
                dims: *dims,
                span: *span,
            };
            class_type(program, here, class, types)
        }
    }
}

#[cycle(types)]
#[tactic(auto, using(je_typing::proofs::Walks::walks))]
fn body_types(program: &Program, here: &Frame, args: &[TyName]) -> Result<Vec<SrcTy>, Refusal>
    ensures ok { IfOk result (λ ts. the_body_types (program_seen program.now) (frame_seen here.now)
        (type_views_of args.now) ≡ gives (all_shown ts.items)) }
    ensures err { IfErr result (IsFault (the_body_types (program_seen program.now)
        (frame_seen here.now) (type_views_of args.now))) }
{
    let mut types = Vec::new(program.source.alloc);
    for arg in args {
        types.push(body_type(program, here, arg)?)?;
    }
    Ok(types)
}

// A class type whose type arguments came to these.
#[tactic(auto, using(je_typing::proofs::Walks::walks))]
fn class_type(
    program: &Program,
    here: &Frame,
    class: ClassType,
    types: Vec<SrcTy>,
) -> Result<SrcTy, Refusal>
    ensures ok { IfOk result (λ t. behind_arguments (program_seen program.now)
        (frame_seen here.now) (name_view class.entry.name.now) (type_views_of class.entry.args.now)
        class.entry.dims class.entry.span (all_shown types.items) ≡ gives (shown t)) }
    ensures err { IfErr result (IsFault (behind_arguments (program_seen program.now)
        (frame_seen here.now) (name_view class.entry.name.now) (type_views_of class.entry.args.now)
        class.entry.dims class.entry.span (all_shown types.items))) }
{
    let ClassType {
        name,
        args,
        dims,
        span,
    } = class;
    let meant = body_meaning(program, here, &name.parts)?;
    let takes_these = takes(program, meant.look, args.len());
    check(TypeRule::UnknownName, name.span, takes_these)?;
    // how many dimensions it has doesn't matter to the bounds
    let whole = flat(base_of_look(meant.look, types));
    bounded(program.source.alloc, program.heads, &whole, args)?;
    let SrcTy { base, .. } = whole;
    accessible_type(program, here, name.span, &meant.named, base, dims, span)
}

// A type of no dimensions.
fn flat(base: SrcBase) -> SrcTy
    ensures shown { shown result ≡ base_shown base 0 }
    ensures base { result.base ≡ base }
{
    SrcTy { base, dims: 0 }
}
