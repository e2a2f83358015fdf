// Types that are written without type arguments (JLS 15.10, 15.16, 15.20.2).

ghost use Rattle.std.specs.Prelude.{◌≡◌, IfErr, IfOk};
ghost use Rattle.body_types.specs.BodyTypes.{bare_type as the_bare_type};
ghost use Rattle.je_ast.specs.Types.{class_type, name_view, no_types, primitive as the_primitive, type_node_view, type_view};
ghost use Rattle.je_typing.specs.Answers.{IsFault};
ghost use Rattle.je_typing.specs.Judged.{gives};
ghost use Rattle.name_types.specs.View.{shown};
ghost use Rattle.name_steps.specs.Places.{frame_seen, program_seen};

use crate::meaning::body_meaning;
use crate::named::{accessible_type, base_of_look, is_type};
use crate::written::primitive_type;
use je_ast::{Name, TyName};
use je_base::Span;
use je_typing::{Refusal, TypeRule, check};
use name_steps::{Frame, Program};
use name_types::SrcTy;

/// The type of a cast, of `instanceof`, or of the elements of a new array.
#[tactic(auto, using(je_ast::proofs::Views::type_is))]
pub fn bare_type(program: &Program, here: &Frame, ty: &TyName) -> Result<SrcTy, Refusal>
    ensures ok { IfOk result (λ t. the_bare_type (program_seen program.now) (frame_seen here.now)
        (type_view ty.now) ≡ gives (shown t)) }
    ensures err { IfErr result (IsFault (the_bare_type (program_seen program.now)
        (frame_seen here.now) (type_view ty.now))) }
{
    bare_type_here(program, here, ty)
}

#[tactic(auto, unfolding(body_types::specs::BodyTypes::bare_type))]
fn bare_type_here(program: &Program, here: &Frame, ty: &TyName) -> Result<SrcTy, Refusal>
    ensures ok { IfOk result (λ t. the_bare_type (program_seen program.now) (frame_seen here.now)
        (type_node_view ty.now) ≡ gives (shown t)) }
    ensures err { IfErr result (IsFault (the_bare_type (program_seen program.now)
        (frame_seen here.now) (type_node_view ty.now))) }
{
    match ty {
        TyName::Primitive {
            primitive,
            dims,
            span,
        } => primitive_type(*primitive, *dims, *span),
        TyName::Class {
            name,
            dims,
            span,
            ..
        } => bare_name(program, here, name, *dims, *span),
    }
}

/// The same of a class type that is a name alone.
pub fn bare_class_type(program: &Program, here: &Frame, name: &Name) -> Result<SrcTy, Refusal>
    ensures ok { IfOk result (λ t. the_bare_type (program_seen program.now) (frame_seen here.now)
        (class_type (name_view name.now) no_types 0 name.now.span) ≡ gives (shown t)) }
    ensures err { IfErr result (IsFault (the_bare_type (program_seen program.now)
        (frame_seen here.now) (class_type (name_view name.now) no_types 0 name.now.span))) }
{
    bare_name(program, here, name, 0, name.span)
}

// A name with so many bracket pairs behind it.
#[tactic(auto, unfolding(body_types::specs::BodyTypes::bare_type), using(je_typing::proofs::Walks::walks))]
fn bare_name(
    program: &Program,
    here: &Frame,
    name: &Name,
    dims: usize,
    span: Span,
) -> Result<SrcTy, Refusal>
    ensures ok { IfOk result (λ t. the_bare_type (program_seen program.now) (frame_seen here.now)
        (class_type (name_view name.now) no_types dims span) ≡ gives (shown t)) }
    ensures err { IfErr result (IsFault (the_bare_type (program_seen program.now)
        (frame_seen here.now) (class_type (name_view name.now) no_types dims span))) }
{
    let meant = body_meaning(program, here, &name.parts)?;
    check(TypeRule::UnknownName, name.span, is_type(meant.look))?;
    let base = base_of_look(meant.look, Vec::new(program.source.alloc));
    accessible_type(program, here, name.span, &meant.named, base, dims, span)
}
