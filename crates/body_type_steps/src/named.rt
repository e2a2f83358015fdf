// The type that a name means, by what it is found to be (JLS 4.4, 4.5, 6.6.1).

ghost use Rattle.std.specs.Prelude.{◌≡◌, ℕ, IfErr, IfOk};
ghost use Rattle.std.specs.List.{list_all};
ghost use Rattle.body_types.specs.BodyTypes.{is_type as the_is_type, takes as the_takes, type_of_look};
ghost use Rattle.header_typing.specs.WrittenTypes.{is_in_limit as the_is_in_limit};
ghost use Rattle.je_scopes.specs.Scope.{is_accessible};
ghost use Rattle.je_scopes.specs.SourceTypes.{of_class};
ghost use Rattle.je_typing.specs.Answers.{IsFault};
ghost use Rattle.je_typing.specs.Judged.{gives};
ghost use Rattle.name_lookup.specs.View.{look_view, numbers};
ghost use Rattle.name_typing.specs.Program.{Frame as TheFrame, Program as TheProgram};
ghost use Rattle.name_types.specs.View.{all_shown, base_shown, shown};
ghost use Rattle.name_steps.specs.Places.{frame_seen, program_seen};
ghost use Rattle.body_type_steps.specs.way.Checked.{accessible_sized, sized as the_sized};

use je_base::Span;
use je_core::{Base, ClassId};
use je_typing::{Refusal, TypeRule, check};
use name_lookup::{Look, are_accessible};
use name_steps::{Frame, Program};
use name_types::{SrcBase, SrcTy, arity};
use written_types::is_in_limit;

/// Whether what a name means takes so many type arguments.
pub(crate) fn takes(program: &Program, look: Look, count: usize) -> bool
    ensures { (f : TheFrame) → result ≡
        the_takes (program_seen program.now) f (look_view look) count }
{
    match look {
        Look::Class(class) => count == arity(program.source.sites, class),
        Look::Variable(_, _) => count == 0,
        Look::Waits(_) | Look::Nothing | Look::Unclear => false,
    }
}

/// Whether a name that means this is one of a type.
pub(crate) fn is_type(look: Look) -> bool
    ensures { (p : TheProgram) (f : TheFrame) → result ≡ the_is_type p f (look_view look) }
{
    matches!(look, Look::Class(_) | Look::Variable(_, _))
}

/// A class or type variable with its type arguments; the null type for any other meaning.
pub(crate) fn base_of_look(look: Look, types: Vec<SrcTy>) -> SrcBase
    ensures { (p : TheProgram) (f : TheFrame) (n : ℕ) → base_shown result n ≡
        type_of_look p f (look_view look) (all_shown types.items) n }
{
    match look {
        Look::Class(class) => class_base(class, types),
        Look::Variable(class, at) => SrcBase::Var(class, at),
        Look::Waits(_) => SrcBase::Plain(Base::Null),
        Look::Nothing => SrcBase::Plain(Base::Null),
        Look::Unclear => SrcBase::Plain(Base::Null),
    }
}

fn class_base(class: ClassId, types: Vec<SrcTy>) -> SrcBase
    ensures { (n : ℕ) → base_shown result n ≡ of_class class.0 (all_shown types.items) n }
{
    if types.is_empty() {
        return SrcBase::Plain(Base::Class(class));
    }
    SrcBase::Made(class, types)
}

/// A type of so many dimensions, whose span is that of the whole (JVMS 4.3.2).
#[tactic(auto, using(je_typing::proofs::Walks::walks))]
pub(crate) fn sized(base: SrcBase, dims: usize, span: Span) -> Result<SrcTy, Refusal>
    ensures ok { IfOk result (λ t. the_sized (base_shown base) dims span ≡ gives (shown t)) }
    ensures err { IfErr result (IsFault (the_sized (base_shown base) dims span)) }
{
    check(TypeRule::BadArray, span, is_in_limit(dims))?;
    Ok(SrcTy {
        base,
        dims: dims as u8,
    })
}

/// The same of a type by its name, of which all classes that the name names may be named in the body (JLS 6.6.1).
#[tactic(auto, using(je_typing::proofs::Walks::walks))]
pub(crate) fn accessible_type(
    program: &Program,
    here: &Frame,
    name: Span,
    named: &[ClassId],
    base: SrcBase,
    dims: usize,
    span: Span,
) -> Result<SrcTy, Refusal>
    ensures ok { IfOk result (λ t. accessible_sized (list_all (is_accessible
        (program_seen program.now).source (frame_seen here.now).class) (numbers named.now)) name
        (base_shown base) dims span ≡ gives (shown t)) }
    ensures err { IfErr result (IsFault (accessible_sized (list_all (is_accessible
        (program_seen program.now).source (frame_seen here.now).class) (numbers named.now)) name
        (base_shown base) dims span)) }
{
    let may_be_named = are_accessible(program.source.sites, here.class, named);
    check(TypeRule::NotAccessible, name, may_be_named)?;
    sized(base, dims, span)
}
