// What calls in bodies are judged by.

ghost use Rattle.std.specs.Prelude.{◌≡◌, IfErr, IfOk, map};
ghost use Rattle.call_typing.specs.Calls.{method_for as the_method_for};
ghost use Rattle.call_typing.specs.Constructors.{constructor_for as the_constructor_for};
ghost use Rattle.class_heads.specs.View.{classes_of};
ghost use Rattle.je_typing.specs.Answers.{IsFault};
ghost use Rattle.je_typing.specs.Judged.{gives};
ghost use Rattle.call_steps.specs.TableView.{HasMethods};
ghost use Rattle.name_types.specs.View.{shown};
ghost use Rattle.overloads.specs.View.{candidate_seen};
ghost use Rattle.source_subtypes.specs.View.{heads_of};
ghost use Rattle.typed_nodes.specs.Seen.{seen};
ghost use Rattle.name_steps.specs.Places.{place_seen, program_seen};

use crate::caller::Caller;
use crate::choosing::{constructor_for, method_for};
use crate::table::MethodTable;
use je_ast::Identifier;
use je_base::Span;
use je_core::ClassId;
use je_typing::Refusal;
use name_steps::{Place, Program};
use name_types::SrcTy;
use overloads::Candidate;
use typed_nodes::TypedExpr;

/// The classes of a program, and the methods that each of them has.
#[derive(Clone, Copy)]
pub struct Calls<'a> {
    pub program: Program<'a>,
    pub methods: &'a MethodTable<'a>,
}

// A call in a class.
fn caller<'a>(calls: Calls<'a>, class: ClassId) -> Caller<'a>
    ensures class { result.class ≡ class }
    ensures sites { result.sites ≡ calls.entry.program.source.sites }
    ensures heads { result.heads ≡ calls.entry.program.heads }
    ensures classes { result.classes ≡ calls.entry.program.classes }
    ensures methods { result.methods ≡ calls.entry.methods }
{
    Caller {
        class,
        sites: calls.program.source.sites,
        heads: calls.program.heads,
        classes: calls.program.classes,
        methods: calls.methods,
    }
}

/// The method of a type that a name and arguments choose at a place.
pub fn chosen_method(
    calls: Calls,
    place: Place,
    ty: &SrcTy,
    id: Identifier,
    arguments: &[TypedExpr],
) -> Result<Candidate, Refusal>
    requires { HasMethods (heads_of calls.program.heads.now) (classes_of calls.program.classes)
        calls.methods.now }
    ensures ok { IfOk result (λ m. the_method_for (program_seen calls.entry.program)
        (place_seen place.entry) (shown ty.now) id (map seen arguments.now)
        ≡ gives (candidate_seen m)) }
    ensures err { IfErr result (IsFault (the_method_for (program_seen calls.entry.program)
        (place_seen place.entry) (shown ty.now) id (map seen arguments.now))) }
{
    let alloc = calls.program.source.alloc;
    method_for(alloc, caller(calls, place.here.class), ty, id, arguments)
}

/// The constructor of a type that arguments choose at a place; `at` is where a fault stands.
#[tactic(auto, unfolding(call_typing::specs::Constructors::constructor_for))]
pub fn chosen_constructor(
    calls: Calls,
    place: Place,
    ty: &SrcTy,
    at: Span,
    arguments: &[TypedExpr],
) -> Result<Candidate, Refusal>
    ensures ok { IfOk result (λ m. the_constructor_for (program_seen calls.entry.program)
        (place_seen place.entry).here.class (shown ty.now) at (map seen arguments.now)
        ≡ gives (candidate_seen m)) }
    ensures err { IfErr result (IsFault (the_constructor_for (program_seen calls.entry.program)
        (place_seen place.entry).here.class (shown ty.now) at (map seen arguments.now))) }
{
    let alloc = calls.program.source.alloc;
    constructor_for(alloc, caller(calls, place.here.class), ty, at, arguments)
}
