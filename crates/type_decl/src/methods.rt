// Methods (JLS 8.4).

ghost use Rattle.std.specs.Prelude.{◌≡◌, IfErr, IfOk, Some, map, option_map};
ghost use Rattle.je_ast.specs.Types.{formal_view};
ghost use Rattle.je_ast.specs.View.{block_view_of_option};
ghost use Rattle.declarations.specs.View.{method_shown};
ghost use Rattle.je_typing.specs.Answers.{IsFault};
ghost use Rattle.je_typing.specs.Judged.{gives};
ghost use Rattle.member_forms.specs.Bodies.{HasAllMethods};
ghost use Rattle.member_forms.specs.Seen.{members_seen};
ghost use Rattle.type_decl.specs.way.Walks.{method as the_method};

use crate::bodies::body_if;
use declarations::MethodDecl;
use je_ast::{Block, Formal, Identifier};
use je_typing::Refusal;
use member_forms::{
    ClassWalk, MembersDone, add_parameters, alloc, context_of, method_code, nothing, nothing_met,
    returning_of, scope_in,
};

#[tactic(auto, using(je_typing::proofs::Walks::walks))]
fn declared_method<'a>(
    walk: ClassWalk,
    name: Identifier,
    formals: &[Formal],
    body: &'a Option<Block>,
    declared: &MethodDecl,
) -> Result<MembersDone<'a>, Refusal>
    requires { HasAllMethods walk.bodies.now }
    ensures ok { IfOk result (λ d. the_method walk.entry name (map formal_view formals.now)
        (block_view_of_option body.now) (Some (method_shown declared.now))
        ≡ gives (members_seen d)) }
    ensures err { IfErr result (IsFault (the_method walk.entry name (map formal_view formals.now)
        (block_view_of_option body.now) (Some (method_shown declared.now)))) }
{
    let mut scope = scope_in(walk, context_of(declared.flags.is_static), None, false);
    let mut progress = nothing_met(alloc(walk));
    add_parameters(
        walk,
        &mut scope,
        &mut progress,
        formals,
        &declared.parameters,
    )?;
    let returning = returning_of(&declared.result);
    let code = body_if(walk, returning, &mut scope, &mut progress, body)?;
    let done = method_code(walk, name, declared, progress, code)?;
    Ok(done)
}

/// A method, as its class declares it.
pub fn method<'a>(
    walk: ClassWalk,
    name: Identifier,
    formals: &[Formal],
    body: &'a Option<Block>,
    declared: Option<&MethodDecl>,
) -> Result<MembersDone<'a>, Refusal>
    requires { HasAllMethods walk.bodies.now }
    ensures ok { IfOk result (λ d. the_method walk.entry name (map formal_view formals.now)
        (block_view_of_option body.now) (option_map (λ m. method_shown m.now) declared.entry)
        ≡ gives (members_seen d)) }
    ensures err { IfErr result (IsFault (the_method walk.entry name (map formal_view formals.now)
        (block_view_of_option body.now) (option_map (λ m. method_shown m.now) declared.entry))) }
{
    match declared {
        Some(declared) => declared_method(walk, name, formals, body, declared),
        None => Ok(nothing(alloc(walk))),
    }
}
