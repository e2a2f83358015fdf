// Constructors (JLS 8.8).

ghost use Rattle.std.specs.Prelude.{◌≡◌, IfErr, IfOk, Some, map, option_map};
ghost use Rattle.je_ast.specs.Types.{formal_view};
ghost use Rattle.je_ast.specs.View.{constructor_invocation_view, statement_views_of};
ghost use Rattle.declarations.specs.View.{method_shown};
ghost use Rattle.je_typing.specs.Answers.{IsFault};
ghost use Rattle.je_typing.specs.Judged.{gives};
ghost use Rattle.member_forms.specs.Bodies.{HasAllMethods};
ghost use Rattle.member_forms.specs.Seen.{members_seen};
ghost use Rattle.type_decl.specs.way.Walks.{constructor as the_constructor};

use crate::bodies::body_statements;
use crate::heads::head_call;
use declarations::MethodDecl;
use je_ast::{Block, ConstructorCall, Formal, Identifier};
use je_typing::Refusal;
use member_forms::{
    ClassWalk, ConstructorHead, MembersDone, add_parameters, alloc, constructor_code, nothing,
    nothing_met, scope_in,
};
use name_walk::Context;
use statement_steps::Returning;

#[tactic(auto, using(je_typing::proofs::Walks::walks))]
fn declared_constructor<'a>(
    walk: ClassWalk,
    at: usize,
    name: Identifier,
    formals: &[Formal],
    call: &'a ConstructorCall,
    block: &'a Block,
    declared: &MethodDecl,
) -> Result<MembersDone<'a>, Refusal>
    requires { HasAllMethods walk.bodies.now }
    ensures ok { IfOk result (λ d. the_constructor walk.entry at name
        (map formal_view formals.now) (constructor_invocation_view call.now) block.now.opening
        (statement_views_of block.now.stmts.items) block.now.closing
        (Some (method_shown declared.now)) ≡ gives (members_seen d)) }
    ensures err { IfErr result (IsFault (the_constructor walk.entry at name
        (map formal_view formals.now) (constructor_invocation_view call.now) block.now.opening
        (statement_views_of block.now.stmts.items) block.now.closing
        (Some (method_shown declared.now)))) }
{
    let mut scope = scope_in(walk, Context::Instance, None, true);
    let mut progress = nothing_met(alloc(walk));
    add_parameters(
        walk,
        &mut scope,
        &mut progress,
        formals,
        &declared.parameters,
    )?;
    let called = head_call(walk, &mut scope, &mut progress, call)?;
    let returning = Returning::NoValue;
    let done = body_statements(walk, returning, &mut scope, &mut progress, &block.stmts)?;
    let head = ConstructorHead {
        at,
        written: call,
        call: called,
    };
    let members = constructor_code(walk, name, declared, head, block, progress, done)?;
    Ok(members)
}

/// The constructor at a place, as its class declares it.
pub fn constructor<'a>(
    walk: ClassWalk,
    at: usize,
    name: Identifier,
    formals: &[Formal],
    call: &'a ConstructorCall,
    block: &'a Block,
    declared: Option<&MethodDecl>,
) -> Result<MembersDone<'a>, Refusal>
    requires { HasAllMethods walk.bodies.now }
    ensures ok { IfOk result (λ d. the_constructor walk.entry at name
        (map formal_view formals.now) (constructor_invocation_view call.now) block.now.opening
        (statement_views_of block.now.stmts.items) block.now.closing
        (option_map (λ m. method_shown m.now) declared.entry) ≡ gives (members_seen d)) }
    ensures err { IfErr result (IsFault (the_constructor walk.entry at name
        (map formal_view formals.now) (constructor_invocation_view call.now) block.now.opening
        (statement_views_of block.now.stmts.items) block.now.closing
        (option_map (λ m. method_shown m.now) declared.entry))) }
{
    match declared {
        Some(declared) => declared_constructor(walk, at, name, formals, call, block, declared),
        None => Ok(nothing(alloc(walk))),
    }
}
