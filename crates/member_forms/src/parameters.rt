// What stands before the statements of a body: parameters, and what may be returned.

ghost use Rattle.std.specs.Prelude.{◌≡◌, IfErr, IfOk, OnOk, map};
ghost use Rattle.je_ast.specs.Types.{formal_view};
ghost use Rattle.je_typing.specs.Answers.{IsFault};
ghost use Rattle.je_typing.specs.Judged.{gives};
ghost use Rattle.name_types.specs.View.{shown};
ghost use Rattle.source_subtypes.specs.View.{heads_of};
ghost use Rattle.statement_steps.specs.View.{returning_seen};
ghost use Rattle.body_typing.specs.LocalVariables.{new_name as the_new_name};
ghost use Rattle.class_typing.specs.Members.{nothing_met as the_nothing_met, returning_of as the_returning_of};
ghost use Rattle.body_scopes.specs.View.{scope_seen};
ghost use Rattle.statement_forms.specs.Seen.{progress_seen};
ghost use Rattle.member_forms.specs.Walks.{begun, parameters as the_parameters};
ghost use Rattle.member_forms.specs.way.Parameters.{progress_behind, scope_behind};

use crate::walk::{ClassWalk, alloc};
use body_scopes::Scope;
use je_ast::Formal;
use je_typing::Refusal;
use name_types::SrcTy;
use statement_forms::{Progress, add_number, local_of, new_name, next_number};
use statement_steps::Returning;
use std::alloc::Global;
use typed_nodes::is_void;

/// At the head of a body.
pub fn nothing_met<'a>(alloc: Global) -> Progress<'a>
    ensures { progress_seen result ≡ the_nothing_met }
{
    Progress {
        locals: Vec::new(alloc),
        met: Vec::new(alloc),
    }
}

/// What a method with that result may return.
pub fn returning_of(result_ty: &SrcTy) -> Returning<'_>
    ensures { returning_seen result ≡ the_returning_of (shown result_ty.now) }
{
    if is_void(result_ty) {
        Returning::NoValue
    } else {
        Returning::Value(result_ty)
    }
}

#[tactic(auto, using(je_typing::proofs::Walks::walks))]
fn add_parameter(
    walk: ClassWalk,
    scope: &mut Scope,
    progress: &mut Progress,
    formal: &Formal,
    ty: &SrcTy,
) -> Result<(), Refusal>
    ensures ok { IfOk result (λ done. the_new_name (scope_seen scope.old) formal.now.name
        ≡ gives done) }
    ensures scope { OnOk result (scope_seen scope.new ≡ scope_behind (scope_seen scope.old)
        (progress_seen progress.old) (formal_view formal.now) (shown ty.now)) }
    ensures progress { OnOk result (progress_seen progress.new ≡ progress_behind
        (heads_of walk.entry.bodies.now.calls.program.heads.now) (progress_seen progress.old)
        (formal_view formal.now) (shown ty.now)) }
    ensures err { IfErr result (IsFault (the_new_name (scope_seen scope.old) formal.now.name)) }
{
    let name = formal.name;
    let is_final = formal.is_final;
    new_name(scope, name)?;
    let number = next_number(progress)?;
    let local = local_of(alloc(walk), name.name, ty, is_final, number, None)?;
    let bodies = walk.bodies;
    let heads = bodies.calls.program.heads;
    add_number(heads, progress, name.name, ty, is_final, name.span)?;
    scope.add_local(is_final, local)?;
    Ok(())
}

/// Adds parameters of these types, which are the first locals (JLS 8.4.1).
#[tactic(auto, using(je_typing::proofs::Walks::walks))]
pub fn add_parameters(
    walk: ClassWalk,
    scope: &mut Scope,
    progress: &mut Progress,
    formals: &[Formal],
    types: &[SrcTy],
) -> Result<(), Refusal>
    ensures ok { OnOk result (the_parameters walk.entry (scope_seen scope.old)
        (progress_seen progress.old) (map formal_view formals.now) (map shown types.now)
        ≡ gives (begun (scope_seen scope.new) (progress_seen progress.new))) }
    ensures err { IfErr result (IsFault (the_parameters walk.entry (scope_seen scope.old)
        (progress_seen progress.old) (map formal_view formals.now) (map shown types.now))) }
{
    let mut left = types;
    for formal in formals {
        let Some((ty, rest)) = left.split_first() else {
            return Ok(());
        };
        add_parameter(walk, scope, progress, formal, ty)?;
        left = rest;
    }
    Ok(())
}
