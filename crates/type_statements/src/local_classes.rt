// Local classes (JLS 14.3).

ghost use Rattle.std.specs.Prelude.{◌≡◌, ◌∷◌, [], IfErr, IfOk, OnOk, not};
ghost use Rattle.std.specs.List.{list_any};
ghost use Rattle.je_ast.specs.View.{declaration_node_view, declaration_view};
ghost use Rattle.je_scopes.specs.Headers.{declared_name as the_declared_name, has_name, name_in, site_at};
ghost use Rattle.je_typing.specs.Answers.{IsFault};
ghost use Rattle.je_typing.specs.Judged.{check as the_check, gives};
ghost use Rattle.je_typing.specs.declared.fault.TypeRule.TheVariants.{LocalTwice};
ghost use Rattle.name_lookup.specs.View.{numbers};
ghost use Rattle.name_sites.specs.View.{source_of};
ghost use Rattle.body_typing.specs.Bodies.{stands, with_local_class, with_met};
ghost use Rattle.body_typing.specs.LocalClasses.{has_class as the_has_class, local_class as the_local_class, with_class};
ghost use Rattle.body_scopes.specs.Extending.{Extends};
ghost use Rattle.body_scopes.specs.View.{scope_seen};
ghost use Rattle.statement_forms.specs.Seen.{done_seen, program_of, progress_seen};

use body_scopes::Scope;
use je_ast::{Decl, Identifier};
use je_base::{Memory, NameId};
use je_core::ClassId;
use je_typing::{Refusal, TypeRule, check};
use name_sites::Sites;
use statement_forms::{Done, Met, Progress, Walk, alloc, nothing, standing};

#[tactic(auto, using(je_ast::proofs::Views::declaration_is))]
fn declared_name(decl: &Decl) -> Identifier
    ensures { result ≡ the_declared_name (declaration_view decl.now) }
{
    declared_name_here(decl)
}

fn declared_name_here(decl: &Decl) -> Identifier
    ensures { result ≡ the_declared_name (declaration_node_view decl.now) }
{
    match decl {
        Decl::Class { name, .. } | Decl::Interface { name, .. } | Decl::Enum { name, .. } => *name,
    }
}

// Whether one of some classes has a name.
fn has_class(sites: &Sites, classes: &[ClassId], name: NameId) -> bool
    ensures { result ≡ list_any
        (λ c. has_name (name_in (site_at (source_of sites.now).sites c).written) name)
        (numbers classes.now) }
{
    for class in classes {
        if let Some(own) = sites.name(*class) {
            if own.0 == name.0 {
                return true;
            }
        }
    }
    false
}

// No class of that name is in scope in the body itself.
#[tactic(auto, using(je_typing::proofs::Walks::walks))]
fn judge_new(walk: Walk, scope: &Scope, name: Identifier) -> Result<(), Refusal>
    ensures ok { IfOk result (λ done. the_check LocalTwice name.span (not (the_has_class
        (program_of walk.entry) (scope_seen scope.now) name.name)) ≡ gives done) }
    ensures err { IfErr result (IsFault (the_check LocalTwice name.span (not (the_has_class
        (program_of walk.entry) (scope_seen scope.now) name.name)))) }
{
    let bodies = walk.bodies;
    let sites = bodies.calls.program.source.sites;
    let is_new = !has_class(sites, &scope.here.local_classes, name.name);
    check(TypeRule::LocalTwice, name.span, is_new)
}

// Brings a class into scope; it stands in the scope that has it.
fn add_class(
    walk: Walk,
    scope: &mut Scope,
    progress: &mut Progress,
    class: ClassId,
) -> Result<(), Memory>
    ensures scope { OnOk result
        (scope_seen scope.new ≡ with_local_class class.0 (scope_seen scope.old)) }
    ensures progress { OnOk result (progress_seen progress.new ≡ with_met
        (stands class.0 (with_local_class class.0 (scope_seen scope.old)) ∷ [])
        (progress_seen progress.old)) }
{
    scope.add_class(class)?;
    let kept = standing(alloc(walk), scope)?;
    progress.met.push(Met::Stands { class, scope: kept })?;
    Ok(())
}

// What a class comes to that is brought into scope: nothing, behind which it stands there.
#[tactic(auto, using(crate::proofs::Adding::class_added, crate::proofs::Adding::class_stands))]
fn added_class(
    walk: Walk,
    scope: &mut Scope,
    progress: &mut Progress,
    class: ClassId,
) -> Result<Done, Memory>
    ensures done { IfOk result (λ d. done_seen d scope.new progress.new ≡
        with_class (scope_seen scope.old) (progress_seen progress.old) class.0) }
    ensures extends { OnOk result (Extends (scope_seen scope.old) (scope_seen scope.new)) }
{
    add_class(walk, scope, progress, class)?;
    Ok(nothing(alloc(walk)))
}

// A local class of that name.
#[tactic(auto, unfolding(body_typing::specs::LocalClasses::local_class), using(je_typing::proofs::Walks::walks))]
fn class_named(
    walk: Walk,
    scope: &mut Scope,
    progress: &mut Progress,
    name: Identifier,
) -> Result<Done, Refusal>
    ensures ok { IfOk result (λ d. the_local_class (program_of walk.entry) (scope_seen scope.old)
        (progress_seen progress.old) name ≡ gives (done_seen d scope.new progress.new)) }
    ensures extends { OnOk result (Extends (scope_seen scope.old) (scope_seen scope.new)) }
    ensures err { IfErr result (IsFault (the_local_class (program_of walk.entry)
        (scope_seen scope.old) (progress_seen progress.old) name)) }
{
    judge_new(walk, scope, name)?;
    let bodies = walk.bodies;
    let sites = bodies.calls.program.source.sites;
    let class = bodies.spots.declared(sites, name);
    let done = added_class(walk, scope, progress, class)?;
    Ok(done)
}

/// A local class, which stands in the scope that has it.
pub fn local_class(
    walk: Walk,
    scope: &mut Scope,
    progress: &mut Progress,
    decl: &Decl,
) -> Result<Done, Refusal>
    ensures ok { IfOk result (λ d. the_local_class (program_of walk.entry) (scope_seen scope.old)
        (progress_seen progress.old) (the_declared_name (declaration_view decl.now))
        ≡ gives (done_seen d scope.new progress.new)) }
    ensures extends { OnOk result (Extends (scope_seen scope.old) (scope_seen scope.new)) }
    ensures err { IfErr result (IsFault (the_local_class (program_of walk.entry)
        (scope_seen scope.old) (progress_seen progress.old)
        (the_declared_name (declaration_view decl.now)))) }
{
    let name = declared_name(decl);
    class_named(walk, scope, progress, name)
}
