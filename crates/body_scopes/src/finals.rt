// Which final variables may be assigned (JLS 4.12.4, 8.3.1.2, 16).

ghost use Rattle.std.specs.Prelude.{◌≡◌, ℕ, IfErr, IfOk, nat_eq};
ghost use Rattle.std.specs.List.{list_any};
ghost use Rattle.je_core.specs.View.{form_view, view};
ghost use Rattle.body_typing.specs.FinalVariables.{builds as the_builds, may_assign as the_may_assign, may_be_assigned as the_may_be_assigned, not_final as the_not_final, starts as the_starts};
ghost use Rattle.je_typing.specs.Answers.{IsFault};
ghost use Rattle.je_typing.specs.Conversions.{token_of as the_token_of};
ghost use Rattle.je_typing.specs.Judged.{gives};
ghost use Rattle.typed_nodes.specs.Seen.{seen};
ghost use Rattle.body_places.specs.View.{program_seen};
ghost use Rattle.body_scopes.specs.View.{blank_seen, scope_seen};

use crate::blank::is_blank;
use crate::scope::Scope;
use body_places::{Program, field_at};
use fit_nodes::is_this;
use je_base::Span;
use je_core::{ClassId, Expr, Form};
use je_typing::{Refusal, TypeRule, check};
use typed_nodes::TypedExpr;

// Whether an object of the class is built at a place.
fn builds(program: &Program, blank: &[Vec<bool>], scope: &Scope) -> bool
    ensures { result ≡
        the_builds (program_seen program.now) (blank_seen blank.now) (scope_seen scope.now) }
{
    if scope.is_constructor {
        return true;
    }
    match scope.here.initializer {
        Some(initializer) => !initializer.is_static,
        None => false,
    }
}

// Whether the class is started there.
fn starts(program: &Program, blank: &[Vec<bool>], scope: &Scope) -> bool
    ensures { result ≡
        the_starts (program_seen program.now) (blank_seen blank.now) (scope_seen scope.now) }
{
    match scope.here.initializer {
        Some(initializer) => initializer.is_static,
        None => false,
    }
}

// Whether a field may be assigned, a blank one of the class of the body where `here` holds.
fn may_assign(
    program: &Program,
    blank: &[Vec<bool>],
    scope: &Scope,
    here: bool,
    class: ClassId,
    at: u32,
) -> bool
    ensures { result ≡ the_may_assign (program_seen program.now) (blank_seen blank.now)
        (scope_seen scope.now) here (record { class = class; at = at }) }
{
    let Some(field) = field_at(program.classes, class, at as usize) else {
        return false;
    };
    if !field.is_final {
        return true;
    }
    here && is_blank(blank, class, at as usize) && class.0 == scope.here.class.0
}

fn is_among(numbers: &[u32], number: u32) -> bool
    ensures { result ≡ list_any (nat_eq number) numbers.now }
{
    for other in numbers {
        if number == *other {
            return true;
        }
    }
    false
}

fn may_be_assigned(program: &Program, blank: &[Vec<bool>], scope: &Scope, form: &Form) -> bool
    ensures { result ≡ the_may_be_assigned (program_seen program.now) (blank_seen blank.now)
        (scope_seen scope.now) (form_view form.now) }
{
    match form {
        Form::Local { local } => !is_among(&scope.given, *local),
        Form::Field {
            object,
            class,
            field,
        } => {
            let here = builds(program, blank, scope) && is_this(object);
            may_assign(program, blank, scope, here, *class, *field)
        }
        Form::Static { class, field, .. } => {
            let here = starts(program, blank, scope);
            may_assign(program, blank, scope, here, *class, *field)
        }
        _ => true,
    }
}

#[tactic(auto, using(je_core::proofs::Views::view_is))]
fn token_of(node: &Expr) -> Span
    ensures { result ≡ the_token_of (view node.now) }
{
    node.at
}

/// Nothing where a variable may be assigned at a place: it isn't final, or it is a blank one that gets its value there.
/// A fault is FinalAssign, at the name.
#[tactic(auto, unfolding(body_typing::specs::FinalVariables::not_final), using(je_core::proofs::Views::form_of_view))]
pub fn not_final(
    program: &Program,
    blank: &[Vec<bool>],
    scope: &Scope,
    target: &TypedExpr,
) -> Result<(), Refusal>
    ensures ok { IfOk result (λ done. the_not_final (program_seen program.now)
        (blank_seen blank.now) (scope_seen scope.now) (seen target.now) ≡ gives done) }
    ensures err { IfErr result (IsFault (the_not_final (program_seen program.now)
        (blank_seen blank.now) (scope_seen scope.now) (seen target.now))) }
{
    let may = may_be_assigned(program, blank, scope, &target.node.form);
    check(TypeRule::FinalAssign, token_of(&target.node), may)
}
