// Fields (JLS 8.3.2).

ghost use Rattle.std.specs.Prelude.{◌≡◌, IfErr, IfOk, Some};
ghost use Rattle.je_ast.specs.View.{variable_views_of, view as tree_of, view_of_option};
ghost use Rattle.declarations.specs.View.{field_shown};
ghost use Rattle.je_typing.specs.Answers.{IsFault};
ghost use Rattle.je_typing.specs.Judged.{gives};
ghost use Rattle.member_forms.specs.Bodies.{HasAllMethods};
ghost use Rattle.typed_nodes.specs.Seen.{seen};
ghost use Rattle.member_forms.specs.Seen.{members_seen};
ghost use Rattle.type_decl.specs.way.Walks.{initial_value as the_initial_value, initialized as the_initialized, variable as the_variable, variables as the_variables};

use body_places::field_at;
use declarations::FieldDecl;
use je_ast::{Expr, Identifier, Var};
use je_typing::Refusal;
use member_forms::{
    ClassWalk, MembersDone, alloc, field_scope, follow, initialized, next, nothing, uninitialized,
};
use type_statements::{Purpose, value};
use typed_nodes::TypedExpr;

// The value of an initializer.
fn initial_value(
    walk: ClassWalk,
    at: usize,
    expr: &Expr,
    field: &FieldDecl,
) -> Result<TypedExpr, Refusal>
    requires { HasAllMethods walk.bodies.now }
    ensures ok { IfOk result (λ t. the_initial_value walk.entry at (tree_of expr.now)
        (field_shown field.now) ≡ gives (seen t)) }
    ensures err { IfErr result (IsFault (the_initial_value walk.entry at (tree_of expr.now)
        (field_shown field.now))) }
{
    let scope = field_scope(walk, field.is_static, at);
    value(walk.bodies, &scope, Purpose::Initial(&field.ty), expr)
}

// A field with an initializer.
#[tactic(auto, using(je_typing::proofs::Walks::walks))]
fn with_initializer<'a>(
    walk: ClassWalk,
    at: usize,
    name: Identifier,
    expr: &'a Expr,
    field: &FieldDecl,
) -> Result<MembersDone<'a>, Refusal>
    requires { HasAllMethods walk.bodies.now }
    ensures ok { IfOk result (λ d. the_initialized walk.entry at name (tree_of expr.now)
        (Some (field_shown field.now)) ≡ gives (members_seen d)) }
    ensures err { IfErr result (IsFault (the_initialized walk.entry at name (tree_of expr.now)
        (Some (field_shown field.now)))) }
{
    let from = initial_value(walk, at, expr, field)?;
    let done = initialized(walk, at, name, expr, field, from)?;
    Ok(done)
}

// The variable that is the field at a place.
#[tactic(auto, using(je_typing::proofs::Walks::walks))]
fn variable<'a>(walk: ClassWalk, at: usize, var: &'a Var) -> Result<MembersDone<'a>, Refusal>
    requires { HasAllMethods walk.bodies.now }
    ensures ok { IfOk result (λ d. the_variable walk.entry at var.now.name
        (view_of_option var.now.init) ≡ gives (members_seen d)) }
    ensures err { IfErr result (IsFault
        (the_variable walk.entry at var.now.name (view_of_option var.now.init))) }
{
    let Some(expr) = &var.init else {
        let done = uninitialized(alloc(walk))?;
        return Ok(done);
    };
    let bodies = walk.bodies;
    match field_at(bodies.calls.program.classes, walk.class, at) {
        Some(field) => with_initializer(walk, at, var.name, expr, field),
        None => Ok(nothing(alloc(walk))),
    }
}

/// The variables of a field, the first of which has that place.
#[tactic(auto, using(je_typing::proofs::Walks::walks))]
pub fn variables<'a>(
    walk: ClassWalk,
    first: usize,
    vars: &'a [Var],
) -> Result<MembersDone<'a>, Refusal>
    requires { HasAllMethods walk.bodies.now }
    ensures ok { IfOk result (λ d. the_variables walk.entry first (variable_views_of vars.now)
        ≡ gives (members_seen d)) }
    ensures err { IfErr result (IsFault
        (the_variables walk.entry first (variable_views_of vars.now))) }
{
    let mut done = nothing(alloc(walk));
    let mut at = first;
    for var in vars {
        let more = variable(walk, at, var)?;
        follow(&mut done, more)?;
        at = next(at)?;
    }
    Ok(done)
}
