// Declarations of local variables (JLS 14.4).

ghost use Rattle.std.specs.Prelude.{◌≡◌, IfErr, IfOk, OnOk};
ghost use Rattle.je_ast.specs.Types.{type_view};
ghost use Rattle.je_ast.specs.View.{variable_views_of, view, view_of_option};
ghost use Rattle.je_core.specs.View.{view as node_seen};
ghost use Rattle.je_scopes.specs.SourceTypes.{with_dims};
ghost use Rattle.je_typing.specs.Answers.{IsFault};
ghost use Rattle.je_typing.specs.Judged.{gives};
ghost use Rattle.name_types.specs.View.{in_limit, shown};
ghost use Rattle.body_typing.specs.Expressions.{expression, initial, value as the_value};
ghost use Rattle.body_typing.specs.Bodies.{with_local};
ghost use Rattle.body_typing.specs.LocalVariables.{variable as the_variable, variables as the_variables, with_initializer as the_with_initializer, without_initializer as the_without_initializer};
ghost use Rattle.body_typing.specs.Statements.{locals as the_locals};
ghost use Rattle.typed_nodes.specs.Seen.{seen};
ghost use Rattle.body_places.specs.Places.{local_seen};
ghost use Rattle.body_scopes.specs.Extending.{Extends};
ghost use Rattle.body_scopes.specs.View.{scope_seen};
ghost use Rattle.statement_forms.specs.Bodies.{HasAllMethods};
ghost use Rattle.statement_forms.specs.Seen.{done_seen, known_of, program_of, progress_seen, returning_of};
ghost use Rattle.type_statements.specs.way.Declared.{declared as the_declared};

use body_places::LocalVariable;
use body_scopes::Scope;
use body_type_steps::body_type;
use conversion_steps::assigned;
use je_ast::{Expr, Identifier, TyName, Var};
use je_base::{Memory, Span};
use je_core::Expr as Node;
use je_typing::Refusal;
use name_types::SrcTy;
use source_subtypes::copied;
use statement_forms::{
    Done, Progress, Walk, add_met, add_number, alloc, assigned_to, follow, local_of, new_name,
    next_number, nothing, performed, variable_constant,
};
use std::alloc::Global;
use tree_spans::span;
use type_expr::{Purpose, value};
use typed_nodes::TypedExpr;
use written_types::judge_declared;

// What the variables of one declaration have in common: its first token, and the type, as it is written and as it is.
#[derive(Clone, Copy)]
struct Declared<'a> {
    is_final: bool,
    start: Span,
    written: &'a TyName,
    ty: &'a SrcTy,
}

// A type with so many dimensions more, 255 in all at most.
fn sized(alloc: Global, ty: &SrcTy, dims: usize) -> Result<SrcTy, Memory>
    requires { in_limit (shown ty.now) ≡ shown ty.now }
    ensures { IfOk result (λ t. shown t ≡ in_limit (with_dims (shown ty.now) dims)) }
{
    let one = copied(alloc, ty)?;
    Ok(SrcTy {
        base: one.base,
        dims: (one.dims as usize).saturating_add(dims).min(255) as u8,
    })
}

// The value of an initializer, where the variable is in scope.
#[tactic(auto, using(je_typing::proofs::Walks::walks))]
fn initial_value(
    walk: Walk,
    scope: &mut Scope,
    variable: LocalVariable,
    ty: &SrcTy,
    expr: &Expr,
) -> Result<TypedExpr, Refusal>
    requires { HasAllMethods walk.bodies.now }
    ensures ok { IfOk result (λ t. the_value (expression (program_of walk.entry)
        (known_of walk.entry)
        (with_local variable.is_final (local_seen variable) (scope_seen scope.old))
        (initial (shown ty.now)) (view expr.now)) ≡ gives (seen t)) }
    ensures stays { OnOk result (scope_seen scope.new ≡ scope_seen scope.old) }
    ensures err { IfErr result (IsFault (the_value (expression (program_of walk.entry)
        (known_of walk.entry)
        (with_local variable.is_final (local_seen variable) (scope_seen scope.old))
        (initial (shown ty.now)) (view expr.now)))) }
{
    let depth = scope.depth();
    scope.add_local(variable.is_final, variable)?;
    let from = value(walk.bodies, scope, Purpose::Initial(ty), expr);
    scope.leave(depth);
    from
}

// A variable whose initializer came to a node that is converted to its type.
#[tactic(auto, using(crate::proofs::LocalsAdded::local_added))]
fn initialized<'a>(
    walk: Walk,
    declared: Declared,
    scope: &mut Scope,
    progress: &mut Progress<'a>,
    variable: LocalVariable,
    name: Identifier,
    expr: &'a Expr,
    node: Node,
) -> Result<Done, Memory>
    ensures done { IfOk result (λ d. done_seen d scope.new progress.new ≡ the_declared
        (program_of walk.entry) declared.entry.is_final declared.entry.start
        (scope_seen scope.old) (progress_seen progress.old) (local_seen variable) name
        (view expr.now) (node_seen node)) }
    ensures extends { OnOk result (Extends (scope_seen scope.old) (scope_seen scope.new)) }
{
    let bodies = walk.bodies;
    let program = &bodies.calls.program;
    let number = variable.number;
    let whole = assigned_to(program, &variable, name, span(expr), node)?;
    let is_final = declared.is_final;
    add_number(
        program.heads,
        progress,
        name.name,
        &variable.ty,
        is_final,
        name.span,
    )?;
    scope.add_local(is_final, variable)?;
    add_met(walk.bodies, scope, expr, &mut progress.met)?;
    let mut done = nothing(alloc(walk));
    done.code
        .push(performed(alloc(walk), declared.start, whole)?)?;
    done.numbers.push(number)?;
    Ok(done)
}

// A variable with an initializer, whose brackets are counted by its type.
#[tactic(auto, using(je_typing::proofs::Walks::walks))]
fn with_initializer<'a>(
    walk: Walk,
    declared: Declared,
    scope: &mut Scope,
    progress: &mut Progress<'a>,
    var: &'a Var,
    ty: &SrcTy,
    expr: &'a Expr,
) -> Result<Done, Refusal>
    requires { HasAllMethods walk.bodies.now }
    ensures ok { IfOk result (λ d. the_with_initializer (program_of walk.entry)
        (known_of walk.entry) declared.entry.is_final declared.entry.start
        (type_view declared.entry.written.now) (shown declared.entry.ty.now)
        (scope_seen scope.old) (progress_seen progress.old) var.now.name var.now.dims
        (shown ty.now) (view expr.now) ≡ gives (done_seen d scope.new progress.new)) }
    ensures extends { OnOk result (Extends (scope_seen scope.old) (scope_seen scope.new)) }
    ensures err { IfErr result (IsFault (the_with_initializer (program_of walk.entry)
        (known_of walk.entry) declared.entry.is_final declared.entry.start
        (type_view declared.entry.written.now) (shown declared.entry.ty.now)
        (scope_seen scope.old) (progress_seen progress.old) var.now.name var.now.dims
        (shown ty.now) (view expr.now))) }
{
    let alloc = alloc(walk);
    let bodies = walk.bodies;
    let heads = bodies.calls.program.heads;
    let is_final = declared.is_final;
    let number = next_number(progress)?;
    let variable = local_of(alloc, var.name.name, ty, is_final, number, None)?;
    let from = initial_value(walk, scope, variable, ty, expr)?;
    new_name(scope, var.name)?;
    let constant = variable_constant(alloc, is_final, ty, &from.node)?;
    let node = assigned(alloc, heads, ty, span(expr), from)?;
    judge_declared(declared.written, var.dims, var.name)?;
    let variable = local_of(alloc, var.name.name, ty, is_final, number, constant)?;
    let done = initialized(
        walk, declared, scope, progress, variable, var.name, expr, node,
    )?;
    Ok(done)
}

// A variable without an initializer.
#[tactic(auto, using(je_typing::proofs::Walks::walks, crate::proofs::LocalsAdded::local_added))]
fn without_initializer(
    walk: Walk,
    declared: Declared,
    scope: &mut Scope,
    progress: &mut Progress,
    var: &Var,
    ty: &SrcTy,
) -> Result<Done, Refusal>
    ensures ok { IfOk result (λ d. the_without_initializer (program_of walk.entry)
        (known_of walk.entry) declared.entry.is_final declared.entry.start
        (type_view declared.entry.written.now) (shown declared.entry.ty.now)
        (scope_seen scope.old) (progress_seen progress.old) var.now.name var.now.dims
        (shown ty.now) ≡ gives (done_seen d scope.new progress.new)) }
    ensures extends { OnOk result (Extends (scope_seen scope.old) (scope_seen scope.new)) }
    ensures err { IfErr result (IsFault (the_without_initializer (program_of walk.entry)
        (known_of walk.entry) declared.entry.is_final declared.entry.start
        (type_view declared.entry.written.now) (shown declared.entry.ty.now)
        (scope_seen scope.old) (progress_seen progress.old) var.now.name var.now.dims
        (shown ty.now))) }
{
    let is_final = declared.is_final;
    new_name(scope, var.name)?;
    judge_declared(declared.written, var.dims, var.name)?;
    let number = next_number(progress)?;
    let variable = local_of(alloc(walk), var.name.name, ty, is_final, number, None)?;
    let bodies = walk.bodies;
    let heads = bodies.calls.program.heads;
    add_number(heads, progress, var.name.name, ty, is_final, var.name.span)?;
    scope.add_local(false, variable)?;
    let mut done = nothing(alloc(walk));
    done.numbers.push(number)?;
    Ok(done)
}

// One variable of a type, by which its brackets are counted.
fn variable_of<'a>(
    walk: Walk,
    declared: Declared,
    scope: &mut Scope,
    progress: &mut Progress<'a>,
    var: &'a Var,
    ty: &SrcTy,
) -> Result<Done, Refusal>
    requires methods { HasAllMethods walk.bodies.now }
    requires counted { shown ty.now ≡ in_limit (with_dims (shown declared.ty.now) var.now.dims) }
    ensures ok { IfOk result (λ d. the_variable (program_of walk.entry) (known_of walk.entry)
        declared.entry.is_final declared.entry.start (type_view declared.entry.written.now)
        (shown declared.entry.ty.now) (scope_seen scope.old) (progress_seen progress.old)
        var.now.name var.now.dims (view_of_option var.now.init)
        ≡ gives (done_seen d scope.new progress.new)) }
    ensures extends { OnOk result (Extends (scope_seen scope.old) (scope_seen scope.new)) }
    ensures err { IfErr result (IsFault (the_variable (program_of walk.entry)
        (known_of walk.entry) declared.entry.is_final declared.entry.start
        (type_view declared.entry.written.now) (shown declared.entry.ty.now)
        (scope_seen scope.old) (progress_seen progress.old) var.now.name var.now.dims
        (view_of_option var.now.init))) }
{
    match &var.init {
        None => without_initializer(walk, declared, scope, progress, var, ty),
        Some(expr) => with_initializer(walk, declared, scope, progress, var, ty, expr),
    }
}

// One variable.
fn variable<'a>(
    walk: Walk,
    declared: Declared,
    scope: &mut Scope,
    progress: &mut Progress<'a>,
    var: &'a Var,
) -> Result<Done, Refusal>
    requires methods { HasAllMethods walk.bodies.now }
    requires few { in_limit (shown declared.ty.now) ≡ shown declared.ty.now }
    ensures ok { IfOk result (λ d. the_variable (program_of walk.entry) (known_of walk.entry)
        declared.entry.is_final declared.entry.start (type_view declared.entry.written.now)
        (shown declared.entry.ty.now) (scope_seen scope.old) (progress_seen progress.old)
        var.now.name var.now.dims (view_of_option var.now.init)
        ≡ gives (done_seen d scope.new progress.new)) }
    ensures extends { OnOk result (Extends (scope_seen scope.old) (scope_seen scope.new)) }
    ensures err { IfErr result (IsFault (the_variable (program_of walk.entry)
        (known_of walk.entry) declared.entry.is_final declared.entry.start
        (type_view declared.entry.written.now) (shown declared.entry.ty.now)
        (scope_seen scope.old) (progress_seen progress.old) var.now.name var.now.dims
        (view_of_option var.now.init))) }
{
    let ty = sized(alloc(walk), declared.ty, var.dims)?;
    variable_of(walk, declared, scope, progress, var, &ty)
}

// The variables of a declaration.
#[tactic(auto, using(je_typing::proofs::Walks::walks, crate::proofs::VariableLists::variable_lists, body_scopes::proofs::Extending::extends_itself, body_scopes::proofs::Extending::extends_further))]
fn variables<'a>(
    walk: Walk,
    declared: Declared,
    scope: &mut Scope,
    progress: &mut Progress<'a>,
    vars: &'a [Var],
) -> Result<Done, Refusal>
    requires methods { HasAllMethods walk.bodies.now }
    requires few { in_limit (shown declared.ty.now) ≡ shown declared.ty.now }
    ensures ok { IfOk result (λ d. the_variables (program_of walk.entry) (known_of walk.entry)
        declared.entry.is_final declared.entry.start (type_view declared.entry.written.now)
        (shown declared.entry.ty.now) (scope_seen scope.old) (progress_seen progress.old)
        (variable_views_of vars.now) ≡ gives (done_seen d scope.new progress.new)) }
    ensures extends { OnOk result (Extends (scope_seen scope.old) (scope_seen scope.new)) }
    ensures err { IfErr result (IsFault (the_variables (program_of walk.entry)
        (known_of walk.entry) declared.entry.is_final declared.entry.start
        (type_view declared.entry.written.now) (shown declared.entry.ty.now)
        (scope_seen scope.old) (progress_seen progress.old) (variable_views_of vars.now))) }
{
    let mut done = nothing(alloc(walk));
    for var in vars {
        let more = variable(walk, declared, scope, progress, var)?;
        follow(&mut done, more)?;
    }
    Ok(done)
}

/// Local variables of a type that is written, behind a first token.
#[tactic(auto, using(je_typing::proofs::Walks::walks, crate::proofs::Limits::type_in_limit))]
pub fn locals<'a>(
    walk: Walk,
    scope: &mut Scope,
    progress: &mut Progress<'a>,
    is_final: bool,
    start: Span,
    written: &TyName,
    vars: &'a [Var],
) -> Result<Done, Refusal>
    requires { HasAllMethods walk.bodies.now }
    ensures ok { IfOk result (λ d. the_locals (program_of walk.entry) (known_of walk.entry)
        (returning_of walk.entry) (scope_seen scope.old) (progress_seen progress.old) is_final start
        (type_view written.now) (variable_views_of vars.now)
        ≡ gives (done_seen d scope.new progress.new)) }
    ensures extends { OnOk result (Extends (scope_seen scope.old) (scope_seen scope.new)) }
    ensures err { IfErr result (IsFault (the_locals (program_of walk.entry)
        (known_of walk.entry) (returning_of walk.entry) (scope_seen scope.old)
        (progress_seen progress.old) is_final start (type_view written.now)
        (variable_views_of vars.now))) }
{
    let bodies = walk.bodies;
    let ty = body_type(&bodies.calls.program, &scope.here, written)?;
    let declared = Declared {
        is_final,
        start,
        written,
        ty: &ty,
    };
    let done = variables(walk, declared, scope, progress, vars)?;
    Ok(done)
}
