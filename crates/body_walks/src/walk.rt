// What an expression mentions by itself, in reading order (JLS 6.5, 15.9).

ghost use Rattle.std.specs.Prelude.{◌≡◌, ◌++◌, OnOk, flat_map, map};
ghost use Rattle.je_ast.specs.Types.{type_node_view, type_view};
ghost use Rattle.je_ast.specs.View.{node_view, view, views_of};
ghost use Rattle.je_scopes.specs.Settled.{parts_of};
ghost use Rattle.body_typing.specs.Mentions.{all_mentions, made, made_with_body, named};
ghost use Rattle.body_typing.specs.Bodies.{local_met, met_by, met_in_expression};
ghost use Rattle.body_places.specs.View.{program_seen};
ghost use Rattle.core_making.specs.Scopes.{scope_seen};
ghost use Rattle.body_type_steps.specs.Variables.{variable_seen};
ghost use Rattle.body_walks.specs.Seen.{met_seen};

use crate::bodies::Bodies;
use crate::keeping::standing;
use crate::met::Met;
use body_places::{Program, class_outwards};
use body_type_steps::{Variable, body_meaning, variable_named};
use core_making::Scope;
use je_ast::{Expr, Identifier, TyName};
use je_base::{Memory, Span};
use name_lookup::Look;

// A local of a body further out, which is no constant.
#[tactic(auto, using(crate::proofs::Further::further))]
fn add_local(
    program: &Program,
    scope: &Scope,
    variable: Variable,
    met: &mut Vec<Met<'_>>,
) -> Result<(), Memory>
    ensures { OnOk result (map met_seen met.new.items ≡ map met_seen met.old.items ++
        local_met (program_seen program.now) (scope_seen scope.now)
        (variable_seen variable.entry)) }
{
    let Variable::Local { outwards, local } = variable else {
        return Ok(());
    };
    if outwards == 0 || local.constant.is_some() {
        return Ok(());
    }
    met.push(Met::Captures {
        within: scope.here.class,
        owner: class_outwards(scope.place(), outwards),
        local: local.number,
    })?;
    Ok(())
}

fn add_named(
    program: &Program,
    scope: &Scope,
    name: Identifier,
    met: &mut Vec<Met<'_>>,
) -> Result<(), Memory>
    ensures { OnOk result (map met_seen met.new.items ≡ map met_seen met.old.items ++
        met_by (program_seen program.now) (scope_seen scope.now) (named name)) }
{
    let variable = variable_named(program, scope.place(), name.name)?;
    add_local(program, scope, variable, met)
}

#[tactic(auto, using(je_ast::proofs::Views::type_is))]
fn name_parts(ty: &TyName) -> &[Identifier]
    ensures { result.now ≡ parts_of (type_view ty.now) }
{
    node_parts(ty)
}

fn node_parts(ty: &TyName) -> &[Identifier]
    ensures { result.now ≡ parts_of (type_node_view ty.now) }
{
    match ty {
        TyName::Primitive { .. } => &[],
        TyName::Class { name, .. } => &name.parts,
    }
}

fn add_made(
    program: &Program,
    scope: &Scope,
    ty: &TyName,
    met: &mut Vec<Met<'_>>,
) -> Result<(), Memory>
    ensures { OnOk result (map met_seen met.new.items ≡ map met_seen met.old.items ++
        met_by (program_seen program.now) (scope_seen scope.now) (made (type_view ty.now))) }
{
    let meaning = body_meaning(program, &scope.here, name_parts(ty))?;
    if let Look::Class(class) = meaning.look {
        met.push(Met::Makes {
            within: scope.here.class,
            made: class,
        })?;
    }
    Ok(())
}

fn add_body<'a>(
    bodies: &Bodies,
    scope: &Scope,
    word: Span,
    ty: &'a TyName,
    arguments: &'a [Expr],
    met: &mut Vec<Met<'a>>,
) -> Result<(), Memory>
    ensures { OnOk result (map met_seen met.new.items ≡ map met_seen met.old.items ++
        met_by (program_seen bodies.now.calls.program) (scope_seen scope.now)
        (made_with_body word (type_view ty.now) (views_of arguments.now))) }
{
    let program = &bodies.calls.program;
    let class = bodies.spots.anonymous(program.source.sites, word);
    let scope = standing(program.source.alloc, scope)?;
    met.push(Met::StandsBehindNew {
        class,
        scope,
        word,
        ty,
        arguments,
    })?;
    Ok(())
}

/// Adds what an expression mentions.
#[cycle(walk)]
#[tactic(auto, using(je_ast::proofs::Views::view_is))]
pub fn add_met<'a>(
    bodies: &Bodies,
    scope: &Scope,
    expr: &'a Expr,
    met: &mut Vec<Met<'a>>,
) -> Result<(), Memory>
    ensures { OnOk result (map met_seen met.new.items ≡ map met_seen met.old.items ++
        met_in_expression (program_seen bodies.now.calls.program) (scope_seen scope.now)
        (view expr.now)) }
{
    add_met_here(bodies, scope, expr, met)
}

#[cycle(walk)]
#[tactic(auto, using(crate::proofs::Adding::added))]
fn add_met_here<'a>(
    bodies: &Bodies,
    scope: &Scope,
    expr: &'a Expr,
    met: &mut Vec<Met<'a>>,
) -> Result<(), Memory>
    ensures { OnOk result (map met_seen met.new.items ≡ map met_seen met.old.items ++
        met_in_expression (program_seen bodies.now.calls.program) (scope_seen scope.now)
        (node_view expr.now)) }
{
    match expr {
        Expr::Literal { .. }
        | Expr::This { .. }
        | Expr::OuterThis { .. }
        | Expr::SuperSelect { .. } => Ok(()),
        Expr::Name { name } => add_named(&bodies.calls.program, scope, *name, met),
        Expr::Parens { inner, .. } => add_met(bodies, scope, inner, met),
        Expr::Select { object, .. } => add_met(bodies, scope, object, met),
        Expr::Call { args, .. } | Expr::SuperCall { args, .. } => {
            add_all_met(bodies, scope, args, met)
        }
        Expr::CallOn { object, args, .. } => {
            add_met(bodies, scope, object, met)?;
            add_all_met(bodies, scope, args, met)
        }
        Expr::Index { array, index, .. } => {
            add_met(bodies, scope, array, met)?;
            add_met(bodies, scope, index, met)
        }
        Expr::New { class, args, .. } => {
            add_made(&bodies.calls.program, scope, class, met)?;
            add_all_met(bodies, scope, args, met)
        }
        Expr::NewAnonymous {
            word,
            class,
            args,
            ..
        } => {
            add_body(bodies, scope, *word, class, args, met)?;
            add_all_met(bodies, scope, args, met)
        }
        Expr::NewArray { lengths, .. } => add_all_met(bodies, scope, lengths, met),
        Expr::NewArrayOf { init, .. } => add_met(bodies, scope, init, met),
        Expr::ArrayInit { values, .. } => add_all_met(bodies, scope, values, met),
        Expr::Cast { operand, .. }
        | Expr::InstanceOf { operand, .. }
        | Expr::Prefix { operand, .. }
        | Expr::Postfix { operand, .. } => add_met(bodies, scope, operand, met),
        Expr::Binary { left, right, .. } => {
            add_met(bodies, scope, left, met)?;
            add_met(bodies, scope, right, met)
        }
        Expr::Conditional {
            condition,
            yes,
            no,
            ..
        } => {
            add_met(bodies, scope, condition, met)?;
            add_met(bodies, scope, yes, met)?;
            add_met(bodies, scope, no, met)
        }
        Expr::Assign { place, value, .. } => {
            add_met(bodies, scope, place, met)?;
            add_met(bodies, scope, value, met)
        }
    }
}

/// Adds what some expressions mention, in their order.
#[cycle(walk)]
#[tactic(auto, using(crate::proofs::Adding::added))]
pub fn add_all_met<'a>(
    bodies: &Bodies,
    scope: &Scope,
    exprs: &'a [Expr],
    met: &mut Vec<Met<'a>>,
) -> Result<(), Memory>
    ensures { OnOk result (map met_seen met.new.items ≡ map met_seen met.old.items ++
        flat_map (met_by (program_seen bodies.now.calls.program) (scope_seen scope.now))
        (all_mentions (views_of exprs.now))) }
{
    for expr in exprs {
        add_met(bodies, scope, expr, met)?;
    }
    Ok(())
}
