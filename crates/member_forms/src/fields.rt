// Fields (JLS 8.3.2): one that is static, final and a constant runs nothing.

ghost use Rattle.std.specs.Prelude.{◌≡◌, ◌∷◌, [], IfErr, IfOk, None, Some, map, option_map};
ghost use Rattle.je_ast.specs.View.{view as tree_of};
ghost use Rattle.je_core.specs.View.{initializer_view, view};
ghost use Rattle.declarations.specs.View.{field_shown};
ghost use Rattle.source_types.specs.Erasure.{erased as the_erased};
ghost use Rattle.source_subtypes.specs.View.{heads_of};
ghost use Rattle.je_typing.specs.Answers.{IsFault};
ghost use Rattle.je_typing.specs.Judged.{gives};
ghost use Rattle.body_typing.specs.Bodies.{met_in_expression};
ghost use Rattle.class_typing.specs.Members.{nothing as the_nothing};
ghost use Rattle.name_types.specs.View.{shown};
ghost use Rattle.typed_nodes.specs.Seen.{seen};
ghost use Rattle.body_typing.specs.ConstantVariables.{variable_constant as the_variable_constant};
ghost use Rattle.body_places.specs.Tables.{constant_seen};
ghost use Rattle.statement_forms.specs.Bodies.{met_seen};
ghost use Rattle.member_forms.specs.Seen.{members_seen, program_of};
ghost use Rattle.member_forms.specs.Walks.{constant_node as the_constant_node, field_initializer as the_field_initializer, field_node as the_field_node, field_scope as the_field_scope, initialized_by};
ghost use Rattle.member_forms.specs.way.Fields.{code_by, kept_constant as the_kept_constant, static_kept as the_static_kept, static_node as the_static_node};

use crate::counting::numbered;
use crate::done::{MembersDone, nothing};
use crate::scopes::field_scope;
use crate::walk::{ClassWalk, alloc};
use body_places::{Constant, this_node};
use conversion_steps::assigned;
use declarations::FieldDecl;
use folded_nodes::uses_of;
use header_steps::is_inner;
use je_ast::{Expr, Identifier};
use je_base::{Memory, Span};
use je_core::{Expr as Node, Initializer, Mark, make_assign, make_field, make_static};
use je_typing::{Refusal, TypeRule, check};
use name_steps::constant_or;
use source_subtypes::{copied, erased};
use statement_forms::{Met, add_met, performed, variable_constant};
use std::alloc::Global;
use std::rc::Rc;
use tree_spans::span;
use typed_nodes::TypedExpr;

// The type of a field, at a place of the text.
fn field_mark(walk: ClassWalk, field: &FieldDecl, span: Span) -> Mark
    ensures ty { result.ty ≡ the_erased (heads_of walk.entry.bodies.now.calls.program.heads.now)
        (shown field.now.ty) }
    ensures span { result.span ≡ span }
    ensures at { result.at ≡ span }
{
    let bodies = walk.bodies;
    let ty = erased(bodies.calls.program.heads, &field.ty);
    Mark { ty, span, at: span }
}

fn static_node(walk: ClassWalk, field: &FieldDecl, at: usize, span: Span) -> Result<Node, Memory>
    ensures { IfOk result (λ n. view n ≡
        the_static_node walk.entry (field_shown field.now) at span) }
{
    let number = numbered(at)?;
    let mark = field_mark(walk, field, span);
    make_static(alloc(walk), mark, None, walk.class, number)
}

// The field, as it is assigned.
fn field_node(walk: ClassWalk, field: &FieldDecl, at: usize, span: Span) -> Result<Node, Memory>
    ensures { IfOk result (λ n. view n ≡
        the_field_node walk.entry (field_shown field.now) at span) }
{
    if field.is_static {
        return static_node(walk, field, at, span);
    }
    let number = numbered(at)?;
    let mark = field_mark(walk, field, span);
    let scope = field_scope(walk, false, at);
    let object = this_node(scope.place(), span);
    make_field(alloc(walk), mark, object, walk.class, number)
}

fn field_initializer(
    walk: ClassWalk,
    field: &FieldDecl,
    at: usize,
    span: Span,
    value: Node,
) -> Result<Initializer, Memory>
    ensures { IfOk result (λ i. initializer_view i ≡
        the_field_initializer walk.entry (field_shown field.now) at span (view value)) }
{
    let place = field_node(walk, field, at, span)?;
    let mark = field_mark(walk, field, span);
    let whole = make_assign(alloc(walk), mark, place, value)?;
    let code = performed(alloc(walk), span, whole)?;
    let body = Rc::new(alloc(walk), code)?;
    Ok(Initializer {
        is_static: field.is_static,
        span,
        locals: Vec::new(alloc(walk)),
        body,
    })
}

// The constant that a static field is, which its initializer came to.
fn constant_node(
    walk: ClassWalk,
    field: &FieldDecl,
    at: usize,
    span: Span,
    from: &Node,
    constant: &Constant,
) -> Result<Node, Memory>
    ensures { IfOk result (λ n. view n ≡ the_constant_node walk.entry (field_shown field.now) span
        (view from.now) (constant_seen constant.now)) }
{
    let uses = uses_of(alloc(walk), from)?;
    let node = static_node(walk, field, at, span)?;
    let ty = copied(alloc(walk), &field.ty)?;
    let whole = constant_or(alloc(walk), uses, TypedExpr { node, ty }, Some(constant))?;
    Ok(whole.node)
}

fn kept_constant(
    walk: ClassWalk,
    field: &FieldDecl,
    at: usize,
    span: Span,
    from: &Node,
) -> Result<Option<Node>, Memory>
    ensures { IfOk result (λ n. option_map view n ≡ the_kept_constant walk.entry
        (field_shown field.now) span (view from.now) field.now.is_static
        (the_variable_constant field.now.is_final (shown field.now.ty) (view from.now))) }
{
    if !field.is_static {
        return Ok(None);
    }
    match variable_constant(alloc(walk), field.is_final, &field.ty, from)? {
        Some(constant) => {
            let kept = constant_node(walk, field, at, span, from, &constant)?;
            Ok(Some(kept))
        }
        None => Ok(None),
    }
}

// What is met in the initializer of a field.
fn field_met<'a>(
    walk: ClassWalk,
    field: &FieldDecl,
    at: usize,
    expr: &'a Expr,
) -> Result<Vec<Met<'a>>, Memory>
    ensures { IfOk result (λ ms. map met_seen ms.items ≡ met_in_expression
        (program_of walk.entry) (the_field_scope walk.entry field.now.is_static at)
        (tree_of expr.now)) }
{
    let scope = field_scope(walk, field.is_static, at);
    let mut met = Vec::new(alloc(walk));
    add_met(walk.bodies, &scope, expr, &mut met)?;
    Ok(met)
}

// A field that is a constant.
fn constant_code<'a>(
    alloc: Global,
    kept: Node,
    met: Vec<Met<'a>>,
) -> Result<MembersDone<'a>, Memory>
    ensures { IfOk result (λ d. members_seen d ≡ record the_nothing {
      constants = Some (view kept) ∷ [];
      met = map met_seen met.entry.items;
    }) }
{
    let mut done = nothing(alloc);
    done.constants.push(Some(kept))?;
    done.met = met;
    Ok(done)
}

// A field that is assigned where its class is started, or where an object is made.
fn running_code<'a>(
    alloc: Global,
    initializer: Initializer,
    met: Vec<Met<'a>>,
) -> Result<MembersDone<'a>, Memory>
    ensures { IfOk result (λ d. members_seen d ≡ record the_nothing {
      constants = None ∷ [];
      initializers = initializer_view initializer ∷ [];
      met = map met_seen met.entry.items;
    }) }
{
    let mut done = nothing(alloc);
    done.constants.push(None)?;
    done.initializers.push(initializer)?;
    done.met = met;
    Ok(done)
}

// A field whose initializer came to a value that is converted to its type.
fn field_code<'a>(
    walk: ClassWalk,
    field: &FieldDecl,
    at: usize,
    name: Identifier,
    expr: &'a Expr,
    value: Node,
    kept: Option<Node>,
) -> Result<MembersDone<'a>, Memory>
    ensures { IfOk result (λ d. members_seen d ≡ code_by walk.entry (field_shown field.now) at name
        (tree_of expr.now) (view value) (option_map view kept)) }
{
    let met = field_met(walk, field, at, expr)?;
    match kept {
        Some(kept) => constant_code(alloc(walk), kept, met),
        None => {
            let initializer = field_initializer(walk, field, at, name.span, value)?;
            running_code(alloc(walk), initializer, met)
        }
    }
}

// Nothing where a static field of an inner class is kept as a constant, else BadStatic at its name.
fn static_kept(
    walk: ClassWalk,
    field: &FieldDecl,
    name: Identifier,
    kept: &Option<Node>,
) -> Result<(), Refusal>
    ensures ok { IfOk result (λ done. the_static_kept walk.entry (field_shown field.now) name
        (option_map view kept.now) ≡ gives done) }
    ensures err { IfErr result (IsFault (the_static_kept walk.entry (field_shown field.now) name
        (option_map view kept.now))) }
{
    let bodies = walk.bodies;
    let program = bodies.calls.program;
    let is_wrong = field.is_static
        && kept.is_none()
        && is_inner(program.source.sites, program.heads, walk.class);
    check(TypeRule::BadStatic, name.span, !is_wrong)
}

/// The field at a place whose initializer came to a value.
#[tactic(auto, using(je_typing::proofs::Walks::walks))]
pub fn initialized<'a>(
    walk: ClassWalk,
    at: usize,
    name: Identifier,
    expr: &'a Expr,
    field: &FieldDecl,
    from: TypedExpr,
) -> Result<MembersDone<'a>, Refusal>
    ensures ok { IfOk result (λ d. initialized_by walk.entry at name (tree_of expr.now)
        (field_shown field.now) (seen from) ≡ gives (members_seen d)) }
    ensures err { IfErr result (IsFault (initialized_by walk.entry at name (tree_of expr.now)
        (field_shown field.now) (seen from))) }
{
    let span = span(expr);
    let kept = kept_constant(walk, field, at, span, &from.node)?;
    let bodies = walk.bodies;
    let heads = bodies.calls.program.heads;
    let node = assigned(alloc(walk), heads, &field.ty, span, from)?;
    static_kept(walk, field, name, &kept)?;
    let done = field_code(walk, field, at, name, expr, node, kept)?;
    Ok(done)
}

/// A field without an initializer.
pub fn uninitialized<'a>(alloc: Global) -> Result<MembersDone<'a>, Memory>
    ensures { IfOk result (λ d. members_seen d ≡ record the_nothing { constants = None ∷ [] }) }
{
    let mut done = nothing(alloc);
    done.constants.push(None)?;
    Ok(done)
}
