// A `for` over an array, but for the walk over its body (JLS 14.14.2).

ghost use Rattle.std.specs.Prelude.{◌≡◌, ◌+◌, ◌<◌, ◌^◌, IfErr, IfOk};
ghost use Rattle.je_ast.specs.View.{view};
ghost use Rattle.je_core.specs.View.{stmt_view, view as node_seen};
ghost use Rattle.je_typing.specs.Answers.{IsFault};
ghost use Rattle.je_ast.specs.Spans.{span_of};
ghost use Rattle.je_typing.specs.Conversions.{assigned as the_assigned};
ghost use Rattle.je_typing.specs.declared.fault.TypeRule.TheVariants.{BadForEach};
ghost use Rattle.je_typing.specs.Judged.{gives, need};
ghost use Rattle.je_typing.specs.Typed.{element_type as the_element_type};
ghost use Rattle.source_subtypes.specs.View.{heads_of};
ghost use Rattle.body_typing.specs.ForEach.{element as the_element};
ghost use Rattle.name_types.specs.View.{shown};
ghost use Rattle.body_typing.specs.Statements.{for_each_code as the_for_each_code, for_each_judged as the_for_each_judged};
ghost use Rattle.typed_nodes.specs.Seen.{seen};
ghost use Rattle.body_scopes.specs.View.{scope_seen};
ghost use Rattle.statement_forms.specs.Seen.{known_of, program_of, returning_of};

use body_scopes::Scope;
use conversion_steps::assigned;
use je_ast::{Expr, Identifier};
use je_base::{Memory, Span};
use je_core::{Expr as Node, Stmt, make_block};
use je_typing::{Refusal, TypeRule};
use name_types::SrcTy;
use source_subtypes::copied;
use statement_forms::{
    Each, Walk, alloc, begins, element, new_name, parts, start_of, turns, with_label,
};
use std::alloc::Global;
use std::rc::Rc;
use tree_spans::span;
use typed_nodes::{TypedExpr, element_type, need_type};

/// What a `for` goes through: an array, where it is written, and the variable that gets each element.
#[derive(Drop)]
pub struct Elements<'a> {
    pub word: Span,
    pub written: &'a Expr,
    pub array: TypedExpr,
    /// The number of the array's local; those of the index and of the variable come next.
    pub local: u32,
    pub name: Identifier,
    pub ty: &'a SrcTy,
}

// The code of a `for` over an array, by an element that is converted to the variable's type.
fn for_each_code(
    walk: Walk,
    label: Option<Identifier>,
    elements: Elements,
    from: Node,
    body: Stmt,
) -> Result<Stmt, Memory>
    requires { elements.local + 2 < 2 ^ 32 }
    ensures { IfOk result (λ s. stmt_view s ≡ the_for_each_code (program_of walk.entry)
        (known_of walk.entry) (returning_of walk.entry) label elements.entry.word
        (view elements.entry.written.now) (seen elements.entry.array) elements.entry.local
        (shown elements.entry.ty.now) elements.entry.name (node_seen from) (stmt_view body)) }
{
    let Elements {
        word,
        written,
        array,
        local,
        name,
        ty,
    } = elements;
    let alloc = alloc(walk);
    let bodies = walk.bodies;
    let heads = bodies.calls.program.heads;
    let at = span(written);
    let each = Each {
        heads,
        span: at,
        array: &array,
        local,
    };
    let turn = turns(alloc, each, word, ty, name.span, from, body)?;
    let turn = with_label(alloc, label, turn)?;
    let mut parts = begins(alloc, heads, at, array, local, word)?;
    parts.push(Rc::new(alloc, turn)?)?;
    let mut numbers = Vec::new(alloc);
    numbers.push(local)?;
    numbers.push(local + 1)?;
    Ok(make_block(start_of(label, word), word, numbers, parts))
}

// The type of an array's elements, else the fault.
#[tactic(auto, using(je_typing::proofs::Walks::walks))]
fn element_of(alloc: Global, written: &Expr, array: &TypedExpr) -> Result<SrcTy, Refusal>
    ensures ok { IfOk result (λ t. need BadForEach (span_of (view written.now))
        (the_element_type (seen array.now).type) ≡ gives (shown t)) }
    ensures err { IfErr result (IsFault (need BadForEach (span_of (view written.now))
        (the_element_type (seen array.now).type))) }
{
    let ty = copied(alloc, &array.ty)?;
    let of = element_type(ty);
    need_type(TypeRule::BadForEach, span(written), of)
}

// An element, converted to the variable's type.
#[tactic(auto, using(je_typing::proofs::Walks::walks))]
fn element_as<'a>(walk: Walk<'a>, elements: &'a Elements<'a>, of: SrcTy) -> Result<Node, Refusal>
    requires { elements.now.local + 2 < 2 ^ 32 }
    ensures ok { IfOk result (λ n. the_assigned (heads_of walk.entry.bodies.now.calls.program.heads.now)
        (shown elements.now.ty.now) (span_of (view elements.now.written.now))
        (the_element (heads_of walk.entry.bodies.now.calls.program.heads.now)
        (span_of (view elements.now.written.now)) (seen elements.now.array) elements.now.local
        (shown of)) ≡ gives (node_seen n)) }
    ensures err { IfErr result (IsFault (the_assigned
        (heads_of walk.entry.bodies.now.calls.program.heads.now)
        (shown elements.now.ty.now) (span_of (view elements.now.written.now))
        (the_element (heads_of walk.entry.bodies.now.calls.program.heads.now)
        (span_of (view elements.now.written.now)) (seen elements.now.array) elements.now.local
        (shown of)))) }
{
    let bodies = walk.bodies;
    let heads = bodies.calls.program.heads;
    let at = span(elements.written);
    let each = Each {
        heads,
        span: at,
        array: &elements.array,
        local: elements.local,
    };
    let from = element(alloc(walk), each, of)?;
    assigned(alloc(walk), heads, elements.ty, at, from)
}

/// A `for` over an array whose body is walked: its variable has a new name, and takes the elements.
#[tactic(auto, using(je_typing::proofs::Walks::walks))]
pub fn for_each_judged(
    walk: Walk,
    scope: &Scope,
    label: Option<Identifier>,
    elements: Elements,
    body: Stmt,
) -> Result<Stmt, Refusal>
    requires { elements.local + 2 < 2 ^ 32 }
    ensures ok { IfOk result (λ code. the_for_each_judged (program_of walk.entry)
        (known_of walk.entry) (returning_of walk.entry) (scope_seen scope.now) label
        elements.entry.word (view elements.entry.written.now) (seen elements.entry.array)
        elements.entry.local (shown elements.entry.ty.now) elements.entry.name (stmt_view body)
        ≡ gives (stmt_view code)) }
    ensures err { IfErr result (IsFault (the_for_each_judged (program_of walk.entry)
        (known_of walk.entry) (returning_of walk.entry) (scope_seen scope.now) label
        elements.entry.word (view elements.entry.written.now) (seen elements.entry.array)
        elements.entry.local (shown elements.entry.ty.now) elements.entry.name
        (stmt_view body))) }
{
    new_name(scope, elements.name)?;
    let of = element_of(alloc(walk), elements.written, &elements.array)?;
    let node = element_as(walk, &elements, of)?;
    let code = for_each_code(walk, label, elements, node, body)?;
    Ok(code)
}
