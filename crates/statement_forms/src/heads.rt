// What a `for` over an array brings into scope (JLS 14.14.2).

ghost use Rattle.std.specs.Prelude.{◌≡◌, ◌+◌, ◌<◌, ◌^◌, OnOk};
ghost use Rattle.je_ast.specs.Spans.{span_of};
ghost use Rattle.je_ast.specs.View.{view};
ghost use Rattle.name_types.specs.View.{shown};
ghost use Rattle.source_subtypes.specs.View.{heads_of};
ghost use Rattle.body_typing.specs.Bodies.{local_of as the_local_of, with_local, with_number};
ghost use Rattle.body_typing.specs.Statements.{with_hidden};
ghost use Rattle.typed_nodes.specs.Seen.{seen};
ghost use Rattle.body_walks.specs.Scopes.{scope_seen};
ghost use Rattle.statement_forms.specs.Seen.{known_of, program_of, progress_seen, returning_of};

use crate::locals::local_of;
use crate::loops::add_hidden;
use crate::progress::{Progress, add_number};
use crate::walk::{Walk, alloc};
use body_walks::Scope;
use je_ast::{Expr, Identifier, TyName};
use je_base::{Memory, Span};
use name_types::SrcTy;
use tree_spans::span;
use typed_nodes::TypedExpr;

/// The parts of a `for` over an array before its body.
#[derive(Clone, Copy)]
pub struct EachHead<'a> {
    pub word: Span,
    pub is_final: bool,
    pub ty: &'a TyName,
    pub name: Identifier,
    pub array: &'a Expr,
}

/// Brings the variable of a `for` over an array into scope, behind the locals of the array and of its index.
pub fn add_element(
    walk: Walk,
    scope: &mut Scope,
    progress: &mut Progress,
    head: EachHead,
    array: &TypedExpr,
    local: u32,
    ty: &SrcTy,
) -> Result<(), Memory>
    requires { local + 2 < 2 ^ 32 }
    ensures scope { OnOk result (scope_seen scope.new ≡ with_local head.entry.is_final
        (the_local_of head.entry.name.name (shown ty.now) head.entry.is_final (local + 2) None)
        (scope_seen scope.old)) }
    ensures progress { OnOk result (progress_seen progress.new ≡ with_number
        (heads_of walk.entry.bodies.now.calls.program.heads.now) head.entry.name.name (shown ty.now)
        head.entry.is_final head.entry.name.span (with_hidden (program_of walk.entry)
        (known_of walk.entry) (returning_of walk.entry) (span_of (view head.entry.array.now))
        (seen array.now) (progress_seen progress.old))) }
{
    let name = head.name;
    let bodies = walk.bodies;
    let heads = bodies.calls.program.heads;
    add_hidden(walk, progress, span(head.array), array)?;
    add_number(heads, progress, name.name, ty, head.is_final, name.span)?;
    let variable = local_of(alloc(walk), name.name, ty, head.is_final, local + 2, None)?;
    scope.add_local(head.is_final, variable)?;
    Ok(())
}
