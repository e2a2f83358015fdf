// What a walk over a body comes to: fields of `this`, and the classes that stand directly in the body.

ghost use Rattle.std.specs.Prelude.{◌≡◌, IfOk};
ghost use Rattle.je_core.specs.View.{program_view};
ghost use Rattle.captured_reads.specs.Walks as the;
ghost use Rattle.captured_reads.specs.View.{met_view, walk_view};

use crate::nesting::LocalClass;
use crate::scopes::{LocalName, names_at};
use je_core::{ClassId, Local, Memory, Program, Span};
use std::alloc::Global;

/// A class that stands in a body. Its home is the first token of the list of statements that a local class stands in.
#[derive(Drop)]
pub struct Placed {
    pub class: ClassId,
    pub span: Span,
    pub home: Option<Span>,
    /// The body's locals in scope where the class stands that it captures.
    pub names: Vec<LocalName>,
}

/// What a walk over a body comes to.
#[derive(Drop)]
pub enum Met {
    /// A field of `this`, and where it is named.
    Field {
        class: ClassId,
        field: u32,
        span: Span,
    },
    Class {
        placed: Placed,
    },
}

/// What a walk has come to, the local classes that it has still to come to, and the locals that the blocks round it declare.
#[derive(Drop)]
pub struct Walk<'a> {
    pub met: Vec<Met>,
    pub ahead: &'a [LocalClass],
    pub scope: Vec<u32>,
}

/// The program, and the locals of the body.
#[derive(Clone, Copy)]
pub struct Around<'a> {
    pub program: &'a Program,
    pub locals: &'a [Local],
}

pub(crate) fn coming_to(walk: Walk, met: Met) -> Result<Walk, Memory>
    ensures { IfOk result (λ w. walk_view w ≡ the.coming_to (met_view met) (walk_view walk.entry)) }
{
    let mut walk = walk;
    walk.met.push(met)?;
    Ok(walk)
}

pub(crate) fn opened<'a>(walk: Walk<'a>, numbers: &[u32]) -> Result<Walk<'a>, Memory>
    ensures { IfOk result (λ w. walk_view w ≡ the.opened numbers.now (walk_view walk.entry)) }
{
    let mut walk = walk;
    walk.scope.extend_from_slice(numbers)?;
    Ok(walk)
}

pub(crate) fn closed(walk: Walk, count: usize) -> Walk
    ensures { walk_view result ≡ the.closed count (walk_view walk.entry) }
{
    let mut walk = walk;
    walk.scope.truncate(count);
    walk
}

pub(crate) fn place_class(
    alloc: Global,
    around: &Around,
    home: Option<Span>,
    scope: &[u32],
    class: ClassId,
    span: Span,
) -> Result<Met, Memory>
    ensures { IfOk result (λ m. met_view m ≡ the.placed
        (program_view around.now.program.now) around.now.locals.now home scope.now class span) }
{
    let names = match around.program.class(class) {
        None => Vec::new(alloc),
        Some(found) => names_at(alloc, around.locals, scope, span, found)?,
    };
    Ok(Met::Class {
        placed: Placed {
            class,
            span,
            home,
            names,
        },
    })
}

// Past the local classes of a list of statements whose names stand before a place.
pub(crate) fn up_to<'a>(
    alloc: Global,
    around: &Around,
    home: Option<Span>,
    end: u32,
    walk: Walk<'a>,
) -> Result<Walk<'a>, Memory>
    ensures { IfOk result (λ w. walk_view w ≡ the.up_to
        (program_view around.now.program.now) around.now.locals.now home end
        (walk_view walk.entry)) }
{
    let mut walk = walk;
    while let Some((class, rest)) = walk.ahead.split_first() {
        if class.span.start >= end {
            return Ok(walk);
        }
        let met = place_class(alloc, around, home, &walk.scope, class.class, class.span)?;
        walk.met.push(met)?;
        walk.ahead = rest;
    }
    Ok(walk)
}
