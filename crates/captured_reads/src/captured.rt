// The classes that stand in a body, and their reads of the body's locals.

ghost use Rattle.std.specs.Prelude.{◌≡◌, ◌++◌, IfOk, OnOk, Some, flat_map, length, map, slice_get};
ghost use Rattle.je_core.specs.View.{class_view, field_view, initializer_view, method_view, program_view, stmt_view};
ghost use Rattle.je_classes.specs.Hierarchy.{class_at};
ghost use Rattle.captured_reads.specs.Standing as the;
ghost use Rattle.captured_reads.specs.View.{met_view, placed_view, standing_view};
ghost use Rattle.captured_reads.specs.NestingView.{program_of};

use crate::bodies::{met_in, met_in_class};
use crate::nesting::Nesting;
use crate::reads::{CapturedRead, Standing};
use crate::scopes::{LocalName, local_named, outer_count, unshadowed};
use crate::walks::{Met, Placed};
use je_core::{Class, ClassId, Local, Memory, Span, Stmt};
use std::alloc::Global;

// Whether a field of a class is the hidden one of a local that the class captures.
fn is_captured(class: &Class, field: u32) -> bool
    ensures { result ≡ the.is_captured (class_view class.now) field }
{
    let first = outer_count(class.enclosing);
    let field = field as usize;
    field >= first && field < first + class.captured as usize
}

// The local that a field of a class stands for, among those of these names.
fn local_of_field(names: &[LocalName], class: &Class, field: u32) -> Option<u32>
    ensures { result ≡ the.local_of_field names.now (class_view class.now) field }
{
    if !is_captured(class, field) {
        return None;
    }
    local_named(class.fields.get(field as usize)?.name, names)
}

fn add_read(
    names: &[LocalName],
    class: &Class,
    field: u32,
    span: Span,
    reads: &mut Vec<CapturedRead>,
) -> Result<(), Memory>
    ensures { OnOk result (reads.new.items ≡ reads.old.items
        ++ the.read_at span (the.local_of_field names.now (class_view class.now) field)) }
{
    if let Some(local) = local_of_field(names, class, field) {
        reads.push(CapturedRead { local, span })?;
    }
    Ok(())
}

// Adds the reads of locals with these names in a class, and in those inside it, along so many classes.
#[cycle(reads)]
#[tactic(auto, using(crate::proofs::Deeper::deeper))]
fn add_reads(
    alloc: Global,
    nesting: &Nesting,
    depth: usize,
    names: &[LocalName],
    class: ClassId,
    reads: &mut Vec<CapturedRead>,
) -> Result<(), Memory>
    ensures { OnOk result (reads.new.items ≡ reads.old.items
        ++ the.reads_within (program_of nesting.now) depth names.now class) }
{
    if depth == 0 || names.is_empty() {
        return Ok(());
    }
    match nesting.program().class(class) {
        None => Ok(()),
        Some(found) => add_class(alloc, nesting, depth - 1, names, class, found, reads),
    }
}

#[cycle(reads)]
fn add_class(
    alloc: Global,
    nesting: &Nesting,
    depth: usize,
    names: &[LocalName],
    id: ClassId,
    class: &Class,
    reads: &mut Vec<CapturedRead>,
) -> Result<(), Memory>
    ensures { OnOk result (reads.new.items ≡ reads.old.items
        ++ the.reads_in (program_of nesting.now) (the.reads_within (program_of nesting.now) depth)
        names.now id (Some (class_view class.now))) }
{
    let met = met_in_class(alloc, nesting, id, class)?;
    add_met(alloc, nesting, depth, names, id, class, &met, reads)?;
    let members = nesting.member_classes(alloc, id)?;
    add_members(alloc, nesting, depth, names, &members, reads)
}

#[cycle(reads)]
fn add_members(
    alloc: Global,
    nesting: &Nesting,
    depth: usize,
    names: &[LocalName],
    members: &[ClassId],
    reads: &mut Vec<CapturedRead>,
) -> Result<(), Memory>
    ensures { OnOk result (reads.new.items ≡ reads.old.items
        ++ flat_map (the.reads_within (program_of nesting.now) depth names.now) members.now) }
{
    for member in members {
        add_reads(alloc, nesting, depth, names, *member, reads)?;
    }
    Ok(())
}

#[cycle(reads)]
fn add_met(
    alloc: Global,
    nesting: &Nesting,
    depth: usize,
    names: &[LocalName],
    id: ClassId,
    class: &Class,
    met: &[Met],
    reads: &mut Vec<CapturedRead>,
) -> Result<(), Memory>
    ensures { OnOk result (reads.new.items ≡ reads.old.items
        ++ flat_map (the.reads_at (the.reads_within (program_of nesting.now) depth) names.now
        id (class_view class.now)) (map met_view met.now)) }
{
    for one in met {
        add_one(alloc, nesting, depth, names, id, class, one, reads)?;
    }
    Ok(())
}

#[cycle(reads)]
fn add_one(
    alloc: Global,
    nesting: &Nesting,
    depth: usize,
    names: &[LocalName],
    id: ClassId,
    class: &Class,
    met: &Met,
    reads: &mut Vec<CapturedRead>,
) -> Result<(), Memory>
    ensures { OnOk result (reads.new.items ≡ reads.old.items
        ++ the.reads_at (the.reads_within (program_of nesting.now) depth) names.now
        id (class_view class.now) (met_view met.now)) }
{
    match met {
        Met::Field {
            class: of,
            field,
            span,
        } if *of == id => add_read(names, class, *field, *span, reads),
        Met::Field { .. } => Ok(()),
        Met::Class { placed } => {
            let names = unshadowed(alloc, &placed.names, names)?;
            add_reads(alloc, nesting, depth, &names, placed.class, reads)
        }
    }
}

#[tactic(auto, unfolding(crate::specs::Standing::reads_of, je_core::specs::View::program_view))]
fn reads_of(
    alloc: Global,
    nesting: &Nesting,
    names: &[LocalName],
    class: ClassId,
) -> Result<Vec<CapturedRead>, Memory>
    ensures { IfOk result (λ v. v.items ≡
        the.reads_of (program_of nesting.now) names.now class) }
{
    let mut reads = Vec::new(alloc);
    let depth = nesting.program().classes.len();
    add_reads(alloc, nesting, depth, names, class, &mut reads)?;
    Ok(reads)
}

fn standing_of(alloc: Global, nesting: &Nesting, placed: &Placed) -> Result<Standing, Memory>
    ensures { IfOk result (λ s. standing_view s ≡
        the.standing_of (program_of nesting.now) (placed_view placed.now)) }
{
    Ok(Standing {
        class: placed.class,
        span: placed.span,
        home: placed.home,
        reads: reads_of(alloc, nesting, &placed.names, placed.class)?,
    })
}

// Whether a class captures a local.
fn captures(nesting: &Nesting, class: ClassId) -> bool
    ensures { result ≡ the.captures_in (class_at (program_of nesting.now) class) }
{
    match nesting.program().class(class) {
        None => false,
        Some(found) => found.captured != 0,
    }
}

// Adds a class that stands in a body, if it captures a local.
fn add_standing(
    alloc: Global,
    nesting: &Nesting,
    met: &Met,
    all: &mut Vec<Standing>,
) -> Result<(), Memory>
    ensures { OnOk result (map standing_view all.new.items ≡ map standing_view all.old.items
        ++ the.standing_at (program_of nesting.now) (met_view met.now)) }
{
    match met {
        Met::Class { placed } if captures(nesting, placed.class) => {
            all.push(standing_of(alloc, nesting, placed)?)?;
            Ok(())
        }
        _ => Ok(()),
    }
}

/// The classes that stand directly in a body of a class with these locals, the first of which are so many parameters, and capture
/// locals, with the reads of the body's locals in each. It walks once over the body, and over each such class.
#[tactic(auto, unfolding(crate::specs::Standing::standing_in))]
pub fn standing(
    alloc: Global,
    nesting: &Nesting,
    class: ClassId,
    locals: &[Local],
    params: usize,
    body: &Stmt,
) -> Result<Vec<Standing>, Memory>
    ensures { IfOk result (λ v. map standing_view v.items ≡
        the.standing_in (program_of nesting.now) class locals.now params (stmt_view body.now)) }
{
    let mut all = Vec::new(alloc);
    for met in &met_in(alloc, nesting, class, locals, params, body)? {
        add_standing(alloc, nesting, met, &mut all)?;
    }
    Ok(all)
}
