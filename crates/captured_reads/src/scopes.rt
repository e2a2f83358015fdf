// Which local a name means.

ghost use Rattle.std.specs.Prelude.{◌≡◌, IfOk, Some, drop, map, nat_lt, slice_get, take, if◌then◌else◌};
ghost use Rattle.je_core.specs.View.{class_view, field_view};
ghost use Rattle.je_fitting.specs.Expressions.{outer_count as the_outer_count};
ghost use Rattle.captured_reads.specs.Scopes.{first_locals as the_first_locals, has_name_before as the_has_name_before, local_in_scope as the_local_in_scope, local_named as the_local_named, most_params, names_at as the_names_at, names_of as the_names_of, unshadowed as the_unshadowed};

use je_core::{Class, ClassId, Field, Local, Memory, NameId, Span};
use std::alloc::Global;

/// A local by its name, and its number in its body.
#[derive(Clone, Copy, PartialEq, Eq)]
pub struct LocalName {
    pub name: NameId,
    pub local: u32,
}

fn counted(params: usize) -> u32
    ensures { result ≡ (if nat_lt params most_params then params else most_params) }
{
    if params < u32::MAX as usize {
        params as u32
    } else {
        u32::MAX
    }
}

// The parameters, which are a body's first locals.
#[tactic(auto, using(crate::proofs::Numbers::one_more))]
pub(crate) fn first_locals(alloc: Global, params: usize) -> Result<Vec<u32>, Memory>
    ensures { IfOk result (λ v. v.items ≡ the_first_locals params) }
{
    let mut numbers = Vec::new(alloc);
    for number in 0..counted(params) {
        numbers.push(number)?;
    }
    Ok(numbers)
}

fn has_name_before(locals: &[Local], number: u32, at: Span, name: NameId) -> bool
    ensures { result ≡ the_has_name_before at name (slice_get locals.now number) }
{
    match locals.get(number as usize) {
        None => false,
        Some(local) => local.name == name && local.span.start < at.start,
    }
}

// The local of a name that is in scope at a place, where blocks round it declare these locals.
fn local_in_scope(locals: &[Local], scope: &[u32], at: Span, name: NameId) -> Option<LocalName>
    ensures { result ≡ the_local_in_scope locals.now scope.now at name }
{
    for number in scope {
        if has_name_before(locals, *number, at, name) {
            return Some(LocalName {
                name,
                local: *number,
            });
        }
    }
    None
}

// How many hidden fields of a class stand before those of captured locals.
pub(crate) fn outer_count(enclosing: Option<ClassId>) -> usize
    ensures { result ≡ the_outer_count enclosing }
{
    match enclosing {
        None => 0,
        Some(_) => 1,
    }
}

// The fields past so many.
#[tactic(auto, using(std::proofs::lemmas::List::drop_all))]
fn past(fields: &[Field], count: usize) -> &[Field]
    ensures { result.now ≡ drop count fields.now }
{
    if count >= fields.len() {
        return &[];
    }
    &fields[count..]
}

// So many fields, or all where there are fewer.
#[tactic(auto, using(std::proofs::lemmas::List::take_all))]
fn first(fields: &[Field], count: usize) -> &[Field]
    ensures { result.now ≡ take count fields.now }
{
    if count >= fields.len() {
        return fields;
    }
    &fields[..count]
}

fn names_of(
    alloc: Global,
    locals: &[Local],
    scope: &[u32],
    at: Span,
    fields: &[Field],
) -> Result<Vec<LocalName>, Memory>
    ensures { IfOk result (λ v. v.items ≡
        the_names_of locals.now scope.now at (map field_view fields.now)) }
{
    let mut names = Vec::new(alloc);
    for field in fields {
        if let Some(name) = local_in_scope(locals, scope, at, field.name) {
            names.push(name)?;
        }
    }
    Ok(names)
}

// The locals in scope at a place that a class captures, by name.
pub(crate) fn names_at(
    alloc: Global,
    locals: &[Local],
    scope: &[u32],
    at: Span,
    class: &Class,
) -> Result<Vec<LocalName>, Memory>
    ensures { IfOk result (λ v. v.items ≡
        the_names_at locals.now scope.now at (Some (class_view class.now))) }
{
    let behind = past(&class.fields, outer_count(class.enclosing));
    let captured = first(behind, class.captured as usize);
    names_of(alloc, locals, scope, at, captured)
}

// The local of a name.
pub(crate) fn local_named(name: NameId, names: &[LocalName]) -> Option<u32>
    ensures { result ≡ the_local_named name names.now }
{
    for known in names {
        if known.name == name {
            return Some(known.local);
        }
    }
    None
}

// The names that aren't shadowed by others.
pub(crate) fn unshadowed(
    alloc: Global,
    shadows: &[LocalName],
    names: &[LocalName],
) -> Result<Vec<LocalName>, Memory>
    ensures { IfOk result (λ v. v.items ≡ the_unshadowed shadows.now names.now) }
{
    Ok(
        names
            .iter()
            .filter(|n| local_named(n.name, shadows).is_none())
            .copied()
            .collect(alloc)?,
    )
}
