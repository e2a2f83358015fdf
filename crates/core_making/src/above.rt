// What stands above a class.

ghost use Rattle.std.specs.Prelude.{◌≡◌, ◌++◌, IfOk, OnOk, map, slice_get};
ghost use Rattle.class_typing.specs.Captures.{listed};
ghost use Rattle.class_typing.specs.Classes.{classes_of_types as the_classes_of_types, heads_from, interfaces_if, superclass_if};
ghost use Rattle.header_typing.specs.Supers.{class_in};
ghost use Rattle.je_ast.specs.Types.{type_view};
ghost use Rattle.je_scopes.specs.Headers.{heads_in, site_at};
ghost use Rattle.name_types.specs.View.{shown};
ghost use Rattle.source_types.specs.Erasure.{class_numbered};
ghost use Rattle.body_places.specs.View.{program_seen};
ghost use Rattle.core_making.specs.way.Made.{classes_above, head, heads_of};

use body_places::Program;
use header_steps::class_of;
use je_ast::TyName;
use je_base::Memory;
use je_core::{ClassId, Head};
use name_types::{SrcTy, name_span};
use std::alloc::Global;

// The class of a type more, if it is of one.
fn push_class(ty: &SrcTy, classes: &mut Vec<ClassId>) -> Result<(), Memory>
    ensures { OnOk result (classes.new.items ≡
        classes.old.items ++ map class_numbered (listed (class_in (shown ty.now)))) }
{
    if let Some(class) = class_of(ty) {
        classes.push(class)?;
    }
    Ok(())
}

/// The classes of types, type variables aside.
pub fn classes_of_types(alloc: Global, types: &[SrcTy]) -> Result<Vec<ClassId>, Memory>
    ensures { IfOk result (λ cs. cs.items ≡ the_classes_of_types (map shown types.now)) }
{
    let mut classes = Vec::new(alloc);
    for ty in types {
        push_class(ty, &mut classes)?;
    }
    Ok(classes)
}

/// The superclass among the classes directly above one; an interface has none.
pub fn superclass_of(is_interface: bool, above: &[ClassId]) -> Option<ClassId>
    ensures { result ≡ superclass_if is_interface above.now }
{
    if is_interface {
        return None;
    }
    above.first().copied()
}

/// The interfaces among them.
pub fn interfaces_of(
    alloc: Global,
    is_interface: bool,
    above: &[ClassId],
) -> Result<Vec<ClassId>, Memory>
    ensures { IfOk result (λ cs. cs.items ≡ interfaces_if is_interface above.now) }
{
    let mut interfaces = Vec::new(alloc);
    if is_interface {
        interfaces.extend_from_slice(above)?;
        return Ok(interfaces);
    }
    if let Some((_, further)) = above.split_first() {
        interfaces.extend_from_slice(further)?;
    }
    Ok(interfaces)
}

// The classes that a class names as above it, as it declares them.
fn declared_above(program: &Program, class: ClassId) -> Result<Vec<ClassId>, Memory>
    ensures { IfOk result (λ cs. cs.items ≡ classes_above (program_seen program.now)
        (slice_get (program_seen program.now).classes class.0)) }
{
    match program.classes.class(class) {
        Some(declared) => {
            let classes = classes_of_types(program.source.alloc, &declared.heads)?;
            Ok(classes)
        }
        None => Ok(Vec::new(program.source.alloc)),
    }
}

fn named_head(class: ClassId, ty: &TyName) -> Head
    ensures { result ≡ head class (type_view ty.now) }
{
    Head {
        class,
        span: name_span(ty),
    }
}

// Classes with the names by which a class names them.
fn named(program: &Program, class: ClassId, classes: &[ClassId]) -> Result<Vec<Head>, Memory>
    ensures { IfOk result (λ heads. heads.items ≡ heads_from
        (heads_in (site_at (program_seen program.now).source.sites class.0).written)
        classes.now) }
{
    let mut heads = Vec::new(program.source.alloc);
    for (at, above) in classes.iter().enumerate() {
        let Some(ty) = program.source.sites.head(class, at) else {
            return Ok(heads);
        };
        heads.push(named_head(*above, ty))?;
    }
    Ok(heads)
}

/// The classes that a class names as above it, with their names.
pub fn named_above(program: &Program, class: ClassId) -> Result<Vec<Head>, Memory>
    ensures { IfOk result (λ heads. heads.items ≡ heads_of (program_seen program.now) class.0) }
{
    let classes = declared_above(program, class)?;
    let heads = named(program, class, &classes)?;
    Ok(heads)
}
