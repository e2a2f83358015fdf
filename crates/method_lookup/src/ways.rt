// Whether a class has a method of another one, by the ways upwards along which it would inherit it (JLS 8.4.8, 9.2).

ghost use Rattle.std.specs.Prelude.{◌≡◌, ◌&&◌, IfOk, OnOk, List, length, map, filter};
ghost use Rattle.je_core.specs.declared.types.ClassId.{ClassId as TheClassId};
ghost use Rattle.je_core.specs.View.{method_view, program_view};
ghost use Rattle.je_classes.specs.Hierarchy.{supers_of, with_superclass};
ghost use Rattle.je_classes.specs.Members.{methods_of};
ghost use Rattle.je_classes.specs.Methods.{is_interface as the_is_interface, is_top_interface as the_is_top_interface};
ghost use Rattle.je_classes.specs.way.Reaching.{has, with_all};
ghost use Rattle.class_lookup.specs.way.Walk.{reached_by};
ghost use Rattle.method_lookup.specs.way.Ways.{any_named as the_any_named, hands_on as the_hands_on, object_if, next_method, can_inherit_method, comes_to, has_way as the_has_way};

use crate::passing::params;
use class_members::{is_private, method_at, names_constructors, same_class, same_name, same_types};
use je_classes::{class_count, class_in, object_class, reach_one};
use je_core::{ClassId, Memory, Method, NameId, Program, Sort, Ty};
use std::alloc::Global;

// What is looked for on the ways: a method's name and parameters, and whether it is Object's.
#[derive(Drop)]
struct Sought<'a> {
    name: NameId,
    params: &'a [Ty],
    is_of_object: bool,
}

// Whether one of some methods has the name and the parameters.
fn any_named(methods: &[Method], name: NameId, params: &[Ty]) -> bool
    ensures { result ≡ the_any_named name params.now (map method_view methods.now) }
{
    for method in methods {
        if same_name(method.name, name) && same_types(&method.params, params) {
            return true;
        }
    }
    false
}

fn declares(program: &Program, class: ClassId, name: NameId, params: &[Ty]) -> bool
    ensures { result ≡ the_any_named name params.now (methods_of (program_view program.now) class) }
{
    match program.class(class) {
        None => false,
        Some(class) => any_named(&class.methods, name, params),
    }
}

fn is_interface(program: &Program, class: ClassId) -> bool
    ensures { result ≡ the_is_interface (program_view program.now) class }
{
    match program.class(class) {
        None => false,
        Some(class) => match class.kind.sort {
            Sort::Interface => true,
            _ => false,
        },
    }
}

// Whether a class is an interface above which no other one stands.
fn is_top_interface(program: &Program, class: ClassId) -> bool
    ensures { result ≡ the_is_top_interface (program_view program.now) class }
{
    match program.class(class) {
        None => false,
        Some(class) => match class.kind.sort {
            Sort::Interface => class.interfaces.is_empty(),
            _ => false,
        },
    }
}

// Whether a class has of a super's methods those that are Object's, or are not.
fn hands_on(program: &Program, is_of_object: bool, class: ClassId, above: ClassId) -> bool
    ensures { result ≡ the_hands_on (program_view program.now) is_of_object class above }
{
    is_interface(program, class) || !(is_interface(program, above) && is_of_object)
}

// A superclass is reached, if there is one that hands on.
fn reach_superclass(
    reached: &mut Vec<ClassId>,
    program: &Program,
    is_of_object: bool,
    class: ClassId,
    superclass: Option<ClassId>,
) -> Result<(), Memory>
    ensures { OnOk result ((interfaces : List TheClassId) →
        with_all (length (program_view program.now).classes) reached.new.items
        (filter (the_hands_on (program_view program.now) is_of_object class) interfaces) ≡
        with_all (length (program_view program.now).classes) reached.old.items
        (filter (the_hands_on (program_view program.now) is_of_object class)
        (with_superclass superclass interfaces))) }
{
    match superclass {
        None => Ok(()),
        Some(superclass) => {
            if hands_on(program, is_of_object, class, superclass) {
                reach_one(reached, class_count(program), superclass)
            } else {
                Ok(())
            }
        }
    }
}

// Interfaces are reached that hand on.
fn reach_interfaces(
    reached: &mut Vec<ClassId>,
    program: &Program,
    is_of_object: bool,
    class: ClassId,
    interfaces: &[ClassId],
) -> Result<(), Memory>
    ensures { OnOk result (reached.new.items ≡
        with_all (length (program_view program.now).classes) reached.old.items
        (filter (the_hands_on (program_view program.now) is_of_object class) interfaces.now)) }
{
    let count = class_count(program);
    for interface in interfaces {
        if hands_on(program, is_of_object, class, *interface) {
            reach_one(reached, count, *interface)?;
        }
    }
    Ok(())
}

// The supers of a class are reached that hand on.
fn reach_handing_on(
    reached: &mut Vec<ClassId>,
    program: &Program,
    is_of_object: bool,
    class: ClassId,
) -> Result<(), Memory>
    ensures { OnOk result (reached.new.items ≡
        with_all (length (program_view program.now).classes) reached.old.items
        (filter (the_hands_on (program_view program.now) is_of_object class)
        (supers_of (program_view program.now) class))) }
{
    let Some(declaring) = program.class(class) else {
        return Ok(());
    };
    reach_superclass(reached, program, is_of_object, class, declaring.superclass)?;
    reach_interfaces(reached, program, is_of_object, class, &declaring.interfaces)
}

// Object is reached from a top interface.
fn reach_object(reached: &mut Vec<ClassId>, program: &Program, reaches: bool) -> Result<(), Memory>
    ensures { OnOk result (reached.new.items ≡
        with_all (length (program_view program.now).classes) reached.old.items
        (object_if reaches)) }
{
    if !reaches {
        return Ok(());
    }
    reach_one(reached, class_count(program), object_class())
}

// One step of the ways on from a class.
#[tactic(auto, using(crate::proofs::Lists::reaching_more))]
fn reach_on(
    reached: &mut Vec<ClassId>,
    program: &Program,
    sought: &Sought<'_>,
    class: ClassId,
) -> Result<(), Memory>
    ensures { OnOk result (reached.new.items ≡
        with_all (length (program_view program.now).classes) reached.old.items
        (next_method (program_view program.now) sought.now.name sought.now.params.now
        sought.now.is_of_object class)) }
{
    if declares(program, class, sought.name, sought.params) {
        return Ok(());
    }
    reach_handing_on(reached, program, sought.is_of_object, class)?;
    let reaches = is_top_interface(program, class) && sought.is_of_object;
    reach_object(reached, program, reaches)
}

// The classes to which the ways lead from one.
fn reached(
    alloc: Global,
    program: &Program,
    sought: &Sought<'_>,
    own: ClassId,
) -> Result<Vec<ClassId>, Memory>
    ensures { IfOk result (λ classes. classes.items ≡ reached_by
        (next_method (program_view program.now) sought.now.name sought.now.params.now
        sought.now.is_of_object)
        (length (program_view program.now).classes) own) }
{
    let count = class_count(program);
    let mut classes = Vec::new(alloc);
    reach_one(&mut classes, count, own)?;
    for at in 0..count {
        let Some(next) = class_in(&classes, at) else {
            return Ok(classes);
        };
        reach_on(&mut classes, program, sought, next)?;
    }
    Ok(classes)
}

// Whether a class is one of some.
fn is_among(classes: &[ClassId], class: ClassId) -> bool
    ensures { result ≡ has classes.now class }
{
    for other in classes {
        if same_class(class, *other) {
            return true;
        }
    }
    false
}

// Whether a method may be inherited: it is neither private nor a constructor.
fn can_inherit(program: &Program, name: NameId, class: ClassId, at: usize) -> bool
    ensures { result ≡ can_inherit_method (program_view program.now) name
        (record { class = class; at = at }) }
{
    if names_constructors(program, name) {
        return false;
    }
    match method_at(program, class, at) {
        None => false,
        Some(method) => !is_private(method),
    }
}

// Whether the ways upwards lead to a method's class.
fn leads_there(
    alloc: Global,
    program: &Program,
    own: ClassId,
    name: NameId,
    class: ClassId,
    at: usize,
) -> Result<bool, Memory>
    ensures { IfOk result (λ leads. leads ≡
        comes_to (program_view program.now) own name (record { class = class; at = at })) }
{
    let sought = Sought {
        name,
        params: params(program, class, at),
        is_of_object: same_class(class, object_class()),
    };
    let classes = reached(alloc, program, &sought, own)?;
    Ok(is_among(&classes, class))
}

/// Whether a class has the method of a name that another one, or itself, declares at a place.
pub fn has_way(
    alloc: Global,
    program: &Program,
    own: ClassId,
    name: NameId,
    class: ClassId,
    at: usize,
) -> Result<bool, Memory>
    ensures { IfOk result (λ has_it. has_it ≡
        the_has_way (program_view program.now) own name (record { class = class; at = at })) }
{
    if same_class(class, own) {
        return Ok(true);
    }
    if !can_inherit(program, name, class, at) {
        return Ok(false);
    }
    leads_there(alloc, program, own, name, class, at)
}
