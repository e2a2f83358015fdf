// The method that an object of a class has for a method (JLS 8.4.8, 15.12.4.4).

ghost use Rattle.std.specs.Prelude.{◌≡◌, Some, is_some, map, option_map};
ghost use Rattle.je_core.specs.View.{method_view, class_view, program_view};
ghost use Rattle.je_classes.specs.Hierarchy.{class_at};
ghost use Rattle.je_classes.specs.Members.{method_of};
ghost use Rattle.je_classes.specs.Dispatch.{same_signature as the_same_signature, is_own as the_is_own, own_from, next_above as the_next_above, implemented as the_implemented, bridged as the_bridged, bridged_in as the_bridged_in, implemented_or_private as the_implemented_or_private, dispatched as the_dispatched, unless_abstract as the_unless_abstract};
ghost use Rattle.class_members.specs.Places.{member_of};
ghost use Rattle.class_members.specs.way.Own.{own_of};

use crate::members::{is_private, method_at, same_class, same_name, same_types};
use je_classes::{class_count, object_class};
use je_core::{Bridge, Class, ClassId, Method, Program, Sort};

// How a class itself has a method for another one.
enum Own {
    Absent,
    // It is abstract again.
    Abstract,
    At(usize),
}

/// Whether two methods have one name and the same parameter types.
pub fn same_signature(a: &Method, b: &Method) -> bool
    ensures { result ≡ the_same_signature (method_view a.now) (method_view b.now) }
{
    same_name(a.name, b.name) && same_types(&a.params, &b.params)
}

// Whether it can override one of its signature.
fn is_own(method: &Method) -> bool
    ensures { result ≡ the_is_own (method_view method.now) }
{
    !(method.flags.is_static || is_private(method))
}

// A method at its place.
fn own_at(method: &Method, at: usize) -> Own
    ensures { result ≡ own_of (Some (at, method_view method.now)) }
{
    if method.flags.is_abstract {
        Own::Abstract
    } else {
        Own::At(at)
    }
}

// How some methods have one that overrides another.
fn own_method(methods: &[Method], method: &Method) -> Own
    ensures { result ≡ own_of (own_from (method_view method.now) 0 (map method_view methods.now)) }
{
    for (at, other) in methods.iter().enumerate() {
        if is_own(other) && same_signature(other, method) {
            return own_at(other, at);
        }
    }
    Own::Absent
}

// The class above one, Object above an interface.
fn next_above(class: &Class) -> Option<ClassId>
    ensures { result ≡ the_next_above (class_view class.now) }
{
    match class.kind.sort {
        Sort::Interface => Some(object_class()),
        _ => class.superclass,
    }
}

/// The method that implements one in a class, by name and parameter types: the class's own one, else that of the nearest
/// class above it. None where there is none, and where it is abstract again.
#[tactic(auto, using(crate::proofs::Upwards::upwards))]
pub fn implemented(program: &Program, class: ClassId, method: &Method) -> Option<(ClassId, usize)>
    ensures { option_map member_of result ≡
        the_implemented (program_view program.now) class (method_view method.now) }
{
    let mut above = Some(class);
    let mut left = class_count(program);
    while left > 0 {
        let Some(at) = above else {
            return None;
        };
        let Some(class) = program.class(at) else {
            return None;
        };
        match own_method(&class.methods, method) {
            Own::At(place) => return Some((at, place)),
            Own::Abstract => return None,
            Own::Absent => {}
        }
        above = next_above(class);
        left -= 1;
    }
    None
}

// The method that some bridges name for one.
fn bridged_in(bridges: &[Bridge], class: ClassId, at: usize) -> Option<(ClassId, usize)>
    ensures { option_map member_of result ≡
        the_bridged_in bridges.now (record { class = class; at = at }) }
{
    for bridge in bridges {
        if same_class(bridge.method.0, class) && bridge.method.1 as usize == at {
            return Some((bridge.by.0, bridge.by.1 as usize));
        }
    }
    None
}

// The method that a class's bridges name for one.
fn bridged(program: &Program, own: ClassId, class: ClassId, at: usize) -> Option<(ClassId, usize)>
    ensures { option_map member_of result ≡
        the_bridged (class_at (program_view program.now) own) (record { class = class; at = at }) }
{
    match program.class(own) {
        None => None,
        Some(own) => bridged_in(&own.bridges, class, at),
    }
}

/// Whether a bridge of a class runs another method for the one at a place of a class.
pub fn is_bridged(program: &Program, own: ClassId, class: ClassId, at: usize) -> bool
    ensures { result ≡ is_some
        (the_bridged (class_at (program_view program.now) own) (record { class = class; at = at })) }
{
    bridged(program, own, class, at).is_some()
}

// A member, unless its method is abstract.
fn unless_abstract(method: &Method, class: ClassId, at: usize) -> Option<(ClassId, usize)>
    ensures { option_map member_of result ≡
        the_unless_abstract (method_view method.now) (record { class = class; at = at }) }
{
    if method.flags.is_abstract {
        None
    } else {
        Some((class, at))
    }
}

// The method that implements one in a class; a private one is no object's but its class's.
fn implemented_or_private(
    program: &Program,
    own: ClassId,
    class: ClassId,
    at: usize,
) -> Option<(ClassId, usize)>
    ensures { option_map member_of result ≡
        the_implemented_or_private (program_view program.now) own
        (record { class = class; at = at })
        (method_of (program_view program.now) (record { class = class; at = at })) }
{
    match method_at(program, class, at) {
        None => None,
        Some(method) => {
            if is_private(method) {
                unless_abstract(method, class, at)
            } else {
                implemented(program, own, method)
            }
        }
    }
}

/// The method that an object of the class `own` has for the method of `class` at a place: the one that a bridge of its class
/// names, else the one that implements it there. None exactly where it has none.
#[tactic(auto, unfolding(je_classes::specs::Dispatch::dispatched))]
pub fn dispatched(
    program: &Program,
    own: ClassId,
    class: ClassId,
    at: usize,
) -> Option<(ClassId, usize)>
    ensures { option_map member_of result ≡
        the_dispatched (program_view program.now) own (record { class = class; at = at }) }
{
    match bridged(program, own, class, at) {
        Some(by) => Some(by),
        None => implemented_or_private(program, own, class, at),
    }
}
