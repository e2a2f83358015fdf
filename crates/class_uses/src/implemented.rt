// By which methods a class implements those of interfaces.

ghost use Rattle.std.specs.Prelude.{◌≡◌, IfOk, OnOk, map};
ghost use Rattle.je_core.specs.View.{class_view, method_view, program_view};
ghost use Rattle.je_classes.specs.Dispatch.{dispatched as the_dispatched};
ghost use Rattle.je_classes.specs.Members.{methods_of};
ghost use Rattle.class_lookup.specs.Above.{AreAbove};
ghost use Rattle.fit_members.specs.way.Each.{each_of, tested_from};
ghost use Rattle.je_types.specs.Views.{program_of};
ghost use Rattle.rule_breaks.specs.way.Found.{followed_by};
ghost use Rattle.taming_db.specs.View.{rows};
ghost use Rattle.class_uses.specs.Implemented.{implementing_breaks, implements_all as the_implements_all, implements_one, may_use_if};

use class_lookup::classes_above;
use fit_members::is_interface;
use je_core::{Class, ClassId, Memory, Method};
use je_types::Typed;
use node_rules::may_call;
use rule_breaks::{ConfinementRule, Found};
use std::alloc::Global;
use taming_db::Taming;

// Whether what a class has for a method may be used.
fn has_usable(typed: &Typed, taming: &Taming, id: ClassId, above: ClassId, at: usize) -> bool
    ensures { result ≡ may_use_if (rows taming.now)
        (the_dispatched (program_of typed.now) id (record { class = above; at = at })) }
{
    match typed.method_for(id, above, at) {
        None => true,
        Some((class, at)) => may_call(taming, class, at),
    }
}

// Whether what a class has for each of the methods of an interface may be used.
fn has_all_usable(
    typed: &Typed,
    taming: &Taming,
    id: ClassId,
    above: ClassId,
    methods: &[Method],
) -> bool
    ensures { result ≡ tested_from
        (λ n k. may_use_if (rows taming.now)
        (the_dispatched (program_of typed.now) id (record { class = above; at = n })))
        0 (map method_view methods.now) }
{
    for (at, _) in methods.iter().enumerate() {
        if !has_usable(typed, taming, id, above, at) {
            return false;
        }
    }
    true
}

// Whether what a class has for each method of a class above it may be used, unless that is no interface.
fn implements_methods_of(typed: &Typed, taming: &Taming, id: ClassId, above: ClassId) -> bool
    ensures { result ≡ tested_from
        (λ n k. implements_one (program_of typed.now) (rows taming.now) id above n)
        0 (methods_of (program_of typed.now) above) }
{
    match typed.program().class(above) {
        None => true,
        Some(class) => {
            if !is_interface(class) {
                return true;
            }
            has_all_usable(typed, taming, id, above, &class.methods)
        }
    }
}

fn implements_each(typed: &Typed, taming: &Taming, id: ClassId, above: &[ClassId]) -> bool
    ensures { result ≡ each_of (program_of typed.now)
        (λ d n k. implements_one (program_of typed.now) (rows taming.now) id d n) above.now }
{
    for class in above {
        if !implements_methods_of(typed, taming, id, *class) {
            return false;
        }
    }
    true
}

// The same of all that stands above the class.
fn implements_above(typed: &Typed, taming: &Taming, id: ClassId, above: &[ClassId]) -> bool
    requires { AreAbove (program_of typed.now) id above.now }
    ensures { result ≡ the_implements_all (program_of typed.now) (rows taming.now) id }
{
    implements_each(typed, taming, id, above)
}

fn implements_all(
    alloc: Global,
    typed: &Typed,
    taming: &Taming,
    id: ClassId,
) -> Result<bool, Memory>
    ensures { IfOk result (λ all. all ≡
        the_implements_all (program_of typed.now) (rows taming.now) id) }
{
    let above = classes_above(alloc, typed.program(), id)?;
    Ok(implements_above(typed, taming, id, &above))
}

/// Adds the break of a class that implements a method of an interface by a member of the library which isn't enabled, at its span.
pub fn judge_implementing(
    alloc: Global,
    typed: &Typed,
    taming: &Taming,
    id: ClassId,
    class: &Class,
    found: &mut Found,
) -> Result<(), Memory>
    ensures { OnOk result (found.new ≡
        followed_by found.old
        (implementing_breaks (program_of typed.now) (rows taming.now) id (class_view class.now))) }
{
    if is_interface(class) {
        return Ok(());
    }
    let all = implements_all(alloc, typed, taming, id)?;
    found.add_where(!all, ConfinementRule::NotEnabled, class.span)
}
