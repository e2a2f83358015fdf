// Which class of a program is below which.

ghost use Rattle.std.specs.Prelude.{◌≡◌, ◌<◌, ◌^◌, ◌∷◌, [], IfOk, OnOk, List, filter, length};
ghost use Rattle.je_core.specs.declared.types.ClassId.{ClassId as TheClassId};
ghost use Rattle.je_core.specs.View.{program_view};
ghost use Rattle.je_classes.specs.Hierarchy.{supers_of, with_superclass};
ghost use Rattle.je_classes.specs.way.Reaching.{with_all};
ghost use Rattle.class_lookup.specs.way.Walk.{reached_by};
ghost use Rattle.number_maps.specs.Maps.{family, IsMap, Keeps};
ghost use Rattle.class_tables.specs.way.Above.{Has, HasEach, is_beyond, next_beyond};

use crate::by_class::{known_above, note};
use crate::order::{first_super, in_order};
use je_classes::{class_count, class_in, reach_one};
use je_core::{ClassId, Memory, Program};
use number_maps::Maps;
use std::alloc::Global;

// How many bits a class's number has.
const BITS: u32 = 31;

/// Of each class of a program the classes at or above it.
#[derive(Drop)]
pub struct SubclassTable {
    maps: Maps,
    // Of each class the map whose keys are the numbers of the classes at or above it.
    above: Vec<usize>,
}

// A class is reached, unless it is a key of a map, or was reached.
fn reach_beyond(
    reached: &mut Vec<ClassId>,
    count: usize,
    maps: &Maps,
    base: usize,
    class: ClassId,
) -> Result<(), Memory>
    ensures { OnOk result (reached.new.items ≡ with_all count reached.old.items
        (filter (is_beyond (family maps.now) base) (class ∷ []))) }
{
    match maps.get(base, class.0) {
        Some(_) => Ok(()),
        None => reach_one(reached, count, class),
    }
}

// A superclass is reached, if there is one beyond.
fn reach_superclass(
    reached: &mut Vec<ClassId>,
    count: usize,
    maps: &Maps,
    base: usize,
    superclass: Option<ClassId>,
) -> Result<(), Memory>
    ensures { OnOk result ((interfaces : List TheClassId) →
        with_all count reached.new.items (filter (is_beyond (family maps.now) base) interfaces) ≡
        with_all count reached.old.items
        (filter (is_beyond (family maps.now) base) (with_superclass superclass interfaces))) }
{
    match superclass {
        None => Ok(()),
        Some(superclass) => reach_beyond(reached, count, maps, base, superclass),
    }
}

// Interfaces are reached that are beyond.
fn reach_interfaces(
    reached: &mut Vec<ClassId>,
    count: usize,
    maps: &Maps,
    base: usize,
    interfaces: &[ClassId],
) -> Result<(), Memory>
    ensures { OnOk result (reached.new.items ≡ with_all count reached.old.items
        (filter (is_beyond (family maps.now) base) interfaces.now)) }
{
    for interface in interfaces {
        reach_beyond(reached, count, maps, base, *interface)?;
    }
    Ok(())
}

// The supers of a class are reached that are beyond.
fn reach_on(
    reached: &mut Vec<ClassId>,
    program: &Program,
    maps: &Maps,
    base: usize,
    class: ClassId,
) -> Result<(), Memory>
    ensures { OnOk result (reached.new.items ≡
        with_all (length (program_view program.now).classes) reached.old.items
        (next_beyond (program_view program.now) (family maps.now) base class)) }
{
    let count = class_count(program);
    let Some(class) = program.class(class) else {
        return Ok(());
    };
    reach_superclass(reached, count, maps, base, class.superclass)?;
    reach_interfaces(reached, count, maps, base, &class.interfaces)
}

// A class, and those to which ways lead from it past no key of a map.
fn reached(
    alloc: Global,
    program: &Program,
    maps: &Maps,
    base: usize,
    own: ClassId,
) -> Result<Vec<ClassId>, Memory>
    ensures { IfOk result (λ classes. classes.items ≡ reached_by
        (next_beyond (program_view program.now) (family maps.now) base)
        (length (program_view program.now).classes) own) }
{
    let count = class_count(program);
    let mut classes = Vec::new(alloc);
    reach_one(&mut classes, count, own)?;
    for at in 0..count {
        let Some(next) = class_in(&classes, at) else {
            return Ok(classes);
        };
        reach_on(&mut classes, program, maps, base, next)?;
    }
    Ok(classes)
}

// A map with the numbers of some classes as further keys.
fn with_each(maps: &mut Maps, base: usize, classes: &[ClassId]) -> Result<usize, Memory>
    requires bits { (family maps.old).bits ≡ 31 }
    requires there { IsMap (family maps.old) base }
    requires few { (c : TheClassId) → Has classes.now c → c.0 < 2 ^ 31 }
    ensures keeps { Keeps (family maps.old) (family maps.new) }
    ensures made { IfOk result (HasEach (family maps.old) (family maps.new) base classes.now) }
{
    let mut map = base;
    for class in classes {
        map = maps.with(map, class.0, 0)?;
    }
    Ok(map)
}

impl SubclassTable {
    ghost use Rattle.std.specs.Prelude.{◌≡◌, ◌<◌, ◌^◌, IfOk, OnOk, length};
    ghost use Rattle.je_core.specs.declared.types.ClassId.{ClassId as TheClassId};
    ghost use Rattle.je_core.specs.View.{program_view};
    ghost use Rattle.je_classes.specs.Hierarchy.{is_below, IsAcyclic};
    ghost use Rattle.je_classes.specs.Members.{In};
    ghost use Rattle.class_tables.specs.Few.{AreFew};
    ghost use Rattle.class_tables.specs.SubclassTables.{AreSupersThere, IsSubclassTableOf};
    ghost use Rattle.class_tables.specs.way.Above.{AreKnown, IsKnown};

    // The classes at or above one, from what is known of the first of those above it.
    fn add(&mut self, alloc: Global, program: &Program, class: ClassId) -> Result<(), Memory>
        requires few { length (program_view program.now).classes < 2 ^ 31 }
        requires known { AreKnown (program_view program.now) self.old }
        ensures known { OnOk result (AreKnown (program_view program.now) self.new) }
        ensures own { OnOk result (IsKnown (program_view program.now) self.new class) }
        ensures others { OnOk result ((c : TheClassId) →
            IsKnown (program_view program.now) self.old c →
            IsKnown (program_view program.now) self.new c) }
    {
        let base = known_above(&self.above, first_super(program, class));
        let beyond = reached(alloc, program, &self.maps, base, class)?;
        let map = with_each(&mut self.maps, base, &beyond)?;
        note(&mut self.above, class, map);
        Ok(())
    }

    // The same of some classes, one after the other.
    fn add_each(
        &mut self,
        alloc: Global,
        program: &Program,
        classes: &[ClassId],
    ) -> Result<(), Memory>
        requires few { length (program_view program.now).classes < 2 ^ 31 }
        requires known { AreKnown (program_view program.now) self.old }
        ensures { OnOk result ((c : TheClassId) → In classes.now c →
            IsKnown (program_view program.now) self.new c) }
    {
        for class in classes {
            self.add(alloc, program, *class)?;
        }
        Ok(())
    }

    // A table of which nothing is known yet.
    fn begun(alloc: Global, program: &Program) -> Result<SubclassTable, Memory>
        ensures { IfOk result (AreKnown (program_view program.now)) }
    {
        let maps = Maps::new(alloc, BITS)?;
        let above = vec![in alloc; 0; class_count(program)]?;
        Ok(SubclassTable { maps, above })
    }

    /// The table of a program in which no class is above itself, each class named as a super is there, and that has fewer than
    /// 2^31 classes, and fields in each class.
    #[tactic(auto, using(crate::proofs::ClassesAbove::whole))]
    pub fn of(alloc: Global, program: &Program) -> Result<SubclassTable, Memory>
        requires acyclic { IsAcyclic (program_view program.now) }
        requires few { AreFew (program_view program.now) }
        requires there { AreSupersThere (program_view program.now) }
        ensures { IfOk result (IsSubclassTableOf (program_view program.now)) }
    {
        let order = in_order(alloc, program)?;
        let mut table = SubclassTable::begun(alloc, program)?;
        table.add_each(alloc, program, &order)?;
        Ok(table)
    }

    /// Whether a class is another one, or below it (JLS 8.1.4, 8.1.5, 9.1.3).
    pub fn is_below(&self, program: &Program, class: ClassId, above: ClassId) -> bool
        requires { IsSubclassTableOf (program_view program.now) self.now }
        ensures { result ≡ is_below (program_view program.now) class above }
    {
        if class.0 == above.0 {
            return true;
        }
        let count = class_count(program);
        if class.0 as usize >= count {
            return false;
        }
        if above.0 as usize >= count {
            return false;
        }
        let map = known_above(&self.above, Some(class));
        self.maps.get(map, above.0).is_some()
    }
}
