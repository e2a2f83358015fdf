// The methods of all classes.

ghost use Rattle.std.specs.Prelude.{◌≡◌, ◌≤◌, ◌^◌, IfOk, length, map};
ghost use Rattle.class_heads.specs.View.{classes_of};
ghost use Rattle.class_methods.specs.HierarchyView.{HasAll};
ghost use Rattle.class_methods.specs.View.{method_seen, table_seen};
ghost use Rattle.class_methods.specs.way.Rounds.{list_to};
ghost use Rattle.overriding.specs.Overrides.{has_methods};
ghost use Rattle.source_subtypes.specs.View.{heads_of};

use class_heads::AllClasses;
use class_methods::{Hierarchy, Method, own};
use je_base::Memory;
use je_core::ClassId;
use source_subtypes::ClassHeads;
use std::alloc::Global;

// What a class has: its own methods, and those that it inherits.
fn methods_of<'a>(
    alloc: Global,
    heads: &ClassHeads,
    classes: AllClasses<'a>,
    hierarchy: &Hierarchy<'a>,
    class: ClassId,
) -> Result<Vec<Method<'a>>, Memory>
    requires { HasAll (heads_of heads.now) (classes_of classes) hierarchy.now }
    ensures { IfOk result (λ ms. map method_seen ms.items ≡
        has_methods (heads_of heads.now) (classes_of classes.entry) class.0) }
{
    let mut methods = own(alloc, classes, class)?;
    let mut more = hierarchy.inherited(alloc, heads, classes, class)?;
    methods.append(&mut more)?;
    Ok(methods)
}

// What each class has, of so many.
fn rows<'a>(
    alloc: Global,
    heads: &ClassHeads,
    classes: AllClasses<'a>,
    hierarchy: &Hierarchy<'a>,
    count: usize,
) -> Result<Vec<Vec<Method<'a>>>, Memory>
    requires few { count ≤ 2 ^ 32 }
    requires all { HasAll (heads_of heads.now) (classes_of classes) hierarchy.now }
    ensures { IfOk result (λ rows. table_seen rows.items ≡
        list_to (has_methods (heads_of heads.now) (classes_of classes.entry)) count) }
{
    let mut rows = Vec::new(alloc);
    for at in 0..count {
        rows.push(methods_of(alloc, heads, classes, hierarchy, ClassId(at as u32))?)?;
    }
    Ok(rows)
}

/// The methods of all classes.
#[derive(Drop)]
pub struct MethodTable<'a> {
    pub(crate) rows: Vec<Vec<Method<'a>>>,
}

impl<'a> MethodTable<'a> {
    ghost use Rattle.std.specs.Prelude.{◌≡◌, ◌≤◌, ◌^◌, IfOk, length, map, option_map, slice_get};
    ghost use Rattle.class_heads.specs.View.{classes_of};
    ghost use Rattle.class_methods.specs.View.{method_seen, table_seen};
    ghost use Rattle.call_steps.specs.TableView.{HasMethods};
    ghost use Rattle.source_subtypes.specs.View.{heads_of};

    /// The methods of classes with these headers.
    pub fn new(
        alloc: Global,
        heads: &ClassHeads,
        classes: AllClasses<'a>,
    ) -> Result<MethodTable<'a>, Memory>
        requires heads { length (heads_of heads.now) ≤ 2 ^ 32 }
        requires classes { length (classes_of classes) ≤ 2 ^ 32 }
        ensures { IfOk result (λ t. HasMethods (heads_of heads.now) (classes_of classes.entry) t) }
    {
        let hierarchy = Hierarchy::new(alloc, heads, classes)?;
        let count = heads.len().max(classes.len());
        let rows = rows(alloc, heads, classes, &hierarchy, count)?;
        Ok(MethodTable { rows })
    }

    // What is listed for a class.
    pub(crate) fn row(&self, class: ClassId) -> Option<&Vec<Method<'a>>>
        ensures { option_map (λ ms. map method_seen ms.now.items) result ≡
            slice_get (table_seen self.now.rows.items) class.0 }
    {
        self.rows.get(class.0 as usize)
    }
}
