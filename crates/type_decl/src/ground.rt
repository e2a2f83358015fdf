// What both walks go by.

ghost use Rattle.std.specs.Prelude.{◌≡◌, ◌≤◌, ◌^◌, IfOk, OnOk, length};
ghost use Rattle.name_sites.specs.View.{source_of};
ghost use Rattle.class_heads.specs.View.{classes_of};
ghost use Rattle.class_methods.specs.HierarchyView.{HasAll};
ghost use Rattle.class_spots.specs.Spots.{AreSpotsOf};
ghost use Rattle.program_tables.specs.Known.{captured_seen};
ghost use Rattle.call_steps.specs.TableView.{HasMethods};
ghost use Rattle.program_tables.specs.Library.{IsLibraryFirst};
ghost use Rattle.source_subtypes.specs.View.{heads_of};
ghost use Rattle.type_faults.specs.Program.{source_in};
ghost use Rattle.type_decl.specs.way.Halves.{AreFieldsOf};

use call_steps::MethodTable;
use class_heads::AllClasses;
use class_methods::Hierarchy;
use class_spots::ClassSpots;
use declarations::ClassDecl;
use field_values::{FieldValue, all_field_values, blank_fields};
use je_base::{Memory, Names};
use name_sites::Sites;
use program_tables::{CapturedLocal, Layout, hidden_counts};
use source_subtypes::ClassHeads;
use type_faults::Program as Source;

/// The classes of a program, of which it is not yet known what they capture: where they are written and with what
/// names, their headers, what the library's declare, and which class stands at a place of the text.
#[derive(Clone, Copy)]
pub struct Ground<'a> {
    pub source: Source<'a>,
    pub names: &'a Names,
    pub heads: &'a ClassHeads,
    pub library: &'a [ClassDecl],
    pub spots: &'a ClassSpots,
    ghost named: { names.now ≡ (source_in source).texts },
    ghost library_first: { IsLibraryFirst (source_in source) },
    ghost spotted: { AreSpotsOf (source_in source).sites spots.now },
}

// No memory holds more classes than a number can name.
fn are_countable(heads: &ClassHeads, classes: AllClasses) -> Result<(), Memory>
    ensures heads { OnOk result (length (heads_of heads.now) ≤ 2 ^ 32) }
    ensures classes { OnOk result (length (classes_of classes.entry) ≤ 2 ^ 32) }
{
    if heads.len() > 4_294_967_295 || classes.len() > 4_294_967_295 {
        return Err(Memory);
    }
    Ok(())
}

/// The methods that each class has.
pub fn method_table<'a>(
    ground: Ground<'a>,
    classes: AllClasses<'a>,
) -> Result<MethodTable<'a>, Memory>
    ensures { IfOk result (λ t. HasMethods (heads_of ground.entry.heads.now)
        (classes_of classes.entry) t) }
{
    are_countable(ground.heads, classes)?;
    MethodTable::new(ground.source.alloc, ground.heads, classes)
}

/// What each class has of methods, and what it inherits.
pub fn hierarchy_of<'a>(
    ground: Ground<'a>,
    classes: AllClasses<'a>,
) -> Result<Hierarchy<'a>, Memory>
    ensures { IfOk result (λ h. HasAll (heads_of ground.entry.heads.now)
        (classes_of classes.entry) h) }
{
    are_countable(ground.heads, classes)?;
    Hierarchy::new(ground.source.alloc, ground.heads, classes)
}

/// The fields of all classes, by class: how many are hidden, what is written as their values, and which have none.
#[derive(Drop)]
pub struct Fields<'a> {
    pub hidden: Vec<usize>,
    pub values: Vec<Vec<FieldValue<'a>>>,
    pub blank: Vec<Vec<bool>>,
}

/// The fields of classes that are laid out so.
pub fn fields_in<'a>(layout: Layout, sites: &Sites<'a>) -> Result<Fields<'a>, Memory>
    requires { source_of sites.now ≡ source_in layout.source }
    ensures { IfOk result (AreFieldsOf (source_of sites.now)
        (captured_seen layout.entry.captured.now)) }
{
    let hidden = hidden_counts(layout)?;
    let values = all_field_values(layout.source.alloc, sites, &hidden)?;
    let blank = blank_fields(layout.source.alloc, &values)?;
    Ok(Fields {
        hidden,
        values,
        blank,
    })
}
