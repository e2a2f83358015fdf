// Constant fields by their names, class by class.

ghost use Rattle.std.specs.Prelude.{◌≡◌, ℕ, ◌&&◌, ◌||◌, IfOk, OnOk, nat_eq};
ghost use Rattle.je_base.specs.declared.span.NameId.{NameId};
ghost use Rattle.je_scopes.specs.Source.{Source};
ghost use Rattle.class_heads.specs.View.{classes_of};
ghost use Rattle.name_typing.specs.Program.{Program as TheProgram};
ghost use Rattle.body_places.specs.Tables.{constant_at};
ghost use Rattle.class_typing.specs.Elaboration.{is_constant as the_is_constant};
ghost use Rattle.signature_steps.specs.View.{is_among};

use body_places::{Constant, constant_of, fields_of};
use class_heads::AllClasses;
use je_base::Memory;
use je_core::ClassId;
use name_faults::Met;
use signature_steps::ConstantField;
use std::alloc::Global;

// Lists a field, if it is told.
fn add_if(is_told: bool, field: ConstantField, named: &mut Vec<ConstantField>) -> Result<(), Memory>
    ensures { OnOk result ((c : ℕ) (x : NameId) → is_among named.new.items c x ≡
        (is_among named.old.items c x ||
        (is_told && (nat_eq field.class.0 c && nat_eq field.name.0 x.0)))) }
{
    if is_told {
        named.push(field)?;
    }
    Ok(())
}

// Lists the names in a class whose first field is a constant variable.
fn add_names(
    alloc: Global,
    classes: AllClasses,
    constants: &[Vec<Option<Constant>>],
    class: ClassId,
    named: &mut Vec<ConstantField>,
) -> Result<(), Memory>
    ensures { OnOk result ((source : Source) (p : TheProgram) →
        p.classes ≡ classes_of classes.entry → p.constants ≡ constant_at constants.now →
        (c : ℕ) (x : NameId) → is_among named.new.items c x ≡
        (is_among named.old.items c x || (nat_eq class.0 c && the_is_constant source p c x))) }
{
    let mut met = Met::none(alloc);
    for (at, field) in fields_of(classes, class).iter().enumerate() {
        let name = field.name.name;
        let was_met = met.meet(name)?;
        let is_told = !was_met && constant_of(constants, class, at).is_some();
        add_if(is_told, ConstantField { class, name }, named)?;
    }
    Ok(())
}

/// The fields that are constant variables, by class and name: of the fields of a name in a class the first is meant.
pub fn constant_names(
    alloc: Global,
    classes: AllClasses,
    constants: &[Vec<Option<Constant>>],
) -> Result<Vec<ConstantField>, Memory>
    ensures { IfOk result (λ named. (source : Source) (p : TheProgram) →
        p.classes ≡ classes_of classes.entry → p.constants ≡ constant_at constants.now →
        is_among named.items ≡ the_is_constant source p) }
{
    // No memory holds more classes than a number can name.
    let Ok(count) = u32::try_from(classes.len()) else {
        return Err(Memory);
    };
    let mut named = Vec::new(alloc);
    for number in 0..count {
        add_names(alloc, classes, constants, ClassId(number), &mut named)?;
    }
    Ok(named)
}
