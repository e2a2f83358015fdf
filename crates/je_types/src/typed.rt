// A program of which each part fits.

ghost use Rattle.std.specs.Prelude.{◌≡◌, true};
ghost use Rattle.je_core.specs.View.{program_view};
ghost use Rattle.je_fitting.specs.way.DecidingClasses.{is_program_fit};
ghost use Rattle.class_tables.specs.FieldTables.{IsFieldTableOf};
ghost use Rattle.class_tables.specs.SubclassTables.{IsSubclassTableOf};
ghost use Rattle.library_classes.specs.Library.{LibraryStands};
ghost use Rattle.plain_programs.specs.way.Deciding.{is_plain as the_is_plain};
ghost use Rattle.je_types.specs.Limits.{IsSmall};

use crate::fault::CheckFault;
use crate::parts::misfit;
use class_members::dispatched;
use class_tables::{FieldTable, SubclassTable};
use fit_program::first_misfit;
use je_core::{ClassId, Program};
use plain_programs::is_plain;
use std::alloc::Global;

/// A core program over the library's classes, of which each part fits, with where its fields stand, which class is below which, and
/// whether it is plain.
#[derive(Drop)]
pub struct Typed {
    program: Program,
    fields: FieldTable,
    subclasses: SubclassTable,
    plain: bool,
    pub ghost library: { ∥ LibraryStands (program_view program) ∥₁ },
    pub ghost small: { ∥ IsSmall (program_view program) ∥₁ },
    pub ghost fits: { is_program_fit (program_view program) ≡ true },
    pub ghost placed: { IsFieldTableOf (program_view program) fields },
    pub ghost ordered: { IsSubclassTableOf (program_view program) subclasses },
    pub ghost told: { plain ≡ the_is_plain (program_view program) },
}

impl Typed {
    ghost use Rattle.std.specs.Prelude.{◌≡◌, ◌↔◌, true, IfOk, IfErr, OnOk, Some, length, option_map};
    ghost use Rattle.je_core.specs.View.{program_view};
    ghost use Rattle.je_classes.specs.Slots.{field_slot, slot_fields};
    ghost use Rattle.je_fitting.specs.Program.{FitsProgram};
    ghost use Rattle.je_fitting.specs.way.DecidingClasses.{is_program_fit};
    ghost use Rattle.je_types.specs.Checked.{IsFault};
    ghost use Rattle.class_tables.specs.FieldTables.{IsFieldTableOf, first_slot};
    ghost use Rattle.class_tables.specs.SubclassTables.{IsSubclassTableOf};
    ghost use Rattle.je_classes.specs.Dispatch.{dispatched as the_dispatched};
    ghost use Rattle.je_classes.specs.Hierarchy.{is_below};
    ghost use Rattle.class_members.specs.Places.{member_of};
    ghost use Rattle.je_classes.specs.Statics.{static_place};
    ghost use Rattle.plain_programs.specs.Plain.{IsPlain};
    ghost use Rattle.plain_programs.specs.way.Deciding.{is_plain as the_is_plain};
    ghost use Rattle.library_classes.specs.Library.{LibraryStands};
    ghost use Rattle.je_types.specs.Limits.{IsSmall};
    ghost use Rattle.je_types.specs.Views.{program_of};

    // A program that fits, with what is told of it.
    fn of(program: Program, fields: FieldTable, subclasses: SubclassTable, plain: bool) -> Typed
        requires library { LibraryStands (program_view program) }
        requires small { IsSmall (program_view program) }
        requires fits { is_program_fit (program_view program) ≡ true }
        requires placed { IsFieldTableOf (program_view program) fields }
        requires ordered { IsSubclassTableOf (program_view program) subclasses }
        requires told { plain ≡ the_is_plain (program_view program) }
        ensures { program_of result ≡ program_view program }
    {
        Typed {
            program,
            fields,
            subclasses,
            plain,
        }
    }

    /// The program as one that fits, or its first misfit.
    #[tactic(auto, using(crate::proofs::Checking::checking))]
    pub fn check(alloc: Global, program: Program) -> Result<Typed, CheckFault>
        requires library { LibraryStands (program_view program) }
        requires small { IsSmall (program_view program) }
        ensures ok { IfOk result (λ typed. program_of typed ≡ program_view program) }
        ensures fits { OnOk result (FitsProgram (program_view program)) }
        ensures misfit { IfErr result (IsFault (program_view program)) }
    {
        match first_misfit(alloc, &program)? {
            None => {
                let fields = FieldTable::of(alloc, &program)?;
                let subclasses = SubclassTable::of(alloc, &program)?;
                let plain = is_plain(alloc, &program)?;
                Ok(Typed::of(program, fields, subclasses, plain))
            }
            Some((class, part)) => Err(misfit(&program, class, part)),
        }
    }

    /// The program.
    pub fn program(&self) -> &Program
        ensures { program_view result.now ≡ program_of self.now }
    {
        &self.program
    }

    /// Whether the program is plain: it has no native method and no `finally`, assigns static fields in static initializers alone, and
    /// comes to no wild member of the library. It costs a constant.
    #[tactic(auto, using(crate::proofs::Checking::plain_told))]
    pub fn plain(&self) -> bool
        ensures { (result ≡ true) ↔ IsPlain (program_of self.now) }
    {
        self.plain
    }

    /// Whether a class is another one, or below it (JLS 8.1.4, 8.1.5, 9.1.3). It costs as many steps as a class's number has bits.
    pub fn is_below(&self, class: ClassId, above: ClassId) -> bool
        ensures { result ≡ is_below (program_of self.now) class above }
    {
        self.subclasses.is_below(&self.program, class, above)
    }

    /// The method that an object of the class `own` has for the method of `class` at a place (JLS 8.4.8, 15.12.4.4): the one that a
    /// bridge of its class names, else the one that implements it there. None exactly where it has none. It walks upwards.
    pub fn method_for(&self, own: ClassId, class: ClassId, at: usize) -> Option<(ClassId, usize)>
        ensures { option_map member_of result ≡
            the_dispatched (program_of self.now) own (record { class = class; at = at }) }
    {
        dispatched(&self.program, own, class, at)
    }

    /// The first slot of the instance fields that a class itself declares, 0 where there is no such class (JLS 8.3, 12.5). It costs a
    /// constant.
    pub fn first_slot(&self, class: ClassId) -> usize
        ensures { result ≡ first_slot (program_of self.now) class }
    {
        self.fields.first_slot(&self.program, class)
    }

    /// How many slots the instances of a class have, 0 where there is no such class (JLS 8.3, 12.5). It costs a constant.
    pub fn slot_count(&self, class: ClassId) -> usize
        ensures { result ≡ length (slot_fields (program_of self.now) (Some class)) }
    {
        self.fields.slot_count(&self.program, class)
    }

    /// The slot of the field at a place of a class; None exactly where there is none, and where it is static (JLS 8.3.1.1). It costs
    /// a constant.
    pub fn slot(&self, class: ClassId, at: usize) -> Option<usize>
        ensures { result ≡ field_slot (program_of self.now) class at }
    {
        self.fields.slot(&self.program, class, at)
    }

    /// The place of the field at a place of a class among all static fields, which stand by class number and place; None exactly
    /// where there is none, and where it isn't static (JLS 8.3.1.1). It costs a constant.
    pub fn static_place(&self, class: ClassId, at: usize) -> Option<usize>
        ensures { result ≡ static_place (program_of self.now) class at }
    {
        self.fields.static_place(&self.program, class, at)
    }
}
