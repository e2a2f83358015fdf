// Members of the library by the numbers of their class and of their place in it.

ghost use Rattle.std.specs.Prelude.{◌≡◌, ◌≤◌, IfOk, OnErr, option_map, slice_get};
ghost use Rattle.je_core.specs.View.{program_view};
ghost use Rattle.je_java.specs.LibraryMembers.{has_own_makers as the_has_own_makers, makes_itself as the_makes_itself, member_of_class as the_member_of_class, member_row as the_member_row, run_library as the_run_library};
ghost use Rattle.je_table.specs.Library.{all_classes as the_classes, library};
ghost use Rattle.je_table.specs.Rows.{row_of, row_said};
ghost use Rattle.tamed_lib.specs.Outcomes.{ComesToIn, PlansIn};
ghost use Rattle.tamed_lib.specs.Paying.{run_row as the_run_row};

use crate::builder_members::builder_member;
use crate::effects::finish;
use crate::numbers::math_member;
use crate::objects::object_member;
use crate::outcome::{LibraryOutcome, Rest};
use crate::parsing::{integer_member, long_member};
use crate::paying::{Paid, pay};
use crate::rows::row_member;
use crate::string_members::string_member;
use crate::throwables::throwable_member;
use je_core::{ClassId, Memory, Program, Slots, Value};
use je_heap::Heap;
use je_table::{CostKind, LibraryClass, MemberRow, member_rows};
use library_places::library_place;
use std::alloc::Global;

// The library's classes by their numbers.
const CLASSES: [LibraryClass; 39] = [
    LibraryClass::Object,
    LibraryClass::String,
    LibraryClass::StringBuilder,
    LibraryClass::Integer,
    LibraryClass::Long,
    LibraryClass::Math,
    LibraryClass::System,
    LibraryClass::Comparable,
    LibraryClass::Runnable,
    LibraryClass::Throwable,
    LibraryClass::Immutable,
    LibraryClass::Selfless,
    LibraryClass::Equatable,
    LibraryClass::Powerless,
    LibraryClass::Token,
    LibraryClass::ConstRow,
    LibraryClass::IntRow,
    LibraryClass::TextRow,
    LibraryClass::Console,
    LibraryClass::Cell,
    LibraryClass::Clock,
    LibraryClass::Inbox,
    LibraryClass::Store,
    LibraryClass::Refused,
    LibraryClass::Exception,
    LibraryClass::Error,
    LibraryClass::RuntimeException,
    LibraryClass::ArithmeticException,
    LibraryClass::ArrayStoreException,
    LibraryClass::ClassCastException,
    LibraryClass::IllegalArgumentException,
    LibraryClass::IllegalStateException,
    LibraryClass::IndexOutOfBoundsException,
    LibraryClass::NegativeArraySizeException,
    LibraryClass::NullPointerException,
    LibraryClass::UnsupportedOperationException,
    LibraryClass::ArrayIndexOutOfBoundsException,
    LibraryClass::StringIndexOutOfBoundsException,
    LibraryClass::NumberFormatException,
];

fn classes() -> &'static [LibraryClass]
    ensures { result.now ≡ the_classes }
{
    &CLASSES
}

// The class at a place of some.
fn class_among(classes: &[LibraryClass], at: usize) -> Option<LibraryClass>
    ensures { result ≡ slice_get classes.now at }
{
    classes.get(at).copied()
}

// The library's class of a number.
fn class_of_number(class: ClassId) -> Option<LibraryClass>
    ensures { result ≡ slice_get the_classes class.0 }
{
    class_among(classes(), class.0 as usize)
}

fn makes_itself(class: LibraryClass) -> bool
    ensures { result ≡ the_makes_itself class }
{
    match class {
        LibraryClass::String
        | LibraryClass::StringBuilder
        | LibraryClass::ConstRow
        | LibraryClass::IntRow
        | LibraryClass::TextRow => true,
        _ => false,
    }
}

/// Whether the constructors of a class make their object themselves, so that no instance of it is made beforehand: those of
/// String, StringBuilder and the rows do.
#[tactic(auto, unfolding(je_java::specs::LibraryMembers::has_own_makers))]
pub fn has_own_makers(class: ClassId) -> bool
    ensures { result ≡ the_has_own_makers class }
{
    match class_of_number(class) {
        Some(class) => makes_itself(class),
        None => false,
    }
}

// The row of a place.
fn row_at(place: usize) -> Option<&'static MemberRow>
    ensures { option_map (λ row. row_said row.now) result ≡
        option_map row_of (slice_get library place) }
{
    let Some(row) = member_rows().get(place) else {
        return None;
    };
    Some(row)
}

// The row of the method or constructor of a number of a class.
fn member_row(own: ClassId, at: u32) -> Option<&'static MemberRow>
    ensures { option_map (λ row. row_said row.now) result ≡
        option_map row_of (the_member_row own at) }
{
    match library_place(own, false, at) {
        Some(place) => row_at(place),
        None => None,
    }
}

// What the member of a signature of a class comes to, and what is left to do.
fn member_of_class(
    alloc: Global,
    program: &Program,
    heap: &Heap,
    left: u64,
    class: LibraryClass,
    own: ClassId,
    signature: &str,
    this: Value,
    given: &Slots,
) -> Result<Rest, Memory>
    ensures { IfOk result (PlansIn (program_view program.now) left heap.now.world
        (the_member_of_class class (program_view program.now) own signature.now this given.now)) }
{
    match class {
        LibraryClass::Object | LibraryClass::Token => Ok(object_member(signature, this, given)),
        LibraryClass::String => string_member(alloc, heap, left, signature, this, given),
        LibraryClass::StringBuilder => builder_member(alloc, heap, left, signature, this, given),
        LibraryClass::Integer => integer_member(alloc, heap, left, signature, given),
        LibraryClass::Long => long_member(alloc, heap, left, signature, given),
        LibraryClass::Math => Ok(math_member(signature, given)),
        LibraryClass::ConstRow | LibraryClass::IntRow | LibraryClass::TextRow => {
            row_member(alloc, heap, left, own, signature, this, given)
        }
        _ => Ok(throwable_member(program, heap, left, signature, this, given)),
    }
}

// The member of a row: what it costs is paid for, and then it does what its class says.
fn run_row(
    alloc: Global,
    program: &Program,
    heap: &mut Heap,
    left: &mut u64,
    class: LibraryClass,
    cost: CostKind,
    own: ClassId,
    signature: &str,
    this: Value,
    given: &Slots,
) -> Result<LibraryOutcome, Memory>
    ensures goes { IfOk result (ComesToIn (program_view program.now)
        left.old heap.old.world left.new heap.new.world
        (the_run_row class cost (program_view program.now) own signature.now this given.now)) }
    ensures units { left.new ≤ left.old }
    ensures err { OnErr result (heap.new ≡ heap.old) }
{
    match pay(heap, left, cost, this, given) {
        Paid::Raises(class) => Ok(LibraryOutcome::Raises(class)),
        Paid::Spent => Ok(LibraryOutcome::Spent),
        Paid::Wrong => Ok(LibraryOutcome::Wrong),
        Paid::Done => {
            let rest = member_of_class(
                alloc, program, heap, *left, class, own, signature, this, given,
            )?;
            finish(heap, left, rest)
        }
    }
}

/// Runs the tame method or constructor of a number of a class, on its receiver, which is null where it has none, and its
/// arguments: takes what it costs from the units left. Wrong is what a program that fits its types never comes to, also
/// where there is no such member or it isn't tame. Memory is answered where an allocation is refused; the heap is then as
/// before.
#[tactic(auto, using(crate::proofs::Places::ran, crate::proofs::Places::ran_without_row, crate::proofs::Places::ran_without_class))]
pub fn run_library(
    alloc: Global,
    program: &Program,
    heap: &mut Heap,
    left: &mut u64,
    own: ClassId,
    at: u32,
    this: Value,
    given: &Slots,
) -> Result<LibraryOutcome, Memory>
    ensures goes { IfOk result (ComesToIn (program_view program.now)
        left.old heap.old.world left.new heap.new.world
        (the_run_library (program_view program.now) own at this given.now)) }
    ensures units { left.new ≤ left.old }
    ensures err { OnErr result (heap.new ≡ heap.old) }
{
    let Some(row) = member_row(own, at) else {
        return Ok(LibraryOutcome::Wrong);
    };
    let Some(class) = class_of_number(own) else {
        return Ok(LibraryOutcome::Wrong);
    };
    run_row(
        alloc,
        program,
        heap,
        left,
        class,
        row.cost,
        own,
        row.signature,
        this,
        given,
    )
}
