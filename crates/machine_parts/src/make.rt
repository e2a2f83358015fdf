// New instances, and the exceptions that evaluation itself throws.

ghost use Rattle.std.specs.Prelude.{◌≡◌, ◌≤◌, ◌+◌, IfOk};
ghost use Rattle.machine_parts.specs.way.Clauses.{GoesToValue, GoesToEnd, Makes, MakesApart, Raises};
ghost use Rattle.je_java.specs.Steps.{raise as the_raise, throw_value as the_throw_value};
ghost use Rattle.je_java.specs.Raised.{null_pointer, arithmetic, array_index, array_store, negative_size, class_cast};
ghost use Rattle.machine_parts.specs.Ways.{height, gives};

use crate::class::fresh_slots;
use crate::frame::{Context, Control, Made};
use je_core::{ClassId, Memory, Obj, Program, Value};
use je_heap::Heap;
use je_table::LibraryClass;

// NullPointerException.
#[tactic(auto, unfolding(je_classes::specs::Hierarchy::library_class, je_java::specs::Raised::null_pointer))]
fn null_pointer_class() -> ClassId
    ensures { result ≡ null_pointer }
{
    ClassId(LibraryClass::NullPointerException.number())
}

// ArithmeticException.
#[tactic(auto, unfolding(je_classes::specs::Hierarchy::library_class, je_java::specs::Raised::arithmetic))]
fn arithmetic_class() -> ClassId
    ensures { result ≡ arithmetic }
{
    ClassId(LibraryClass::ArithmeticException.number())
}

/// The number of ClassCastException.
#[tactic(auto, unfolding(je_classes::specs::Hierarchy::library_class, je_java::specs::Raised::class_cast))]
pub fn class_cast_class() -> ClassId
    ensures { result ≡ class_cast }
{
    ClassId(LibraryClass::ClassCastException.number())
}

// ArrayIndexOutOfBoundsException.
#[tactic(auto, unfolding(je_classes::specs::Hierarchy::library_class, je_java::specs::Raised::array_index))]
fn array_index_class() -> ClassId
    ensures { result ≡ array_index }
{
    ClassId(LibraryClass::ArrayIndexOutOfBoundsException.number())
}

// ArrayStoreException.
#[tactic(auto, unfolding(je_classes::specs::Hierarchy::library_class, je_java::specs::Raised::array_store))]
fn array_store_class() -> ClassId
    ensures { result ≡ array_store }
{
    ClassId(LibraryClass::ArrayStoreException.number())
}

// NegativeArraySizeException.
#[tactic(auto, unfolding(je_classes::specs::Hierarchy::library_class, je_java::specs::Raised::negative_size))]
fn negative_size_class() -> ClassId
    ensures { result ≡ negative_size }
{
    ClassId(LibraryClass::NegativeArraySizeException.number())
}

/// An instance of a class, whose slots are paid for before it is made.
pub fn instance(
    context: &mut Context,
    heap: &mut Heap,
    program: &Program,
    class: ClassId,
) -> Result<Made, Memory>
    ensures goes { IfOk result (Makes program.now class
        context.old heap.old context.new heap.new) }
    ensures apart { IfOk result (MakesApart program.now class
        context.old heap.old context.new heap.new) }
    ensures frames { context.new.frames ≡ context.old.frames }
    ensures env { context.new.env ≡ context.old.env }
    ensures units { context.new.units ≤ context.old.units }
    ensures begun { context.new.begun ≡ context.old.begun }
{
    let Some(slots) = fresh_slots(context.alloc, program, class)? else {
        return Ok(Made::Wrong);
    };
    let cost = slots.len() as u64;
    if cost > context.units {
        return Ok(Made::Spent);
    }
    context.units -= cost;
    Ok(Made::Object(heap.alloc_obj(Obj::Instance(class, slots))?))
}

// Throws a new exception of a class.
fn raise(
    context: &mut Context,
    heap: &mut Heap,
    program: &Program,
    class: ClassId,
) -> Result<Control, Memory>
    ensures goes { IfOk result (Raises program.now class
        context.old heap.old context.new heap.new) }
    ensures short { IfOk result (λ c. height context.new + gives c ≤ height context.old + 1) }
    ensures begun { context.new.begun ≡ context.old.begun }
{
    match instance(context, heap, program, class)? {
        Made::Object(exception) => Ok(Control::Throw(exception)),
        Made::Spent => Ok(Control::Spent),
        Made::Wrong => Ok(Control::Wrong),
    }
}

/// Throws the object that a value refers to.
pub fn throw_value(
    context: &mut Context,
    heap: &mut Heap,
    program: &Program,
    value: Value,
) -> Result<Control, Memory>
    ensures goes { IfOk result (GoesToEnd program.now context.old heap.old context.new heap.new
        (λ p m. the_throw_value p value)) }
    ensures short { IfOk result (λ c. height context.new + gives c ≤ height context.old + 1) }
    ensures begun { context.new.begun ≡ context.old.begun }
{
    match value {
        Value::Ref(exception) => Ok(Control::Throw(exception)),
        Value::Null => raise(context, heap, program, null_pointer_class()),
        _ => Ok(Control::Wrong),
    }
}

/// Throws a new NullPointerException.
pub fn raise_null_pointer(
    context: &mut Context,
    heap: &mut Heap,
    program: &Program,
) -> Result<Control, Memory>
    ensures goes { IfOk result (GoesToValue program.now context.old heap.old context.new heap.new
        (λ p m. the_raise p null_pointer)) }
    ensures short { IfOk result (λ c. height context.new + gives c ≤ height context.old + 1) }
    ensures begun { context.new.begun ≡ context.old.begun }
{
    raise(context, heap, program, null_pointer_class())
}

/// Throws a new ArithmeticException.
pub fn raise_arithmetic(
    context: &mut Context,
    heap: &mut Heap,
    program: &Program,
) -> Result<Control, Memory>
    ensures goes { IfOk result (GoesToValue program.now context.old heap.old context.new heap.new
        (λ p m. the_raise p arithmetic)) }
    ensures short { IfOk result (λ c. height context.new + gives c ≤ height context.old + 1) }
    ensures begun { context.new.begun ≡ context.old.begun }
{
    raise(context, heap, program, arithmetic_class())
}

/// Throws a new ClassCastException.
pub fn raise_class_cast(
    context: &mut Context,
    heap: &mut Heap,
    program: &Program,
) -> Result<Control, Memory>
    ensures goes { IfOk result (GoesToValue program.now context.old heap.old context.new heap.new
        (λ p m. the_raise p class_cast)) }
    ensures short { IfOk result (λ c. height context.new + gives c ≤ height context.old + 1) }
    ensures begun { context.new.begun ≡ context.old.begun }
{
    raise(context, heap, program, class_cast_class())
}

/// Throws a new ArrayIndexOutOfBoundsException.
pub fn raise_array_index(
    context: &mut Context,
    heap: &mut Heap,
    program: &Program,
) -> Result<Control, Memory>
    ensures goes { IfOk result (GoesToValue program.now context.old heap.old context.new heap.new
        (λ p m. the_raise p array_index)) }
    ensures short { IfOk result (λ c. height context.new + gives c ≤ height context.old + 1) }
    ensures begun { context.new.begun ≡ context.old.begun }
{
    raise(context, heap, program, array_index_class())
}

/// Throws a new NegativeArraySizeException.
pub fn raise_negative_size(
    context: &mut Context,
    heap: &mut Heap,
    program: &Program,
) -> Result<Control, Memory>
    ensures goes { IfOk result (GoesToValue program.now context.old heap.old context.new heap.new
        (λ p m. the_raise p negative_size)) }
    ensures short { IfOk result (λ c. height context.new + gives c ≤ height context.old + 1) }
    ensures begun { context.new.begun ≡ context.old.begun }
{
    raise(context, heap, program, negative_size_class())
}

/// Throws a new ArrayStoreException.
pub fn raise_array_store(
    context: &mut Context,
    heap: &mut Heap,
    program: &Program,
) -> Result<Control, Memory>
    ensures goes { IfOk result (GoesToValue program.now context.old heap.old context.new heap.new
        (λ p m. the_raise p array_store)) }
    ensures short { IfOk result (λ c. height context.new + gives c ≤ height context.old + 1) }
    ensures begun { context.new.begun ≡ context.old.begun }
{
    raise(context, heap, program, array_store_class())
}
