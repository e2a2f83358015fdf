// One call or two of a member of each class, with what Java gives.

use crate::{spells, text as units};
use class_names::library_words;
use je_core::{Base, ClassId, Memory, Names, Obj, ObjId, Program, Slots, Ty, Value};
use je_heap::Heap;
use je_table::{LibraryClass, member_rows};
use library_classes::library_classes;
use library_places::library_place;
use std::alloc::Global;
use tamed_lib::{LibraryOutcome, has_own_makers, run_library};

const INT: Ty = Ty {
    base: Base::Int,
    dims: 0,
};

fn slots(alloc: Global, values: &[Value]) -> Result<Slots, Memory> {
    let mut slots = Slots::new(alloc);
    for value in values {
        slots.push(*value)?;
    }
    Ok(slots)
}

fn add_text(alloc: Global, heap: &mut Heap, letters: &str) -> Result<ObjId, Memory> {
    heap.alloc_obj(Obj::Text(units(alloc, letters)?))
}

fn add_builder(alloc: Global, heap: &mut Heap, letters: &str) -> Result<ObjId, Memory> {
    heap.alloc_obj(Obj::Builder(units(alloc, letters)?))
}

fn add_array(alloc: Global, heap: &mut Heap, values: &[Value]) -> Result<ObjId, Memory> {
    heap.alloc_obj(Obj::Array(INT, slots(alloc, values)?))
}

fn add_exception(alloc: Global, heap: &mut Heap, message: Value) -> Result<ObjId, Memory> {
    let class = ClassId(LibraryClass::RuntimeException.number());
    heap.alloc_obj(Obj::Instance(class, slots(alloc, &[message])?))
}

// "hello", a builder of "ab", the array { 7, 8 }, an exception whose message is the first, "-12" and "l".
fn fill(alloc: Global, heap: &mut Heap) -> Result<(), Memory> {
    add_text(alloc, heap, "hello")?;
    add_builder(alloc, heap, "ab")?;
    add_array(alloc, heap, &[Value::Int(7), Value::Int(8)])?;
    add_exception(alloc, heap, text())?;
    add_text(alloc, heap, "-12")?;
    add_text(alloc, heap, "l")?;
    Ok(())
}

// Whether a text or builder has these letters.
fn is_spelled(heap: &Heap, id: u64, letters: &str) -> bool {
    match heap.units(ObjId(id)) {
        Some(found) => spells(found, letters),
        None => false,
    }
}

fn text() -> Value {
    Value::Ref(ObjId(0))
}

fn program(alloc: Global) -> Result<Program, Memory> {
    let mut names = Names::new(alloc);
    library_words(&mut names)?;
    Ok(Program {
        classes: library_classes(alloc, &names)?,
        texts: Vec::new(alloc),
    })
}

// The number of the method or constructor of a signature.
fn number_of(class: ClassId, signature: &str) -> u32 {
    let rows = member_rows();
    for at in 0..40 {
        if let Some(place) = library_place(class, false, at) {
            if place < rows.len() && rows[place].signature == signature {
                return at;
            }
        }
    }
    40
}

/// A call: the class and the signature, the receiver and the arguments.
#[derive(Clone, Copy)]
struct Call {
    class: LibraryClass,
    signature: &'static str,
    this: Value,
    first: Value,
    second: Value,
}

fn run(
    alloc: Global,
    program: &Program,
    heap: &mut Heap,
    left: &mut u64,
    call: &Call,
) -> Result<LibraryOutcome, Memory> {
    let class = ClassId(call.class.number());
    let at = number_of(class, call.signature);
    let given = slots(alloc, &[call.first, call.second])?;
    run_library(alloc, program, heap, left, class, at, call.this, &given)
}

fn a_call(class: LibraryClass, signature: &'static str, this: Value, first: Value) -> Call {
    Call {
        class,
        signature,
        this,
        first,
        second: Value::Int(3),
    }
}

// Whether a call on a new heap gives that, with so many units left of ten.
fn gives(
    alloc: Global,
    program: &Program,
    call: &Call,
    wanted: LibraryOutcome,
    rest: u64,
) -> Result<bool, Memory> {
    let mut heap = Heap::new(alloc, 0)?;
    fill(alloc, &mut heap)?;
    let mut left = 10;
    let got = run(alloc, program, &mut heap, &mut left, call)?;
    Ok(got == wanted && left == rest)
}

fn value(value: Value) -> LibraryOutcome {
    LibraryOutcome::Value(value)
}

fn new() -> LibraryOutcome {
    value(Value::Ref(ObjId(6)))
}

fn raises(class: LibraryClass) -> LibraryOutcome {
    LibraryOutcome::Raises(ClassId(class.number()))
}

const BUILDER: Value = Value::Ref(ObjId(1));

const ARRAY: Value = Value::Ref(ObjId(2));

const EXCEPTION: Value = Value::Ref(ObjId(3));

const NUMBER: Value = Value::Ref(ObjId(4));

const PART: Value = Value::Ref(ObjId(5));

fn texts_give(alloc: Global, program: &Program) -> Result<bool, Memory> {
    use LibraryClass::{Object, String, StringIndexOutOfBoundsException, NullPointerException};
    let equal = a_call(Object, "equals(Object)", text(), NUMBER);
    let index = a_call(String, "indexOf(String)", text(), PART);
    let hash = a_call(String, "hashCode()", text(), Value::Null);
    let unit = a_call(String, "charAt(int)", text(), Value::Int(5));
    let part = a_call(String, "substring(int,int)", text(), Value::Int(1));
    let compare = a_call(String, "compareTo(String)", text(), Value::Null);
    let wild = a_call(Object, "hashCode()", text(), Value::Null);
    Ok(
        gives(alloc, program, &equal, value(Value::Bool(false)), 10)?
            && gives(alloc, program, &index, value(Value::Int(2)), 5)?
            && gives(alloc, program, &hash, value(Value::Int(99162322)), 5)?
            && gives(
                alloc,
                program,
                &unit,
                raises(StringIndexOutOfBoundsException),
                10,
            )?
            && gives(alloc, program, &part, new(), 8)?
            && gives(alloc, program, &compare, raises(NullPointerException), 5)?
            && gives(alloc, program, &wild, LibraryOutcome::Wrong, 10)?,
    )
}

fn others_give(alloc: Global, program: &Program) -> Result<bool, Memory> {
    use LibraryClass::{Integer, IntRow, Long, Math, StringBuilder, Throwable, Token};
    let append = a_call(StringBuilder, "append(String)", BUILDER, text());
    let append_int = a_call(StringBuilder, "append(int)", BUILDER, Value::Int(-12));
    let parse = a_call(Integer, "parseInt(String)", Value::Null, NUMBER);
    let write = a_call(Long, "toString(long)", Value::Null, Value::Long(1234));
    let max = a_call(Math, "max(int,int)", Value::Null, Value::Int(2));
    let row = a_call(IntRow, "new(int[])", Value::Null, ARRAY);
    let message = a_call(Throwable, "getMessage()", EXCEPTION, Value::Null);
    let token = a_call(Token, "new()", EXCEPTION, Value::Null);
    Ok(
        gives(alloc, program, &append, value(BUILDER), 5)?
            && gives(alloc, program, &append_int, value(BUILDER), 7)?
            && gives(alloc, program, &parse, value(Value::Int(-12)), 10)?
            && gives(alloc, program, &write, new(), 6)?
            && gives(alloc, program, &max, value(Value::Int(3)), 10)?
            && gives(alloc, program, &row, new(), 8)?
            && gives(alloc, program, &message, value(text()), 10)?
            && gives(alloc, program, &token, value(Value::Null), 10)?,
    )
}

#[test]
fn members_give_what_java_gives(rt: HostRuntime) -> Result<(), Memory> {
    let program = program(rt.alloc())?;
    let holds = texts_give(rt.alloc(), &program)? && others_give(rt.alloc(), &program)?;
    assert!(rt; holds);
    Ok(())
}

// Whether a builder grows by a text, and the next text can't be paid for.
fn grows(alloc: Global, program: &Program, heap: &mut Heap) -> Result<bool, Memory> {
    let add = a_call(
        LibraryClass::StringBuilder,
        "append(String)",
        BUILDER,
        text(),
    );
    let mut left = 7;
    run(alloc, program, heap, &mut left, &add)?;
    let has_grown = is_spelled(heap, 1, "abhello");
    let is_spent = run(alloc, program, heap, &mut left, &add)? == LibraryOutcome::Spent;
    Ok(has_grown && is_spent && is_spelled(heap, 1, "abhello"))
}

#[test]
fn a_builder_grows(rt: HostRuntime) -> Result<(), Memory> {
    let alloc = rt.alloc();
    let program = program(alloc)?;
    let mut heap = Heap::new(alloc, 0)?;
    fill(alloc, &mut heap)?;
    assert!(rt; grows(alloc, &program, &mut heap)?);
    Ok(())
}

#[test]
fn strings_and_rows_are_made_by_their_constructors(rt: HostRuntime) {
    let holds = has_own_makers(ClassId(LibraryClass::String.number()))
        && has_own_makers(ClassId(LibraryClass::TextRow.number()))
        && !has_own_makers(ClassId(LibraryClass::Token.number()))
        && !has_own_makers(ClassId(39));
    assert!(rt; holds);
}
