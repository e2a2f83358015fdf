// Elements of arrays, and new arrays.

ghost use Rattle.std.specs.Prelude.{◌≡◌, ◌≤◌, ◌<◌, ◌+◌, ◌*◌, ℕ, IfOk, MatchOption, length, drop};
ghost use Rattle.std.specs.Option.{ForSome};
ghost use Rattle.je_core.specs.Core.{Index as IndexForm};
ghost use Rattle.je_core.specs.View.{view};
ghost use Rattle.je_java.specs.Steps.{bind, seq, charge};
ghost use Rattle.je_java.specs.Arrays.{length_of as the_length_of, read_element as the_read_element, write_element as the_write_element, elements_of, element_of, nested as the_nested, make_arrays as the_make_arrays, array_from as the_array_from};
ghost use Rattle.je_java.specs.Meaning.{eval_form, set_element};
ghost use Rattle.machine_parts.specs.Ways.{height, gives};
ghost use Rattle.machine_parts.specs.way.Clauses.{BeginsValue, GoesToValue, GoesToValueIn};
ghost use Rattle.machine_forms.specs.way.Making.{IsLength, Counted, Nests};

use je_core::{Expr, Memory, Obj, Program, Slots, Ty, Value};
use je_heap::Heap;
use machine_parts::frame::{Context, Control, Frame};
use machine_parts::make::raise_negative_size;
use machine_parts::stack::Stack;
use std::alloc::Global;
use std::rc::Rc;

/// The array of an element.
pub fn begin_element(
    ty: Ty,
    array: &Rc<Expr>,
    index: &Rc<Expr>,
    frames: &mut Stack,
) -> Result<Control, Memory>
    ensures goes { IfOk result (BeginsValue frames.old frames.new
        (λ p m. eval_form p m ty
        (IndexForm (view array.now.value) (view index.now.value)))) }
    ensures short { IfOk result (λ c. length frames.new + gives c ≤ length frames.old + 1) }
{
    frames.push(Frame::ReadArray {
        index: index.clone()?,
    })?;
    Ok(Control::Eval(array.clone()?))
}

/// The index of an element.
pub fn begin_index(array: Value, index: Rc<Expr>, frames: &mut Stack) -> Result<Control, Memory>
    ensures goes { IfOk result (BeginsValue frames.old frames.new
        (λ p m. bind (m.eval (view index.value)) (λ i. the_read_element p array i))) }
    ensures short { IfOk result (λ c. length frames.new + gives c ≤ length frames.old + 1) }
{
    frames.push(Frame::ReadElement { array })?;
    Ok(Control::Eval(index))
}

/// The array whose length is asked.
pub fn begin_length(array: &Rc<Expr>, frames: &mut Stack) -> Result<Control, Memory>
    ensures goes { IfOk result (BeginsValue frames.old frames.new
        (λ p m. bind (m.eval (view array.now.value)) (λ a. the_length_of p a))) }
    ensures short { IfOk result (λ c. length frames.new + gives c ≤ length frames.old + 1) }
{
    frames.push(Frame::Length)?;
    Ok(Control::Eval(array.clone()?))
}

/// The array of an assignment to an element.
#[tactic(auto, unfolding(machine_parts::specs::way::Opened::binding))]
pub fn begin_set_array(
    array: &Rc<Expr>,
    index: &Rc<Expr>,
    value: &Rc<Expr>,
    frames: &mut Stack,
) -> Result<Control, Memory>
    ensures goes { IfOk result (BeginsValue frames.old frames.new
        (λ p m. set_element p m (view array.now.value) (view index.now.value)
        (view value.now.value))) }
    ensures short { IfOk result (λ c. length frames.new + gives c ≤ length frames.old + 1) }
{
    frames.push(Frame::SetArray {
        index: index.clone()?,
        value: value.clone()?,
    })?;
    Ok(Control::Eval(array.clone()?))
}

/// The index of an assignment to an element.
#[tactic(auto, unfolding(machine_parts::specs::way::Opened::binding))]
pub fn begin_set_index(
    array: Value,
    index: Rc<Expr>,
    value: Rc<Expr>,
    frames: &mut Stack,
) -> Result<Control, Memory>
    ensures goes { IfOk result (BeginsValue frames.old frames.new
        (λ p m. bind (m.eval (view index.value)) (λ i.
        bind (m.eval (view value.value)) (λ v. the_write_element p array i v)))) }
    ensures short { IfOk result (λ c. length frames.new + gives c ≤ length frames.old + 1) }
{
    frames.push(Frame::SetIndex { array, value })?;
    Ok(Control::Eval(index))
}

/// The value of an assignment to an element.
pub fn begin_set_element(
    array: Value,
    index: Value,
    value: Rc<Expr>,
    frames: &mut Stack,
) -> Result<Control, Memory>
    ensures goes { IfOk result (BeginsValue frames.old frames.new
        (λ p m. bind (m.eval (view value.value)) (λ v. the_write_element p array index v))) }
    ensures short { IfOk result (λ c. length frames.new + gives c ≤ length frames.old + 1) }
{
    frames.push(Frame::SetElement { array, index })?;
    Ok(Control::Eval(value))
}

// What some lengths come to.
#[derive(Drop)]
enum Lengths {
    Counts(Vec<u32>),
    BelowZero,
    Wrong,
}

// What a value comes to as a length.
#[derive(Clone, Copy)]
enum Length {
    Count(u32),
    BelowZero,
    Wrong,
}

// The length that a value is.
#[tactic(auto, using(crate::proofs::Making::length_below, crate::proofs::Making::length_is))]
fn length_of_value(value: Value) -> Length
    ensures { IsLength value result }
{
    match value {
        Value::Int(count) => {
            if count < 0 {
                Length::BelowZero
            } else {
                Length::Count(count as u32)
            }
        }
        _ => Length::Wrong,
    }
}

// The lengths that values are: the first that is none decides.
fn counts(alloc: Global, values: &Slots) -> Result<Lengths, Memory>
    ensures { IfOk result (Counted values.now) }
{
    let mut counts = Vec::new(alloc);
    for at in 0..values.len() {
        let Some(value) = values.get(at) else {
            return Ok(Lengths::Wrong);
        };
        match length_of_value(value) {
            Length::Count(count) => counts.push(count)?,
            Length::BelowZero => return Ok(Lengths::BelowZero),
            Length::Wrong => return Ok(Lengths::Wrong),
        }
    }
    Ok(Lengths::Counts(counts))
}

// How many elements so many arrays have, each with the elements of its own arrays; None if they are too many.
#[tactic(auto, using(crate::proofs::Making::times_over, crate::proofs::Making::times_fits))]
fn times(count: u32, inner: Option<u64>, most: u64) -> Option<u64>
    requires most { most ≤ 100000000 }
    requires inner { ForSome inner (λ n. n ≤ most) }
    ensures { (all : ℕ) → MatchOption inner (most < all) (λ n. (n ≡ all) × (n ≤ most)) →
        MatchOption result (most < count + count * all) (λ n. (n ≡ count + count * all) × (n ≤ most)) }
{
    if count == 0 {
        return Some(0);
    }
    let Some(inner) = inner else {
        return None;
    };
    let all = count as u64 + count as u64 * inner;
    if all > most { None } else { Some(all) }
}

// How many elements all the arrays of some lengths have; None if they are too many.
fn elements(counts: &[u32], most: u64) -> Option<u64>
    requires { most ≤ 100000000 }
    ensures { MatchOption result (most < elements_of counts.now)
        (λ n. (n ≡ elements_of counts.now) × (n ≤ most)) }
{
    let mut all = Some(0);
    let mut at = counts.len();
    while at > 0 {
        at -= 1;
        all = times(counts[at], all, most);
    }
    all
}

// The type of an array's elements.
fn element_type(ty: Ty) -> Ty
    ensures { result ≡ element_of ty }
{
    Ty {
        base: ty.base,
        dims: ty.dims.saturating_sub(1),
    }
}

// An array of a type, whose elements are arrays again as long as there are lengths.
fn nested(
    alloc: Global,
    heap: &mut Heap,
    ty: Ty,
    counts: &[u32],
    at: usize,
) -> Result<Value, Memory>
    ensures { IfOk result (Nests heap.old heap.new ty (drop at counts.now)) }
{
    if at >= counts.len() {
        return Ok(ty.default_value());
    }
    let element = element_type(ty);
    let mut values = Slots::new(alloc);
    for _made in 0..counts[at] {
        let value = nested(alloc, heap, element, counts, at + 1)?;
        values.push(value)?;
    }
    Ok(Value::Ref(heap.alloc_obj(Obj::Array(element, values))?))
}

// New arrays of some lengths: their elements are paid for before any is made.
fn make(context: &mut Context, heap: &mut Heap, ty: Ty, counts: &[u32]) -> Result<Control, Memory>
    ensures goes { IfOk result (GoesToValueIn context.old heap.old context.new heap.new
        (λ p m. seq (charge (elements_of counts.now)) (the_nested ty counts.now))) }
    ensures short { IfOk result (λ c. height context.new + gives c ≤ height context.old + 1) }
    ensures begun { context.new.begun ≡ context.old.begun }
{
    let Some(cost) = elements(counts, context.units) else {
        return Ok(Control::Spent);
    };
    context.units -= cost;
    Ok(Control::Give(nested(context.alloc, heap, ty, counts, 0)?))
}

/// New arrays of a type, whose lengths are these values.
pub fn make_arrays(
    context: &mut Context,
    heap: &mut Heap,
    program: &Program,
    ty: Ty,
    values: Slots,
) -> Result<Control, Memory>
    ensures goes { IfOk result (GoesToValue program.now context.old heap.old context.new heap.new
        (λ p m. the_make_arrays p ty values)) }
    ensures short { IfOk result (λ c. height context.new + gives c ≤ height context.old + 1) }
    ensures begun { context.new.begun ≡ context.old.begun }
{
    match counts(context.alloc, &values)? {
        Lengths::Counts(counts) => make(context, heap, ty, &counts),
        Lengths::BelowZero => raise_negative_size(context, heap, program),
        Lengths::Wrong => Ok(Control::Wrong),
    }
}

/// A new array of a type, whose elements are these values.
pub fn array_from(
    context: &mut Context,
    heap: &mut Heap,
    ty: Ty,
    values: Slots,
) -> Result<Control, Memory>
    ensures goes { IfOk result (GoesToValueIn context.old heap.old context.new heap.new
        (λ p m. the_array_from ty values)) }
    ensures short { IfOk result (λ c. height context.new + gives c ≤ height context.old + 1) }
    ensures begun { context.new.begun ≡ context.old.begun }
{
    let cost = values.len() as u64;
    if cost > context.units {
        return Ok(Control::Spent);
    }
    context.units -= cost;
    let array = heap.alloc_obj(Obj::Array(element_type(ty), values))?;
    Ok(Control::Give(Value::Ref(array)))
}
