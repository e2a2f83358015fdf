// Class variables, behind what stands before them.

ghost use Rattle.std.specs.Prelude.{◌≡◌, ◌≤◌, ◌+◌, IfOk, length};
ghost use Rattle.je_core.specs.View.{view};
ghost use Rattle.je_java.specs.Steps.{seq, yields, read_static, write_static as the_write_static};
ghost use Rattle.je_java.specs.Meaning.{set_variable};
ghost use Rattle.machine_parts.specs.Ways.{height, gives};
ghost use Rattle.machine_parts.specs.way.Clauses.{BeginsValue, GoesToValue};

use je_core::{ClassId, Expr, Memory, Program, Value};
use je_heap::Heap;
use machine_parts::frame::{Context, Control, Frame};
use machine_parts::stack::Stack;
use machine_parts::variable::{store_static, write_static};
use std::rc::Rc;

/// What stands before a class variable.
pub fn begin_before(
    object: &Rc<Expr>,
    class: ClassId,
    field: u32,
    frames: &mut Stack,
) -> Result<Control, Memory>
    ensures goes { IfOk result (BeginsValue frames.old frames.new
        (λ p m. seq (m.eval (view object.now.value)) (read_static p class field))) }
    ensures short { IfOk result (λ c. length frames.new + gives c ≤ length frames.old + 1) }
{
    frames.push(Frame::ReadStatic { class, field })?;
    Ok(Control::Eval(object.clone()?))
}

/// What stands before a class variable that is assigned to.
pub fn begin_set_before(
    object: &Rc<Expr>,
    class: ClassId,
    field: u32,
    value: &Rc<Expr>,
    frames: &mut Stack,
) -> Result<Control, Memory>
    ensures goes { IfOk result (BeginsValue frames.old frames.new
        (λ p m. seq (m.eval (view object.now.value))
        (set_variable p m class field (view value.now.value)))) }
    ensures short { IfOk result (λ c. length frames.new + gives c ≤ length frames.old + 1) }
{
    frames.push(Frame::SetBefore {
        class,
        field,
        value: value.clone()?,
    })?;
    Ok(Control::Eval(object.clone()?))
}

/// The value that a class variable is to take.
pub fn begin_set_static(
    class: ClassId,
    field: u32,
    value: Rc<Expr>,
    frames: &mut Stack,
) -> Result<Control, Memory>
    ensures goes { IfOk result (BeginsValue frames.old frames.new
        (λ p m. set_variable p m class field (view value.value))) }
    ensures short { IfOk result (λ c. length frames.new + gives c ≤ length frames.old + 1) }
{
    frames.push(Frame::SetStatic { class, field })?;
    Ok(Control::Eval(value))
}

/// Puts a value into a class variable, and gives another.
pub fn store_variable(
    context: &Context,
    heap: &mut Heap,
    program: &Program,
    class: ClassId,
    field: u32,
    value: Value,
    given: Value,
) -> Result<Control, Memory>
    ensures goes { IfOk result (GoesToValue program.now context.now heap.old context.now heap.new
        (λ p m. yields given (the_write_static p class field value))) }
    ensures short { IfOk result (λ c. height context.now + gives c ≤ height context.now + 1) }
{
    store_static(heap, program, class, field, value, given)
}

/// Puts a value into a class variable.
pub fn write_variable(
    context: &Context,
    heap: &mut Heap,
    program: &Program,
    class: ClassId,
    field: u32,
    value: Value,
) -> Result<Control, Memory>
    ensures goes { IfOk result (GoesToValue program.now context.now heap.old context.now heap.new
        (λ p m. the_write_static p class field value)) }
    ensures short { IfOk result (λ c. height context.now + gives c ≤ height context.now + 1) }
{
    write_static(heap, program, class, field, value)
}
