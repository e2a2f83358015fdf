// What the newest frame does with what comes.

ghost use Rattle.std.specs.Prelude.{◌≡◌, ◌≤◌, ◌+◌, IfOk, length};
ghost use Rattle.machine_parts.specs.way.Clauses.{BeginsValue, RunsAheadFrom};
ghost use Rattle.je_core.specs.View.{view};
ghost use Rattle.je_java.specs.Steps.{bind, binary as the_binary, write_field as the_write_field};
ghost use Rattle.machine_parts.specs.Ways.{frame_ways, height, gives};

use je_core::{BinOp, ClassId, Expr, Memory, ObjId, Program, Value};
use je_heap::Heap;
use machine_constructors::build::constructor_from;
use machine_constructors::initialize::{completed, initialized};
use machine_forms::array::{begin_index, begin_set_element, begin_set_index};
use machine_forms::call::{call_from, start_call};
use machine_forms::concat::{begin_concat_right, concat, tell_on};
use machine_forms::update::{update_at, update_by, update_object};
use machine_forms::variable::{begin_set_static, write_variable};
use machine_parts::array::{length_of, read_element, write_element};
use machine_parts::field::{read_field, write_field, write_local};
use machine_parts::frame::{Context, Control, End, Frame};
use machine_parts::kind::{cast, is_instance};
use machine_parts::make::throw_value;
use machine_parts::stack::Stack;
use machine_parts::starts::Starts;
use machine_parts::value::{and, binary, choose, convert, or, unary};
use machine_parts::variable::read_static;
use machine_starts::initialize::starts_on;
use machine_statements::catch::{catch, finish, go_on};
use machine_statements::stmt::{begin_leave, begin_nothing, parts_from, test};
use machine_statements::switch::{cases_from, switch};
use machine_statements::turn::{again, steps_from};
use std::rc::Rc;

// The right operand.
fn begin_right(
    op: BinOp,
    left: Value,
    right: Rc<Expr>,
    frames: &mut Stack,
) -> Result<Control, Memory>
    ensures goes { IfOk result (BeginsValue frames.old frames.new
        (λ p m. bind (m.eval (view right.value)) (λ b. the_binary p op left b))) }
    ensures short { IfOk result (λ c. length frames.new + gives c ≤ length frames.old + 1) }
{
    frames.push(Frame::Right { op, left })?;
    Ok(Control::Eval(right))
}

// The value that a field is to take.
fn begin_value(
    class: ClassId,
    field: u32,
    object: Value,
    value: Rc<Expr>,
    frames: &mut Stack,
) -> Result<Control, Memory>
    ensures goes { IfOk result (BeginsValue frames.old frames.new
        (λ p m. bind (m.eval (view value.value)) (λ v. the_write_field p class field object v))) }
    ensures short { IfOk result (λ c. length frames.new + gives c ≤ length frames.old + 1) }
{
    frames.push(Frame::SetField {
        class,
        field,
        object,
    })?;
    Ok(Control::Eval(value))
}

/// A value comes.
#[tactic(auto)]
pub fn give(
    context: &mut Context,
    starts: &mut Starts,
    heap: &mut Heap,
    program: &Program,
    frame: Frame,
    value: Value,
) -> Result<Control, Memory>
    ensures goes { IfOk result (RunsAheadFrom program.now
        context.old heap.old starts.old context.new heap.new starts.new
        (λ p m k. (frame_ways p m frame k).give value)) }
    ensures short { IfOk result (λ c. height context.new + gives c ≤ height context.old + 1) }
    ensures begun { context.new.begun ≡ context.old.begun }
{
    match frame {
        Frame::ReadField { class, field } => {
            read_field(context, heap, program, class, field, value)
        }
        Frame::SetLocal { local } => Ok(write_local(local, value, &mut context.env)),
        Frame::SetObject {
            class,
            field,
            value: next,
        } => begin_value(class, field, value, next, &mut context.frames),
        Frame::SetField {
            class,
            field,
            object,
        } => write_field(context, heap, program, class, field, object, value),
        Frame::ReadStatic { class, field } => Ok(read_static(heap, program, class, field)),
        Frame::SetBefore {
            class,
            field,
            value: next,
        } => begin_set_static(class, field, next, &mut context.frames),
        Frame::SetStatic { class, field } => {
            write_variable(context, heap, program, class, field, value)
        }
        Frame::ReadArray { index } => begin_index(value, index, &mut context.frames),
        Frame::ReadElement { array } => read_element(context, heap, program, array, value),
        Frame::Length => length_of(context, heap, program, value),
        Frame::SetArray { index, value: next } => {
            begin_set_index(value, index, next, &mut context.frames)
        }
        Frame::SetIndex { array, value: next } => {
            begin_set_element(array, value, next, &mut context.frames)
        }
        Frame::SetElement { array, index } => {
            write_element(context, heap, program, array, index, value)
        }
        Frame::Left { op, right } => begin_right(op, value, right, &mut context.frames),
        Frame::Right { op, left } => binary(context, heap, program, op, left, value),
        Frame::UpdateObject { node } => update_object(context, heap, program, node, value),
        Frame::UpdateIndex { node, object } => {
            update_at(context, heap, program, node, object, value)
        }
        Frame::Update {
            node,
            object,
            index,
            old,
        } => update_by(context, heap, program, node, object, index, old, value),
        Frame::Operand { op } => Ok(unary(op, value)),
        Frame::Converted { ty } => Ok(convert(ty, value)),
        Frame::Cast { ty } => cast(context, heap, program, ty, value),
        Frame::InstanceOf { of } => is_instance(context, heap, program, of, value),
        Frame::And { right } => Ok(and(value, right)),
        Frame::Or { right } => Ok(or(value, right)),
        Frame::Choose { yes, no } => Ok(choose(value, yes, no)),
        Frame::Test { node } => test(value, node, &mut context.frames),
        Frame::Receiver { call } => start_call(context, heap, program, call, value),
        Frame::Args {
            call,
            this,
            next,
            mut done,
        } => {
            done.push(value)?;
            call_from(context, heap, program, call, this, next, done)
        }
        Frame::Called { caller, built, .. } => {
            context.env = caller;
            Ok(Control::Give(built.unwrap_or(value)))
        }
        Frame::ConstructorArgs {
            class,
            body,
            call,
            next,
            mut done,
        } => {
            done.push(value)?;
            constructor_from(context, heap, program, class, body, call, next, done)
        }
        Frame::Constructor { caller, rest } => {
            context.env = caller;
            completed(context, heap, program, rest)
        }
        Frame::Initializer {
            caller,
            class,
            at,
            body,
            next,
        } => {
            context.env = caller;
            initialized(context, heap, program, class, at, body, next)
        }
        Frame::Starting { caller, start } => {
            context.env = caller;
            starts_on(context, starts, heap, program, start)
        }
        Frame::Parts { .. } | Frame::Body { .. } | Frame::Labelled { .. } => {
            Ok(Control::Give(value))
        }
        Frame::Try { .. } | Frame::Finally { .. } | Frame::Finishing { .. } => {
            Ok(Control::Give(value))
        }
        Frame::Switch { node } => switch(value, node, &mut context.frames),
        Frame::Cases { .. } => Ok(Control::Give(value)),
        Frame::Thrown => throw_value(context, heap, program, value),
        Frame::Steps { node, next } => steps_from(node, next, &mut context.frames),
        Frame::Ignored => Ok(begin_nothing()),
        Frame::Returned => Ok(begin_leave(value)),
        Frame::ConcatLeft { right } => begin_concat_right(value, right, &mut context.frames),
        Frame::ConcatRight { left } => concat(context, heap, program, left, value),
        Frame::Telling { caller, told, .. } => {
            context.env = caller;
            tell_on(context, heap, program, told, value)
        }
    }
}

/// A statement has come to its end.
#[tactic(auto)]
pub fn next(
    context: &mut Context,
    starts: &mut Starts,
    heap: &mut Heap,
    program: &Program,
    frame: Frame,
) -> Result<Control, Memory>
    ensures goes { IfOk result (RunsAheadFrom program.now
        context.old heap.old starts.old context.new heap.new starts.new
        (λ p m k. (frame_ways p m frame k).next tt)) }
    ensures short { IfOk result (λ c. height context.new + gives c ≤ height context.old + 1) }
    ensures begun { context.new.begun ≡ context.old.begun }
{
    match frame {
        Frame::Parts { block, next } => parts_from(block, next, &mut context.frames),
        Frame::Body { node } => again(node, &mut context.frames),
        Frame::Cases { node, group, next } => cases_from(node, group, next, &mut context.frames),
        Frame::Try { node } => finish(&node.form, End::Next, &mut context.frames),
        Frame::Finally { node } => finish(&node.form, End::Next, &mut context.frames),
        Frame::Finishing { end } => Ok(go_on(end)),
        Frame::Called {
            caller,
            result,
            built,
        } => {
            context.env = caller;
            Ok(Control::Give(built.unwrap_or(result)))
        }
        Frame::Telling {
            caller,
            result,
            told,
        } => {
            context.env = caller;
            tell_on(context, heap, program, told, result)
        }
        Frame::Constructor { caller, rest } => {
            context.env = caller;
            completed(context, heap, program, rest)
        }
        Frame::Initializer {
            caller,
            class,
            at,
            body,
            next,
        } => {
            context.env = caller;
            initialized(context, heap, program, class, at, body, next)
        }
        Frame::Starting { caller, start } => {
            context.env = caller;
            starts_on(context, starts, heap, program, start)
        }
        _ => Ok(Control::Next),
    }
}

/// The method is left.
#[tactic(auto)]
pub fn leave(
    context: &mut Context,
    starts: &mut Starts,
    heap: &mut Heap,
    program: &Program,
    frame: Frame,
    value: Value,
) -> Result<Control, Memory>
    ensures goes { IfOk result (RunsAheadFrom program.now
        context.old heap.old starts.old context.new heap.new starts.new
        (λ p m k. (frame_ways p m frame k).out.leave value)) }
    ensures short { IfOk result (λ c. height context.new + gives c ≤ height context.old + 1) }
    ensures begun { context.new.begun ≡ context.old.begun }
{
    match frame {
        Frame::Called { caller, built, .. } => {
            context.env = caller;
            Ok(Control::Give(built.unwrap_or(value)))
        }
        Frame::Telling { caller, told, .. } => {
            context.env = caller;
            tell_on(context, heap, program, told, value)
        }
        Frame::Constructor { caller, rest } => {
            context.env = caller;
            completed(context, heap, program, rest)
        }
        Frame::Initializer {
            caller,
            class,
            at,
            body,
            next,
        } => {
            context.env = caller;
            initialized(context, heap, program, class, at, body, next)
        }
        Frame::Starting { caller, start } => {
            context.env = caller;
            starts_on(context, starts, heap, program, start)
        }
        Frame::Try { node } => finish(&node.form, End::Leave(value), &mut context.frames),
        Frame::Finally { node } => finish(&node.form, End::Leave(value), &mut context.frames),
        _ => Ok(Control::Leave(value)),
    }
}

/// An exception unwinds.
#[tactic(auto)]
pub fn throw(
    context: &mut Context,
    starts: &Starts,
    heap: &Heap,
    program: &Program,
    frame: Frame,
    exception: ObjId,
) -> Result<Control, Memory>
    ensures goes { IfOk result (RunsAheadFrom program.now
        context.old heap.now starts.now context.new heap.now starts.now
        (λ p m k. (frame_ways p m frame k).out.throw exception)) }
    ensures short { IfOk result (λ c. height context.new + gives c ≤ height context.old + 1) }
    ensures begun { context.new.begun ≡ context.old.begun }
{
    match frame {
        Frame::Called { caller, .. } => {
            context.env = caller;
            Ok(Control::Throw(exception))
        }
        Frame::Telling { caller, .. } => {
            context.env = caller;
            Ok(Control::Throw(exception))
        }
        Frame::Constructor { caller, .. } => {
            context.env = caller;
            Ok(Control::Throw(exception))
        }
        Frame::Initializer { caller, .. } => {
            context.env = caller;
            Ok(Control::Throw(exception))
        }
        Frame::Starting { caller, start } => {
            context.env = caller;
            let class = start.class;
            Ok(Control::ThrownInStart { class, exception })
        }
        Frame::Try { node } => catch(context, heap, program, node, exception),
        Frame::Finally { node } => finish(&node.form, End::Throw(exception), &mut context.frames),
        _ => Ok(Control::Throw(exception)),
    }
}
