// One move of a machine.

ghost use Rattle.std.specs.Prelude.{◌≡◌, ◌≤◌, ◌<◌, ◌+◌, IfOk, IsErr, Some};
ghost use Rattle.machine_parts.specs.Ways.{gives};
ghost use Rattle.machine_parts.specs.declared.frame.Control.TheVariants.{Memory as NoMemory};
ghost use Rattle.machine_parts.specs.way.Clauses.{RunsOut, RunsOutFrom, GoesOn, FallsFrom, Stays};

use crate::give::{give, leave, next, throw};
use crate::node::{build, eval, exec};
use crate::start::start;
use je_base::NameId;
use je_core::{Memory, ObjId, Program, Value};
use je_heap::Heap;
use machine_parts::frame::{Context, Control, Reply};
use machine_parts::reply::nobody;
use machine_parts::starts::Starts;
use machine_starts::initialize::load_classes;
use machine_statements::jump::jump;

// A value goes to the newest frame, or is what the call comes to.
fn give_newest(
    context: &mut Context,
    starts: &mut Starts,
    heap: &mut Heap,
    program: &Program,
    reply: Reply,
    value: Value,
) -> Result<Control, Memory>
    ensures goes { IfOk result (RunsOutFrom program.now reply
        context.old heap.old starts.old context.new heap.new starts.new (λ p m k. k.give value)) }
    ensures falls { IfOk result (FallsFrom 1 context.old context.new) }
    ensures begun { context.new.begun ≡ context.old.begun }
{
    match context.frames.pop() {
        None => Ok(Control::Done(reply.replied(value))),
        Some(frame) => give(context, starts, heap, program, frame, value),
    }
}

// The newest frame goes on after a statement, or the call comes to the default of its result.
fn next_newest(
    context: &mut Context,
    starts: &mut Starts,
    heap: &mut Heap,
    program: &Program,
    reply: Reply,
) -> Result<Control, Memory>
    ensures goes { IfOk result (RunsOutFrom program.now reply
        context.old heap.old starts.old context.new heap.new starts.new (λ p m k. k.next tt)) }
    ensures falls { IfOk result (FallsFrom 1 context.old context.new) }
    ensures begun { context.new.begun ≡ context.old.begun }
{
    match context.frames.pop() {
        None => {
            context.env = nobody(context.alloc);
            Ok(Control::Done(reply.replied(reply.at_end())))
        }
        Some(frame) => next(context, starts, heap, program, frame),
    }
}

// The newest frame is left with a value, or that is what the call comes to.
fn leave_newest(
    context: &mut Context,
    starts: &mut Starts,
    heap: &mut Heap,
    program: &Program,
    reply: Reply,
    value: Value,
) -> Result<Control, Memory>
    ensures goes { IfOk result (RunsOutFrom program.now reply
        context.old heap.old starts.old context.new heap.new starts.new (λ p m k. k.out.leave value)) }
    ensures falls { IfOk result (FallsFrom 1 context.old context.new) }
    ensures begun { context.new.begun ≡ context.old.begun }
{
    match context.frames.pop() {
        None => {
            context.env = nobody(context.alloc);
            Ok(Control::Done(reply.replied(value)))
        }
        Some(frame) => leave(context, starts, heap, program, frame, value),
    }
}

// An exception unwinds the newest frame, or leaves the call.
fn throw_newest(
    context: &mut Context,
    starts: &Starts,
    heap: &Heap,
    program: &Program,
    reply: Reply,
    exception: ObjId,
) -> Result<Control, Memory>
    ensures goes { IfOk result (RunsOutFrom program.now reply
        context.old heap.now starts.now context.new heap.now starts.now (λ p m k. k.out.throw exception)) }
    ensures falls { IfOk result (FallsFrom 1 context.old context.new) }
    ensures begun { context.new.begun ≡ context.old.begun }
{
    match context.frames.pop() {
        None => {
            context.env = nobody(context.alloc);
            Ok(Control::Thrown(exception))
        }
        Some(frame) => throw(context, starts, heap, program, frame, exception),
    }
}

// A jump leaves the newest frame, or comes to it; none leaves the call.
fn jump_newest(
    context: &mut Context,
    reply: Reply,
    again: bool,
    label: Option<NameId>,
) -> Result<Control, Memory>
    ensures goes { IfOk result (RunsOut reply context.old context.new
        (λ p m k. k.out.jump again label)) }
    ensures falls { IfOk result (FallsFrom 1 context.old context.new) }
    ensures begun { context.new.begun ≡ context.old.begun }
{
    match context.frames.pop() {
        None => Ok(Control::Wrong),
        Some(frame) => jump(context, frame, again, label),
    }
}

/// One move: a call begins with its body, or a load with its first initializer, or a node begins, or one frame takes what
/// there is. `reply` is what the first body's value is for the caller.
#[tactic(auto)]
pub fn advance(
    context: &mut Context,
    starts: &mut Starts,
    heap: &mut Heap,
    program: &Program,
    reply: &mut Reply,
    control: Control,
) -> Result<Control, Memory>
    ensures goes { IfOk result (GoesOn program.now
        reply.old context.old heap.old starts.old control
        reply.new context.new heap.new starts.new) }
    ensures falls { IfOk result (FallsFrom (gives control) context.old context.new) }
    ensures begun { context.new.begun ≤ context.old.begun + 1 }
    ensures again { IfOk result (Stays control) }
    ensures lacks { control ≡ NoMemory → IsErr result }
{
    match control {
        Control::Start(call) => start(context, heap, program, reply, call),
        Control::Load(left) => load_classes(context, starts, heap, program, left),
        Control::Eval(node) => eval(context, starts, heap, program, node),
        Control::Exec(node) => exec(context, program, heap, node),
        Control::Build { class, body } => build(context, heap, program, class, body),
        Control::Give(value) => give_newest(context, starts, heap, program, *reply, value),
        Control::Next => next_newest(context, starts, heap, program, *reply),
        Control::Leave(value) => leave_newest(context, starts, heap, program, *reply, value),
        Control::Throw(exception) => throw_newest(
            context, starts, heap, program, *reply, exception,
        ),
        Control::Jump { again, label } => jump_newest(context, *reply, again, label),
        Control::Memory => Err(Memory),
        _ => Ok(control),
    }
}
