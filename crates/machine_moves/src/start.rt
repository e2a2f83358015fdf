// A call from outside begins with its body, with no move of its own before, or ends with what a member of the library comes to.

ghost use Rattle.std.specs.Prelude.{◌≡◌, ◌≤◌, ◌<◌, ◌+◌, IfOk, Some};
ghost use Rattle.je_core.specs.View.{method_view, stmt_view};
ghost use Rattle.je_core.specs.Defaults.{default_of};
ghost use Rattle.je_java.specs.Raised.{class_cast};
ghost use Rattle.je_java.specs.Steps.{raise, bind, ret};
ghost use Rattle.je_java.specs.LibraryMembers.{run_library as the_run_library};
ghost use Rattle.machine_parts.specs.Outermost.{at_end, replied};
ghost use Rattle.je_java.specs.Meaning.{member_at, run_member, run_method, build_with, run_constructor, replied as the_replied, replied_exact, replied_virtual, replied_fresh, built, call_by};
ghost use Rattle.machine_parts.specs.declared.frame.Reply.{Reply as TheReply};
ghost use Rattle.machine_parts.specs.way.Clauses.{GoesToReply, BeginsBody, Falls};

use crate::node::{build, exec};
use class_members::{dispatched, method_at};
use je_core::{ClassId, Memory, Method, ObjId, Program, Slots, Stmt, Value};
use je_heap::Heap;
use je_java::Receiver;
use machine_forms::argument::hand_on;
use machine_forms::call::body;
use machine_forms::library::{Ran, run_library};
use machine_parts::class::{locals_for, method};
use machine_parts::frame::{Call, Context, Control, Env, Made, Reply};
use machine_parts::make::{class_cast_class, instance};
use machine_parts::reply::nobody;
use machine_parts::shape::{receiving_class, type_of};
use machine_parts::stack::Stack;
use std::rc::Rc;

// The first body begins, with nothing behind it.
fn begin_body(
    context: &mut Context,
    heap: &Heap,
    program: &Program,
    body: Rc<Stmt>,
    this: Value,
    locals: Slots,
) -> Result<Control, Memory>
    ensures goes { IfOk result (BeginsBody program.now context.old heap.now context.new heap.now
        (λ m. m.exec (stmt_view body.value)) (record { this = this; locals = locals })) }
    ensures falls { IfOk result (Falls context.old context.new) }
    ensures begun { context.new.begun ≤ context.old.begun + 1 }
{
    context.frames = Stack::new(context.alloc);
    context.env = Env { this, locals };
    exec(context, program, heap, body)
}

// The body of a constructor of a class begins, with nothing behind it.
fn begin_constructor(
    context: &mut Context,
    heap: &mut Heap,
    program: &Program,
    class: ClassId,
    body: Rc<Stmt>,
    this: Value,
    locals: Slots,
) -> Result<Control, Memory>
    ensures goes { IfOk result (BeginsBody program.now context.old heap.old context.new heap.new
        (λ m. m.build class (stmt_view body.value)) (record { this = this; locals = locals })) }
    ensures falls { IfOk result (Falls context.old context.new) }
    ensures begun { context.new.begun ≤ context.old.begun + 1 }
{
    context.frames = Stack::new(context.alloc);
    context.env = Env { this, locals };
    build(context, heap, program, class, body)
}

// A member of the library, which has no body: what it comes to ends the call.
fn end_by_library(
    context: &mut Context,
    heap: &mut Heap,
    program: &Program,
    reply: Reply,
    class: ClassId,
    at: usize,
    this: Value,
    args: &Slots,
) -> Result<Control, Memory>
    ensures goes { IfOk result (GoesToReply program.now
        context.old heap.old reply context.new heap.new (λ p m.
        bind (the_run_library p class at this args.now) (λ value. ret (replied reply value)))) }
    ensures falls { IfOk result (Falls context.old context.new) }
    ensures begun { context.new.begun ≡ context.old.begun }
{
    let ran = run_library(context, heap, program, class, at, this, args)?;
    context.env = nobody(context.alloc);
    match ran {
        Ran::Value(value) => Ok(Control::Done(reply.replied(value))),
        Ran::Throws(exception) => Ok(Control::Thrown(exception)),
        Ran::Spent => Ok(Control::Spent),
        Ran::Wrong => Ok(Control::Wrong),
    }
}

// A method with a body on a receiver: its body begins. Where it ends without a return, the reply is the one that goes with the
// default of its type.
fn start_body(
    context: &mut Context,
    heap: &Heap,
    program: &Program,
    reply: Reply,
    method: &Method,
    body: Rc<Stmt>,
    this: Value,
    args: Slots,
) -> Result<Control, Memory>
    requires body { Some (stmt_view body.value) ≡ (method_view method.now).body }
    requires end { replied reply (at_end reply) ≡ replied reply (default_of method.now.returns) }
    ensures goes { IfOk result (GoesToReply program.now
        context.old heap.now reply context.new heap.now (λ p m.
        bind (run_method m (method_view method.now) this args)
        (λ value. ret (replied reply value)))) }
    ensures falls { IfOk result (Falls context.old context.new) }
    ensures begun { context.new.begun ≤ context.old.begun + 1 }
{
    let locals = locals_for(method, args)?;
    begin_body(context, heap, program, body, this, locals)
}

// A constructor with a body on an object: its body begins.
fn start_building(
    context: &mut Context,
    heap: &mut Heap,
    program: &Program,
    reply: Reply,
    class: ClassId,
    constructor: &Method,
    body: Rc<Stmt>,
    this: Value,
    args: Slots,
) -> Result<Control, Memory>
    requires body { Some (stmt_view body.value) ≡ (method_view constructor.now).body }
    requires end { replied reply (at_end reply) ≡
        replied reply (default_of constructor.now.returns) }
    ensures goes { IfOk result (GoesToReply program.now
        context.old heap.old reply context.new heap.new (λ p m.
        bind (build_with m class (method_view constructor.now) this args)
        (λ value. ret (replied reply value)))) }
    ensures falls { IfOk result (Falls context.old context.new) }
    ensures begun { context.new.begun ≤ context.old.begun + 1 }
{
    let locals = locals_for(constructor, args)?;
    begin_constructor(context, heap, program, class, body, this, locals)
}

// A constructor of a number of a class on an object: its body begins; one of the library, which has none, is run.
fn start_on_object(
    context: &mut Context,
    heap: &mut Heap,
    program: &Program,
    reply: Reply,
    class: ClassId,
    at: usize,
    constructor: &Method,
    this: Value,
    args: Slots,
) -> Result<Control, Memory>
    requires end { replied reply (at_end reply) ≡
        replied reply (default_of constructor.now.returns) }
    ensures goes { IfOk result (GoesToReply program.now
        context.old heap.old reply context.new heap.new (λ p m.
        bind (run_constructor p m (member_at class at) (method_view constructor.now) this args)
        (λ value. ret (replied reply value)))) }
    ensures falls { IfOk result (Falls context.old context.new) }
    ensures begun { context.new.begun ≤ context.old.begun + 1 }
{
    match body(constructor)? {
        Some(body) => start_building(
            context,
            heap,
            program,
            reply,
            class,
            constructor,
            body,
            this,
            args,
        ),
        None => end_by_library(context, heap, program, reply, class, at, this, &args),
    }
}

// A method of a number of a class on a receiver: its body begins; a member of the library, which has none, is run.
fn start_member(
    context: &mut Context,
    heap: &mut Heap,
    program: &Program,
    reply: Reply,
    class: ClassId,
    at: usize,
    method: &Method,
    this: Value,
    args: Slots,
) -> Result<Control, Memory>
    requires end { replied reply (at_end reply) ≡ replied reply (default_of method.now.returns) }
    ensures goes { IfOk result (GoesToReply program.now
        context.old heap.old reply context.new heap.new (λ p m.
        bind (run_member p m (member_at class at) (method_view method.now) this args)
        (λ value. ret (replied reply value)))) }
    ensures falls { IfOk result (Falls context.old context.new) }
    ensures begun { context.new.begun ≤ context.old.begun + 1 }
{
    match body(method)? {
        Some(body) => start_body(context, heap, program, reply, method, body, this, args),
        None => end_by_library(context, heap, program, reply, class, at, this, &args),
    }
}

// A method on a receiver.
fn start_method(
    context: &mut Context,
    heap: &mut Heap,
    program: &Program,
    reply: &mut Reply,
    class: ClassId,
    at: usize,
    method: &Method,
    this: Value,
    args: Slots,
) -> Result<Control, Memory>
    ensures goes { IfOk result (GoesToReply program.now
        context.old heap.old reply.new context.new heap.new
        (λ p m. the_replied p m (member_at class at) (method_view method.now) this args)) }
    ensures falls { IfOk result (Falls context.old context.new) }
    ensures begun { context.new.begun ≤ context.old.begun + 1 }
{
    *reply = Reply::Result(method.returns);
    start_member(
        context, heap, program, *reply, class, at, method, this, args,
    )
}

// The named method itself, without a receiver.
fn start_exact(
    context: &mut Context,
    heap: &mut Heap,
    program: &Program,
    reply: &mut Reply,
    class: ClassId,
    at: u32,
    args: Slots,
) -> Result<Control, Memory>
    ensures goes { IfOk result (GoesToReply program.now
        context.old heap.old reply.new context.new heap.new
        (λ p m. replied_exact p m class at args)) }
    ensures falls { IfOk result (Falls context.old context.new) }
    ensures begun { context.new.begun ≤ context.old.begun + 1 }
{
    let Some(method) = method(program, class, at) else {
        return Ok(Control::Wrong);
    };
    let at = at as usize;
    let this = Value::Null;
    start_method(context, heap, program, reply, class, at, method, this, args)
}

// Ends with a new ClassCastException: no body has begun that could catch it.
fn end_by_class_cast(
    context: &mut Context,
    heap: &mut Heap,
    program: &Program,
) -> Result<Control, Memory>
    ensures goes { IfOk result (λ c. (reply : TheReply) → GoesToReply program.now
        context.old heap.old reply context.new heap.new (λ p m. raise p class_cast) c) }
    ensures falls { IfOk result (Falls context.old context.new) }
    ensures begun { context.new.begun ≡ context.old.begun }
{
    context.env = nobody(context.alloc);
    match instance(context, heap, program, class_cast_class())? {
        Made::Object(exception) => Ok(Control::Thrown(exception)),
        Made::Spent => Ok(Control::Spent),
        Made::Wrong => Ok(Control::Wrong),
    }
}

// The method that an object's class has for the named one, if it takes the arguments.
fn start_virtual(
    context: &mut Context,
    heap: &mut Heap,
    program: &Program,
    reply: &mut Reply,
    class: ClassId,
    at: u32,
    object: ObjId,
    args: Slots,
) -> Result<Control, Memory>
    ensures goes { IfOk result (GoesToReply program.now
        context.old heap.old reply.new context.new heap.new
        (λ p m. replied_virtual p m class at object args)) }
    ensures falls { IfOk result (Falls context.old context.new) }
    ensures begun { context.new.begun ≤ context.old.begun + 1 }
{
    let Some(own) = type_of(heap, object) else {
        return Ok(Control::Wrong);
    };
    let Some(named) = method(program, class, at) else {
        return Ok(Control::Wrong);
    };
    let Some((by, place)) = dispatched(program, receiving_class(own), class, at as usize) else {
        return Ok(Control::Wrong);
    };
    let Some(found) = method_at(program, by, place) else {
        return Ok(Control::Wrong);
    };
    let this = Value::Ref(object);
    match hand_on(context.alloc, heap, program, named, found, &args)? {
        Some(true) => start_method(context, heap, program, reply, by, place, found, this, args),
        Some(false) => end_by_class_cast(context, heap, program),
        None => Ok(Control::Wrong),
    }
}

// A constructor on an object that was made for it.
fn start_constructor(
    context: &mut Context,
    heap: &mut Heap,
    program: &Program,
    reply: &mut Reply,
    class: ClassId,
    at: usize,
    constructor: &Method,
    object: ObjId,
    args: Slots,
) -> Result<Control, Memory>
    ensures goes { IfOk result (GoesToReply program.now
        context.old heap.old reply.new context.new heap.new (λ p m.
        built p m (member_at class at) (method_view constructor.now) object args)) }
    ensures falls { IfOk result (Falls context.old context.new) }
    ensures begun { context.new.begun ≤ context.old.begun + 1 }
{
    *reply = Reply::Built(object);
    let this = Value::Ref(object);
    start_on_object(
        context,
        heap,
        program,
        *reply,
        class,
        at,
        constructor,
        this,
        args,
    )
}

// A new object, and its constructor.
fn start_fresh(
    context: &mut Context,
    heap: &mut Heap,
    program: &Program,
    reply: &mut Reply,
    class: ClassId,
    at: u32,
    args: Slots,
) -> Result<Control, Memory>
    ensures goes { IfOk result (GoesToReply program.now
        context.old heap.old reply.new context.new heap.new
        (λ p m. replied_fresh p m class at args)) }
    ensures falls { IfOk result (Falls context.old context.new) }
    ensures begun { context.new.begun ≤ context.old.begun + 1 }
{
    let object = match instance(context, heap, program, class)? {
        Made::Object(object) => object,
        Made::Spent => {
            context.env = nobody(context.alloc);
            return Ok(Control::Spent);
        }
        Made::Wrong => return Ok(Control::Wrong),
    };
    let Some(constructor) = method(program, class, at) else {
        return Ok(Control::Wrong);
    };
    let at = at as usize;
    start_constructor(
        context,
        heap,
        program,
        reply,
        class,
        at,
        constructor,
        object,
        args,
    )
}

/// Begins the call: finds or makes its receiver and its method, and begins the body, or runs the member of the library.
pub fn start(
    context: &mut Context,
    heap: &mut Heap,
    program: &Program,
    reply: &mut Reply,
    call: Call,
) -> Result<Control, Memory>
    ensures goes { IfOk result (GoesToReply program.now
        context.old heap.old reply.new context.new heap.new
        (λ p m. call_by p m call.receiver call.class call.method call.args)) }
    ensures falls { IfOk result (Falls context.old context.new) }
    ensures begun { context.new.begun ≤ context.old.begun + 1 }
{
    let Call {
        class,
        method,
        receiver,
        args,
    } = call;
    match receiver {
        Receiver::None => start_exact(context, heap, program, reply, class, method, args),
        Receiver::Object(object) => start_virtual(
            context, heap, program, reply, class, method, object, args,
        ),
        Receiver::Fresh => start_fresh(context, heap, program, reply, class, method, args),
    }
}
