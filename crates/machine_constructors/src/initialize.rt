// The initializers of an object under construction, and the statements of its constructor's body behind them.

ghost use Rattle.std.specs.Prelude.{◌≡◌, ◌≤◌, ◌+◌, IfOk, drop};
ghost use Rattle.je_core.specs.View.{initializer_view, stmt_form_view};
ghost use Rattle.je_java.specs.Constructors.{parts_of};
ghost use Rattle.je_java.specs.Meaning.{block as the_block, initialized as the_initialized, run_initializer};
ghost use Rattle.machine_parts.specs.Ways.{ended, goes_on, height, gives};
ghost use Rattle.machine_parts.specs.way.Clauses.{GoesAhead, GoesToEnd};

use je_core::{ClassId, Initializer, Memory, Program, Slots, Stmt};
use je_heap::Heap;
use machine_parts::class::{initializers, locals_behind, next_initializer};
use machine_parts::frame::{Context, Control, Env, Frame, Rest};
use machine_statements::stmt::parts_from;
use std::mem;
use std::rc::Rc;

// Enters an initializer, before the others from a place on and a body from a place on.
fn enter_initializer(
    context: &mut Context,
    class: ClassId,
    initializer: &Initializer,
    at: usize,
    body: Rc<Stmt>,
    next: usize,
) -> Result<Control, Memory>
    ensures goes { IfOk result (GoesAhead context.old context.new (λ p m k.
        run_initializer m context.old.env.this (initializer_view initializer.now)
        (λ dropped. ended (the_initialized p m class (stmt_form_view body.value.form) at next) k)
        k.out)) }
    ensures short { IfOk result (λ c. height context.new + gives c ≤ height context.old + 1) }
    ensures begun { context.new.begun ≡ context.old.begun }
{
    let this = context.env.this;
    let none = Slots::new(context.alloc);
    let locals = locals_behind(&initializer.locals, none)?;
    let caller = mem::replace(&mut context.env, Env { this, locals });
    context.frames.push(Frame::Initializer {
        caller,
        class,
        at,
        body,
        next,
    })?;
    Ok(Control::Exec(initializer.body.clone()?))
}

/// The initializers of instances of a class from a place on, and then the statements of a body from a place on.
pub fn initialized(
    context: &mut Context,
    heap: &Heap,
    program: &Program,
    class: ClassId,
    at: usize,
    body: Rc<Stmt>,
    next: usize,
) -> Result<Control, Memory>
    ensures goes { IfOk result (GoesToEnd program.now context.old heap.now context.new heap.now
        (λ p m. the_initialized p m class (stmt_form_view body.value.form) at next)) }
    ensures short { IfOk result (λ c. height context.new + gives c ≤ height context.old + 1) }
    ensures begun { context.new.begun ≡ context.old.begun }
{
    let all = initializers(program, class);
    match next_initializer(all, false, at) {
        Some(place) => enter_initializer(context, class, &all[place], place + 1, body, next),
        None => parts_from(body, next, &mut context.frames),
    }
}

/// What follows the constructor with which a body begins: the initializers, unless they have been run, and the statements
/// from a place on.
pub fn completed(
    context: &mut Context,
    heap: &Heap,
    program: &Program,
    rest: Rest,
) -> Result<Control, Memory>
    ensures goes { IfOk result (GoesToEnd program.now context.old heap.now context.new heap.now
        (λ p m. goes_on p m rest)) }
    ensures short { IfOk result (λ c. height context.new + gives c ≤ height context.old + 1) }
    ensures begun { context.new.begun ≡ context.old.begun }
{
    let Rest {
        class,
        body,
        is_initialized,
        next,
    } = rest;
    if is_initialized {
        parts_from(body, next, &mut context.frames)
    } else {
        initialized(context, heap, program, class, 0, body, next)
    }
}
