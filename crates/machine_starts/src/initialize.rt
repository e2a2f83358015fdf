// The initializers of classes that start, one after another, and what comes behind them.

ghost use Rattle.std.specs.Prelude.{◌≡◌, ◌≤◌, ◌<◌, ◌+◌, IfOk, drop, length, true};
ghost use Rattle.je_core.specs.declared.value.Value.TheVariants.{Null};
ghost use Rattle.je_core.specs.View.{initializer_view, program_view};
ghost use Rattle.je_classes.specs.Hierarchy.{class_at};
ghost use Rattle.je_java.specs.Constructors.{initializers_in};
ghost use Rattle.je_java.specs.Meaning.{run_initializer, run_initializers, start};
ghost use Rattle.je_java.specs.Steps.{initializing, out_of_start};
ghost use Rattle.machine_parts.specs.Starts.{initialize_all, load_from};
ghost use Rattle.machine_parts.specs.Ways.{goes_behind, starts_on as the_starts_on, height, gives};
ghost use Rattle.machine_parts.specs.way.Clauses.{GoesAhead, RunsAheadFrom, from_first};

use crate::starting::{mark, next_class, next_to_load};
use je_core::{ClassId, Initializer, Memory, Program, Slots, Value};
use je_heap::Heap;
use machine_forms::expr::begin_expr;
use machine_parts::class::{initializers, locals_behind, next_initializer};
use machine_parts::frame::{ClassesLeft, Context, Control, Env, Frame, Start, Then};
use machine_parts::starts::{Path, Starts};
use std::mem;

// Enters an initializer of a class itself, behind which the start goes on.
fn enter(context: &mut Context, initializer: &Initializer, start: Start) -> Result<Control, Memory>
    ensures goes { IfOk result (GoesAhead context.old context.new (λ p m k.
        run_initializer m Null (initializer_view initializer.now)
        (λ dropped. the_starts_on p m start k) (out_of_start start.class))) }
    ensures short { IfOk result (λ c. height context.new + gives c ≤ height context.old + 1) }
    ensures begun { context.new.begun ≡ context.old.begun }
{
    let this = Value::Null;
    let none = Slots::new(context.alloc);
    let locals = locals_behind(&initializer.locals, none)?;
    let caller = mem::replace(&mut context.env, Env { this, locals });
    context.frames.push(Frame::Starting { caller, start })?;
    Ok(Control::Exec(initializer.body.clone()?))
}

// The initializers of a class from the one at a place on, which from then on are the innermost; then those of the classes
// on a path, and what comes behind.
fn begin_class(
    context: &mut Context,
    starts: &mut Starts,
    heap: &Heap,
    program: &Program,
    class: ClassId,
    place: usize,
    classes: Path,
    then: Then,
) -> Result<Control, Memory>
    requires { place < length (initializers_in (class_at (program_view program.now) class)) }
    ensures goes { IfOk result (RunsAheadFrom program.now
        context.old heap.now starts.old context.new heap.now starts.new (λ p m k.
        initializing class (run_initializers m Null
        (from_first true (drop place (initializers_in (class_at p class)))))
        (λ u. initialize_all p m classes (goes_behind p m then k)) (out_of_start class))) }
    ensures short { IfOk result (λ c. height context.new + gives c ≤ height context.old + 1) }
    ensures begun { context.new.begun ≡ context.old.begun }
{
    let initializer = &initializers(program, class)[place];
    let outer = starts.starting();
    starts.put_starting(Some(class));
    let start = Start {
        class,
        at: place + 1,
        outer,
        classes,
        then,
    };
    enter(context, initializer, start)
}

/// Classes start in the order of their numbers, and then the load is over.
pub fn load_classes(
    context: &mut Context,
    starts: &mut Starts,
    heap: &Heap,
    program: &Program,
    left: ClassesLeft,
) -> Result<Control, Memory>
    ensures goes { IfOk result (RunsAheadFrom program.now
        context.old heap.now starts.old context.new heap.now starts.new
        (λ p m k. load_from p m left.next left.count)) }
    ensures short { IfOk result (λ c. height context.new + gives c ≤ height context.old + 1) }
    ensures begun { context.new.begun ≡ context.old.begun }
{
    match next_to_load(context.alloc, starts, program, left)? {
        None => Ok(Control::Done(None)),
        Some(next) => {
            let then = Then::Classes(next.left);
            begin_class(
                context, starts, heap, program, next.class, next.place, next.path, then,
            )
        }
    }
}

// What comes behind the start of classes.
fn go_behind(
    context: &mut Context,
    starts: &mut Starts,
    heap: &mut Heap,
    program: &Program,
    then: Then,
) -> Result<Control, Memory>
    ensures goes { IfOk result (RunsAheadFrom program.now
        context.old heap.old starts.old context.new heap.new starts.new
        (λ p m k. goes_behind p m then k)) }
    ensures short { IfOk result (λ c. height context.new + gives c ≤ height context.old + 1) }
    ensures begun { context.new.begun ≡ context.old.begun }
{
    match then {
        Then::Node(node) => begin_expr(context, heap, program, node),
        Then::Classes(left) => load_classes(context, starts, heap, program, left),
    }
}

// The initializers of the classes on a path, and then what comes behind.
fn initialize(
    context: &mut Context,
    starts: &mut Starts,
    heap: &mut Heap,
    program: &Program,
    classes: Path,
    then: Then,
) -> Result<Control, Memory>
    ensures goes { IfOk result (RunsAheadFrom program.now
        context.old heap.old starts.old context.new heap.new starts.new
        (λ p m k. initialize_all p m classes (goes_behind p m then k))) }
    ensures short { IfOk result (λ c. height context.new + gives c ≤ height context.old + 1) }
    ensures begun { context.new.begun ≡ context.old.begun }
{
    let mut path = classes;
    match next_class(program, &mut path) {
        Some((class, place)) => {
            begin_class(context, starts, heap, program, class, place, path, then)
        }
        None => go_behind(context, starts, heap, program, then),
    }
}

/// A class starts, with those above it, and then what comes behind.
pub fn start_class(
    context: &mut Context,
    starts: &mut Starts,
    heap: &mut Heap,
    program: &Program,
    class: ClassId,
    then: Then,
) -> Result<Control, Memory>
    ensures goes { IfOk result (RunsAheadFrom program.now
        context.old heap.old starts.old context.new heap.new starts.new
        (λ p m k. start p m class (λ u. goes_behind p m then k) k.out)) }
    ensures short { IfOk result (λ c. height context.new + gives c ≤ height context.old + 1) }
    ensures begun { context.new.begun ≡ context.old.begun }
{
    let path = mark(context.alloc, starts, program, class)?;
    initialize(context, starts, heap, program, path, then)
}

/// The start of classes goes on behind an initializer.
pub fn starts_on(
    context: &mut Context,
    starts: &mut Starts,
    heap: &mut Heap,
    program: &Program,
    start: Start,
) -> Result<Control, Memory>
    ensures goes { IfOk result (RunsAheadFrom program.now
        context.old heap.old starts.old context.new heap.new starts.new
        (λ p m k. the_starts_on p m start k)) }
    ensures short { IfOk result (λ c. height context.new + gives c ≤ height context.old + 1) }
    ensures begun { context.new.begun ≡ context.old.begun }
{
    let Start {
        class,
        at,
        outer,
        classes,
        then,
    } = start;
    let all = initializers(program, class);
    match next_initializer(all, true, at) {
        Some(place) => {
            let start = Start {
                class,
                at: place + 1,
                outer,
                classes,
                then,
            };
            enter(context, &all[place], start)
        }
        None => {
            starts.put_starting(outer);
            initialize(context, starts, heap, program, classes, then)
        }
    }
}
