// An expression begins behind its unit, with the class that it starts.

ghost use Rattle.std.specs.Prelude.{◌≡◌, ◌≤◌, ◌+◌, IfOk};
ghost use Rattle.je_core.specs.View.{view};
ghost use Rattle.je_java.specs.Meaning.{eval_node};
ghost use Rattle.machine_parts.specs.Ways.{valued, height, gives};
ghost use Rattle.machine_parts.specs.way.Clauses.{RunsAheadFrom};

use crate::initialize::start_class;
use crate::starting::class_to_start;
use je_core::{Expr, Memory, Program};
use je_heap::Heap;
use machine_forms::expr::begin_expr;
use machine_parts::frame::{Context, Control, Then};
use machine_parts::starts::Starts;
use std::rc::Rc;

/// An expression begins, once its unit is taken: the class that it starts, unless that has been started, and then its form.
pub fn begin_node(
    context: &mut Context,
    starts: &mut Starts,
    heap: &mut Heap,
    program: &Program,
    node: Rc<Expr>,
) -> Result<Control, Memory>
    ensures goes { IfOk result (RunsAheadFrom program.now
        context.old heap.old starts.old context.new heap.new starts.new
        (λ p m k. valued (eval_node p m (view node.value)) k)) }
    ensures short { IfOk result (λ c. height context.new + gives c ≤ height context.old + 1) }
    ensures begun { context.new.begun ≡ context.old.begun }
{
    match class_to_start(starts, program, &node.form) {
        Some(class) => start_class(context, starts, heap, program, class, Then::Node(node)),
        None => begin_expr(context, heap, program, node),
    }
}
