// A node begins, if there is a unit for it.

ghost use Rattle.std.specs.Prelude.{◌≤◌, ◌<◌, ◌+◌, IfOk};
ghost use Rattle.je_core.specs.View.{view, stmt_view};
ghost use Rattle.machine_parts.specs.way.Clauses.{RunsToValue, RunsToEnd, Falls};

use je_core::{ClassId, Expr, Memory, Program, Stmt};
use je_heap::Heap;
use machine_constructors::build::begin_body;
use machine_parts::frame::{Context, Control};
use machine_parts::starts::Starts;
use machine_starts::node::begin_node;
use machine_statements::stmt::begin_stmt;
use std::rc::Rc;

/// Takes the unit of an expression, and begins it, with the class that it starts.
pub fn eval(
    context: &mut Context,
    starts: &mut Starts,
    heap: &mut Heap,
    program: &Program,
    node: Rc<Expr>,
) -> Result<Control, Memory>
    ensures goes { IfOk result (RunsToValue program.now
        context.old heap.old starts.old context.new heap.new starts.new
        (λ m. m.eval (view node.value))) }
    ensures falls { IfOk result (Falls context.old context.new) }
    ensures begun { context.new.begun ≤ context.old.begun + 1 }
{
    if context.units == 0 {
        return Ok(Control::Spent);
    }
    context.units -= 1;
    context.begun += 1;
    begin_node(context, starts, heap, program, node)
}

/// Takes the unit of a statement, and begins it.
pub fn exec(
    context: &mut Context,
    program: &Program,
    heap: &Heap,
    node: Rc<Stmt>,
) -> Result<Control, Memory>
    ensures goes { IfOk result (RunsToEnd program.now context.old heap.now context.new heap.now
        (λ m. m.exec (stmt_view node.value))) }
    ensures falls { IfOk result (Falls context.old context.new) }
    ensures begun { context.new.begun ≤ context.old.begun + 1 }
{
    if context.units == 0 {
        return Ok(Control::Spent);
    }
    context.units -= 1;
    context.begun += 1;
    begin_stmt(context, heap, program, node)
}

/// Takes the unit of the body of a constructor of a class, and begins it.
pub fn build(
    context: &mut Context,
    heap: &mut Heap,
    program: &Program,
    class: ClassId,
    body: Rc<Stmt>,
) -> Result<Control, Memory>
    ensures goes { IfOk result (RunsToEnd program.now context.old heap.old context.new heap.new
        (λ m. m.build class (stmt_view body.value))) }
    ensures falls { IfOk result (Falls context.old context.new) }
    ensures begun { context.new.begun ≤ context.old.begun + 1 }
{
    if context.units == 0 {
        return Ok(Control::Spent);
    }
    context.units -= 1;
    context.begun += 1;
    begin_body(context, heap, program, class, body)
}
