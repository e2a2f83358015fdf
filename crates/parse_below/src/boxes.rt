// Trees on the heap.

ghost use Rattle.std.specs.Prelude.{◌≡◌, IfOk};

use je_ast::{Expr, Stmt};
use je_base::Memory;
use std::alloc::Global;

/// The expression on the heap; Err for want of memory alone.
pub fn boxed(alloc: Global, expr: Expr) -> Result<Box<Expr>, Memory>
    ensures { IfOk result (λ b. b.value ≡ expr) }
{
    Ok(Box::new(alloc, expr)?)
}

/// The statement on the heap; Err for want of memory alone.
pub fn boxed_statement(alloc: Global, stmt: Stmt) -> Result<Box<Stmt>, Memory>
    ensures { IfOk result (λ b. b.value ≡ stmt) }
{
    Ok(Box::new(alloc, stmt)?)
}
