// What statements come to.

ghost use Rattle.std.specs.Prelude.{◌≡◌, [], IfOk, OnOk, map};
ghost use Rattle.je_core.specs.View.{stmt_view, stmt_views, view};
ghost use Rattle.body_typing.specs.FinalVariables.{Scope as Seen};
ghost use Rattle.body_typing.specs.Bodies.{Progress as Progressed, alone as the_alone, block_of as the_block_of, first_of, followed, one as the_one, performed as the_performed};
ghost use Rattle.statement_forms.specs.Seen.{done_in};

use je_base::{Memory, Span};
use je_core::{Expr, Stmt, make_block, make_do, make_empty};
use std::alloc::Global;
use std::rc::Rc;

/// The code that statements come to, and the numbers of the locals that they declare in their block.
#[derive(Drop)]
pub struct Done {
    pub code: Vec<Stmt>,
    pub numbers: Vec<u32>,
}

/// Nothing that runs.
pub fn nothing(alloc: Global) -> Done
    ensures code { result.code.items ≡ [] }
    ensures numbers { result.numbers.items ≡ [] }
{
    Done {
        code: Vec::new(alloc),
        numbers: Vec::new(alloc),
    }
}

/// One statement, which declares nothing in its block.
pub fn one(alloc: Global, code: Stmt) -> Result<Done, Memory>
    ensures { IfOk result (λ d. (s : Seen) (pr : Progressed) →
        done_in d s pr ≡ the_one (stmt_view code) s pr) }
{
    let mut done = nothing(alloc);
    done.code.push(code)?;
    Ok(done)
}

/// One thing, and what follows it.
pub fn follow(done: &mut Done, more: Done) -> Result<(), Memory>
    ensures { OnOk result ((s : Seen) (pr : Progressed) → done_in done.new s pr ≡
        followed (done_in done.old s pr) (done_in more s pr)) }
{
    let Done {
        mut code,
        mut numbers,
    } = more;
    done.code.append(&mut code)?;
    done.numbers.append(&mut numbers)?;
    Ok(())
}

fn no_statement() -> Stmt
    ensures { stmt_view result ≡ first_of [] }
{
    let nowhere = Span {
        file: 0,
        start: 0,
        end: 0,
    };
    make_empty(nowhere, nowhere)
}

/// A statement that stands alone and is no declaration.
pub fn alone(done: Done) -> Stmt
    ensures { (s : Seen) (pr : Progressed) → stmt_view result ≡ the_alone (done_in done s pr) }
{
    let mut code = done.code;
    if code.is_empty() {
        return no_statement();
    }
    code.swap_remove(0)
}

/// The parts of a block.
pub fn parts(alloc: Global, code: Vec<Stmt>) -> Result<Vec<Rc<Stmt>>, Memory>
    ensures { IfOk result (λ ss. stmt_views ss.items ≡ map stmt_view code.items) }
{
    let mut parts = Vec::new(alloc);
    for part in code {
        parts.push(Rc::new(alloc, part)?)?;
    }
    Ok(parts)
}

/// A block, by its brackets.
pub fn block_of(alloc: Global, opening: Span, closing: Span, done: Done) -> Result<Stmt, Memory>
    ensures { IfOk result (λ b. (s : Seen) (pr : Progressed) →
        stmt_view b ≡ the_block_of opening closing (done_in done s pr)) }
{
    let Done { code, numbers } = done;
    let parts = parts(alloc, code)?;
    Ok(make_block(opening, closing, numbers, parts))
}

/// An expression as a statement, which begins there.
pub fn performed(alloc: Global, start: Span, expr: Expr) -> Result<Stmt, Memory>
    ensures { IfOk result (λ s. stmt_view s ≡ the_performed start (view expr)) }
{
    make_do(alloc, start, start, expr)
}
