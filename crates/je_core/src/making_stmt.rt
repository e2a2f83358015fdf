// Statements of the core program, seen as the mirror's: what typing makes them by.

ghost use Rattle.std.specs.Prelude.{◌≡◌, IfOk, map, option_map};
ghost use Rattle.je_core.specs.Core.{stmt, group, catch, core_stmts, maybe_stmt, core_groups, core_catches};
ghost use Rattle.je_core.specs.Core.{Empty as EmptyForm, Block as BlockForm, Do as DoForm, If as IfForm, Loop as LoopForm, DoLoop as DoLoopForm};
ghost use Rattle.je_core.specs.Core.{Switch as SwitchForm, Labelled as LabelledForm, Jump as JumpForm, Return as ReturnForm, Throw as ThrowForm, Try as TryForm};
ghost use Rattle.je_core.specs.Making.{IsStatement, MakesStatement};
ghost use Rattle.je_core.specs.View.{view, views, label_view, stmt_view, stmt_form_view, stmt_views, stmt_view_if, catch_view, group_view};

use crate::expr::Expr;
use crate::making::part_if;
use crate::stmt::{Catch, Group, Label, Stmt, StmtForm};
use crate::types::ClassId;
use je_base::{Memory, NameId, Span};
use std::alloc::Global;
use std::rc::Rc;

// A statement of a form.
#[tactic(auto, using(crate::proofs::Views::stmt_view_is))]
fn statement(span: Span, at: Span, form: StmtForm) -> Stmt
    ensures { IsStatement result span at (stmt_form_view form) }
{
    Stmt { form, span, at }
}

// A statement that may be absent.
fn part(alloc: Global, s: Option<Stmt>) -> Result<Option<Rc<Stmt>>, Memory>
    ensures { IfOk result (λ r. stmt_view_if r ≡ option_map stmt_view s) }
{
    match s {
        None => Ok(None),
        Some(s) => Ok(Some(Rc::new(alloc, s)?)),
    }
}

/// `;`
pub fn make_empty(span: Span, at: Span) -> Stmt
    ensures { IsStatement result span at EmptyForm }
{
    statement(span, at, StmtForm::Empty)
}

/// A block, with the numbers of the locals that are declared directly in it.
pub fn make_block(span: Span, at: Span, locals: Vec<u32>, parts: Vec<Rc<Stmt>>) -> Stmt
    ensures { IsStatement result span at (BlockForm locals.items
        (core_stmts (stmt_views parts.items))) }
{
    statement(span, at, StmtForm::Block { locals, parts })
}

/// An expression whose value is dropped.
pub fn make_do(alloc: Global, span: Span, at: Span, expr: Expr) -> Result<Stmt, Memory>
    ensures { MakesStatement result span at (DoForm (view expr)) }
{
    let expr = Rc::new(alloc, expr)?;
    Ok(statement(span, at, StmtForm::Do { expr }))
}

/// `if`, with or without `else`.
pub fn make_if(
    alloc: Global,
    span: Span,
    at: Span,
    condition: Expr,
    yes: Stmt,
    no: Option<Stmt>,
) -> Result<Stmt, Memory>
    ensures { MakesStatement result span at (IfForm (view condition) (stmt_view yes)
        (maybe_stmt (option_map stmt_view no))) }
{
    let condition = Rc::new(alloc, condition)?;
    let yes = Rc::new(alloc, yes)?;
    let no = part(alloc, no)?;
    Ok(statement(span, at, StmtForm::If { condition, yes, no }))
}

/// `while` and `for`.
pub fn make_loop(
    alloc: Global,
    span: Span,
    at: Span,
    condition: Expr,
    steps: Vec<Rc<Expr>>,
    body: Stmt,
) -> Result<Stmt, Memory>
    ensures { MakesStatement result span at (LoopForm (view condition) (views steps.items)
        (stmt_view body)) }
{
    let condition = Rc::new(alloc, condition)?;
    let body = Rc::new(alloc, body)?;
    let form = StmtForm::Loop {
        condition,
        steps,
        body,
    };
    Ok(statement(span, at, form))
}

/// `do .. while`
pub fn make_do_loop(
    alloc: Global,
    span: Span,
    at: Span,
    body: Stmt,
    condition: Expr,
) -> Result<Stmt, Memory>
    ensures { MakesStatement result span at (DoLoopForm (stmt_view body) (view condition)) }
{
    let body = Rc::new(alloc, body)?;
    let condition = Rc::new(alloc, condition)?;
    Ok(statement(span, at, StmtForm::DoLoop { body, condition }))
}

/// `switch`, with the numbers of the locals that are declared directly in its groups.
pub fn make_switch(
    alloc: Global,
    span: Span,
    at: Span,
    locals: Vec<u32>,
    selector: Expr,
    groups: Vec<Group>,
) -> Result<Stmt, Memory>
    ensures { MakesStatement result span at (SwitchForm locals.items (view selector)
        (core_groups (map group_view groups.items))) }
{
    let selector = Rc::new(alloc, selector)?;
    let form = StmtForm::Switch {
        locals,
        selector,
        groups,
    };
    Ok(statement(span, at, form))
}

/// A statement under a name that jumps may give.
pub fn make_labelled(
    alloc: Global,
    span: Span,
    at: Span,
    name: NameId,
    body: Stmt,
) -> Result<Stmt, Memory>
    ensures { MakesStatement result span at (LabelledForm name (stmt_view body)) }
{
    let body = Rc::new(alloc, body)?;
    Ok(statement(span, at, StmtForm::Labelled { name, body }))
}

/// `continue` where `again` is true, else `break`.
pub fn make_jump(span: Span, at: Span, again: bool, label: Option<NameId>) -> Stmt
    ensures { IsStatement result span at (JumpForm again label) }
{
    statement(span, at, StmtForm::Jump { again, label })
}

/// `return`, with or without a value.
pub fn make_return(alloc: Global, span: Span, at: Span, value: Option<Expr>) -> Result<Stmt, Memory>
    ensures { MakesStatement result span at (ReturnForm (option_map view value)) }
{
    let value = part_if(alloc, value)?;
    Ok(statement(span, at, StmtForm::Return { value }))
}

/// `throw`
pub fn make_throw(alloc: Global, span: Span, at: Span, value: Expr) -> Result<Stmt, Memory>
    ensures { MakesStatement result span at (ThrowForm (view value)) }
{
    let value = Rc::new(alloc, value)?;
    Ok(statement(span, at, StmtForm::Throw { value }))
}

/// `try`; `last` is the block behind `finally`.
pub fn make_try(
    alloc: Global,
    span: Span,
    at: Span,
    body: Stmt,
    catches: Vec<Catch>,
    last: Option<Stmt>,
) -> Result<Stmt, Memory>
    ensures { MakesStatement result span at (TryForm (stmt_view body)
        (core_catches (map catch_view catches.items)) (maybe_stmt (option_map stmt_view last))) }
{
    let body = Rc::new(alloc, body)?;
    let last = part(alloc, last)?;
    let form = StmtForm::Try {
        body,
        catches,
        last,
    };
    Ok(statement(span, at, form))
}

/// A group of a switch.
#[tactic(auto, using(crate::proofs::Views::parts_seen))]
pub fn make_group(labels: Vec<Label>, parts: Vec<Rc<Stmt>>) -> Group
    ensures { group_view result ≡ group (map label_view labels.items)
        (core_stmts (stmt_views parts.items)) }
{
    Group { labels, parts }
}

/// A catch, with the span of the name of the class that it takes.
#[tactic(auto, using(crate::proofs::Views::parts_seen))]
pub fn make_catch(
    alloc: Global,
    local: u32,
    class: ClassId,
    span: Span,
    body: Stmt,
) -> Result<Catch, Memory>
    ensures { IfOk result (λ c. catch_view c ≡ catch local class span (stmt_view body)) }
{
    let body = Rc::new(alloc, body)?;
    Ok(Catch {
        local,
        class,
        span,
        body,
    })
}
