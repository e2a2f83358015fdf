// The enhanced `for` over an array (JLS 14.14.2): the array and an index stand in locals that no source names.

ghost use Rattle.std.specs.Prelude.{◌≡◌, ◌+◌, ◌<◌, ◌^◌, ◌∷◌, [], pos, IfOk};
ghost use Rattle.je_core.specs.Core.{Assign as AssignForm, Block as BlockForm, Const as ConstForm, Local as LocalForm, core_stmts, node, stmt};
ghost use Rattle.je_core.specs.declared.types.Base.TheVariants as base;
ghost use Rattle.je_core.specs.declared.value.Value.TheVariants as value;
ghost use Rattle.je_fitting.specs.Types.{of as the_of};
ghost use Rattle.je_core.specs.View.{stmt_view, stmt_views, view};
ghost use Rattle.name_types.specs.View.{shown};
ghost use Rattle.source_subtypes.specs.View.{heads_of};
ghost use Rattle.source_types.specs.Erasure.{erased as the_erased};
ghost use Rattle.body_typing.specs.Bodies.{performed as the_performed};
ghost use Rattle.body_typing.specs.ForEach.{array_local as the_array_local, begins as the_begins, element as the_element, is_within as the_is_within, next_index as the_next_index, turns as the_turns, variable_assigned as the_variable_assigned};
ghost use Rattle.typed_nodes.specs.Seen.{seen};

use fit_parts::of;
use je_base::{Memory, Span};
use je_core::{
    Base, BinOp, Expr, Mark, Stmt, Ty, Value, make_assign, make_binary, make_block, make_const,
    make_do, make_index, make_length, make_local, make_loop, make_update,
};
use name_types::SrcTy;
use source_subtypes::{ClassHeads, erased};
use std::alloc::Global;
use std::rc::Rc;
use typed_nodes::TypedExpr;

/// An array whose elements are gone through, and where it is written, brackets included: all that isn't written has
/// that span. `local` is the number of the array's local; those of the index and of the variable come next.
#[derive(Clone, Copy)]
pub struct Each<'a> {
    pub heads: &'a ClassHeads,
    pub span: Span,
    pub array: &'a TypedExpr,
    pub local: u32,
}

fn hidden(span: Span, ty: Ty) -> Mark
    ensures { result ≡ record { ty = ty; span = span; at = span } }
{
    Mark { ty, span, at: span }
}

// The local of an array of a type.
fn array_local(heads: &ClassHeads, span: Span, ty: &SrcTy, local: u32) -> Expr
    ensures { view result ≡
        node (LocalForm local) (the_erased (heads_of heads.now) (shown ty.now)) span span }
{
    make_local(hidden(span, erased(heads, ty)), local)
}

// That of the index behind it.
fn index_local(span: Span, local: u32) -> Expr
    requires { local + 1 < 2 ^ 32 }
    ensures { view result ≡ node (LocalForm (local + 1)) (the_of base.Int) span span }
{
    make_local(hidden(span, of(Base::Int)), local + 1)
}

// An expression as a statement.
fn performed(alloc: Global, start: Span, expr: Expr) -> Result<Stmt, Memory>
    ensures { IfOk result (λ s. stmt_view s ≡ the_performed start (view expr)) }
{
    make_do(alloc, start, start, expr)
}

fn pair(alloc: Global, first: Stmt, second: Stmt) -> Result<Vec<Rc<Stmt>>, Memory>
    ensures { IfOk result (λ ss. stmt_views ss.items ≡ stmt_view first ∷ stmt_view second ∷ []) }
{
    let mut both = Vec::new(alloc);
    both.push(Rc::new(alloc, first)?)?;
    both.push(Rc::new(alloc, second)?)?;
    Ok(both)
}

fn array_assigned(
    alloc: Global,
    heads: &ClassHeads,
    span: Span,
    array: TypedExpr,
    local: u32,
) -> Result<Expr, Memory>
    ensures { IfOk result (λ e. view e ≡ node (AssignForm (the_array_local (heads_of heads.now) span
        (seen array) local) (view array.node)) (the_erased (heads_of heads.now) (shown array.ty))
        span span) }
{
    let TypedExpr { node, ty } = array;
    let mark = hidden(span, erased(heads, &ty));
    let place = array_local(heads, span, &ty, local);
    make_assign(alloc, mark, place, node)
}

// The index begins with 0.
fn index_assigned(alloc: Global, span: Span, local: u32) -> Result<Expr, Memory>
    requires { local + 1 < 2 ^ 32 }
    ensures { IfOk result (λ e. view e ≡ node (AssignForm
        (node (LocalForm (local + 1)) (the_of base.Int) span span)
        (node (ConstForm (value.Int (pos 0)) []) (the_of base.Int) span span)) (the_of base.Int)
        span span) }
{
    let mark = hidden(span, of(Base::Int));
    let zero = make_const(mark, Value::Int(0), Vec::new(alloc));
    make_assign(alloc, mark, index_local(span, local), zero)
}

/// The array and the index get their values.
pub fn begins(
    alloc: Global,
    heads: &ClassHeads,
    span: Span,
    array: TypedExpr,
    local: u32,
    word: Span,
) -> Result<Vec<Rc<Stmt>>, Memory>
    requires { local + 1 < 2 ^ 32 }
    ensures { IfOk result (λ ss. stmt_views ss.items ≡
        the_begins (heads_of heads.now) span (seen array) local word) }
{
    let array = array_assigned(alloc, heads, span, array, local)?;
    let first = performed(alloc, word, array)?;
    let index = index_assigned(alloc, span, local)?;
    let second = performed(alloc, word, index)?;
    let both = pair(alloc, first, second)?;
    Ok(both)
}

/// The element at the index, of a type.
pub fn element(alloc: Global, each: Each, ty: SrcTy) -> Result<TypedExpr, Memory>
    requires { each.local + 1 < 2 ^ 32 }
    ensures { IfOk result (λ t. seen t ≡ the_element (heads_of each.entry.heads.now)
        each.entry.span (seen each.entry.array.now) each.entry.local (shown ty)) }
{
    let array = array_local(each.heads, each.span, &each.array.ty, each.local);
    let index = index_local(each.span, each.local);
    let mark = hidden(each.span, erased(each.heads, &ty));
    let node = make_index(alloc, mark, array, index)?;
    Ok(TypedExpr { node, ty })
}

// The index is less than the array's length.
fn is_within(alloc: Global, each: Each) -> Result<Expr, Memory>
    requires { each.local + 1 < 2 ^ 32 }
    ensures { IfOk result (λ e. view e ≡ the_is_within (heads_of each.entry.heads.now)
        each.entry.span (seen each.entry.array.now) each.entry.local) }
{
    let array = array_local(each.heads, each.span, &each.array.ty, each.local);
    let length = make_length(alloc, hidden(each.span, of(Base::Int)), array)?;
    let index = index_local(each.span, each.local);
    let mark = hidden(each.span, of(Base::Bool));
    make_binary(alloc, mark, BinOp::Lt, index, length)
}

fn next_index(alloc: Global, each: Each) -> Result<Expr, Memory>
    requires { each.local + 1 < 2 ^ 32 }
    ensures { IfOk result (λ e. view e ≡ the_next_index (heads_of each.entry.heads.now)
        each.entry.span (seen each.entry.array.now) each.entry.local) }
{
    let index = index_local(each.span, each.local);
    let mark = hidden(each.span, of(Base::Int));
    make_update(alloc, mark, index, BinOp::Add, None, false)
}

// The variable gets a value of its type, at its name.
fn variable_assigned(
    alloc: Global,
    each: Each,
    ty: &SrcTy,
    at: Span,
    from: Expr,
) -> Result<Expr, Memory>
    requires { each.local + 2 < 2 ^ 32 }
    ensures { IfOk result (λ e. view e ≡ the_variable_assigned (heads_of each.entry.heads.now)
        each.entry.span (seen each.entry.array.now) each.entry.local (shown ty.now) at
        (view from)) }
{
    let mark = hidden(at, erased(each.heads, ty));
    let variable = make_local(mark, each.local + 2);
    make_assign(alloc, mark, variable, from)
}

// What is done with each element.
fn turn(
    alloc: Global,
    each: Each,
    word: Span,
    ty: &SrcTy,
    at: Span,
    from: Expr,
    body: Stmt,
) -> Result<Stmt, Memory>
    requires { each.local + 2 < 2 ^ 32 }
    ensures { IfOk result (λ s. stmt_view s ≡ stmt (BlockForm ((each.entry.local + 2) ∷ [])
        (core_stmts (the_performed word (the_variable_assigned (heads_of each.entry.heads.now)
        each.entry.span (seen each.entry.array.now) each.entry.local (shown ty.now) at (view from))
        ∷ stmt_view body ∷ []))) word word) }
{
    let assigned = variable_assigned(alloc, each, ty, at, from)?;
    let first = performed(alloc, word, assigned)?;
    let parts = pair(alloc, first, body)?;
    let mut locals = Vec::new(alloc);
    locals.push(each.local + 2)?;
    Ok(make_block(word, word, locals, parts))
}

/// The loop, in whose body the variable, a local of a type at its name, first gets an element that is converted to
/// that type.
pub fn turns(
    alloc: Global,
    each: Each,
    word: Span,
    ty: &SrcTy,
    at: Span,
    from: Expr,
    body: Stmt,
) -> Result<Stmt, Memory>
    requires { each.local + 2 < 2 ^ 32 }
    ensures { IfOk result (λ s. stmt_view s ≡ the_turns (heads_of each.entry.heads.now)
        each.entry.span (seen each.entry.array.now) each.entry.local word (shown ty.now) at
        (view from) (stmt_view body)) }
{
    let test = is_within(alloc, each)?;
    let next = next_index(alloc, each)?;
    let mut steps = Vec::new(alloc);
    steps.push(Rc::new(alloc, next)?)?;
    let turn = turn(alloc, each, word, ty, at, from, body)?;
    make_loop(alloc, word, word, test, steps, turn)
}
