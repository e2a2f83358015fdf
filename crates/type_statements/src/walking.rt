// The walk over statements (JLS 14).

ghost use Rattle.std.specs.Prelude.{◌≡◌, IfErr, IfOk, None, OnOk, Some, map, option_map};
ghost use Rattle.je_ast.specs.Types.{type_view};
ghost use Rattle.je_ast.specs.View.{block_view, catch_view, catch_views_of, for_initializer_view, group_view, group_views_of, statement_node_view, statement_view, statement_views_of, view, view_of_option, views_of};
ghost use Rattle.je_core.specs.declared.types.ClassId.{ClassId as ClassNumber};
ghost use Rattle.je_core.specs.View.{stmt_view};
ghost use Rattle.je_typing.specs.Answers.{IsFault};
ghost use Rattle.je_typing.specs.Judged.{gives};
ghost use Rattle.body_typing.specs.Statements.{catches as the_catches, groups as the_groups};
ghost use Rattle.body_scopes.specs.Extending.{Extends};
ghost use Rattle.body_scopes.specs.View.{scope_seen};
ghost use Rattle.statement_forms.specs.View.{clause_seen};
ghost use Rattle.statement_forms.specs.Bodies.{HasAllMethods};
ghost use Rattle.statement_forms.specs.Seen.{done_seen, groups_in, known_of, program_of, progress_seen, returning_of};
ghost use Rattle.type_statements.specs.Walk.{statements_by};
ghost use Rattle.type_statements.specs.way.Caught.{one_catch};
ghost use Rattle.type_statements.specs.way.Grouped.{group_done, one_group};
ghost use Rattle.type_statements.specs.way.Written.{a_block, a_do_while, a_for, a_for_each, a_labelled, a_switch, a_try, a_try_finally, a_while, an_if, an_if_else, statement_by};

use crate::declaring::locals;
use crate::each::{Elements, for_each_judged};
use crate::expressing::{condition_or, condition_span, steps, valued};
use crate::heads::{ForHead, for_start};
use crate::local_classes::local_class;
use crate::simple::{expression_statement, return_statement, throw_statement};
use crate::switch_labels::labels;
use crate::switches::switch_judged;
use body_scopes::Scope;
use body_type_steps::{bare_class_type, body_type};
use fit_statements::{Targets, with_label};
use je_ast::{Block, Catch, Expr, Group, Identifier, Stmt};
use je_base::Span;
use je_core::{ClassId, make_try};
use je_typing::Refusal;
use statement_forms::{
    Clause, Done, EachHead, Groups, Progress, Walk, WalkedGroup, add_element, add_group,
    add_number, alloc, alone, block_of, clauses, empty_statement, enum_of, follow, for_code,
    grouped, is_loop, jump_statement, labelled_code, local_of, next_number, next_numbers,
    no_groups, nothing, one, selected_by,
};
use statement_steps::{do_loop, if_statement, loop_statement};
use tree_spans::span;

/// The statements of a block, along which the scope grows.
#[cycle(statement)]
pub fn statements<'a>(
    walk: Walk,
    targets: &Targets<'_>,
    scope: &mut Scope,
    progress: &mut Progress<'a>,
    list: &'a [Stmt],
) -> Result<Done, Refusal>
    requires { HasAllMethods walk.bodies.now }
    ensures ok { IfOk result (λ d. statements_by walk.entry targets.now (scope_seen scope.old)
        (progress_seen progress.old) (statement_views_of list.now)
        ≡ gives (done_seen d scope.new progress.new)) }
    ensures extends { OnOk result (Extends (scope_seen scope.old) (scope_seen scope.new)) }
    ensures err { IfErr result (IsFault (statements_by walk.entry targets.now
        (scope_seen scope.old) (progress_seen progress.old) (statement_views_of list.now))) }
{
    let mut done = nothing(alloc(walk));
    for stmt in list {
        let more = statement(walk, targets, None, scope, progress, stmt)?;
        follow(&mut done, more)?;
    }
    Ok(done)
}

#[cycle(statement)]
#[tactic(auto, using(je_ast::proofs::Views::statement_is))]
fn statement<'a>(
    walk: Walk,
    targets: &Targets<'_>,
    label: Option<Identifier>,
    scope: &mut Scope,
    progress: &mut Progress<'a>,
    stmt: &'a Stmt,
) -> Result<Done, Refusal>
    requires { HasAllMethods walk.bodies.now }
    ensures ok { IfOk result (λ d. statement_by walk.entry targets.now label (scope_seen scope.old)
        (progress_seen progress.old) (statement_view stmt.now)
        ≡ gives (done_seen d scope.new progress.new)) }
    ensures extends { OnOk result (Extends (scope_seen scope.old) (scope_seen scope.new)) }
    ensures err { IfErr result (IsFault (statement_by walk.entry targets.now label
        (scope_seen scope.old) (progress_seen progress.old) (statement_view stmt.now))) }
{
    statement_here(walk, targets, label, scope, progress, stmt)
}

#[cycle(statement)]
#[tactic(auto, using(crate::proofs::Staying::stays_extends))]
fn statement_here<'a>(
    walk: Walk,
    targets: &Targets<'_>,
    label: Option<Identifier>,
    scope: &mut Scope,
    progress: &mut Progress<'a>,
    stmt: &'a Stmt,
) -> Result<Done, Refusal>
    requires { HasAllMethods walk.bodies.now }
    ensures ok { IfOk result (λ d. statement_by walk.entry targets.now label (scope_seen scope.old)
        (progress_seen progress.old) (statement_node_view stmt.now)
        ≡ gives (done_seen d scope.new progress.new)) }
    ensures extends { OnOk result (Extends (scope_seen scope.old) (scope_seen scope.new)) }
    ensures err { IfErr result (IsFault (statement_by walk.entry targets.now label
        (scope_seen scope.old) (progress_seen progress.old) (statement_node_view stmt.now))) }
{
    match stmt {
        Stmt::Local {
            first,
            is_final,
            ty,
            vars,
            ..
        } => locals(walk, scope, progress, *is_final, *first, ty, vars),
        Stmt::Class { decl } => local_class(walk, scope, progress, decl),
        Stmt::Block { block } => inner_block(walk, targets, scope, progress, block),
        Stmt::Empty { span } => empty_statement(walk, *span),
        Stmt::ExpressionStatement { first, expr, .. } => {
            expression_statement(walk, scope, progress, *first, expr)
        }
        Stmt::Labelled { label, body, .. } => {
            labelled(walk, targets, scope, progress, *label, body)
        }
        Stmt::If {
            first,
            condition,
            yes,
            ..
        } => if_only(walk, targets, scope, progress, *first, condition, yes),
        Stmt::IfElse {
            first,
            condition,
            yes,
            no,
            ..
        } => if_else(walk, targets, scope, progress, *first, condition, yes, no),
        Stmt::While {
            first,
            condition,
            body,
            ..
        } => while_loop(walk, targets, scope, progress, *first, condition, body),
        Stmt::Do {
            first,
            body,
            condition,
            ..
        } => do_while(walk, targets, scope, progress, *first, body, condition),
        Stmt::For {
            first,
            init,
            condition,
            steps,
            body,
            ..
        } => {
            let head = ForHead {
                word: *first,
                init,
                condition,
                steps,
            };
            for_loop(walk, targets, label, scope, progress, head, body)
        }
        Stmt::ForEach {
            first,
            is_final,
            ty,
            name,
            array,
            body,
            ..
        } => {
            let head = EachHead {
                word: *first,
                is_final: *is_final,
                ty,
                name: *name,
                array,
            };
            for_each(walk, targets, label, scope, progress, head, body)
        }
        Stmt::Switch {
            first,
            selector,
            groups,
            span,
        } => switch(
            walk, targets, scope, progress, *first, selector, groups, *span,
        ),
        Stmt::Break { first, label, .. } => jump_statement(walk, targets, false, *first, *label),
        Stmt::Continue { first, label, .. } => jump_statement(walk, targets, true, *first, *label),
        Stmt::Return { first, value, .. } => {
            return_statement(walk, scope, progress, *first, value)
        }
        Stmt::Throw { first, value, .. } => throw_statement(walk, scope, progress, *first, value),
        Stmt::Try {
            first,
            block,
            catches,
            ..
        } => try_only(walk, targets, scope, progress, *first, block, catches),
        Stmt::TryFinally {
            first,
            block,
            catches,
            word,
            last,
            ..
        } => try_finally(
            walk, targets, scope, progress, *first, block, catches, *word, last,
        ),
    }
}

#[cycle(statement)]
#[tactic(auto, using(je_typing::proofs::Walks::walks))]
fn inner_block<'a>(
    walk: Walk,
    targets: &Targets<'_>,
    scope: &mut Scope,
    progress: &mut Progress<'a>,
    block: &'a Block,
) -> Result<Done, Refusal>
    requires { HasAllMethods walk.bodies.now }
    ensures ok { IfOk result (λ d. statement_by walk.entry targets.now None (scope_seen scope.old)
        (progress_seen progress.old) (a_block (block_view block.now))
        ≡ gives (done_seen d scope.new progress.new)) }
    ensures stays { OnOk result (scope_seen scope.new ≡ scope_seen scope.old) }
    ensures err { IfErr result (IsFault (statement_by walk.entry targets.now None
        (scope_seen scope.old) (progress_seen progress.old) (a_block (block_view block.now)))) }
{
    let depth = scope.depth();
    let done = statements(walk, targets, scope, progress, &block.stmts)?;
    scope.leave(depth);
    let code = block_of(alloc(walk), block.opening, block.closing, done)?;
    let whole = one(alloc(walk), code)?;
    Ok(whole)
}

#[cycle(statement)]
#[tactic(auto, using(je_typing::proofs::Walks::walks))]
fn labelled<'a>(
    walk: Walk,
    targets: &Targets<'_>,
    scope: &mut Scope,
    progress: &mut Progress<'a>,
    label: Identifier,
    body: &'a Stmt,
) -> Result<Done, Refusal>
    requires { HasAllMethods walk.bodies.now }
    ensures ok { IfOk result (λ d. statement_by walk.entry targets.now None (scope_seen scope.old)
        (progress_seen progress.old) (a_labelled label (statement_view body.now))
        ≡ gives (done_seen d scope.new progress.new)) }
    ensures stays { OnOk result (scope_seen scope.new ≡ scope_seen scope.old) }
    ensures err { IfErr result (IsFault (statement_by walk.entry targets.now None
        (scope_seen scope.old) (progress_seen progress.old) (a_labelled label (statement_view
        body.now)))) }
{
    let labels = with_label(alloc(walk), targets.labels, label.name, is_loop(body))?;
    let inside = Targets {
        labels: &labels,
        has_break: targets.has_break,
        has_continue: targets.has_continue,
    };
    let depth = scope.depth();
    let done = statement(walk, &inside, Some(label), scope, progress, body)?;
    scope.leave(depth);
    let code = labelled_code(walk, targets, label, body, alone(done))?;
    let whole = one(alloc(walk), code)?;
    Ok(whole)
}

#[cycle(statement)]
#[tactic(auto, using(je_typing::proofs::Walks::walks))]
fn if_only<'a>(
    walk: Walk,
    targets: &Targets<'_>,
    scope: &mut Scope,
    progress: &mut Progress<'a>,
    word: Span,
    condition: &'a Expr,
    yes: &'a Stmt,
) -> Result<Done, Refusal>
    requires { HasAllMethods walk.bodies.now }
    ensures ok { IfOk result (λ d. statement_by walk.entry targets.now None (scope_seen scope.old)
        (progress_seen progress.old) (an_if word (view condition.now) (statement_view yes.now))
        ≡ gives (done_seen d scope.new progress.new)) }
    ensures stays { OnOk result (scope_seen scope.new ≡ scope_seen scope.old) }
    ensures err { IfErr result (IsFault (statement_by walk.entry targets.now None
        (scope_seen scope.old) (progress_seen progress.old) (an_if word (view condition.now)
        (statement_view yes.now)))) }
{
    let asked = valued(walk, scope, progress, condition)?;
    let depth = scope.depth();
    let chosen = statement(walk, targets, None, scope, progress, yes)?;
    scope.leave(depth);
    let yes = alone(chosen);
    let code = if_statement(alloc(walk), word, span(condition), asked, yes, None)?;
    let whole = one(alloc(walk), code)?;
    Ok(whole)
}

#[cycle(statement)]
#[tactic(auto, using(je_typing::proofs::Walks::walks))]
fn if_else<'a>(
    walk: Walk,
    targets: &Targets<'_>,
    scope: &mut Scope,
    progress: &mut Progress<'a>,
    word: Span,
    condition: &'a Expr,
    yes: &'a Stmt,
    no: &'a Stmt,
) -> Result<Done, Refusal>
    requires { HasAllMethods walk.bodies.now }
    ensures ok { IfOk result (λ d. statement_by walk.entry targets.now None (scope_seen scope.old)
        (progress_seen progress.old) (an_if_else word (view condition.now) (statement_view yes.now)
        (statement_view no.now))
        ≡ gives (done_seen d scope.new progress.new)) }
    ensures stays { OnOk result (scope_seen scope.new ≡ scope_seen scope.old) }
    ensures err { IfErr result (IsFault (statement_by walk.entry targets.now None
        (scope_seen scope.old) (progress_seen progress.old) (an_if_else word (view condition.now)
        (statement_view yes.now)
        (statement_view no.now)))) }
{
    let asked = valued(walk, scope, progress, condition)?;
    let depth = scope.depth();
    let chosen = statement(walk, targets, None, scope, progress, yes)?;
    scope.leave(depth);
    let depth = scope.depth();
    let other = statement(walk, targets, None, scope, progress, no)?;
    scope.leave(depth);
    let yes = alone(chosen);
    let no = alone(other);
    let code = if_statement(alloc(walk), word, span(condition), asked, yes, Some(no))?;
    let whole = one(alloc(walk), code)?;
    Ok(whole)
}

#[cycle(statement)]
#[tactic(auto, using(je_typing::proofs::Walks::walks))]
fn while_loop<'a>(
    walk: Walk,
    targets: &Targets<'_>,
    scope: &mut Scope,
    progress: &mut Progress<'a>,
    word: Span,
    condition: &'a Expr,
    body: &'a Stmt,
) -> Result<Done, Refusal>
    requires { HasAllMethods walk.bodies.now }
    ensures ok { IfOk result (λ d. statement_by walk.entry targets.now None (scope_seen scope.old)
        (progress_seen progress.old) (a_while word (view condition.now) (statement_view body.now))
        ≡ gives (done_seen d scope.new progress.new)) }
    ensures stays { OnOk result (scope_seen scope.new ≡ scope_seen scope.old) }
    ensures err { IfErr result (IsFault (statement_by walk.entry targets.now None
        (scope_seen scope.old) (progress_seen progress.old) (a_while word (view condition.now)
        (statement_view body.now)))) }
{
    let asked = valued(walk, scope, progress, condition)?;
    let depth = scope.depth();
    let done = statement(walk, &targets.in_loop(), None, scope, progress, body)?;
    scope.leave(depth);
    let alloc = alloc(walk);
    let steps = Vec::new(alloc);
    let code = loop_statement(alloc, word, span(condition), asked, steps, alone(done))?;
    let whole = one(alloc, code)?;
    Ok(whole)
}

#[cycle(statement)]
#[tactic(auto, using(je_typing::proofs::Walks::walks))]
fn do_while<'a>(
    walk: Walk,
    targets: &Targets<'_>,
    scope: &mut Scope,
    progress: &mut Progress<'a>,
    word: Span,
    body: &'a Stmt,
    condition: &'a Expr,
) -> Result<Done, Refusal>
    requires { HasAllMethods walk.bodies.now }
    ensures ok { IfOk result (λ d. statement_by walk.entry targets.now None (scope_seen scope.old)
        (progress_seen progress.old) (a_do_while word (statement_view body.now) (view
        condition.now))
        ≡ gives (done_seen d scope.new progress.new)) }
    ensures stays { OnOk result (scope_seen scope.new ≡ scope_seen scope.old) }
    ensures err { IfErr result (IsFault (statement_by walk.entry targets.now None
        (scope_seen scope.old) (progress_seen progress.old) (a_do_while word (statement_view
        body.now) (view condition.now)))) }
{
    let depth = scope.depth();
    let done = statement(walk, &targets.in_loop(), None, scope, progress, body)?;
    scope.leave(depth);
    let asked = valued(walk, scope, progress, condition)?;
    let code = do_loop(alloc(walk), word, span(condition), alone(done), asked)?;
    let whole = one(alloc(walk), code)?;
    Ok(whole)
}

#[cycle(statement)]
#[tactic(auto, using(je_typing::proofs::Walks::walks))]
fn for_loop<'a>(
    walk: Walk,
    targets: &Targets<'_>,
    label: Option<Identifier>,
    scope: &mut Scope,
    progress: &mut Progress<'a>,
    head: ForHead<'a>,
    body: &'a Stmt,
) -> Result<Done, Refusal>
    requires { HasAllMethods walk.bodies.now }
    ensures ok { IfOk result (λ d. statement_by walk.entry targets.now label (scope_seen scope.old)
        (progress_seen progress.old) (a_for head.entry.word (for_initializer_view
        head.entry.init.now)
        (view_of_option head.entry.condition.now) (views_of head.entry.steps.now)
        (statement_view body.now))
        ≡ gives (done_seen d scope.new progress.new)) }
    ensures stays { OnOk result (scope_seen scope.new ≡ scope_seen scope.old) }
    ensures err { IfErr result (IsFault (statement_by walk.entry targets.now label
        (scope_seen scope.old) (progress_seen progress.old) (a_for head.entry.word
        (for_initializer_view head.entry.init.now)
        (view_of_option head.entry.condition.now) (views_of head.entry.steps.now)
        (statement_view body.now)))) }
{
    let depth = scope.depth();
    let first = for_start(walk, scope, progress, head.init)?;
    let asked = condition_or(walk, scope, progress, head.word, head.condition)?;
    let further = steps(walk, scope, progress, head.steps)?;
    let done = statement(walk, &targets.in_loop(), None, scope, progress, body)?;
    scope.leave(depth);
    let at = condition_span(head.word, head.condition);
    let turn = loop_statement(alloc(walk), head.word, at, asked, further, alone(done))?;
    let code = for_code(walk, label, head.word, first, turn)?;
    let whole = one(alloc(walk), code)?;
    Ok(whole)
}

#[cycle(statement)]
#[tactic(auto, using(je_typing::proofs::Walks::walks))]
fn for_each<'a>(
    walk: Walk,
    targets: &Targets<'_>,
    label: Option<Identifier>,
    scope: &mut Scope,
    progress: &mut Progress<'a>,
    head: EachHead<'a>,
    body: &'a Stmt,
) -> Result<Done, Refusal>
    requires { HasAllMethods walk.bodies.now }
    ensures ok { IfOk result (λ d. statement_by walk.entry targets.now label (scope_seen scope.old)
        (progress_seen progress.old) (a_for_each head.entry.word head.entry.is_final
        (type_view head.entry.ty.now) head.entry.name (view head.entry.array.now)
        (statement_view body.now))
        ≡ gives (done_seen d scope.new progress.new)) }
    ensures stays { OnOk result (scope_seen scope.new ≡ scope_seen scope.old) }
    ensures err { IfErr result (IsFault (statement_by walk.entry targets.now label
        (scope_seen scope.old) (progress_seen progress.old) (a_for_each head.entry.word
        head.entry.is_final
        (type_view head.entry.ty.now) head.entry.name (view head.entry.array.now)
        (statement_view body.now)))) }
{
    let bodies = walk.bodies;
    let ty = body_type(&bodies.calls.program, &scope.here, head.ty)?;
    let local = next_numbers(progress)?;
    let array = valued(walk, scope, progress, head.array)?;
    let depth = scope.depth();
    add_element(walk, scope, progress, head, &array, local, &ty)?;
    let done = statement(walk, &targets.in_loop(), None, scope, progress, body)?;
    scope.leave(depth);
    let elements = Elements {
        word: head.word,
        written: head.array,
        array,
        local,
        name: head.name,
        ty: &ty,
    };
    let code = for_each_judged(walk, scope, label, elements, alone(done))?;
    let whole = one(alloc(walk), code)?;
    Ok(whole)
}

#[cycle(statement)]
#[tactic(auto, using(je_typing::proofs::Walks::walks))]
fn switch<'a>(
    walk: Walk,
    targets: &Targets<'_>,
    scope: &mut Scope,
    progress: &mut Progress<'a>,
    word: Span,
    selector: &'a Expr,
    groups: &'a [Group],
    whole: Span,
) -> Result<Done, Refusal>
    requires { HasAllMethods walk.bodies.now }
    ensures ok { IfOk result (λ d. statement_by walk.entry targets.now None (scope_seen scope.old)
        (progress_seen progress.old)
        (a_switch word (view selector.now) (group_views_of groups.now) whole)
        ≡ gives (done_seen d scope.new progress.new)) }
    ensures stays { OnOk result (scope_seen scope.new ≡ scope_seen scope.old) }
    ensures err { IfErr result (IsFault (statement_by walk.entry targets.now None
        (scope_seen scope.old) (progress_seen progress.old) (a_switch word (view selector.now)
        (group_views_of groups.now) whole))) }
{
    let bodies = walk.bodies;
    let heads = bodies.calls.program.heads;
    let asked = valued(walk, scope, progress, selector)?;
    let of_enum = enum_of(heads, &asked.ty);
    let depth = scope.depth();
    let inside = targets.in_switch();
    let done = switch_groups(walk, &inside, of_enum, scope, progress, groups)?;
    scope.leave(depth);
    let by = selected_by(alloc(walk), of_enum, asked)?;
    let code = switch_judged(walk, word, whole, selector, by, done)?;
    let whole = one(alloc(walk), code)?;
    Ok(whole)
}

#[cycle(statement)]
#[tactic(auto, using(je_typing::proofs::Walks::walks))]
fn try_only<'a>(
    walk: Walk,
    targets: &Targets<'_>,
    scope: &mut Scope,
    progress: &mut Progress<'a>,
    word: Span,
    block: &'a Block,
    catches: &'a [Catch],
) -> Result<Done, Refusal>
    requires { HasAllMethods walk.bodies.now }
    ensures ok { IfOk result (λ d. statement_by walk.entry targets.now None (scope_seen scope.old)
        (progress_seen progress.old) (a_try word (block_view block.now) (catch_views_of
        catches.now))
        ≡ gives (done_seen d scope.new progress.new)) }
    ensures stays { OnOk result (scope_seen scope.new ≡ scope_seen scope.old) }
    ensures err { IfErr result (IsFault (statement_by walk.entry targets.now None
        (scope_seen scope.old) (progress_seen progress.old) (a_try word (block_view block.now)
        (catch_views_of catches.now)))) }
{
    let depth = scope.depth();
    let done = statements(walk, targets, scope, progress, &block.stmts)?;
    scope.leave(depth);
    let body = block_of(alloc(walk), block.opening, block.closing, done)?;
    let written = catch_blocks(walk, targets, scope, progress, catches)?;
    let bodies = walk.bodies;
    let heads = bodies.calls.program.heads;
    let caught = clauses(alloc(walk), heads, scope, written)?;
    let code = make_try(alloc(walk), word, word, body, caught, None)?;
    let whole = one(alloc(walk), code)?;
    Ok(whole)
}

#[cycle(statement)]
#[tactic(auto, using(je_typing::proofs::Walks::walks))]
fn try_finally<'a>(
    walk: Walk,
    targets: &Targets<'_>,
    scope: &mut Scope,
    progress: &mut Progress<'a>,
    word: Span,
    block: &'a Block,
    catches: &'a [Catch],
    at: Span,
    last: &'a Block,
) -> Result<Done, Refusal>
    requires { HasAllMethods walk.bodies.now }
    ensures ok { IfOk result (λ d. statement_by walk.entry targets.now None (scope_seen scope.old)
        (progress_seen progress.old) (a_try_finally word (block_view block.now) (catch_views_of
        catches.now) at
        (block_view last.now))
        ≡ gives (done_seen d scope.new progress.new)) }
    ensures stays { OnOk result (scope_seen scope.new ≡ scope_seen scope.old) }
    ensures err { IfErr result (IsFault (statement_by walk.entry targets.now None
        (scope_seen scope.old) (progress_seen progress.old) (a_try_finally word (block_view
        block.now) (catch_views_of catches.now) at
        (block_view last.now)))) }
{
    let depth = scope.depth();
    let done = statements(walk, targets, scope, progress, &block.stmts)?;
    scope.leave(depth);
    let body = block_of(alloc(walk), block.opening, block.closing, done)?;
    let written = catch_blocks(walk, targets, scope, progress, catches)?;
    let depth = scope.depth();
    let finished = statements(walk, targets, scope, progress, &last.stmts)?;
    scope.leave(depth);
    let end = block_of(alloc(walk), last.opening, last.closing, finished)?;
    let bodies = walk.bodies;
    let heads = bodies.calls.program.heads;
    let caught = clauses(alloc(walk), heads, scope, written)?;
    let code = make_try(alloc(walk), word, at, body, caught, Some(end))?;
    let whole = one(alloc(walk), code)?;
    Ok(whole)
}

// The groups of a `switch`, along which the scope of locals grows.
#[cycle(statement)]
fn switch_groups<'a>(
    walk: Walk,
    targets: &Targets<'_>,
    of_enum: Option<ClassId>,
    scope: &mut Scope,
    progress: &mut Progress<'a>,
    list: &'a [Group],
) -> Result<Groups, Refusal>
    requires { HasAllMethods walk.bodies.now }
    ensures ok { IfOk result (λ gs. the_groups (program_of walk.entry) (known_of walk.entry)
        (returning_of walk.entry) targets.now (option_map (λ (c : ClassNumber). c.0) of_enum)
        (scope_seen scope.old) (progress_seen progress.old) (group_views_of list.now)
        ≡ gives (groups_in gs (progress_seen progress.new))) }
    ensures extends { OnOk result (Extends (scope_seen scope.old) (scope_seen scope.new)) }
    ensures err { IfErr result (IsFault (the_groups (program_of walk.entry) (known_of walk.entry)
        (returning_of walk.entry) targets.now (option_map (λ (c : ClassNumber). c.0) of_enum)
        (scope_seen scope.old) (progress_seen progress.old) (group_views_of list.now))) }
{
    let mut written = no_groups(alloc(walk));
    for group in list {
        let next = switch_group(walk, targets, of_enum, scope, progress, group)?;
        add_group(&mut written, next)?;
    }
    Ok(written)
}

#[cycle(statement)]
#[tactic(auto, using(je_typing::proofs::Walks::walks))]
fn switch_group<'a>(
    walk: Walk,
    targets: &Targets<'_>,
    of_enum: Option<ClassId>,
    scope: &mut Scope,
    progress: &mut Progress<'a>,
    group: &'a Group,
) -> Result<WalkedGroup, Refusal>
    requires { HasAllMethods walk.bodies.now }
    ensures ok { IfOk result (λ g. one_group walk.entry targets.now
        (option_map (λ (c : ClassNumber). c.0) of_enum) (scope_seen scope.old)
        (progress_seen progress.old) (group_view group.now)
        ≡ gives (group_done g (scope_seen scope.new) (progress_seen progress.new))) }
    ensures extends { OnOk result (Extends (scope_seen scope.old) (scope_seen scope.new)) }
    ensures err { IfErr result (IsFault (one_group walk.entry targets.now
        (option_map (λ (c : ClassNumber). c.0) of_enum) (scope_seen scope.old)
        (progress_seen progress.old) (group_view group.now))) }
{
    let depth = scope.depth();
    let labels = labels(walk, of_enum, scope, progress, &group.labels)?;
    let done = statements(walk, targets, scope, progress, &group.stmts)?;
    scope.leave_classes(depth);
    let next = grouped(alloc(walk), labels, done)?;
    Ok(next)
}

// The catches of a `try`, whose names and classes are judged behind all its blocks.
#[cycle(statement)]
fn catch_blocks<'a>(
    walk: Walk,
    targets: &Targets<'_>,
    scope: &mut Scope,
    progress: &mut Progress<'a>,
    list: &'a [Catch],
) -> Result<Vec<Clause>, Refusal>
    requires { HasAllMethods walk.bodies.now }
    ensures ok { IfOk result (λ cs. the_catches (program_of walk.entry) (known_of walk.entry)
        (returning_of walk.entry) targets.now (scope_seen scope.old) (progress_seen progress.old)
        (catch_views_of list.now) ≡ gives (record {
          items = map clause_seen cs.items;
          progress = progress_seen progress.new;
        })) }
    ensures stays { OnOk result (scope_seen scope.new ≡ scope_seen scope.old) }
    ensures err { IfErr result (IsFault (the_catches (program_of walk.entry) (known_of walk.entry)
        (returning_of walk.entry) targets.now (scope_seen scope.old) (progress_seen progress.old)
        (catch_views_of list.now))) }
{
    let mut written = Vec::new(alloc(walk));
    for catch in list {
        let clause = catch_block(walk, targets, scope, progress, catch)?;
        written.push(clause)?;
    }
    Ok(written)
}

#[cycle(statement)]
#[tactic(auto, using(je_typing::proofs::Walks::walks))]
fn catch_block<'a>(
    walk: Walk,
    targets: &Targets<'_>,
    scope: &mut Scope,
    progress: &mut Progress<'a>,
    catch: &'a Catch,
) -> Result<Clause, Refusal>
    requires { HasAllMethods walk.bodies.now }
    ensures ok { IfOk result (λ c. one_catch walk.entry targets.now (scope_seen scope.old)
        (progress_seen progress.old) (catch_view catch.now) ≡ gives (record {
          clause = clause_seen c;
          progress = progress_seen progress.new;
        })) }
    ensures stays { OnOk result (scope_seen scope.new ≡ scope_seen scope.old) }
    ensures err { IfErr result (IsFault (one_catch walk.entry targets.now (scope_seen scope.old)
        (progress_seen progress.old) (catch_view catch.now))) }
{
    let name = catch.name;
    let bodies = walk.bodies;
    let heads = bodies.calls.program.heads;
    let ty = bare_class_type(&bodies.calls.program, &scope.here, &catch.class)?;
    let number = next_number(progress)?;
    let variable = local_of(alloc(walk), name.name, &ty, catch.is_final, number, None)?;
    let depth = scope.depth();
    scope.add_local(catch.is_final, variable)?;
    add_number(heads, progress, name.name, &ty, catch.is_final, name.span)?;
    let done = statements(walk, targets, scope, progress, &catch.block.stmts)?;
    scope.leave(depth);
    let body = block_of(alloc(walk), catch.block.opening, catch.block.closing, done)?;
    Ok(Clause {
        name,
        number,
        ty,
        name_span: catch.class.span,
        body,
    })
}
