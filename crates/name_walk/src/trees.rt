// The walk over the trees of all units.

ghost use Rattle.std.specs.Prelude.{◌≡◌, ◌<◌, ◌∷◌, [], length, map, option_map, IfOk, OnOk};
ghost use Rattle.je_ast.specs.View.{view, node_view, views_of, view_of_option, statement_view, statement_node_view, statement_views_of, for_initializer_view, for_initializer_node_view, variable_views_of, group_views_of, label_views_of, catch_views_of, member_view, member_node_view, member_views_of, block_view_of_option, constructor_invocation_view, constructor_invocation_node_view, declaration_view};
ghost use Rattle.je_scopes.specs.Sites.{in_expression, in_expressions, in_optional, in_statement, in_block, in_start, in_variables, in_groups, in_labels, in_catches, in_members, in_member, in_body, in_first, in_declaration, in_declarations, inside, instance, behind};
ghost use Rattle.name_walk.specs.View.{in_own_scope};
ghost use Rattle.je_scopes.specs.Headers.{site_at};
ghost use Rattle.name_walk.specs.Collected.{collected, spot_of};

use crate::collector::Collector;
use crate::context::{
    context_of, declares_class, has_static, initializer_context, is_static_declaration,
};
use crate::site::{Context, Written};
use je_ast::{
    Block, Catch, ConstructorCall, Decl, Expr, ForInit, Group, Label, Member, Stmt, Unit, Var,
};
use je_base::Memory;
use je_core::Sort;

#[cycle(walk)]
#[tactic(auto, using(je_ast::proofs::Views::view_is))]
fn expression<'a>(collector: &mut Collector<'a>, expr: &'a Expr) -> Result<(), Memory>
    ensures sites { OnOk result (collected collector.new ≡
        in_expression (spot_of collector.old) (view expr.now) (collected collector.old)) }
    ensures stays { OnOk result (spot_of collector.new ≡ spot_of collector.old) }
{
    expression_here(collector, expr)
}

#[cycle(walk)]
fn expression_here<'a>(collector: &mut Collector<'a>, expr: &'a Expr) -> Result<(), Memory>
    ensures sites { OnOk result (collected collector.new ≡
        in_expression (spot_of collector.old) (node_view expr.now) (collected collector.old)) }
    ensures stays { OnOk result (spot_of collector.new ≡ spot_of collector.old) }
{
    match expr {
        Expr::Literal { .. }
        | Expr::Name { .. }
        | Expr::This { .. }
        | Expr::OuterThis { .. }
        | Expr::SuperSelect { .. } => Ok(()),
        Expr::Parens { inner, .. } => expression(collector, inner),
        Expr::Select { object, .. } => expression(collector, object),
        Expr::Call { args, .. } | Expr::SuperCall { args, .. } | Expr::New { args, .. } =>
            expressions(collector, args),
        Expr::CallOn { object, args, .. } => {
            expression(collector, object)?;
            expressions(collector, args)?;
            Ok(())
        }
        Expr::Index { array, index, .. } => {
            expression(collector, array)?;
            expression(collector, index)?;
            Ok(())
        }
        Expr::NewAnonymous {
            word,
            class,
            args,
            body,
            ..
        } => {
            let written = Written::Anonymous {
                word: *word,
                class,
                body,
            };
            let number = collector.push(written, Sort::Anonymous, false)?;
            expressions(collector, args)?;
            let here = collector.spot();
            collector.enter(number);
            class_members(collector, body, false)?;
            collector.go_back(here);
            Ok(())
        }
        Expr::NewArray { lengths, .. } => expressions(collector, lengths),
        Expr::NewArrayOf { init, .. } => expression(collector, init),
        Expr::ArrayInit { values, .. } => expressions(collector, values),
        Expr::Cast { operand, .. }
        | Expr::InstanceOf { operand, .. }
        | Expr::Prefix { operand, .. }
        | Expr::Postfix { operand, .. } => expression(collector, operand),
        Expr::Binary { left, right, .. } => {
            expression(collector, left)?;
            expression(collector, right)?;
            Ok(())
        }
        Expr::Conditional {
            condition,
            yes,
            no,
            ..
        } => {
            expression(collector, condition)?;
            expression(collector, yes)?;
            expression(collector, no)?;
            Ok(())
        }
        Expr::Assign { place, value, .. } => {
            expression(collector, place)?;
            expression(collector, value)?;
            Ok(())
        }
    }
}

#[cycle(walk)]
fn expressions<'a>(collector: &mut Collector<'a>, list: &'a [Expr]) -> Result<(), Memory>
    ensures sites { OnOk result (collected collector.new ≡
        in_expressions (spot_of collector.old) (views_of list.now) (collected collector.old)) }
    ensures stays { OnOk result (spot_of collector.new ≡ spot_of collector.old) }
{
    for expr in list {
        expression(collector, expr)?;
    }
    Ok(())
}

#[cycle(walk)]
fn optional_expression<'a>(
    collector: &mut Collector<'a>,
    expr: &'a Option<Expr>,
) -> Result<(), Memory>
    ensures sites { OnOk result (collected collector.new ≡
        in_optional (spot_of collector.old) (view_of_option expr.now) (collected collector.old)) }
    ensures stays { OnOk result (spot_of collector.new ≡ spot_of collector.old) }
{
    match expr {
        Some(expr) => expression(collector, expr),
        None => Ok(()),
    }
}

#[cycle(walk)]
#[tactic(auto, using(je_ast::proofs::Views::statement_is))]
fn statement<'a>(collector: &mut Collector<'a>, stmt: &'a Stmt) -> Result<(), Memory>
    ensures sites { OnOk result (collected collector.new ≡
        in_statement (spot_of collector.old) (statement_view stmt.now) (collected collector.old)) }
    ensures stays { OnOk result (spot_of collector.new ≡ spot_of collector.old) }
{
    statement_here(collector, stmt)
}

#[cycle(walk)]
fn statement_here<'a>(collector: &mut Collector<'a>, stmt: &'a Stmt) -> Result<(), Memory>
    ensures sites { OnOk result (collected collector.new ≡
        in_statement (spot_of collector.old) (statement_node_view stmt.now)
        (collected collector.old)) }
    ensures stays { OnOk result (spot_of collector.new ≡ spot_of collector.old) }
{
    match stmt {
        Stmt::Block { block } => block_statements(collector, &block.stmts),
        Stmt::Local { vars, .. } => variables(collector, vars),
        Stmt::Class { decl } => declaration(collector, decl, Sort::Local, true),
        Stmt::Empty { .. } | Stmt::Break { .. } | Stmt::Continue { .. } => Ok(()),
        Stmt::Labelled { body, .. } => statement(collector, body),
        Stmt::If { condition, yes, .. } => {
            expression(collector, condition)?;
            statement(collector, yes)?;
            Ok(())
        }
        Stmt::IfElse {
            condition,
            yes,
            no,
            ..
        } => {
            expression(collector, condition)?;
            statement(collector, yes)?;
            statement(collector, no)?;
            Ok(())
        }
        Stmt::While {
            condition,
            body,
            ..
        } => {
            expression(collector, condition)?;
            statement(collector, body)?;
            Ok(())
        }
        Stmt::Do {
            body,
            condition,
            ..
        } => {
            statement(collector, body)?;
            expression(collector, condition)?;
            Ok(())
        }
        Stmt::For {
            init,
            condition,
            steps,
            body,
            ..
        } => {
            for_initializer(collector, init)?;
            optional_expression(collector, condition)?;
            expressions(collector, steps)?;
            statement(collector, body)?;
            Ok(())
        }
        Stmt::ForEach { array, body, .. } => {
            expression(collector, array)?;
            statement(collector, body)?;
            Ok(())
        }
        Stmt::Switch {
            selector,
            groups,
            ..
        } => {
            expression(collector, selector)?;
            switch_groups(collector, groups)?;
            Ok(())
        }
        Stmt::Return { value, .. } => optional_expression(collector, value),
        Stmt::Throw { value, .. } => expression(collector, value),
        Stmt::Try { block, catches, .. } => {
            block_statements(collector, &block.stmts)?;
            catch_blocks(collector, catches)?;
            Ok(())
        }
        Stmt::TryFinally {
            block,
            catches,
            last,
            ..
        } => {
            block_statements(collector, &block.stmts)?;
            catch_blocks(collector, catches)?;
            block_statements(collector, &last.stmts)?;
            Ok(())
        }
        Stmt::ExpressionStatement { expr, .. } => expression(collector, expr),
    }
}

#[cycle(walk)]
fn block_statement<'a>(collector: &mut Collector<'a>, stmt: &'a Stmt) -> Result<(), Memory>
    ensures sites { OnOk result (collected collector.new ≡
        in_statement (spot_of collector.old) (statement_view stmt.now) (collected collector.old)) }
    ensures spot { OnOk result (spot_of collector.new ≡
        behind (spot_of collector.old) (statement_view stmt.now)
        (length (collected collector.old))) }
{
    let number = collector.len();
    statement(collector, stmt)?;
    if declares_class(stmt) {
        collector.go_behind(number);
    }
    Ok(())
}

#[cycle(walk)]
fn block_statements<'a>(collector: &mut Collector<'a>, list: &'a [Stmt]) -> Result<(), Memory>
    ensures sites { OnOk result (collected collector.new ≡
        in_block (spot_of collector.old) (statement_views_of list.now) (collected collector.old)) }
    ensures stays { OnOk result (spot_of collector.new ≡ spot_of collector.old) }
{
    let here = collector.spot();
    for stmt in list {
        block_statement(collector, stmt)?;
    }
    collector.go_back(here);
    Ok(())
}

#[cycle(walk)]
#[tactic(auto, using(je_ast::proofs::Views::for_initializer_is))]
fn for_initializer<'a>(collector: &mut Collector<'a>, init: &'a ForInit) -> Result<(), Memory>
    ensures sites { OnOk result (collected collector.new ≡
        in_start (spot_of collector.old) (for_initializer_view init.now)
        (collected collector.old)) }
    ensures stays { OnOk result (spot_of collector.new ≡ spot_of collector.old) }
{
    for_initializer_here(collector, init)
}

#[cycle(walk)]
fn for_initializer_here<'a>(collector: &mut Collector<'a>, init: &'a ForInit) -> Result<(), Memory>
    ensures sites { OnOk result (collected collector.new ≡
        in_start (spot_of collector.old) (for_initializer_node_view init.now)
        (collected collector.old)) }
    ensures stays { OnOk result (spot_of collector.new ≡ spot_of collector.old) }
{
    match init {
        ForInit::Locals { vars, .. } => variables(collector, vars),
        ForInit::Steps { steps } => expressions(collector, steps),
    }
}

#[cycle(walk)]
fn variables<'a>(collector: &mut Collector<'a>, list: &'a [Var]) -> Result<(), Memory>
    ensures sites { OnOk result (collected collector.new ≡
        in_variables (spot_of collector.old) (variable_views_of list.now)
        (collected collector.old)) }
    ensures stays { OnOk result (spot_of collector.new ≡ spot_of collector.old) }
{
    for var in list {
        optional_expression(collector, &var.init)?;
    }
    Ok(())
}

#[cycle(walk)]
fn switch_groups<'a>(collector: &mut Collector<'a>, list: &'a [Group]) -> Result<(), Memory>
    ensures sites { OnOk result (collected collector.new ≡
        in_groups (spot_of collector.old) (group_views_of list.now) (collected collector.old)) }
    ensures stays { OnOk result (spot_of collector.new ≡ spot_of collector.old) }
{
    for group in list {
        switch_labels(collector, &group.labels)?;
        block_statements(collector, &group.stmts)?;
    }
    Ok(())
}

#[cycle(walk)]
fn switch_labels<'a>(collector: &mut Collector<'a>, list: &'a [Label]) -> Result<(), Memory>
    ensures sites { OnOk result (collected collector.new ≡
        in_labels (spot_of collector.old) (label_views_of list.now) (collected collector.old)) }
    ensures stays { OnOk result (spot_of collector.new ≡ spot_of collector.old) }
{
    for label in list {
        if let Label::Case { value } = label {
            expression(collector, value)?;
        }
    }
    Ok(())
}

#[cycle(walk)]
fn catch_blocks<'a>(collector: &mut Collector<'a>, list: &'a [Catch]) -> Result<(), Memory>
    ensures sites { OnOk result (collected collector.new ≡
        in_catches (spot_of collector.old) (catch_views_of list.now) (collected collector.old)) }
    ensures stays { OnOk result (spot_of collector.new ≡ spot_of collector.old) }
{
    for catch in list {
        block_statements(collector, &catch.block.stmts)?;
    }
    Ok(())
}

// The members of the class of a number, which stands here.
#[cycle(walk)]
fn class_body<'a>(
    collector: &mut Collector<'a>,
    number: usize,
    body: &'a [Member],
    in_interface: bool,
) -> Result<(), Memory>
    requires there { number < length (collected collector.old) }
    requires here { (site_at (collected collector.old) number).spot.round ≡
        (spot_of collector.old).round }
    ensures sites { OnOk result (collected collector.new ≡
        in_members in_interface (inside number (spot_of collector.old) instance)
        (member_views_of body.now) (collected collector.old)) }
    ensures stays { OnOk result (spot_of collector.new ≡ spot_of collector.old) }
{
    let here = collector.spot();
    collector.enter(number);
    class_members(collector, body, in_interface)?;
    collector.go_back(here);
    Ok(())
}

#[cycle(walk)]
fn class_members<'a>(
    collector: &mut Collector<'a>,
    list: &'a [Member],
    in_interface: bool,
) -> Result<(), Memory>
    ensures sites { OnOk result (collected collector.new ≡
        in_members in_interface (spot_of collector.old) (member_views_of list.now)
        (collected collector.old)) }
    ensures stays { OnOk result (spot_of collector.new ≡ spot_of collector.old) }
{
    for member in list {
        class_member(collector, member, in_interface)?;
    }
    Ok(())
}

#[cycle(walk)]
#[tactic(auto, using(je_ast::proofs::Views::member_is))]
fn class_member<'a>(
    collector: &mut Collector<'a>,
    member: &'a Member,
    in_interface: bool,
) -> Result<(), Memory>
    ensures sites { OnOk result (collected collector.new ≡
        in_member in_interface (spot_of collector.old) (member_view member.now)
        (collected collector.old)) }
    ensures stays { OnOk result (spot_of collector.new ≡ spot_of collector.old) }
{
    class_member_here(collector, member, in_interface)
}

#[cycle(walk)]
fn class_member_here<'a>(
    collector: &mut Collector<'a>,
    member: &'a Member,
    in_interface: bool,
) -> Result<(), Memory>
    ensures sites { OnOk result (collected collector.new ≡
        in_member in_interface (spot_of collector.old) (member_node_view member.now)
        (collected collector.old)) }
    ensures stays { OnOk result (spot_of collector.new ≡ spot_of collector.old) }
{
    match member {
        Member::Type { decl } => {
            let context = context_of(is_static_declaration(decl, in_interface));
            let here = collector.set_context(context);
            declaration(collector, decl, Sort::Class, false)?;
            collector.set_context(here);
            Ok(())
        }
        Member::Field {
            modifiers,
            vars,
            ..
        } => {
            let context = context_of(in_interface || has_static(modifiers));
            let here = collector.set_context(context);
            variables(collector, vars)?;
            collector.set_context(here);
            Ok(())
        }
        Member::Method {
            modifiers,
            body,
            ..
        } => {
            let context = context_of(has_static(modifiers));
            let here = collector.set_context(context);
            optional_block(collector, body)?;
            collector.set_context(here);
            Ok(())
        }
        Member::Constructor { call, body, .. } => {
            let here = collector.set_context(Context::ConstructorArguments);
            constructor_call(collector, call)?;
            collector.set_context(here);
            block_statements(collector, &body.stmts)?;
            Ok(())
        }
        Member::Initializer { word, body, .. } => {
            let context = initializer_context(word);
            let here = collector.set_context(context);
            block_statements(collector, &body.stmts)?;
            collector.set_context(here);
            Ok(())
        }
    }
}

#[cycle(walk)]
fn optional_block<'a>(collector: &mut Collector<'a>, block: &'a Option<Block>) -> Result<(), Memory>
    ensures sites { OnOk result (collected collector.new ≡
        in_body (spot_of collector.old) (block_view_of_option block.now)
        (collected collector.old)) }
    ensures stays { OnOk result (spot_of collector.new ≡ spot_of collector.old) }
{
    match block {
        Some(block) => block_statements(collector, &block.stmts),
        None => Ok(()),
    }
}

#[cycle(walk)]
#[tactic(auto, using(je_ast::proofs::Views::constructor_invocation_is))]
fn constructor_call<'a>(
    collector: &mut Collector<'a>,
    call: &'a ConstructorCall,
) -> Result<(), Memory>
    ensures sites { OnOk result (collected collector.new ≡
        in_first (spot_of collector.old) (constructor_invocation_view call.now)
        (collected collector.old)) }
    ensures stays { OnOk result (spot_of collector.new ≡ spot_of collector.old) }
{
    constructor_call_here(collector, call)
}

#[cycle(walk)]
fn constructor_call_here<'a>(
    collector: &mut Collector<'a>,
    call: &'a ConstructorCall,
) -> Result<(), Memory>
    ensures sites { OnOk result (collected collector.new ≡
        in_first (spot_of collector.old) (constructor_invocation_node_view call.now)
        (collected collector.old)) }
    ensures stays { OnOk result (spot_of collector.new ≡ spot_of collector.old) }
{
    match call {
        ConstructorCall::Implicit => Ok(()),
        ConstructorCall::Explicit { args, .. } => expressions(collector, args),
    }
}

// A class that is declared here.
#[cycle(walk)]
#[tactic(auto, using(je_ast::proofs::Views::declaration_is))]
fn declaration<'a>(
    collector: &mut Collector<'a>,
    decl: &'a Decl,
    sort: Sort,
    is_local: bool,
) -> Result<(), Memory>
    ensures sites { let number = length (collected collector.old) in OnOk result
        (collected collector.new ≡
        in_declaration sort (in_own_scope is_local number (spot_of collector.old))
        (declaration_view decl.now) (collected collector.old)) }
    ensures stays { OnOk result (spot_of collector.new ≡ spot_of collector.old) }
{
    let written = Written::Declared { decl };
    match decl {
        Decl::Class { body, .. } => {
            let number = collector.push(written, sort, is_local)?;
            class_body(collector, number, body, false)?;
            Ok(())
        }
        Decl::Interface { body, .. } => {
            let number = collector.push(written, Sort::Interface, is_local)?;
            class_body(collector, number, body, true)?;
            Ok(())
        }
        Decl::Enum { .. } => {
            collector.push(written, Sort::Enum, is_local)?;
            Ok(())
        }
    }
}

/// The classes of a unit, whose place is given.
pub fn unit<'a>(collector: &mut Collector<'a>, unit: &'a Unit, at: usize) -> Result<(), Memory>
    ensures { OnOk result (collected collector.new ≡
        in_declarations at (map declaration_view unit.now.decls.items) (collected collector.old)) }
{
    collector.go_to_top(at);
    for decl in &unit.decls {
        declaration(collector, decl, Sort::Class, false)?;
    }
    Ok(())
}
