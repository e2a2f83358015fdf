// Other numbers for the names of a tree.

ghost use Rattle.std.specs.Prelude.{◌≡◌, [], ◌∷◌, map, option_map};
ghost use Rattle.je_ast.specs.Types.{type_view, name_view, type_views_of, type_view_of_option, parameter_view, formal_view};
ghost use Rattle.je_ast.specs.View.{views_of, view_of_option, statement_views_of, variable_views_of, group_views_of, label_views_of, catch_views_of, member_views_of, block_view_of_option, unit_view, view, statement_view, for_initializer_view, member_view, constructor_invocation_view, declaration_view};
ghost use Rattle.je_ast.specs.Renumbering.{renumbered_identifier, renumbered_name, renumbered_type, renumbered_types, renumbered_parameter, renumbered_formal, renumbered_expression, renumbered_expressions, renumbered_expression_if, renumbered_statement, renumbered_statements, renumbered_for_initializer, renumbered_variables, renumbered_groups, renumbered_labels, renumbered_catches, renumbered_member, renumbered_members, renumbered_block_if, renumbered_constructor_invocation, renumbered_declaration, renumbered};

use crate::decl::{ConstructorCall, Decl, Formal, Member, TypeParam, Unit};
use crate::expr::Expr;
use crate::name::{Identifier, Name};
use crate::stmt::{Block, Catch, ForInit, Group, Label, Stmt, Var};
use crate::ty_name::TyName;
use je_base::NameId;

fn renumber_identifier(identifier: &mut Identifier, to: &[NameId])
    ensures { identifier.new ≡ renumbered_identifier to.now identifier.old }
{
    if let Some(name) = to.get(identifier.name.0 as usize) {
        identifier.name = *name;
    }
}

#[tactic(auto, using(crate::proofs::Went::walks))]
fn renumber_identifiers(list: &mut [Identifier], to: &[NameId])
    ensures { list.new ≡ map (renumbered_identifier to.now) list.old }
{
    for identifier in list.iter_mut() {
        renumber_identifier(identifier, to);
    }
}

fn renumber_option_identifier(identifier: &mut Option<Identifier>, to: &[NameId])
    ensures { identifier.new ≡ option_map (renumbered_identifier to.now) identifier.old }
{
    if let Some(identifier) = identifier {
        renumber_identifier(identifier, to);
    }
}

fn renumber_name(name: &mut Name, to: &[NameId])
    ensures { name_view name.new ≡ renumbered_name to.now (name_view name.old) }
{
    renumber_identifiers(&mut name.parts, to);
}

#[tactic(auto, using(crate::proofs::Went::walks))]
fn renumber_names(list: &mut [Name], to: &[NameId])
    ensures { map name_view list.new ≡ map (renumbered_name to.now) (map name_view list.old) }
{
    for name in list.iter_mut() {
        renumber_name(name, to);
    }
}

#[cycle(types)]
#[tactic(auto, using(crate::proofs::Views::type_is))]
fn renumber_type(ty: &mut TyName, to: &[NameId])
    ensures { type_view ty.new ≡ renumbered_type to.now (type_view ty.old) }
{
    if let TyName::Class { name, args, .. } = ty {
        renumber_name(name, to);
        renumber_types(args, to);
    }
}

#[cycle(types)]
#[tactic(auto, using(crate::proofs::Went::walks))]
fn renumber_types(list: &mut [TyName], to: &[NameId])
    ensures { type_views_of list.new ≡ renumbered_types to.now (type_views_of list.old) }
{
    for ty in list.iter_mut() {
        renumber_type(ty, to);
    }
}

fn renumber_option_type(ty: &mut Option<TyName>, to: &[NameId])
    ensures { type_view_of_option ty.new
        ≡ option_map (renumbered_type to.now) (type_view_of_option ty.old) }
{
    if let Some(ty) = ty {
        renumber_type(ty, to);
    }
}

#[tactic(auto, using(crate::proofs::Went::walks))]
fn renumber_params(list: &mut [TypeParam], to: &[NameId])
    ensures { map parameter_view list.new
        ≡ map (renumbered_parameter to.now) (map parameter_view list.old) }
{
    for param in list.iter_mut() {
        renumber_identifier(&mut param.name, to);
        renumber_option_type(&mut param.bound, to);
    }
}

#[tactic(auto, using(crate::proofs::Went::walks))]
fn renumber_formals(list: &mut [Formal], to: &[NameId])
    ensures { map formal_view list.new ≡ map (renumbered_formal to.now) (map formal_view list.old) }
{
    for formal in list.iter_mut() {
        renumber_type(&mut formal.ty, to);
        renumber_identifier(&mut formal.name, to);
    }
}

#[cycle(trees)]
#[tactic(auto, using(crate::proofs::Views::view_is))]
fn renumber_expr(expr: &mut Expr, to: &[NameId])
    ensures { view expr.new ≡ renumbered_expression to.now (view expr.old) }
{
    match expr {
        Expr::Literal { .. } | Expr::This { .. } => {}
        Expr::Name { name } => renumber_identifier(name, to),
        Expr::OuterThis { class, .. } => renumber_name(class, to),
        Expr::Parens { inner, .. } => renumber_expr(inner, to),
        Expr::Select { object, field, .. } => {
            renumber_expr(object, to);
            renumber_identifier(field, to);
        }
        Expr::SuperSelect { field, .. } => renumber_identifier(field, to),
        Expr::Call { method, args, .. } => {
            renumber_identifier(method, to);
            renumber_exprs(args, to);
        }
        Expr::CallOn {
            object,
            method,
            args,
            ..
        } => {
            renumber_expr(object, to);
            renumber_identifier(method, to);
            renumber_exprs(args, to);
        }
        Expr::SuperCall { method, args, .. } => {
            renumber_identifier(method, to);
            renumber_exprs(args, to);
        }
        Expr::Index { array, index, .. } => {
            renumber_expr(array, to);
            renumber_expr(index, to);
        }
        Expr::New { class, args, .. } => {
            renumber_type(class, to);
            renumber_exprs(args, to);
        }
        Expr::NewAnonymous {
            class,
            args,
            body,
            ..
        } => {
            renumber_type(class, to);
            renumber_exprs(args, to);
            renumber_members(body, to);
        }
        Expr::NewArray {
            element,
            lengths,
            ..
        } => {
            renumber_type(element, to);
            renumber_exprs(lengths, to);
        }
        Expr::NewArrayOf { element, init, .. } => {
            renumber_type(element, to);
            renumber_expr(init, to);
        }
        Expr::ArrayInit { values, .. } => renumber_exprs(values, to),
        Expr::Cast { ty, operand, .. } => {
            renumber_type(ty, to);
            renumber_expr(operand, to);
        }
        Expr::Prefix { operand, .. } => renumber_expr(operand, to),
        Expr::Postfix { operand, .. } => renumber_expr(operand, to),
        Expr::Binary { left, right, .. } => {
            renumber_expr(left, to);
            renumber_expr(right, to);
        }
        Expr::InstanceOf { operand, ty, .. } => {
            renumber_expr(operand, to);
            renumber_type(ty, to);
        }
        Expr::Conditional {
            condition,
            yes,
            no,
            ..
        } => {
            renumber_expr(condition, to);
            renumber_expr(yes, to);
            renumber_expr(no, to);
        }
        Expr::Assign { place, value, .. } => {
            renumber_expr(place, to);
            renumber_expr(value, to);
        }
    }
}

#[cycle(trees)]
#[tactic(auto, using(crate::proofs::Went::walks))]
fn renumber_exprs(list: &mut [Expr], to: &[NameId])
    ensures { views_of list.new ≡ renumbered_expressions to.now (views_of list.old) }
{
    for expr in list.iter_mut() {
        renumber_expr(expr, to);
    }
}

#[cycle(trees)]
fn renumber_option_expr(expr: &mut Option<Expr>, to: &[NameId])
    ensures { view_of_option expr.new ≡ renumbered_expression_if to.now (view_of_option expr.old) }
{
    if let Some(expr) = expr {
        renumber_expr(expr, to);
    }
}

#[cycle(trees)]
#[tactic(auto, using(crate::proofs::Went::walks))]
fn renumber_vars(list: &mut [Var], to: &[NameId])
    ensures { variable_views_of list.new
        ≡ renumbered_variables to.now (variable_views_of list.old) }
{
    for var in list.iter_mut() {
        renumber_identifier(&mut var.name, to);
        renumber_option_expr(&mut var.init, to);
    }
}

#[cycle(trees)]
fn renumber_for_init(init: &mut ForInit, to: &[NameId])
    ensures { for_initializer_view init.new
        ≡ renumbered_for_initializer to.now (for_initializer_view init.old) }
{
    match init {
        ForInit::Locals { ty, vars, .. } => {
            renumber_type(ty, to);
            renumber_vars(vars, to);
        }
        ForInit::Steps { steps } => renumber_exprs(steps, to),
    }
}

#[cycle(trees)]
#[tactic(auto, using(crate::proofs::Views::statement_is))]
fn renumber_stmt(stmt: &mut Stmt, to: &[NameId])
    ensures { statement_view stmt.new ≡ renumbered_statement to.now (statement_view stmt.old) }
{
    match stmt {
        Stmt::Block { block } => renumber_stmts(&mut block.stmts, to),
        Stmt::Local { ty, vars, .. } => {
            renumber_type(ty, to);
            renumber_vars(vars, to);
        }
        Stmt::Class { decl } => renumber_decl(decl, to),
        Stmt::Empty { .. } => {}
        Stmt::Labelled { label, body, .. } => {
            renumber_identifier(label, to);
            renumber_stmt(body, to);
        }
        Stmt::If { condition, yes, .. } => {
            renumber_expr(condition, to);
            renumber_stmt(yes, to);
        }
        Stmt::IfElse {
            condition,
            yes,
            no,
            ..
        } => {
            renumber_expr(condition, to);
            renumber_stmt(yes, to);
            renumber_stmt(no, to);
        }
        Stmt::While {
            condition,
            body,
            ..
        } => {
            renumber_expr(condition, to);
            renumber_stmt(body, to);
        }
        Stmt::Do {
            body,
            condition,
            ..
        } => {
            renumber_stmt(body, to);
            renumber_expr(condition, to);
        }
        Stmt::For {
            init,
            condition,
            steps,
            body,
            ..
        } => {
            renumber_for_init(init, to);
            renumber_option_expr(condition, to);
            renumber_exprs(steps, to);
            renumber_stmt(body, to);
        }
        Stmt::ForEach {
            ty,
            name,
            array,
            body,
            ..
        } => {
            renumber_type(ty, to);
            renumber_identifier(name, to);
            renumber_expr(array, to);
            renumber_stmt(body, to);
        }
        Stmt::Switch {
            selector,
            groups,
            ..
        } => {
            renumber_expr(selector, to);
            renumber_groups(groups, to);
        }
        Stmt::Break { label, .. } => renumber_option_identifier(label, to),
        Stmt::Continue { label, .. } => renumber_option_identifier(label, to),
        Stmt::Return { value, .. } => renumber_option_expr(value, to),
        Stmt::Throw { value, .. } => renumber_expr(value, to),
        Stmt::Try { block, catches, .. } => {
            renumber_stmts(&mut block.stmts, to);
            renumber_catches(catches, to);
        }
        Stmt::TryFinally {
            block,
            catches,
            last,
            ..
        } => {
            renumber_stmts(&mut block.stmts, to);
            renumber_catches(catches, to);
            renumber_stmts(&mut last.stmts, to);
        }
        Stmt::ExpressionStatement { expr, .. } => renumber_expr(expr, to),
    }
}

#[cycle(trees)]
#[tactic(auto, using(crate::proofs::Went::walks))]
fn renumber_stmts(list: &mut [Stmt], to: &[NameId])
    ensures { statement_views_of list.new
        ≡ renumbered_statements to.now (statement_views_of list.old) }
{
    for stmt in list.iter_mut() {
        renumber_stmt(stmt, to);
    }
}

#[cycle(trees)]
fn renumber_option_block(block: &mut Option<Block>, to: &[NameId])
    ensures { block_view_of_option block.new
        ≡ renumbered_block_if to.now (block_view_of_option block.old) }
{
    if let Some(block) = block {
        renumber_stmts(&mut block.stmts, to);
    }
}

#[cycle(trees)]
fn renumber_label(label: &mut Label, to: &[NameId])
    ensures { label_views_of (label.new ∷ [])
        ≡ renumbered_labels to.now (label_views_of (label.old ∷ [])) }
{
    if let Label::Case { value } = label {
        renumber_expr(value, to);
    }
}

#[cycle(trees)]
#[tactic(auto, using(crate::proofs::Went::walks))]
fn renumber_labels(list: &mut [Label], to: &[NameId])
    ensures { label_views_of list.new ≡ renumbered_labels to.now (label_views_of list.old) }
{
    for label in list.iter_mut() {
        renumber_label(label, to);
    }
}

#[cycle(trees)]
#[tactic(auto, using(crate::proofs::Went::walks))]
fn renumber_groups(list: &mut [Group], to: &[NameId])
    ensures { group_views_of list.new ≡ renumbered_groups to.now (group_views_of list.old) }
{
    for group in list.iter_mut() {
        renumber_labels(&mut group.labels, to);
        renumber_stmts(&mut group.stmts, to);
    }
}

#[cycle(trees)]
#[tactic(auto, using(crate::proofs::Went::walks))]
fn renumber_catches(list: &mut [Catch], to: &[NameId])
    ensures { catch_views_of list.new ≡ renumbered_catches to.now (catch_views_of list.old) }
{
    for catch in list.iter_mut() {
        renumber_name(&mut catch.class, to);
        renumber_identifier(&mut catch.name, to);
        renumber_stmts(&mut catch.block.stmts, to);
    }
}

#[cycle(trees)]
#[tactic(auto, using(crate::proofs::Views::constructor_invocation_is))]
fn renumber_call(call: &mut ConstructorCall, to: &[NameId])
    ensures { constructor_invocation_view call.new
        ≡ renumbered_constructor_invocation to.now (constructor_invocation_view call.old) }
{
    if let ConstructorCall::Explicit { args, .. } = call {
        renumber_exprs(args, to);
    }
}

#[cycle(trees)]
fn renumber_member(member: &mut Member, to: &[NameId])
    ensures { member_view member.new ≡ renumbered_member to.now (member_view member.old) }
{
    match member {
        Member::Type { decl } => renumber_decl(decl, to),
        Member::Field { ty, vars, .. } => {
            renumber_type(ty, to);
            renumber_vars(vars, to);
        }
        Member::Method {
            result,
            name,
            formals,
            throws,
            body,
            ..
        } => {
            renumber_option_type(result, to);
            renumber_identifier(name, to);
            renumber_formals(formals, to);
            renumber_names(throws, to);
            renumber_option_block(body, to);
        }
        Member::Constructor {
            name,
            formals,
            throws,
            call,
            body,
            ..
        } => {
            renumber_identifier(name, to);
            renumber_formals(formals, to);
            renumber_names(throws, to);
            renumber_call(call, to);
            renumber_stmts(&mut body.stmts, to);
        }
        Member::Initializer { body, .. } => renumber_stmts(&mut body.stmts, to),
    }
}

#[cycle(trees)]
#[tactic(auto, using(crate::proofs::Went::walks))]
fn renumber_members(list: &mut [Member], to: &[NameId])
    ensures { member_views_of list.new ≡ renumbered_members to.now (member_views_of list.old) }
{
    for member in list.iter_mut() {
        renumber_member(member, to);
    }
}

#[cycle(trees)]
fn renumber_decl(decl: &mut Decl, to: &[NameId])
    ensures { declaration_view decl.new
        ≡ renumbered_declaration to.now (declaration_view decl.old) }
{
    match decl {
        Decl::Class {
            name,
            params,
            extends,
            implements,
            body,
            ..
        } => {
            renumber_identifier(name, to);
            renumber_params(params, to);
            renumber_option_type(extends, to);
            renumber_types(implements, to);
            renumber_members(body, to);
        }
        Decl::Interface {
            name,
            params,
            extends,
            body,
            ..
        } => {
            renumber_identifier(name, to);
            renumber_params(params, to);
            renumber_types(extends, to);
            renumber_members(body, to);
        }
        Decl::Enum {
            name,
            constants,
            ..
        } => {
            renumber_identifier(name, to);
            renumber_identifiers(constants, to);
        }
    }
}

#[tactic(auto, using(crate::proofs::Went::walks))]
fn renumber_decls(list: &mut [Decl], to: &[NameId])
    ensures { map declaration_view list.new
        ≡ map (renumbered_declaration to.now) (map declaration_view list.old) }
{
    for decl in list.iter_mut() {
        renumber_decl(decl, to);
    }
}

/// Puts `to[k]` for each name number k of the unit, and changes nothing else; a number that is no place in `to` stays. So
/// files that were lexed apart come to one table of names.
pub fn renumber(unit: &mut Unit, to: &[NameId])
    ensures { unit_view unit.new ≡ renumbered to.now (unit_view unit.old) }
{
    renumber_names(&mut unit.imports, to);
    renumber_decls(&mut unit.decls, to);
}
