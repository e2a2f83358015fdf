// What the layers above call.

ghost use Rattle.std.specs.Prelude.{◌≡◌, ◌-◌, ◌<◌, ◌≤◌, length, IfOk, IfErr};
ghost use Rattle.parse_expr.specs.Answers.{IsFile, fault_span, max_height};
ghost use Rattle.parse_expr.specs.Answers.{ExpressionAt, NoExpression, StatementAt, NoStatement};
ghost use Rattle.parse_expr.specs.Answers.{MemberAt, NoMember, DeclarationAt, NoDeclaration};
ghost use Rattle.parse_expr.specs.declared.fault.ParseFault.TheVariants.{Syntax as syntax};

use crate::fault::ParseFault;
use crate::knot;
use je_ast::{Decl, Expr, Member, Stmt};
use je_lexer::Tokens;
use je_token::Token;
use parse_below::Setting;
use parse_types::{Place, first_span};
use std::alloc::Global;

/// The greatest height of a tree.
pub const MAX_HEIGHT: u32 = 300;

/// The longest expression of height at most 300 that begins at the token `from`, and the place
/// behind it; Syntax exactly where none does.
pub fn expr(alloc: Global, tokens: &Tokens, from: usize) -> Result<(Expr, usize), ParseFault>
    requires file { IsFile tokens.now }
    requires from { from ≤ length tokens.now.list.items }
    ensures longest { IfOk result (ExpressionAt tokens.now from) }
    ensures none { IfErr result (NoExpression tokens.now from) }
{
    let place = Place {
        tokens: &tokens.list[from..],
        least: 1,
    };
    let setting = setting(tokens);
    match knot::expr(alloc, &setting, place)? {
        Some(found) => Ok((found.tree, place_of(tokens, found.rest))),
        None => Err(fault_at(tokens, from)),
    }
}

/// The longest type declaration of height at most 300 that begins at the token `from`, and the
/// place behind it; Syntax exactly where none does.
pub fn decl(alloc: Global, tokens: &Tokens, from: usize) -> Result<(Decl, usize), ParseFault>
    requires file { IsFile tokens.now }
    requires from { from ≤ length tokens.now.list.items }
    ensures longest { IfOk result (DeclarationAt tokens.now from) }
    ensures none { IfErr result (NoDeclaration tokens.now from) }
{
    let setting = setting(tokens);
    match knot::decl(alloc, &setting, &tokens.list[from..])? {
        Some(found) => Ok((found.tree, place_of(tokens, found.rest))),
        None => Err(fault_at(tokens, from)),
    }
}

/// The longest Member of height at most 300 that begins at the token `from`, and the place behind
/// it; Syntax exactly where none does.
pub fn member(alloc: Global, tokens: &Tokens, from: usize) -> Result<(Member, usize), ParseFault>
    requires file { IsFile tokens.now }
    requires from { from ≤ length tokens.now.list.items }
    ensures longest { IfOk result (MemberAt tokens.now from) }
    ensures none { IfErr result (NoMember tokens.now from) }
{
    let setting = setting(tokens);
    match knot::member(alloc, &setting, &tokens.list[from..])? {
        Some(found) => Ok((found.tree, place_of(tokens, found.rest))),
        None => Err(fault_at(tokens, from)),
    }
}

/// The longest BlockStmt of height at most 300 that begins at the token `from`, and the place
/// behind it; Syntax exactly where none does.
pub fn block_stmt(alloc: Global, tokens: &Tokens, from: usize) -> Result<(Stmt, usize), ParseFault>
    requires file { IsFile tokens.now }
    requires from { from ≤ length tokens.now.list.items }
    ensures longest { IfOk result (StatementAt tokens.now from) }
    ensures none { IfErr result (NoStatement tokens.now from) }
{
    let setting = setting(tokens);
    match knot::block_stmt(alloc, &setting, &tokens.list[from..])? {
        Some(found) => Ok((found.tree, place_of(tokens, found.rest))),
        None => Err(fault_at(tokens, from)),
    }
}

/// The setting of trees of at most the greatest height.
pub fn setting(tokens: &Tokens) -> Setting
    ensures names { result.names.now ≡ tokens.now.names }
    ensures texts { result.texts.now ≡ tokens.now.texts.items }
    ensures height { result.below ≡ max_height }
{
    Setting {
        names: &tokens.names,
        texts: &tokens.texts,
        below: MAX_HEIGHT,
    }
}

// The place of the first of these tokens, with which the list ends.
fn place_of(tokens: &Tokens, rest: &[Token]) -> usize
    requires { length rest.now ≤ length tokens.now.list.items }
    ensures { result ≡ length tokens.now.list.items - length rest.now }
{
    tokens.list.len() - rest.len()
}

// The fault of the token at this place, or of the file's end where none is left.
fn fault_at(tokens: &Tokens, from: usize) -> ParseFault
    requires { 0 < length tokens.now.list.items }
    ensures { result ≡ syntax (fault_span tokens.now.list.items from) }
{
    let place = from.min(tokens.list.len() - 1);
    ParseFault::Syntax(first_span(&tokens.list[place..]))
}
