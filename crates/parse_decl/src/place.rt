// The place of a syntax fault.

ghost use Rattle.std.specs.Prelude.{◌≡◌, IfOk};
ghost use Rattle.parse_expr.specs.Answers.{IsFile};
ghost use Rattle.parse_expr.specs.way.Readings.{IsExpression, IsDeclaration};
ghost use Rattle.parse_expr.specs.way.Readings.{IsMember, IsBlockStatement};
ghost use Rattle.parse_place.specs.way.Readings.{quick_place_at};
ghost use Rattle.parse_decl.specs.Answers.{IsPlaceOf};

use je_ast::{Decl, Expr, Member, Stmt};
use je_base::Memory;
use je_lexer::Tokens;
use je_token::Token;
use parse_below::Setting;
use parse_expr::{block_stmt_within, decl_within, expr_within, member_within, setting};
use parse_place::place_among;
use parse_types::Read;
use std::alloc::Global;

/// The place in the token list of the syntax fault of tokens that no unit of height at most 300
/// spells: the first token of the innermost item that can't be read.
pub fn syntax_place(alloc: Global, tokens: &Tokens) -> Result<usize, Memory>
    requires file { IsFile tokens.now }
    ensures { IfOk result (IsPlaceOf tokens.now) }
{
    let setting = setting(tokens);
    let place = place_within(alloc, &setting, &tokens.list);
    Ok(tokens.list.len() - place?.len())
}

// The tokens from the syntax place on, where no item is higher than the setting says.
fn place_within<'a>(
    alloc: Global,
    setting: &Setting,
    tokens: &'a [Token],
) -> Result<&'a [Token], Memory>
    ensures { IfOk result (λ place. place.now ≡ quick_place_at setting.now tokens.now) }
{
    let expr = |place| -> Read<Expr>
        ensures { IfOk result (IsExpression setting.entry.now place.entry) }
    { expr_within(alloc, setting, place) };
    let decl = |tokens| -> Read<Decl>
        ensures { IfOk result (IsDeclaration setting.entry.now tokens.now) }
    { decl_within(alloc, setting, tokens) };
    let member = |tokens| -> Read<Member>
        ensures { IfOk result (IsMember setting.entry.now tokens.now) }
    { member_within(alloc, setting, tokens) };
    let statement = |tokens| -> Read<Stmt>
        ensures { IfOk result (IsBlockStatement setting.entry.now tokens.now) }
    { block_stmt_within(alloc, setting, tokens) };
    place_among(expr, decl, member, statement, alloc, setting, tokens)
}
