// Reads literals.

ghost use Rattle.std.specs.Prelude.{◌≡◌, IfOk};
ghost use Rattle.je_token.specs.declared.token.TokenKind.TheVariants as the_kind;
ghost use Rattle.je_ast.specs.View.{view};
ghost use Rattle.parse_laws.specs.way.Expressions.{literal_kind, literal_at};
ghost use Rattle.parse_types.specs.way.Views.{seen};
ghost use Rattle.parse_below.specs.way.Views.{HasHeights};

use je_ast::{Expr, Literal, make_expr};
use je_base::{Memory, Units};
use je_token::{Keyword, Token, TokenKind};
use parse_types::{Found, Read};
use std::alloc::Global;

/// A literal, of height 1. A string's token has the place of its units among the texts.
pub fn literal<'a>(alloc: Global, texts: &[Units], tokens: &'a [Token]) -> Read<'a, Expr>
    ensures value { IfOk result (λ o. seen view o ≡ literal_at texts.now tokens.now) }
    ensures height { IfOk result (HasHeights 1) }
{
    let Some((token, rest)) = tokens.split_first() else {
        return Ok(None);
    };
    let Some(literal) = value(alloc, texts, token)? else {
        return Ok(None);
    };
    let tree = make_expr(Expr::Literal {
        literal,
        span: token.span,
    });
    Ok(Some(Found {
        tree,
        height: 1,
        rest,
    }))
}

// What a literal's token means.
fn value(alloc: Global, texts: &[Units], token: &Token) -> Result<Option<Literal>, Memory>
    ensures { IfOk result (λ o. o ≡ literal_kind texts.now token.now.value token.now.kind) }
{
    let value = token.value;
    match token.kind {
        TokenKind::IntLiteral => Ok(Some(Literal::Int { value })),
        TokenKind::LongLiteral => Ok(Some(Literal::Long { value })),
        TokenKind::CharLiteral => Ok(Some(Literal::Char { value })),
        TokenKind::TextLiteral => text(alloc, texts, value),
        TokenKind::Keyword(Keyword::True) => Ok(Some(Literal::Bool { value: true })),
        TokenKind::Keyword(Keyword::False) => Ok(Some(Literal::Bool { value: false })),
        TokenKind::Keyword(Keyword::Null) => Ok(Some(Literal::Null)),
        _ => Ok(None),
    }
}

// A copy of the units at this place.
fn text(alloc: Global, texts: &[Units], place: i128) -> Result<Option<Literal>, Memory>
    ensures { IfOk result (λ o. o ≡ literal_kind texts.now place the_kind.TextLiteral) }
{
    let Ok(place) = usize::try_from(place) else {
        return Ok(None);
    };
    let Some(kept) = texts.get(place) else {
        return Ok(None);
    };
    let units = copy(alloc, kept)?;
    Ok(Some(Literal::Text { units }))
}

fn copy(alloc: Global, kept: &Units) -> Result<Units, Memory>
    ensures { IfOk result (λ units. units ≡ kept.now) }
{
    let mut units = Units::new(alloc);
    for unit in kept.as_slice() {
        units.push(*unit)?;
    }
    Ok(units)
}
