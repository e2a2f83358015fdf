// Reads operators, and looks ahead for what follows them.

ghost use Rattle.std.specs.Prelude.{◌≡◌};
ghost use Rattle.parse_laws.specs.way.Expressions.{prefix_operator as prefix_operator_at};
ghost use Rattle.parse_laws.specs.way.Expressions.{postfix_operator as postfix_operator_at};
ghost use Rattle.parse_laws.specs.way.Expressions.{binary_operator as binary_operator_at};
ghost use Rattle.parse_laws.specs.way.Expressions.{binary_kind};
ghost use Rattle.parse_laws.specs.way.Expressions.{assignment_operator as assignment_operator_at};
ghost use Rattle.parse_laws.specs.way.Expressions.{assignment_kind, makes_array_at};
ghost use Rattle.parse_laws.specs.way.Expressions.{is_outer_this_at};
ghost use Rattle.parse_types.specs.way.Views.{read_of};

use je_ast::{BinaryOp, PostfixOp, PrefixOp};
use je_token::{Keyword, Symbol, Token, TokenKind};
use parse_types::{behind, is_symbol, is_word, past_name, primitive};

/// The prefix operator that stands first, and the tokens behind it.
pub fn prefix_operator(tokens: &[Token]) -> Option<(PrefixOp, &[Token])>
    ensures { read_of result ≡ prefix_operator_at tokens.now }
{
    let (token, rest) = tokens.split_first()?;
    match token.kind {
        TokenKind::Symbol(Symbol::Plus) => Some((PrefixOp::Plus, rest)),
        TokenKind::Symbol(Symbol::Minus) => Some((PrefixOp::Minus, rest)),
        TokenKind::Symbol(Symbol::Increment) => Some((PrefixOp::Increment, rest)),
        TokenKind::Symbol(Symbol::Decrement) => Some((PrefixOp::Decrement, rest)),
        TokenKind::Symbol(Symbol::Not) => Some((PrefixOp::Not, rest)),
        TokenKind::Symbol(Symbol::Tilde) => Some((PrefixOp::Tilde, rest)),
        _ => None,
    }
}

/// `++` or `--`, where it stands first, and the tokens behind it.
pub fn postfix_operator(tokens: &[Token]) -> Option<(PostfixOp, &[Token])>
    ensures { read_of result ≡ postfix_operator_at tokens.now }
{
    if let Some(rest) = behind(tokens, Symbol::Increment) {
        return Some((PostfixOp::Increment, rest));
    }
    let rest = behind(tokens, Symbol::Decrement)?;
    Some((PostfixOp::Decrement, rest))
}

/// The binary operator that stands first, and the tokens behind it.
pub fn binary_operator(tokens: &[Token]) -> Option<(BinaryOp, &[Token])>
    ensures { read_of result ≡ binary_operator_at tokens.now }
{
    let (token, rest) = tokens.split_first()?;
    Some((binary(token.kind)?, rest))
}

// The binary operator that a token of this kind is.
fn binary(kind: TokenKind) -> Option<BinaryOp>
    ensures { result ≡ binary_kind kind }
{
    match kind {
        TokenKind::Symbol(Symbol::OrOr) => Some(BinaryOp::Or),
        TokenKind::Symbol(Symbol::AndAnd) => Some(BinaryOp::And),
        TokenKind::Symbol(Symbol::Or) => Some(BinaryOp::BitOr),
        TokenKind::Symbol(Symbol::Caret) => Some(BinaryOp::BitXor),
        TokenKind::Symbol(Symbol::And) => Some(BinaryOp::BitAnd),
        TokenKind::Symbol(Symbol::Equal) => Some(BinaryOp::Equal),
        TokenKind::Symbol(Symbol::NotEqual) => Some(BinaryOp::NotEqual),
        TokenKind::Symbol(Symbol::Less) => Some(BinaryOp::Less),
        TokenKind::Symbol(Symbol::Greater) => Some(BinaryOp::Greater),
        TokenKind::Symbol(Symbol::LessEqual) => Some(BinaryOp::LessEqual),
        TokenKind::Symbol(Symbol::GreaterEqual) => Some(BinaryOp::GreaterEqual),
        TokenKind::Symbol(Symbol::ShiftLeft) => Some(BinaryOp::ShiftLeft),
        TokenKind::Symbol(Symbol::ShiftRight) => Some(BinaryOp::ShiftRight),
        TokenKind::Symbol(Symbol::UnsignedShiftRight) => Some(BinaryOp::UnsignedShiftRight),
        TokenKind::Symbol(Symbol::Plus) => Some(BinaryOp::Add),
        TokenKind::Symbol(Symbol::Minus) => Some(BinaryOp::Subtract),
        TokenKind::Symbol(Symbol::Star) => Some(BinaryOp::Multiply),
        TokenKind::Symbol(Symbol::Slash) => Some(BinaryOp::Divide),
        TokenKind::Symbol(Symbol::Percent) => Some(BinaryOp::Remainder),
        _ => None,
    }
}

/// The assignment operator that stands first, by the binary operator before its `=`, and the tokens behind it.
pub fn assignment_operator(tokens: &[Token]) -> Option<(Option<BinaryOp>, &[Token])>
    ensures { read_of result ≡ assignment_operator_at tokens.now }
{
    let (token, rest) = tokens.split_first()?;
    Some((assignment(token.kind)?, rest))
}

// The assignment operator that a token of this kind is.
fn assignment(kind: TokenKind) -> Option<Option<BinaryOp>>
    ensures { result ≡ assignment_kind kind }
{
    match kind {
        TokenKind::Symbol(Symbol::Assign) => Some(None),
        TokenKind::Symbol(Symbol::StarAssign) => Some(Some(BinaryOp::Multiply)),
        TokenKind::Symbol(Symbol::SlashAssign) => Some(Some(BinaryOp::Divide)),
        TokenKind::Symbol(Symbol::PercentAssign) => Some(Some(BinaryOp::Remainder)),
        TokenKind::Symbol(Symbol::PlusAssign) => Some(Some(BinaryOp::Add)),
        TokenKind::Symbol(Symbol::MinusAssign) => Some(Some(BinaryOp::Subtract)),
        TokenKind::Symbol(Symbol::ShiftLeftAssign) => Some(Some(BinaryOp::ShiftLeft)),
        TokenKind::Symbol(Symbol::ShiftRightAssign) => Some(Some(BinaryOp::ShiftRight)),
        TokenKind::Symbol(Symbol::UnsignedShiftRightAssign) => {
            Some(Some(BinaryOp::UnsignedShiftRight))
        }
        TokenKind::Symbol(Symbol::AndAssign) => Some(Some(BinaryOp::BitAnd)),
        TokenKind::Symbol(Symbol::CaretAssign) => Some(Some(BinaryOp::BitXor)),
        TokenKind::Symbol(Symbol::OrAssign) => Some(Some(BinaryOp::BitOr)),
        _ => None,
    }
}

/// Whether brackets follow the type of a creation, which has no type arguments then.
#[tactic(auto, unfolding(parse_laws::specs::way::Expressions::makes_array_at))]
pub fn makes_array(tokens: &[Token]) -> bool
    ensures { result ≡ makes_array_at tokens.now }
{
    if primitive(tokens).is_some() {
        return true;
    }
    match past_name(tokens) {
        Some(rest) => is_symbol(rest, Symbol::OpenBracket),
        None => false,
    }
}

/// Whether `Name "." "this"` stands here.
#[tactic(auto, unfolding(parse_laws::specs::way::Expressions::is_outer_this_at))]
pub fn is_outer_this(tokens: &[Token]) -> bool
    ensures { result ≡ is_outer_this_at tokens.now }
{
    let Some(rest) = past_name(tokens) else {
        return false;
    };
    match behind(rest, Symbol::Dot) {
        Some(word) => is_word(word, Keyword::This),
        None => false,
    }
}
