// The first of some tokens.

ghost use Rattle.std.specs.Prelude.{◌≡◌};
ghost use Rattle.je_grammar.specs.Tokens.{first_span as the_first_span};
ghost use Rattle.je_grammar.specs.Context.{begins_operand as the_operand_begins};
ghost use Rattle.je_ast.specs.Spans.{join as joined};
ghost use Rattle.parse_laws.specs.way.Tokens.{same, behind as behind_at, behind_word as behind_word_at, is_symbol as is_symbol_at, is_word as is_word_at, is_identifier as is_identifier_at, identifier_at};
ghost use Rattle.je_token.specs.declared.token.TokenKind.TheVariants as the_kind;
ghost use Rattle.parse_types.specs.way.Views.{rest_of, read_of};

use je_ast::Identifier;
use je_base::Span;
use je_token::{Keyword, Symbol, Token, TokenKind};

// Whether a token of this kind is this symbol.
#[tactic(auto, using(crate::proofs::Same::symbol_same))]
fn is_the_symbol(kind: TokenKind, symbol: Symbol) -> bool
    ensures { result ≡ same kind (the_kind.Symbol symbol) }
{
    match kind {
        TokenKind::Symbol(found) => found == symbol,
        _ => false,
    }
}

// Whether a token of this kind is this word.
#[tactic(auto, using(crate::proofs::Same::word_same))]
fn is_the_word(kind: TokenKind, word: Keyword) -> bool
    ensures { result ≡ same kind (the_kind.Keyword word) }
{
    match kind {
        TokenKind::Keyword(found) => found == word,
        _ => false,
    }
}

/// The tokens behind this symbol, where it stands first.
pub fn behind(tokens: &[Token], symbol: Symbol) -> Option<&[Token]>
    ensures { rest_of result ≡ behind_at symbol tokens.now }
{
    match tokens.split_first() {
        Some((token, rest)) if is_the_symbol(token.kind, symbol) => Some(rest),
        _ => None,
    }
}

/// The tokens behind this word, where it stands first.
pub fn behind_word(tokens: &[Token], word: Keyword) -> Option<&[Token]>
    ensures { rest_of result ≡ behind_word_at word tokens.now }
{
    match tokens.split_first() {
        Some((token, rest)) if is_the_word(token.kind, word) => Some(rest),
        _ => None,
    }
}

/// Whether this symbol stands first.
pub fn is_symbol(tokens: &[Token], symbol: Symbol) -> bool
    ensures { result ≡ is_symbol_at symbol tokens.now }
{
    behind(tokens, symbol).is_some()
}

/// Whether this word stands first.
pub fn is_word(tokens: &[Token], word: Keyword) -> bool
    ensures { result ≡ is_word_at word tokens.now }
{
    behind_word(tokens, word).is_some()
}

/// Whether an identifier stands first.
pub fn is_identifier(tokens: &[Token]) -> bool
    ensures { result ≡ is_identifier_at tokens.now }
{
    match tokens.first() {
        Some(token) => token.kind == TokenKind::Identifier,
        None => false,
    }
}

/// The identifier that stands first, and the tokens behind it.
pub fn identifier(tokens: &[Token]) -> Option<(Identifier, &[Token])>
    ensures { read_of result ≡ identifier_at tokens.now }
{
    match tokens.split_first() {
        Some((token, rest)) if token.kind == TokenKind::Identifier => {
            let name = Identifier {
                name: token.text,
                span: token.span,
            };
            Some((name, rest))
        }
        _ => None,
    }
}

/// The span of the first token.
pub fn first_span(tokens: &[Token]) -> Span
    ensures { result ≡ the_first_span tokens.now }
{
    match tokens.first() {
        Some(token) => token.span,
        None => Span {
            file: 0,
            start: 0,
            end: 0,
        },
    }
}

/// From the beginning of the one to the end of the other.
pub fn join(from: Span, to: Span) -> Span
    ensures { result ≡ joined from to }
{
    Span {
        file: from.file,
        start: from.start,
        end: to.end,
    }
}

/// Whether an operand of a cast to a class begins here: an identifier, a literal, `(`, `!`, `~`, `this`, `super` or `new`
/// stands first (JLS 15.16).
pub fn begins_operand(tokens: &[Token]) -> bool
    ensures { result ≡ the_operand_begins tokens.now }
{
    let Some(token) = tokens.first() else {
        return false;
    };
    match token.kind {
        TokenKind::Keyword(word) => matches!(
            word,
            Keyword::This
                | Keyword::Super
                | Keyword::New
                | Keyword::True
                | Keyword::False
                | Keyword::Null
        ),
        TokenKind::Symbol(symbol) => {
            matches!(symbol, Symbol::OpenParen | Symbol::Not | Symbol::Tilde)
        }
        TokenKind::Identifier
        | TokenKind::IntLiteral
        | TokenKind::LongLiteral
        | TokenKind::CharLiteral
        | TokenKind::TextLiteral => true,
        TokenKind::End => false,
    }
}
