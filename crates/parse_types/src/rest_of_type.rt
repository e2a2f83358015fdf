// What stands behind a type: a `>>` may have closed one list of type arguments and go on to close another.

ghost use Rattle.std.specs.Prelude.{◌≡◌, None, IfNone};
ghost use Rattle.je_token.specs.declared.symbol.Symbol.TheVariants as symbol;
ghost use Rattle.je_token.specs.declared.keyword.Keyword.TheVariants as word;
ghost use Rattle.je_grammar.specs.Tokens.{first_of as the_first_of, left_of as the_left_of};
ghost use Rattle.parse_laws.specs.way.Tokens.{behind as behind_at, behind_word as behind_word_at, identifier_at, closes_at, closing as closing_at};
ghost use Rattle.parse_types.specs.way.Views.{rest_of, seen_rest, whole_of, seen_close};

use crate::ahead::behind;
use je_base::Span;
use je_token::{Symbol, Token, TokenKind};

/// Tokens, before which there may be what is left of a `>>` or `>>>`.
#[derive(Clone, Copy)]
pub enum Rest<'a> {
    /// Nothing is left before them.
    Whole { tokens: &'a [Token] },
    /// A `>` is left before them, of this token without its first character.
    Greater { of: Token, tokens: &'a [Token] },
    /// A `>>` is left before them, of this token without its first character.
    ShiftRight { of: Token, tokens: &'a [Token] },
}

impl<'a> Rest<'a> {
    /// The tokens, where nothing is left before them.
    pub fn whole(self) -> Option<&'a [Token]>
        ensures value { rest_of result ≡ whole_of self.entry }
        ensures no_identifier { IfNone result (identifier_at (seen_rest self.entry) ≡ None) }
        ensures no_bracket { IfNone result (behind_at symbol.OpenBracket
            (seen_rest self.entry) ≡ None) }
        ensures no_parenthesis { IfNone result
            (behind_at symbol.OpenParen (seen_rest self.entry) ≡ None) }
        ensures no_brace { IfNone result (behind_at symbol.OpenBrace
            (seen_rest self.entry) ≡ None) }
        ensures no_extends { IfNone result (behind_word_at word.Extends
            (seen_rest self.entry) ≡ None) }
        ensures no_implements { IfNone result (behind_word_at word.Implements
            (seen_rest self.entry) ≡ None) }
        ensures no_comma { IfNone result (behind_at symbol.Comma (seen_rest self.entry) ≡ None) }
    {
        match self {
            Rest::Whole { tokens } => Some(tokens),
            _ => None,
        }
    }

    /// The tokens behind a comma, where it stands first.
    pub fn behind_comma(self) -> Option<&'a [Token]>
        ensures { rest_of result ≡ behind_at symbol.Comma (seen_rest self.entry) }
    {
        behind(self.whole()?, Symbol::Comma)
    }
}

/// A `>` that closes type arguments or type parameters, also the first one of a `>>` or `>>>`: its span, and what follows.
pub fn closes(rest: Rest) -> Option<(Span, Rest)>
    ensures { seen_close result ≡ closes_at (seen_rest rest.entry) }
{
    match rest {
        Rest::Whole { tokens } => {
            let (token, tokens) = tokens.split_first()?;
            closing(*token, tokens)
        }
        Rest::Greater { of, tokens } => closing(left_of(of, Symbol::Greater), tokens),
        Rest::ShiftRight { of, tokens } => closing(left_of(of, Symbol::ShiftRight), tokens),
    }
}

fn closing(token: Token, tokens: &[Token]) -> Option<(Span, Rest)>
    ensures { seen_close result ≡ closing_at token tokens.now token.kind }
{
    match token.kind {
        TokenKind::Symbol(Symbol::Greater) => Some((token.span, Rest::Whole { tokens })),
        TokenKind::Symbol(Symbol::ShiftRight) => Some((
            first_of(token),
            Rest::Greater { of: token, tokens },
        )),
        TokenKind::Symbol(Symbol::UnsignedShiftRight) => Some((
            first_of(token),
            Rest::ShiftRight { of: token, tokens },
        )),
        _ => None,
    }
}

// The first `>` of a `>>` or `>>>`.
fn first_of(token: Token) -> Span
    ensures { result ≡ the_first_of token }
{
    Span {
        file: token.span.file,
        start: token.span.start,
        end: token.first_end,
    }
}

// What is left of a `>>` or `>>>` behind its first `>`.
fn left_of(token: Token, symbol: Symbol) -> Token
    ensures { result ≡ the_left_of symbol token }
{
    Token {
        kind: TokenKind::Symbol(symbol),
        span: Span {
            file: token.span.file,
            start: token.first_end,
            end: token.span.end,
        },
        text: token.text,
        value: token.value,
        first_end: token.second_end,
        second_end: token.span.end,
    }
}
