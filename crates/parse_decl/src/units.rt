// Reads units.

ghost use Rattle.std.specs.Prelude.{◌≡◌, ◌≤◌, [], length, drop, IfOk, IfErr, IfSome};
ghost use Rattle.je_token.specs.declared.token.TokenKind.TheVariants as the_kind;
ghost use Rattle.parse_laws.specs.way.Tokens.{same};
ghost use Rattle.parse_laws.specs.way.Knot.{is_end, import_at, imports_at, declarations_at, unit_at};
ghost use Rattle.parse_expr.specs.Answers.{IsFile, max_height};
ghost use Rattle.parse_decl.specs.Answers.{IsUnitOf, IsNoUnitOf};
ghost use Rattle.parse_decl.specs.way.Views.{seen_import, seen_imports, seen_declarations, seen_unit};

use crate::place::syntax_place;
use je_ast::{Decl, Name, Unit};
use je_base::Memory;
use je_lexer::Tokens;
use je_token::{Symbol, Token, TokenKind};
use parse_expr::{ParseFault, decl};
use parse_place::import as import_among;
use parse_types::{first_span, is_symbol};
use std::alloc::Global;

/// The unit of height at most 300 that spells the tokens, of a size of at most twice their number;
/// Syntax at the syntax place exactly where there is none.
#[tactic(auto, using(crate::proofs::Files::unit_given, crate::proofs::Files::no_unit))]
pub fn unit(alloc: Global, tokens: &Tokens) -> Result<Unit, ParseFault>
    requires file { IsFile tokens.now }
    ensures unit { IfOk result (IsUnitOf tokens.now) }
    ensures none { IfErr result (IsNoUnitOf tokens.now) }
{
    match read(alloc, tokens)? {
        Some(unit) => Ok(unit),
        None => {
            let place = syntax_place(alloc, tokens)?;
            Err(ParseFault::Syntax(first_span(&tokens.list[place..])))
        }
    }
}

// `{"import" Name ";"} {TypeDecl | ";"}`, and then the file's end
#[tactic(auto, unfolding(parse_laws::specs::way::Knot::unit_at))]
fn read(alloc: Global, tokens: &Tokens) -> Result<Option<Unit>, Memory>
    requires file { IsFile tokens.now }
    ensures { IfOk result (λ o. seen_unit o
        ≡ unit_at tokens.now.names tokens.now.texts.items max_height tokens.now.list.items) }
{
    let (imports, place) = imports(alloc, tokens)?;
    let Some(decls) = declarations(alloc, tokens, place)? else {
        return Ok(None);
    };
    Ok(Some(Unit { imports, decls }))
}

// `{"import" Name ";"}`, as far as it goes, and the place behind it
#[tactic(auto, using(crate::proofs::Steps::imports_step, crate::proofs::Steps::imports_none))]
fn imports(alloc: Global, tokens: &Tokens) -> Result<(Vec<Name>, usize), Memory>
    ensures value { IfOk result (λ r. seen_imports tokens.now.list.items r
        ≡ imports_at tokens.now.names tokens.now.texts.items
        (length tokens.now.list.items) [] tokens.now.list.items) }
    ensures inside { IfOk result (λ r. r.1 ≤ length tokens.now.list.items) }
{
    let mut list = Vec::new(alloc);
    let mut place = 0;
    for _ in 0..tokens.list.len() {
        let Some(found) = import(alloc, tokens, place)? else {
            break;
        };
        list.push(found.0)?;
        place = found.1;
    }
    Ok((list, place))
}

// `"import" Name ";"` at this place, and the place behind it
fn import(alloc: Global, tokens: &Tokens, from: usize) -> Result<Option<(Name, usize)>, Memory>
    requires from { from ≤ length tokens.now.list.items }
    ensures value { IfOk result (λ o. seen_import tokens.now.list.items o
        ≡ import_at tokens.now.names tokens.now.texts.items (drop from tokens.now.list.items)) }
    ensures inside { IfOk result
        (λ o. IfSome o (λ x. x.1 ≤ length tokens.now.list.items)) }
{
    match import_among(alloc, &tokens.list[from..])? {
        Some(found) => Ok(Some((found.0, tokens.list.len() - found.1.len()))),
        None => Ok(None),
    }
}

// `{TypeDecl | ";"}` from this place up to the file's end
fn declarations(alloc: Global, tokens: &Tokens, from: usize) -> Result<Option<Vec<Decl>>, Memory>
    requires file { IsFile tokens.now }
    requires from { from ≤ length tokens.now.list.items }
    ensures { IfOk result (λ o. seen_declarations o
        ≡ declarations_at tokens.now.names tokens.now.texts.items
        (length tokens.now.list.items) max_height [] (drop from tokens.now.list.items)) }
{
    let mut list = Vec::new(alloc);
    let mut place = from;
    for _ in 0..tokens.list.len() {
        let rest = &tokens.list[place..];
        if ends(rest) {
            return Ok(Some(list));
        }
        if is_symbol(rest, Symbol::Semicolon) {
            place += 1;
            continue;
        }
        match decl(alloc, tokens, place) {
            Ok(found) => {
                list.push(found.0)?;
                place = found.1;
            }
            Err(ParseFault::Syntax(_)) => return Ok(None),
            Err(ParseFault::Memory) => return Err(Memory),
        }
    }
    Ok(None)
}

// Whether the file's end stands here, and nothing behind it.
fn ends(tokens: &[Token]) -> bool
    ensures { result ≡ is_end tokens.now }
{
    match tokens.split_first() {
        Some((token, rest)) => rest.is_empty() && is_end_kind(token.kind),
        None => false,
    }
}

// Whether a token of this kind is the file's end.
fn is_end_kind(kind: TokenKind) -> bool
    ensures { result ≡ same kind the_kind.End }
{
    match kind {
        TokenKind::End => true,
        _ => false,
    }
}
