// Opens items: reads their heads, up to their `{`.

ghost use Rattle.std.specs.Prelude.{◌≡◌, IfOk};
ghost use Rattle.parse_place.specs.way.Readings.{inside_at, type_opening_at, method_opening_at};
ghost use Rattle.parse_place.specs.way.Readings.{member_opening_at, statement_opening_at};
ghost use Rattle.parse_place.specs.way.Readings.{opening_at};
ghost use Rattle.parse_place.specs.way.Views.{context_view, seen_step};

use crate::contexts::{Context, Step};
use je_base::Memory;
use je_token::{Keyword, Symbol, Token};
use parse_below::Setting;
use parse_members::{begins_initializer, begins_local_class, constructor_head, method_head};
use parse_types::{behind, behind_word, class_head, interface_head, is_symbol, modifiers};
use std::alloc::Global;

/// The inside of an item that can be opened in this context: of a class, interface, method,
/// constructor or initializer whose head stands here, or of a block.
#[tactic(auto, unfolding(parse_laws::specs::way::Place::opening_at))]
pub fn opening<'a>(
    alloc: Global,
    setting: &Setting,
    context: Context,
    tokens: &'a [Token],
) -> Result<Option<Step<'a>>, Memory>
    ensures { IfOk result
        (λ o. seen_step o ≡ opening_at setting.now (context_view context) tokens.now) }
{
    match context {
        Context::Imports | Context::Declarations => type_opening(alloc, setting, tokens),
        Context::Members => member_opening(alloc, setting, tokens),
        Context::ConstructorBody | Context::Statements => {
            statement_opening(alloc, setting, tokens)
        }
    }
}

// A class or interface.
#[tactic(auto, unfolding(parse_laws::specs::way::Place::type_opening_at))]
fn type_opening<'a>(
    alloc: Global,
    setting: &Setting,
    tokens: &'a [Token],
) -> Result<Option<Step<'a>>, Memory>
    ensures { IfOk result (λ o. seen_step o ≡ type_opening_at setting.now tokens.now) }
{
    let (_, rest) = modifiers(alloc, setting.names, tokens)?;
    if let Some(head) = class_head(alloc, rest, setting.below)? {
        return Ok(inside(Context::Members, head.rest));
    }
    let Some(head) = interface_head(alloc, rest, setting.below)? else {
        return Ok(None);
    };
    Ok(inside(Context::Members, head.rest))
}

// A constructor or method.
#[tactic(auto, unfolding(parse_laws::specs::way::Place::method_opening_at))]
fn method_opening<'a>(
    alloc: Global,
    setting: &Setting,
    tokens: &'a [Token],
) -> Result<Option<Step<'a>>, Memory>
    ensures { IfOk result (λ o. seen_step o ≡ method_opening_at setting.now tokens.now) }
{
    let (_, rest) = modifiers(alloc, setting.names, tokens)?;
    if let Some(head) = constructor_head(alloc, rest, setting.below)? {
        return Ok(inside(Context::ConstructorBody, head.rest));
    }
    let Some(head) = method_head(alloc, rest, setting.below)? else {
        return Ok(None);
    };
    Ok(inside(Context::Statements, head.rest))
}

// A class, interface, constructor, method or initializer.
#[tactic(auto, unfolding(parse_laws::specs::way::Place::member_opening_at))]
fn member_opening<'a>(
    alloc: Global,
    setting: &Setting,
    tokens: &'a [Token],
) -> Result<Option<Step<'a>>, Memory>
    ensures { IfOk result (λ o. seen_step o ≡ member_opening_at setting.now tokens.now) }
{
    if begins_initializer(tokens) {
        let block = behind_word(tokens, Keyword::Static).unwrap_or(tokens);
        return Ok(inside(Context::Statements, block));
    }
    if let Some(opened) = type_opening(alloc, setting, tokens)? {
        return Ok(Some(opened));
    }
    method_opening(alloc, setting, tokens)
}

// A local class or a block.
#[tactic(auto, unfolding(parse_laws::specs::way::Place::statement_opening_at))]
fn statement_opening<'a>(
    alloc: Global,
    setting: &Setting,
    tokens: &'a [Token],
) -> Result<Option<Step<'a>>, Memory>
    ensures { IfOk result (λ o. seen_step o ≡ statement_opening_at setting.now tokens.now) }
{
    if is_symbol(tokens, Symbol::OpenBrace) {
        return Ok(inside(Context::Statements, tokens));
    }
    if begins_local_class(tokens) {
        return type_opening(alloc, setting, tokens);
    }
    Ok(None)
}

// Behind the `{` that stands first.
fn inside(context: Context, tokens: &[Token]) -> Option<Step>
    ensures { seen_step result ≡ inside_at (context_view context) tokens.now }
{
    Some(Step {
        context,
        rest: behind(tokens, Symbol::OpenBrace)?,
    })
}
