// Reads methods and their bodies.

ghost use Rattle.std.specs.Prelude.{◌≡◌, ◌+◌, ◌<◌, ◌^◌, IfOk};
ghost use Rattle.je_ast.specs.View.{member_view};
ghost use Rattle.parse_laws.specs.way.Members.{method_head_at};
ghost use Rattle.parse_types.specs.way.Views.{seen};
ghost use Rattle.parse_below.specs.way.Readers.{ReadsBlocks};
ghost use Rattle.parse_below.specs.way.Views.{MemberHasHeight};
ghost use Rattle.parse_members.specs.way.Views.{named_result_view, named_result_at};
ghost use Rattle.parse_members.specs.way.Views.{NamedResultHeight, seen_method_head};
ghost use Rattle.parse_members.specs.way.Views.{MethodHeadHeight, seen_method_body};
ghost use Rattle.parse_members.specs.way.Views.{MethodBodyHeight};
ghost use Rattle.parse_members.specs.way.Readings.{method_body_at, method_at};

use je_ast::{Block, Formal, Identifier, Member, Modifier, Name, TyName, make_method};
use je_base::{Memory, Span};
use je_token::{Keyword, Symbol, Token};
use parse_below::Setting;
use parse_types::{
    Found, Read, behind, behind_word, first_span, formals, identifier, join, throws, type_name,
};
use std::alloc::Global;

/// What a method has before its body, the height of its highest type, and the tokens behind it.
#[derive(Drop)]
pub struct MethodHead<'a> {
    pub result: Option<TyName>,
    pub name: Identifier,
    pub formals: Vec<Formal>,
    pub throws: Vec<Name>,
    pub height: u32,
    pub rest: &'a [Token],
}

/// A method's block or none, its height, the span of its last token, and the tokens behind it.
#[derive(Drop)]
pub struct MethodBody<'a> {
    pub block: Option<Block>,
    pub height: u32,
    pub close: Span,
    pub rest: &'a [Token],
}

/// `(Ty | "void") id Formals [Throws]`, with types of at most this height.
#[tactic(auto, unfolding(parse_laws::specs::way::Members::method_head_at, crate::specs::way::Views::named_result_at))]
pub fn method_head<'a>(
    alloc: Global,
    tokens: &'a [Token],
    most: u32,
) -> Result<Option<MethodHead<'a>>, Memory>
    ensures value { IfOk result (λ o. seen_method_head o ≡ method_head_at most tokens.now) }
    ensures height { IfOk result (MethodHeadHeight most) }
{
    let Some(named) = named_result(alloc, tokens, most)? else {
        return Ok(None);
    };
    let (returns, name) = named.tree;
    let Some(formals) = formals(alloc, named.rest, most)? else {
        return Ok(None);
    };
    let Some((throws, rest)) = throws(alloc, formals.rest)? else {
        return Ok(None);
    };
    Ok(Some(MethodHead {
        result: returns,
        name,
        formals: formals.tree,
        throws,
        height: named.height.max(formals.height),
        rest,
    }))
}

// `(Ty | "void") id`
#[tactic(auto, unfolding(parse_laws::specs::way::Members::result_type_at, crate::specs::way::Views::named_result_at))]
fn named_result<'a>(
    alloc: Global,
    tokens: &'a [Token],
    most: u32,
) -> Read<'a, (Option<TyName>, Identifier)>
    ensures value { IfOk result (λ o. seen named_result_view o ≡ named_result_at most tokens.now) }
    ensures height { IfOk result (NamedResultHeight most) }
{
    if let Some(rest) = behind_word(tokens, Keyword::Void) {
        let Some((name, rest)) = identifier(rest) else {
            return Ok(None);
        };
        return Ok(Some(Found {
            tree: (None, name),
            height: 0,
            rest,
        }));
    }
    let Some(ty) = type_name(alloc, tokens, most)? else {
        return Ok(None);
    };
    let Some(rest) = ty.rest.whole() else {
        return Ok(None);
    };
    let Some((name, rest)) = identifier(rest) else {
        return Ok(None);
    };
    Ok(Some(Found {
        tree: (Some(ty.tree), name),
        height: ty.height,
        rest,
    }))
}

/// A method behind these modifiers. `first` is the span of the first token of both.
#[tactic(auto, unfolding(parse_laws::specs::way::Members::method_at))]
pub fn method<'a, K: Fn(&'a [Token]) -> Read<'a, Block>>(
    block: K,
    alloc: Global,
    setting: &Setting,
    modifiers: Vec<Modifier>,
    first: Span,
    tokens: &'a [Token],
) -> Read<'a, Member>
    requires callable { K.IsAlwaysCallable block }
    requires reads { ReadsBlocks setting.now (K.post block) }
    requires room { setting.now.below + 1 < 2 ^ 32 }
    ensures value { IfOk result
        (λ o. seen member_view o ≡ method_at setting.now modifiers.items first tokens.now) }
    ensures height { IfOk result (MemberHasHeight (setting.now.below + 1)) }
{
    let Some(head) = method_head(alloc, tokens, setting.below)? else {
        return Ok(None);
    };
    let Some(body) = method_body(&block, setting, head.rest)? else {
        return Ok(None);
    };
    Ok(Some(Found {
        tree: make_method(
            modifiers,
            head.result,
            head.name,
            head.formals,
            head.throws,
            body.block,
            join(first, body.close),
        ),
        height: head.height.max(body.height) + 1,
        rest: body.rest,
    }))
}

// `Block | ";"`
#[tactic(auto, unfolding(parse_laws::specs::way::Members::method_body_at))]
fn method_body<'a, K: Fn(&'a [Token]) -> Read<'a, Block>>(
    block: &K,
    setting: &Setting,
    tokens: &'a [Token],
) -> Result<Option<MethodBody<'a>>, Memory>
    requires callable { K.IsAlwaysCallable block.now }
    requires reads { ReadsBlocks setting.now (K.post block.now) }
    ensures value { IfOk result (λ o. seen_method_body o ≡ method_body_at setting.now tokens.now) }
    ensures height { IfOk result (MethodBodyHeight setting.now.below) }
{
    if let Some(rest) = behind(tokens, Symbol::Semicolon) {
        return Ok(Some(MethodBody {
            block: None,
            height: 0,
            close: first_span(tokens),
            rest,
        }));
    }
    let Some(found) = block(tokens)? else {
        return Ok(None);
    };
    let close = found.tree.closing;
    Ok(Some(MethodBody {
        block: Some(found.tree),
        height: found.height,
        close,
        rest: found.rest,
    }))
}
