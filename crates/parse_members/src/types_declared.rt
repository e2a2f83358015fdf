// Reads classes, interfaces and enums.

ghost use Rattle.std.specs.Prelude.{◌≡◌, ◌+◌, ◌<◌, ◌^◌, IfOk, length};
ghost use Rattle.je_ast.specs.View.{declaration_view};
ghost use Rattle.parse_laws.specs.way.Members.{begins_declared_at, begins_local_class_at};
ghost use Rattle.parse_types.specs.way.Views.{seen};
ghost use Rattle.parse_below.specs.way.Readers.{ReadsMembers};
ghost use Rattle.parse_below.specs.way.Views.{DeclarationHasHeight};
ghost use Rattle.parse_members.specs.way.Readings.{class_at, interface_at, declared_at};
ghost use Rattle.parse_members.specs.way.Readings.{declaration_layer, local_class_at};

use crate::bodies::class_body;
use crate::enums::enum_declaration;
use je_ast::{Decl, Member, Modifier, make_class, make_interface};
use je_base::Span;
use je_token::{Keyword, Token};
use parse_below::Setting;
use parse_types::{
    Found, Read, behind_word, class_head, first_span, interface_head, is_word, join, modifiers,
};
use std::alloc::Global;

/// The longest type declaration of height at most one more than what is below.
#[tactic(auto, unfolding(parse_laws::specs::way::Members::declaration_layer))]
pub fn declaration<'a, M: Fn(&'a [Token]) -> Read<'a, Member>>(
    member: M,
    alloc: Global,
    setting: &Setting,
    tokens: &'a [Token],
) -> Read<'a, Decl>
    requires callable { M.IsAlwaysCallable member }
    requires reads { ReadsMembers setting.now (M.post member) }
    requires room { setting.now.below + 1 < 2 ^ 32 }
    ensures value { IfOk result
        (λ o. seen declaration_view o ≡ declaration_layer setting.now tokens.now) }
    ensures height { IfOk result (DeclarationHasHeight (setting.now.below + 1)) }
{
    let (modifiers, rest) = modifiers(alloc, setting.names, tokens)?;
    declared(&member, alloc, setting, modifiers, first_span(tokens), rest)
}

/// A class, interface or enum behind these modifiers. `first` is the span of the first token of
/// both.
#[tactic(auto, unfolding(parse_laws::specs::way::Members::declared_at))]
pub fn declared<'a, M: Fn(&'a [Token]) -> Read<'a, Member>>(
    member: &M,
    alloc: Global,
    setting: &Setting,
    modifiers: Vec<Modifier>,
    first: Span,
    tokens: &'a [Token],
) -> Read<'a, Decl>
    requires callable { M.IsAlwaysCallable member.now }
    requires reads { ReadsMembers setting.now (M.post member.now) }
    requires room { setting.now.below + 1 < 2 ^ 32 }
    ensures value { IfOk result (λ o. seen declaration_view o
        ≡ declared_at setting.now modifiers.items first tokens.now) }
    ensures height { IfOk result (DeclarationHasHeight (setting.now.below + 1)) }
{
    if is_word(tokens, Keyword::Class) {
        return class(member, alloc, setting, modifiers, first, tokens);
    }
    if is_word(tokens, Keyword::Interface) {
        return interface(member, alloc, setting, modifiers, first, tokens);
    }
    enum_declaration(alloc, modifiers, first, tokens, setting.below)
}

/// Whether the word of a class, interface or enum stands here.
pub fn begins_declared(tokens: &[Token]) -> bool
    ensures { result ≡ begins_declared_at tokens.now }
{
    is_word(tokens, Keyword::Class)
        || is_word(tokens, Keyword::Interface)
        || is_word(tokens, Keyword::Enum)
}

#[tactic(auto, unfolding(parse_laws::specs::way::Members::class_at))]
fn class<'a, M: Fn(&'a [Token]) -> Read<'a, Member>>(
    member: &M,
    alloc: Global,
    setting: &Setting,
    modifiers: Vec<Modifier>,
    first: Span,
    tokens: &'a [Token],
) -> Read<'a, Decl>
    requires callable { M.IsAlwaysCallable member.now }
    requires reads { ReadsMembers setting.now (M.post member.now) }
    requires room { setting.now.below + 1 < 2 ^ 32 }
    ensures value { IfOk result
        (λ o. seen declaration_view o ≡ class_at setting.now modifiers.items first tokens.now) }
    ensures height { IfOk result (DeclarationHasHeight (setting.now.below + 1)) }
{
    let Some(head) = class_head(alloc, tokens, setting.below)? else {
        return Ok(None);
    };
    let Some(body) = class_body(member, alloc, setting, head.rest)? else {
        return Ok(None);
    };
    Ok(Some(Found {
        tree: make_class(
            modifiers,
            head.name,
            head.params,
            head.extends,
            head.implements,
            body.items,
            join(first, body.close),
        ),
        height: head.height.max(body.height) + 1,
        rest: body.rest,
    }))
}

#[tactic(auto, unfolding(parse_laws::specs::way::Members::interface_at))]
fn interface<'a, M: Fn(&'a [Token]) -> Read<'a, Member>>(
    member: &M,
    alloc: Global,
    setting: &Setting,
    modifiers: Vec<Modifier>,
    first: Span,
    tokens: &'a [Token],
) -> Read<'a, Decl>
    requires callable { M.IsAlwaysCallable member.now }
    requires reads { ReadsMembers setting.now (M.post member.now) }
    requires room { setting.now.below + 1 < 2 ^ 32 }
    ensures value { IfOk result (λ o. seen declaration_view o
        ≡ interface_at setting.now modifiers.items first tokens.now) }
    ensures height { IfOk result (DeclarationHasHeight (setting.now.below + 1)) }
{
    let Some(head) = interface_head(alloc, tokens, setting.below)? else {
        return Ok(None);
    };
    let Some(body) = class_body(member, alloc, setting, head.rest)? else {
        return Ok(None);
    };
    Ok(Some(Found {
        tree: make_interface(
            modifiers,
            head.name,
            head.params,
            head.extends,
            body.items,
            join(first, body.close),
        ),
        height: head.height.max(body.height) + 1,
        rest: body.rest,
    }))
}

/// Whether a local class begins here: `{"final" | "abstract"} "class"`.
#[tactic(auto, using(crate::proofs::Steps::local_class_step, crate::proofs::Steps::local_class_none))]
pub fn begins_local_class(tokens: &[Token]) -> bool
    ensures { result ≡ begins_local_class_at (length tokens.now) tokens.now }
{
    let mut rest = tokens;
    for _ in 0..tokens.len() {
        if let Some(behind) = behind_word(rest, Keyword::Final) {
            rest = behind;
            continue;
        }
        let Some(behind) = behind_word(rest, Keyword::Abstract) else {
            break;
        };
        rest = behind;
    }
    is_word(rest, Keyword::Class)
}

/// `{"final" | "abstract"} Class`, where that begins here, of height at most one more than what is
/// below.
#[tactic(auto, unfolding(parse_laws::specs::way::Members::local_class_at))]
pub fn local_class<'a, M: Fn(&'a [Token]) -> Read<'a, Member>>(
    member: M,
    alloc: Global,
    setting: &Setting,
    tokens: &'a [Token],
) -> Read<'a, Decl>
    requires callable { M.IsAlwaysCallable member }
    requires reads { ReadsMembers setting.now (M.post member) }
    requires room { setting.now.below + 1 < 2 ^ 32 }
    ensures value { IfOk result
        (λ o. seen declaration_view o ≡ local_class_at setting.now tokens.now) }
    ensures height { IfOk result (DeclarationHasHeight (setting.now.below + 1)) }
{
    let (modifiers, rest) = modifiers(alloc, setting.names, tokens)?;
    class(&member, alloc, setting, modifiers, first_span(tokens), rest)
}
