// Reads the bodies of classes and interfaces.

ghost use Rattle.std.specs.Prelude.{◌≡◌, IfOk};
ghost use Rattle.parse_below.specs.way.Readers.{ReadsMembers};
ghost use Rattle.parse_below.specs.way.Views.{seen_members, MembersHaveHeights};
ghost use Rattle.parse_members.specs.way.Readings.{class_body_at};

use je_ast::Member;
use je_token::{Symbol, Token};
use parse_below::Setting;
use parse_types::{Closed, Read, ReadClosed, behind, first_span};
use std::alloc::Global;

/// `"{" {Member | ";"} "}"`
#[tactic(auto, using(crate::proofs::Steps::members_step, crate::proofs::Steps::members_none, crate::proofs::Steps::members_same, crate::proofs::Steps::members_push, crate::proofs::Steps::members_height_push), unfolding(parse_laws::specs::way::Members::class_body_at))]
pub fn class_body<'a, M: Fn(&'a [Token]) -> Read<'a, Member>>(
    member: M,
    alloc: Global,
    setting: &Setting,
    tokens: &'a [Token],
) -> ReadClosed<'a, Member>
    requires callable { M.IsAlwaysCallable member }
    requires reads { ReadsMembers setting.now (M.post member) }
    ensures value { IfOk result (λ o. seen_members o ≡ class_body_at setting.now tokens.now) }
    ensures height { IfOk result (MembersHaveHeights setting.now.below) }
{
    let Some(inside) = behind(tokens, Symbol::OpenBrace) else {
        return Ok(None);
    };
    let mut items = Vec::new(alloc);
    let mut height = 0;
    let mut next = inside;
    for _ in 0..inside.len() {
        if let Some(rest) = behind(next, Symbol::CloseBrace) {
            return Ok(Some(Closed {
                items,
                height,
                close: first_span(next),
                rest,
            }));
        }
        if let Some(rest) = behind(next, Symbol::Semicolon) {
            next = rest;
            continue;
        }
        let Some(found) = member(next)? else {
            return Ok(None);
        };
        items.push(found.tree)?;
        height = height.max(found.height);
        next = found.rest;
    }
    Ok(None)
}
