// Follows items to the one that can't be read.

ghost use Rattle.std.specs.Prelude.{◌≡◌, IfOk};
ghost use Rattle.parse_below.specs.way.Readers.{Reads, ReadsMembers, ReadsBlockStatements};
ghost use Rattle.parse_place.specs.way.Readers.{ReadsDeclarations};
ghost use Rattle.parse_place.specs.way.Readings.{quick_place_at};

use crate::contexts::Context;
use crate::turns::{Turn, take_turn};
use je_ast::{Decl, Expr, Member, Stmt};
use je_base::Memory;
use je_token::Token;
use parse_below::Setting;
use parse_types::{Place, Read};
use std::alloc::Global;

/// The tokens from the syntax place on.
#[tactic(auto, using(crate::proofs::Loop::first_turn, crate::proofs::Loop::no_turn), unfolding(parse_laws::specs::way::Place::quick_place_at))]
pub fn place_among<
    'a,
    E: Fn(Place<'a>) -> Read<'a, Expr>,
    D: Fn(&'a [Token]) -> Read<'a, Decl>,
    M: Fn(&'a [Token]) -> Read<'a, Member>,
    B: Fn(&'a [Token]) -> Read<'a, Stmt>,
>(
    expr: E,
    declaration: D,
    member: M,
    block_statement: B,
    alloc: Global,
    setting: &Setting,
    tokens: &'a [Token],
) -> Result<&'a [Token], Memory>
    requires callable { E.IsAlwaysCallable expr }
    requires reads { Reads setting.now (E.post expr) }
    requires callable_declarations { D.IsAlwaysCallable declaration }
    requires reads_declarations { ReadsDeclarations setting.now (D.post declaration) }
    requires callable_members { M.IsAlwaysCallable member }
    requires reads_members { ReadsMembers setting.now (M.post member) }
    requires callable_statements { B.IsAlwaysCallable block_statement }
    requires reads_statements { ReadsBlockStatements setting.now (B.post block_statement) }
    ensures { IfOk result (λ place. place.now ≡ quick_place_at setting.now tokens.now) }
{
    let mut context = Context::Imports;
    let mut opened = tokens;
    let mut next = tokens;
    for _ in 0..tokens.len() {
        let turn = take_turn(
            &expr,
            &declaration,
            &member,
            &block_statement,
            alloc,
            setting,
            context,
            next,
        )?;
        match turn {
            Turn::Over => return Ok(opened),
            Turn::Stuck => return Ok(next),
            Turn::Behind(step) => {
                context = step.context;
                next = step.rest;
            }
            Turn::Inside(step) => {
                context = step.context;
                opened = next;
                next = step.rest;
            }
        }
    }
    Ok(next)
}
