// Reads blocks.

ghost use Rattle.std.specs.Prelude.{◌≡◌, ◌+◌, ◌<◌, ◌^◌, IfOk};
ghost use Rattle.parse_types.specs.way.Views.{seen};
ghost use Rattle.parse_below.specs.way.Readers.{ReadsBlockStatements};
ghost use Rattle.parse_below.specs.way.Views.{seen_statements, StatementsHaveHeights, block_tree, BlockHasHeight};
ghost use Rattle.parse_statements.specs.way.Readings.{block_statements_at, block_layer};

use je_ast::{Block, Stmt};
use je_token::{Symbol, Token};
use parse_below::Setting;
use parse_types::{Closed, Found, Read, ReadClosed, behind, first_span};
use std::alloc::Global;

/// `"{" {BlockStmt} "}"`, of height at most one more than what is below.
#[tactic(auto, unfolding(parse_laws::specs::way::Statements::block_layer))]
pub fn block<'a, B: Fn(&'a [Token]) -> Read<'a, Stmt>>(
    block_statement: B,
    alloc: Global,
    setting: &Setting,
    tokens: &'a [Token],
) -> Read<'a, Block>
    requires callable { B.IsAlwaysCallable block_statement }
    requires reads { ReadsBlockStatements setting.now (B.post block_statement) }
    requires room { setting.now.below + 1 < 2 ^ 32 }
    ensures value { IfOk result (λ o. seen block_tree o ≡ block_layer setting.now tokens.now) }
    ensures height { IfOk result (BlockHasHeight (setting.now.below + 1)) }
{
    let Some(inside) = behind(tokens, Symbol::OpenBrace) else {
        return Ok(None);
    };
    let Some(found) = block_statements(&block_statement, alloc, setting, inside)? else {
        return Ok(None);
    };
    let tree = Block {
        opening: first_span(tokens),
        stmts: found.items,
        closing: found.close,
    };
    Ok(Some(Found {
        tree,
        height: found.height + 1,
        rest: found.rest,
    }))
}

/// `{BlockStmt} "}"`
#[tactic(auto, using(crate::proofs::Steps::statements_step, crate::proofs::Steps::statements_none, crate::proofs::Lists::statements_same, crate::proofs::Lists::statements_push, crate::proofs::Lists::statements_height_push), unfolding(parse_laws::specs::way::Statements::block_statements_at))]
pub fn block_statements<'a, B: Fn(&'a [Token]) -> Read<'a, Stmt>>(
    block_statement: B,
    alloc: Global,
    setting: &Setting,
    tokens: &'a [Token],
) -> ReadClosed<'a, Stmt>
    requires callable { B.IsAlwaysCallable block_statement }
    requires reads { ReadsBlockStatements setting.now (B.post block_statement) }
    ensures value { IfOk result (λ o. seen_statements o
        ≡ block_statements_at setting.now tokens.now) }
    ensures height { IfOk result (StatementsHaveHeights setting.now.below) }
{
    let mut items = Vec::new(alloc);
    let mut height = 0;
    let mut next = tokens;
    for _ in 0..tokens.len() {
        if let Some(rest) = behind(next, Symbol::CloseBrace) {
            return Ok(Some(Closed {
                items,
                height,
                close: first_span(next),
                rest,
            }));
        }
        let Some(found) = block_statement(next)? else {
            return Ok(None);
        };
        items.push(found.tree)?;
        height = height.max(found.height);
        next = found.rest;
    }
    Ok(None)
}
