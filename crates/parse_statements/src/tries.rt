// Reads `try`.

ghost use Rattle.std.specs.Prelude.{◌≡◌, ◌+◌, ◌<◌, ◌≤◌, ◌^◌, IfOk, length, []};
ghost use Rattle.je_ast.specs.View.{statement_view};
ghost use Rattle.parse_types.specs.way.Views.{seen, HasHeight};
ghost use Rattle.parse_below.specs.way.Readers.{ReadsBlocks};
ghost use Rattle.parse_below.specs.way.Views.{block_tree, StatementHasHeight, BlockHasHeight};
ghost use Rattle.parse_statements.specs.way.Views.{catch_tree, catch_height, seen_catches, CatchesHaveHeights};
ghost use Rattle.parse_statements.specs.way.Readings.{try_at, catches_at, catch_at, finally_at};

use je_ast::{Block, Catch, Stmt, make_try, make_try_finally};
use je_base::{Memory, Span};
use je_token::{Keyword, Symbol, Token};
use parse_below::Setting;
use parse_types::{
    Closed, Found, Read, behind, behind_word, final_word, first_span, identifier, join, name,
};
use std::alloc::Global;

/// `"try" Block {Catch} ["finally" Block]` behind the word `try`, with a catch or a `finally`: as many catches as can be
/// read, and without the `finally` where it can't be read.
#[tactic(auto, using(crate::proofs::Lists::catch_there), unfolding(parse_laws::specs::way::Statements::try_at))]
pub fn try_statement<'a, K: Fn(&'a [Token]) -> Read<'a, Block>>(
    block: &K,
    alloc: Global,
    setting: &Setting,
    first: Span,
    tokens: &'a [Token],
) -> Read<'a, Stmt>
    requires callable { K.IsAlwaysCallable block.now }
    requires reads { ReadsBlocks setting.now (K.post block.now) }
    requires room { setting.now.below + 1 < 2 ^ 32 }
    ensures value { IfOk result (λ o. seen statement_view o ≡ try_at setting.now first tokens.now) }
    ensures height { IfOk result (StatementHasHeight (setting.now.below + 1)) }
{
    let Some(tried) = block(tokens)? else {
        return Ok(None);
    };
    let catches = catches(block, alloc, setting, tried.tree.closing, tried.rest)?;
    let height = tried.height.max(catches.height);
    if let Some(last) = finally(block, setting, catches.rest)? {
        let word = first_span(catches.rest);
        let span = join(first, last.tree.closing);
        return Ok(Some(Found {
            tree: make_try_finally(first, tried.tree, catches.items, word, last.tree, span),
            height: height.max(last.height) + 1,
            rest: last.rest,
        }));
    }
    if catches.items.is_empty() {
        return Ok(None);
    }
    let span = join(first, catches.close);
    Ok(Some(Found {
        tree: make_try(first, tried.tree, catches.items, span),
        height: height + 1,
        rest: catches.rest,
    }))
}

// `{Catch}`, as far as it goes; `close` is the `}` of the last one, or else the one given.
#[tactic(auto, using(crate::proofs::Steps::catches_step, crate::proofs::Steps::catches_none, crate::proofs::Lists::catches_same, crate::proofs::Lists::catches_push, crate::proofs::Lists::catches_height_push))]
fn catches<'a, K: Fn(&'a [Token]) -> Read<'a, Block>>(
    block: &K,
    alloc: Global,
    setting: &Setting,
    close: Span,
    tokens: &'a [Token],
) -> Result<Closed<'a, Catch>, Memory>
    requires callable { K.IsAlwaysCallable block.now }
    requires reads { ReadsBlocks setting.now (K.post block.now) }
    ensures value { IfOk result (λ x. seen_catches x
        ≡ catches_at setting.now (length tokens.now) [] close tokens.now) }
    ensures height { IfOk result (CatchesHaveHeights setting.now.below) }
{
    let mut items = Vec::new(alloc);
    let mut height = 0;
    let mut last = close;
    let mut rest = tokens;
    for _ in 0..tokens.len() {
        let Some(found) = catch(block, alloc, setting, rest)? else {
            break;
        };
        last = found.tree.block.closing;
        items.push(found.tree)?;
        height = height.max(found.height);
        rest = found.rest;
    }
    Ok(Closed {
        items,
        height,
        close: last,
        rest,
    })
}

// `"catch" "(" ["final"] Name id ")" Block`
#[tactic(auto, unfolding(parse_laws::specs::way::Statements::catch_at))]
fn catch<'a, K: Fn(&'a [Token]) -> Read<'a, Block>>(
    block: &K,
    alloc: Global,
    setting: &Setting,
    tokens: &'a [Token],
) -> Read<'a, Catch>
    requires callable { K.IsAlwaysCallable block.now }
    requires reads { ReadsBlocks setting.now (K.post block.now) }
    ensures value { IfOk result (λ o. seen catch_tree o ≡ catch_at setting.now tokens.now) }
    ensures height { IfOk result (HasHeight catch_height setting.now.below) }
{
    let Some(head) = behind_word(tokens, Keyword::Catch) else {
        return Ok(None);
    };
    let Some(inside) = behind(head, Symbol::OpenParen) else {
        return Ok(None);
    };
    let (is_final, named) = final_word(inside);
    let Some((class, rest)) = name(alloc, named)? else {
        return Ok(None);
    };
    let Some((variable, rest)) = identifier(rest) else {
        return Ok(None);
    };
    let Some(rest) = behind(rest, Symbol::CloseParen) else {
        return Ok(None);
    };
    let Some(found) = block(rest)? else {
        return Ok(None);
    };
    let tree = Catch {
        is_final,
        class,
        name: variable,
        block: found.tree,
    };
    Ok(Some(Found {
        tree,
        height: found.height,
        rest: found.rest,
    }))
}

// `"finally" Block`
#[tactic(auto, unfolding(parse_laws::specs::way::Statements::finally_at))]
fn finally<'a, K: Fn(&'a [Token]) -> Read<'a, Block>>(
    block: &K,
    setting: &Setting,
    tokens: &'a [Token],
) -> Read<'a, Block>
    requires callable { K.IsAlwaysCallable block.now }
    requires reads { ReadsBlocks setting.now (K.post block.now) }
    ensures value { IfOk result (λ o. seen block_tree o ≡ finally_at setting.now tokens.now) }
    ensures height { IfOk result (BlockHasHeight setting.now.below) }
{
    match behind_word(tokens, Keyword::Finally) {
        Some(rest) => block(rest),
        None => Ok(None),
    }
}
