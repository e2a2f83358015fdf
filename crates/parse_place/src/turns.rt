// Reads or opens one item.

ghost use Rattle.std.specs.Prelude.{◌≡◌, IfOk};
ghost use Rattle.parse_below.specs.way.Readers.{Reads, ReadsMembers, ReadsBlockStatements};
ghost use Rattle.parse_place.specs.way.Readers.{ReadsDeclarations};
ghost use Rattle.parse_place.specs.way.Turns.{is_deep_at, opened_turn_at, seen_turn, turn_at};
ghost use Rattle.parse_place.specs.way.Views.{context_view, seen_step};

use crate::contexts::{Context, Step};
use crate::items::item;
use crate::nests::nests_deep;
use crate::openings::opening;
use je_ast::{Decl, Expr, Member, Stmt};
use je_base::Memory;
use je_token::{Symbol, Token};
use parse_below::Setting;
use parse_types::{Place, Read, is_symbol};
use std::alloc::Global;

/// What comes of the first item.
#[derive(Clone, Copy)]
pub enum Turn<'a> {
    /// A `}` ends the items.
    Over,
    /// Nothing can be read or opened.
    Stuck,
    /// An item is read.
    Behind(Step<'a>),
    /// An item is opened.
    Inside(Step<'a>),
}

/// Reads or opens the first item. One that nests too deep to be read is opened at once.
#[tactic(auto, unfolding(crate::specs::way::Turns::turn_at))]
pub fn take_turn<
    'a,
    E: Fn(Place<'a>) -> Read<'a, Expr>,
    D: Fn(&'a [Token]) -> Read<'a, Decl>,
    M: Fn(&'a [Token]) -> Read<'a, Member>,
    B: Fn(&'a [Token]) -> Read<'a, Stmt>,
>(
    expr: &E,
    declaration: &D,
    member: &M,
    block_statement: &B,
    alloc: Global,
    setting: &Setting,
    context: Context,
    tokens: &'a [Token],
) -> Result<Turn<'a>, Memory>
    requires callable { E.IsAlwaysCallable expr.now }
    requires reads { Reads setting.now (E.post expr.now) }
    requires callable_declarations { D.IsAlwaysCallable declaration.now }
    requires reads_declarations { ReadsDeclarations setting.now (D.post declaration.now) }
    requires callable_members { M.IsAlwaysCallable member.now }
    requires reads_members { ReadsMembers setting.now (M.post member.now) }
    requires callable_statements { B.IsAlwaysCallable block_statement.now }
    requires reads_statements { ReadsBlockStatements setting.now (B.post block_statement.now) }
    ensures { IfOk result
        (λ t. seen_turn t ≡ turn_at setting.now (context_view context) tokens.now) }
{
    if context.has_bracket() && is_symbol(tokens, Symbol::CloseBrace) {
        return Ok(Turn::Over);
    }
    let opened = opening(alloc, setting, context, tokens)?;
    if is_deep(opened, setting.below) {
        return Ok(opened_turn(opened));
    }
    let read = item(
        expr,
        declaration,
        member,
        block_statement,
        alloc,
        setting,
        context,
        tokens,
    )?;
    match read {
        Some(step) => Ok(Turn::Behind(step)),
        None => Ok(opened_turn(opened)),
    }
}

// Whether braces nest too deep inside an opened item for it to be read.
fn is_deep(opened: Option<Step>, most: u32) -> bool
    ensures { result ≡ is_deep_at most (seen_step opened.entry) }
{
    match opened {
        Some(step) => nests_deep(step.rest, most),
        None => false,
    }
}

fn opened_turn(opened: Option<Step>) -> Turn
    ensures { seen_turn result ≡ opened_turn_at (seen_step opened.entry) }
{
    match opened {
        Some(step) => Turn::Inside(step),
        None => Turn::Stuck,
    }
}
