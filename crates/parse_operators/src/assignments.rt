// Reads assignments, and whole expressions.

ghost use Rattle.std.specs.Prelude.{◌≡◌, ◌+◌, ◌-◌, ◌<◌, ◌≤◌, ◌^◌, max, Option, IfOk};
ghost use Rattle.je_ast.specs.Height.{height};
ghost use Rattle.je_ast.specs.Spans.{span_of, join as joined};
ghost use Rattle.je_ast.specs.Trees as tree;
ghost use Rattle.je_ast.specs.View.{view};
ghost use Rattle.je_grammar.specs.Tokens.{first_span as the_first_span};
ghost use Rattle.parse_below.specs.way.Readers.{Reads};
ghost use Rattle.parse_below.specs.way.Views.{seen_found, IsRight};
ghost use Rattle.parse_operators.specs.way.Readings.{assignment_at};
ghost use Rattle.parse_operators.specs.way.Views.{IsAbove};

use crate::shape::{level, span};
use crate::words::assignment_operator;
use je_ast::{BinaryOp, Expr, make_expr};
use je_base::Memory;
use parse_below::{Setting, boxed};
use parse_types::{Found, Place, Read, first_span, join};
use std::alloc::Global;

/// An assignment operator and its value behind a primary, where they can be read.
#[tactic(auto, unfolding(parse_laws::specs::way::Expressions::assignment_at))]
pub fn assignment<'a, E: Fn(Place<'a>) -> Read<'a, Expr>>(
    expr: E,
    alloc: Global,
    setting: &Setting,
    left: Found<'a, Expr>,
    least: u32,
) -> Result<Found<'a, Expr>, Memory>
    requires callable { E.IsAlwaysCallable expr }
    requires reads { Reads setting.now (E.post expr) }
    requires fits { setting.now.below < 2 ^ 32 - 1 }
    requires right { IsRight (setting.now.below + 1) left }
    ensures value { IfOk result (λ x. seen_found x ≡ assignment_at setting.now least
        (view left.entry.tree) left.entry.rest.now) }
    ensures height { IfOk result (IsRight (setting.now.below + 1)) }
{
    if 1 < least || setting.below < left.height || level(&left.tree) < 15 {
        return Ok(left);
    }
    let Some((op, rest)) = assignment_operator(left.rest) else {
        return Ok(left);
    };
    let Some(right) = expr(Place {
        tokens: rest,
        least: 1,
    })?
    else {
        return Ok(left);
    };
    assign(alloc, op, left, right)
}

// `e = e`, or with the operator before the `=`
fn assign<'a>(
    alloc: Global,
    op: Option<BinaryOp>,
    left: Found<'a, Expr>,
    right: Found<'a, Expr>,
) -> Result<Found<'a, Expr>, Memory>
    requires left_right { left.height ≡ height (view left.tree) }
    requires right_right { right.height ≡ height (view right.tree) }
    requires fits { max left.height right.height < 2 ^ 32 - 1 }
    ensures value { IfOk result (λ x. seen_found x
        ≡ (
          tree.assign op (the_first_span left.entry.rest.now) (view left.entry.tree)
              (view right.entry.tree)
              (joined (span_of (view left.entry.tree)) (span_of (view right.entry.tree))),
          right.entry.rest.now,
        )) }
    ensures height { IfOk result (IsAbove (max left.entry.height right.entry.height)) }
{
    let at = first_span(left.rest);
    let span = join(span(&left.tree), span(&right.tree));
    let place = boxed(alloc, left.tree)?;
    let value = boxed(alloc, right.tree)?;
    Ok(Found {
        tree: make_expr(Expr::Assign {
            op,
            at,
            place,
            value,
            span,
        }),
        height: left.height.max(right.height) + 1,
        rest: right.rest,
    })
}
