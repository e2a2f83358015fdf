// Reads binary operators and `instanceof` behind an operand.

ghost use Rattle.std.specs.Prelude.{◌≡◌, ◌+◌, ◌-◌, ◌<◌, ◌^◌, suc, max, IfOk};
ghost use Rattle.je_ast.specs.Height.{height};
ghost use Rattle.je_ast.specs.Spans.{span_of, type_span as the_type_span, join as joined};
ghost use Rattle.je_ast.specs.Trees as tree;
ghost use Rattle.je_ast.specs.Types.{type_view, type_height};
ghost use Rattle.je_ast.specs.View.{view};
ghost use Rattle.je_grammar.specs.Tokens.{first_span as the_first_span};
ghost use Rattle.parse_below.specs.way.Readers.{Reads};
ghost use Rattle.parse_below.specs.way.Views.{seen_found, IsRight};
ghost use Rattle.parse_operators.specs.way.Readings.{operations_at};
ghost use Rattle.parse_operators.specs.way.Views.{IsAbove};
ghost use Rattle.parse_expressions.specs.way.Views.{is_outside};

use je_ast::{BinaryOp, Expr, TyName, make_expr};
use je_base::Memory;
use je_token::{Keyword, Token};
use parse_below::{Setting, boxed};
use parse_operators::{binary_operator, operator_level, span, type_span};
use parse_types::{Found, Place, Read, behind_word, first_span, join, plain_type};
use std::alloc::Global;

/// Binary operators of at least this level, and `instanceof`, behind an operand, as far as they go.
/// Behind an operator only those go on that bind no tighter.
#[tactic(auto, using(crate::proofs::OperatorTurns::operations_ends))]
pub fn operations<'a, E: Fn(Place<'a>) -> Read<'a, Expr>>(
    expr: &E,
    alloc: Global,
    setting: &Setting,
    operand: Found<'a, Expr>,
    least: u32,
) -> Result<Found<'a, Expr>, Memory>
    requires callable { E.IsAlwaysCallable expr.now }
    requires reads { Reads setting.now (E.post expr.now) }
    requires fits { setting.now.below < 2 ^ 32 - 1 }
    requires right { IsRight (setting.now.below + 1) operand }
    ensures value { IfOk result (λ x. seen_found x ≡ operations_at setting.now
        (suc setting.now.below) least 12 (view operand.entry.tree) operand.entry.rest.now) }
    ensures height { IfOk result (IsRight (setting.now.below + 1)) }
{
    let mut left = operand;
    let mut most = 12;
    for _ in 0..setting.below + 1 {
        if setting.below < left.height {
            return Ok(left);
        }
        if let Some(tested) = behind_word(left.rest, Keyword::InstanceOf) {
            if is_outside(9, least, most) {
                return Ok(left);
            }
            let Some((ty, rest)) = plain_type(alloc, tested)? else {
                return Ok(left);
            };
            left = instance_of(alloc, left, ty, rest)?;
            most = 9;
            continue;
        }
        let Some((op, rest)) = binary_operator(left.rest) else {
            return Ok(left);
        };
        let level = operator_level(op);
        if is_outside(level, least, most) {
            return Ok(left);
        }
        let Some(right) = expr(Place {
            tokens: rest,
            least: level + 1,
        })?
        else {
            return Ok(left);
        };
        left = binary(alloc, op, left, right)?;
        most = level;
    }
    Ok(left)
}

// Whether no operator of this level goes on where the levels are from `least` to `most`.
#[tactic(auto, unfolding(crate::specs::way::Views::is_outside))]
fn is_outside(level: u32, least: u32, most: u32) -> bool
    ensures { result ≡ is_outside level least most }
{
    level < least || most < level
}

// `e op e`
fn binary<'a>(
    alloc: Global,
    op: BinaryOp,
    left: Found<'a, Expr>,
    right: Found<'a, Expr>,
) -> Result<Found<'a, Expr>, Memory>
    requires left_right { left.height ≡ height (view left.tree) }
    requires right_right { right.height ≡ height (view right.tree) }
    requires fits { max left.height right.height < 2 ^ 32 - 1 }
    ensures value { IfOk result (λ x. seen_found x
        ≡ (
          tree.binary op (the_first_span left.entry.rest.now) (view left.entry.tree)
              (view right.entry.tree)
              (joined (span_of (view left.entry.tree)) (span_of (view right.entry.tree))),
          right.entry.rest.now,
        )) }
    ensures height { IfOk result (IsAbove (max left.entry.height right.entry.height)) }
{
    let at = first_span(left.rest);
    let span = join(span(&left.tree), span(&right.tree));
    let operand = boxed(alloc, left.tree)?;
    let other = boxed(alloc, right.tree)?;
    Ok(Found {
        tree: make_expr(Expr::Binary {
            op,
            at,
            left: operand,
            right: other,
            span,
        }),
        height: left.height.max(right.height) + 1,
        rest: right.rest,
    })
}

// `e instanceof A`
fn instance_of<'a>(
    alloc: Global,
    left: Found<'a, Expr>,
    ty: TyName,
    rest: &'a [Token],
) -> Result<Found<'a, Expr>, Memory>
    requires left_right { left.height ≡ height (view left.tree) }
    requires low { type_height (type_view ty) ≡ 1 }
    requires fits { left.height < 2 ^ 32 - 1 }
    ensures value { IfOk result (λ x. seen_found x
        ≡ (
          tree.instance_of (the_first_span left.entry.rest.now) (view left.entry.tree)
              (type_view ty)
              (joined (span_of (view left.entry.tree)) (the_type_span (type_view ty))),
          rest.now,
        )) }
    ensures height { IfOk result (IsAbove left.entry.height) }
{
    let at = first_span(left.rest);
    let span = join(span(&left.tree), type_span(&ty));
    let operand = boxed(alloc, left.tree)?;
    Ok(Found {
        tree: make_expr(Expr::InstanceOf {
            at,
            operand,
            ty,
            span,
        }),
        height: left.height + 1,
        rest,
    })
}
