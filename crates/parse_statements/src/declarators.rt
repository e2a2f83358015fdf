// Reads the variables that a type declares.

ghost use Rattle.std.specs.Prelude.{◌≡◌, ◌≤◌, IfOk};
ghost use Rattle.je_ast.specs.Height.{variables_height};
ghost use Rattle.parse_laws.specs.way.Types.{begins_local_at};
ghost use Rattle.parse_types.specs.way.Views.{seen, HasHeight};
ghost use Rattle.parse_below.specs.way.Readers.{ReadsInitializers};
ghost use Rattle.parse_statements.specs.way.Views.{variable_tree, variable_height, variables_view};
ghost use Rattle.parse_statements.specs.way.Readings.{variable_at, variables_at};

use je_ast::{Expr, Var};
use je_token::{Symbol, Token};
use parse_below::Setting;
use parse_types::{Found, Read, behind, dims, identifier, is_identifier, past_type};
use std::alloc::Global;

/// Whether a type of at most this height stands here, and an identifier behind it.
#[tactic(auto, unfolding(parse_laws::specs::way::Types::begins_local_at))]
pub fn begins_local(tokens: &[Token], most: u32) -> bool
    ensures { result ≡ begins_local_at most tokens.now }
{
    let Some(rest) = past_type(tokens, most) else {
        return false;
    };
    match rest.whole() {
        Some(whole) => is_identifier(whole),
        None => false,
    }
}

/// `Var {"," Var}`
#[tactic(auto, using(crate::proofs::Steps::variables_step, crate::proofs::Steps::variables_none, crate::proofs::Lists::variables_same, crate::proofs::Lists::variables_push, crate::proofs::Lists::variables_height_push), unfolding(parse_laws::specs::way::Statements::variables_at))]
pub fn variables<'a, I: Fn(&'a [Token]) -> Read<'a, Expr>>(
    initializer: I,
    alloc: Global,
    setting: &Setting,
    tokens: &'a [Token],
) -> Read<'a, Vec<Var>>
    requires callable { I.IsAlwaysCallable initializer }
    requires reads { ReadsInitializers setting.now (I.post initializer) }
    ensures value { IfOk result (λ o. seen variables_view o ≡ variables_at setting.now tokens.now) }
    ensures height { IfOk result
        (HasHeight (λ vs. variables_height (variables_view vs)) setting.now.below) }
{
    let mut list = Vec::new(alloc);
    let mut height = 0;
    let mut next = tokens;
    for _ in 0..tokens.len() {
        let Some(found) = variable(&initializer, setting, next)? else {
            return Ok(None);
        };
        list.push(found.tree)?;
        height = height.max(found.height);
        let Some(behind_comma) = behind(found.rest, Symbol::Comma) else {
            return Ok(Some(Found {
                tree: list,
                height,
                rest: found.rest,
            }));
        };
        next = behind_comma;
    }
    Ok(None)
}

// `id {"[" "]"} ["=" Init]`
#[tactic(auto, unfolding(parse_laws::specs::way::Statements::variable_at, crate::specs::way::Views::variable_height))]
fn variable<'a, I: Fn(&'a [Token]) -> Read<'a, Expr>>(
    initializer: &I,
    setting: &Setting,
    tokens: &'a [Token],
) -> Read<'a, Var>
    requires callable { I.IsAlwaysCallable initializer.now }
    requires reads { ReadsInitializers setting.now (I.post initializer.now) }
    ensures value { IfOk result (λ o. seen variable_tree o ≡ variable_at setting.now tokens.now) }
    ensures height { IfOk result
        (HasHeight variable_height setting.now.below) }
{
    let Some((name, rest)) = identifier(tokens) else {
        return Ok(None);
    };
    let (count, _, rest) = dims(name.span, rest);
    let Some(value) = behind(rest, Symbol::Assign) else {
        let tree = Var {
            name,
            dims: count,
            init: None,
        };
        return Ok(Some(Found {
            tree,
            height: 0,
            rest,
        }));
    };
    let Some(found) = initializer(value)? else {
        return Ok(None);
    };
    let tree = Var {
        name,
        dims: count,
        init: Some(found.tree),
    };
    Ok(Some(Found {
        tree,
        height: found.height,
        rest: found.rest,
    }))
}
