// Looks past names, brackets and types, to where what follows them decides.

ghost use Rattle.std.specs.Prelude.{◌≡◌, option_map, length};
ghost use Rattle.parse_laws.specs.way.Types.{past_name_at, past_dims_at, past_type_at, is_cast_at};
ghost use Rattle.parse_types.specs.way.LookPast.{past_argument_at, past_arguments_at};
ghost use Rattle.parse_types.specs.way.Views.{rest_of, seen_rest};

use crate::ahead::{begins_operand, behind, identifier};
use crate::naming::{pair, part};
use crate::rest_of_type::{Rest, closes};
use crate::types::primitive;
use je_token::{Symbol, Token};

/// Behind `id {"." id}`.
#[tactic(auto, using(crate::proofs::LookPast::past_name_is, crate::proofs::LookPast::past_parts_step, crate::proofs::LookPast::past_parts_none))]
pub fn past_name(tokens: &[Token]) -> Option<&[Token]>
    ensures { rest_of result ≡ past_name_at tokens.now }
{
    let (_, mut rest) = identifier(tokens)?;
    for _ in 0..tokens.len() {
        let Some((_, behind_part)) = part(rest) else {
            break;
        };
        rest = behind_part;
    }
    Some(rest)
}

/// Behind `{"[" "]"}`.
#[tactic(auto, using(crate::proofs::LookPast::past_dims_is, crate::proofs::LookPast::past_pairs_step, crate::proofs::LookPast::past_pairs_none))]
pub fn past_dims(tokens: &[Token]) -> &[Token]
    ensures { result.now ≡ past_dims_at tokens.now }
{
    let mut rest = tokens;
    for _ in 0..tokens.len() {
        let Some((_, behind_pair)) = pair(rest) else {
            break;
        };
        rest = behind_pair;
    }
    rest
}

/// Whether a cast begins here: a primitive type or an array type in brackets, or a name in brackets before an operand.
#[tactic(auto, unfolding(parse_laws::specs::way::Types::is_cast_at))]
pub fn is_cast(tokens: &[Token]) -> bool
    ensures { result ≡ is_cast_at tokens.now }
{
    let Some(inside) = behind(tokens, Symbol::OpenParen) else {
        return false;
    };
    if primitive(inside).is_some() {
        return true;
    }
    let Some(rest) = past_name(inside) else {
        return false;
    };
    match behind(past_dims(rest), Symbol::CloseParen) {
        Some(operand) => pair(rest).is_some() || begins_operand(operand),
        None => false,
    }
}

// Behind the brackets that follow a type without them.
#[tactic(auto, using(crate::proofs::LookPast::past_dims_stop))]
fn past_dims_behind(rest: Rest) -> Rest
    ensures { seen_rest result ≡ past_dims_at (seen_rest rest.entry) }
{
    match rest.whole() {
        Some(tokens) => Rest::Whole {
            tokens: past_dims(tokens),
        },
        None => rest,
    }
}

/// Behind a type of at most this height.
#[cycle(past)]
#[tactic(auto, using(crate::proofs::LookPast::past_type_zero, crate::proofs::LookPast::past_type_step))]
pub fn past_type(tokens: &[Token], most: u32) -> Option<Rest>
    ensures { option_map seen_rest result ≡ past_type_at most tokens.now }
{
    if most == 0 {
        return None;
    }
    if let Some((_, rest)) = primitive(tokens) {
        return Some(Rest::Whole {
            tokens: past_dims(rest),
        });
    }
    let named = past_name(tokens)?;
    let Some(arguments) = behind(named, Symbol::Less) else {
        return Some(Rest::Whole {
            tokens: past_dims(named),
        });
    };
    let rest = past_arguments(arguments, most - 1)?;
    Some(past_dims_behind(rest))
}

// Behind `Arg {"," Arg} ">"`.
#[cycle(past)]
#[tactic(auto, using(crate::proofs::LookPast::past_arguments_none, crate::proofs::LookPast::past_arguments_step))]
fn past_arguments(tokens: &[Token], most: u32) -> Option<Rest>
    ensures { option_map seen_rest result ≡ past_arguments_at most (length tokens.now) tokens.now }
{
    let mut next = tokens;
    for _ in 0..tokens.len() {
        let rest = past_argument(next, most)?;
        let Some(behind_comma) = rest.behind_comma() else {
            let (_, behind_close) = closes(rest)?;
            return Some(behind_close);
        };
        next = behind_comma;
    }
    None
}

// Behind a type argument, which is no primitive type without brackets.
#[cycle(past)]
#[tactic(auto, using(crate::proofs::LookPast::past_argument_is))]
fn past_argument(tokens: &[Token], most: u32) -> Option<Rest>
    ensures { option_map seen_rest result ≡ past_argument_at most tokens.now }
{
    if let Some((_, rest)) = primitive(tokens) {
        pair(rest)?;
    }
    past_type(tokens, most)
}
