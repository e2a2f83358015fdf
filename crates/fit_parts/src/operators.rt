// Which types operators take, and which they give (JLS 15.15 to 15.22, 15.26.2).

ghost use Rattle.std.specs.Prelude.{◌≡◌};
ghost use Rattle.je_fitting.specs.Operators.{sort_of, takes as the_takes, gives as the_gives, takes_one as the_takes_one, both_promoted as the_both_promoted, both_bool as the_both_bool, is_addition as the_is_addition, is_step as the_is_step, changes as the_changes, updates as the_updates, joins as the_joins};

use crate::types::{is_bool, is_number, is_promoted, is_reference, is_void, of, string};
use class_members::same_type;
use je_core::{Base, BinOp, Ty, UnOp};

fn both_promoted(left: Ty, right: Ty) -> bool
    ensures { result ≡ the_both_promoted left right }
{
    is_promoted(left) && same_type(left, right)
}

fn both_bool(left: Ty, right: Ty) -> bool
    ensures { result ≡ the_both_bool left right }
{
    is_bool(left) && is_bool(right)
}

/// Whether a binary operator takes operands of these types, which are promoted already.
pub fn takes(op: BinOp, left: Ty, right: Ty) -> bool
    ensures { result ≡ the_takes (sort_of op) left right }
{
    match op {
        BinOp::Mul | BinOp::Div | BinOp::Rem | BinOp::Add | BinOp::Sub => {
            both_promoted(left, right)
        }
        BinOp::Lt | BinOp::Gt | BinOp::Le | BinOp::Ge => both_promoted(left, right),
        BinOp::Shl | BinOp::Shr | BinOp::Ushr => is_promoted(left) && is_promoted(right),
        BinOp::Eq | BinOp::Ne => {
            both_promoted(left, right)
                || both_bool(left, right)
                || (is_reference(left) && is_reference(right))
        }
        BinOp::BitAnd | BinOp::BitXor | BinOp::BitOr => {
            both_promoted(left, right) || both_bool(left, right)
        }
    }
}

/// The type of a binary operator's result, from that of its left operand.
pub fn gives(op: BinOp, left: Ty) -> Ty
    ensures { result ≡ the_gives (sort_of op) left }
{
    match op {
        BinOp::Lt | BinOp::Gt | BinOp::Le | BinOp::Ge | BinOp::Eq | BinOp::Ne => of(Base::Bool),
        _ => left,
    }
}

/// Whether a unary operator takes an operand of this type, which is promoted already.
pub fn takes_one(op: UnOp, operand: Ty) -> bool
    ensures { result ≡ the_takes_one op operand }
{
    match op {
        UnOp::Minus | UnOp::Tilde => is_promoted(operand),
        UnOp::Not => is_bool(operand),
    }
}

fn is_addition(op: BinOp) -> bool
    ensures { result ≡ the_is_addition op }
{
    match op {
        BinOp::Add => true,
        _ => false,
    }
}

/// Whether it is the operator of `++` or `--`.
pub fn is_step(op: BinOp) -> bool
    ensures { result ≡ the_is_step op }
{
    match op {
        BinOp::Add | BinOp::Sub => true,
        _ => false,
    }
}

// Whether a compound assignment takes a place and an operand of these types, neither of them a String.
fn changes(op: BinOp, place: Ty, operand: Ty) -> bool
    ensures { result ≡ the_changes (sort_of op) place operand }
{
    match op {
        BinOp::Mul | BinOp::Div | BinOp::Rem | BinOp::Add | BinOp::Sub => {
            is_number(place) && is_number(operand)
        }
        BinOp::Shl | BinOp::Shr | BinOp::Ushr => is_number(place) && is_number(operand),
        BinOp::BitAnd | BinOp::BitXor | BinOp::BitOr => {
            (is_number(place) && is_number(operand)) || both_bool(place, operand)
        }
        _ => false,
    }
}

/// Whether a compound assignment takes a place and an operand of these types: `+=` takes any value behind a String.
pub fn updates(op: BinOp, place: Ty, operand: Ty) -> bool
    ensures { result ≡ the_updates op place operand }
{
    changes(op, place, operand)
        || (is_addition(op) && same_type(place, string()) && !is_void(operand))
}

/// Whether two values' texts may be joined: one is a String, and the other any value.
pub fn joins(left: Ty, right: Ty) -> bool
    ensures { result ≡ the_joins left right }
{
    (same_type(left, string()) || same_type(right, string())) && !is_void(left) && !is_void(right)
}
