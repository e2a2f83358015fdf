// What is asked of types (JLS 4.2, 5.6).

ghost use Rattle.std.specs.Prelude.{◌≡◌};
ghost use Rattle.je_fitting.specs.Operators.{Sort, sort_of};
ghost use Rattle.je_fitting.specs.Types.{is_number_base as the_is_number_base};
ghost use Rattle.je_typing.specs.Operators.{alike as the_alike, apart as the_apart, boolean_operand as the_boolean_operand, operand_base as the_operand_base, operands as the_operands, result_base as the_result_base, truths_or_numbers as the_truths_or_numbers};
ghost use Rattle.je_typing.specs.Promotion.{promoted as the_promoted, promoted_base as the_promoted_base, promoted_together as the_promoted_together, wider as the_wider, wider_if as the_wider_if};
ghost use Rattle.je_typing.specs.Typed.{is_boolean as the_is_boolean, is_numeric as the_is_numeric, is_void as the_is_void, primitive as the_primitive};
ghost use Rattle.name_types.specs.View.{base_shown, plain_shown, shown};
ghost use Rattle.typed_nodes.specs.way.Plain.{plain_of as the_plain_of, promoted_if as the_promoted_if, is_bool_if as the_is_bool_if, is_number_if as the_is_number_if, is_void_if as the_is_void_if, primitive_if as the_primitive_if};

use je_core::{Base, BinOp, UnOp};
use je_typing::Operands;
use name_types::{SrcBase, SrcTy};

fn unless_class(base: Base) -> Option<Base>
    ensures { result ≡ the_plain_of (plain_shown base 0) }
{
    match base {
        Base::Class(_) => None,
        _ => Some(base),
    }
}

#[tactic(auto, using(name_types::proofs::Views::base_is))]
fn plain_in(base: &SrcBase) -> Option<Base>
    ensures { result ≡ the_plain_of (base_shown base.now 0) }
{
    match base {
        SrcBase::Plain(plain) => unless_class(*plain),
        SrcBase::Made(_, _) => None,
        SrcBase::Var(_, _) => None,
    }
}

// The base of a type that is no class, no type variable and no array.
#[tactic(auto, using(name_types::proofs::Views::type_is, crate::proofs::Plain::array_is_none))]
pub(crate) fn plain_of(ty: &SrcTy) -> Option<Base>
    ensures { result ≡ the_plain_of (shown ty.now) }
{
    if ty.dims != 0 {
        return None;
    }
    plain_in(&ty.base)
}

/// The type to which a primitive type is promoted (JLS 5.6.1); none of what is no number.
pub fn promoted_base(base: Base) -> Option<Base>
    ensures { result ≡ the_promoted_base base }
{
    match base {
        Base::Byte | Base::Short | Base::Char | Base::Int => Some(Base::Int),
        Base::Long => Some(Base::Long),
        _ => None,
    }
}

fn promoted_if(base: Option<Base>) -> Option<Base>
    ensures { result ≡ the_promoted_if base }
{
    promoted_base(base?)
}

/// The type to which a number is promoted (JLS 5.6.1); none of what is no number.
#[tactic(auto, using(crate::proofs::Plain::promoted_by_base))]
pub fn promoted(ty: &SrcTy) -> Option<Base>
    ensures { result ≡ the_promoted (shown ty.now) }
{
    promoted_if(plain_of(ty))
}

fn wider(left: Base, right: Base) -> Base
    ensures { result ≡ the_wider left right }
{
    match left {
        Base::Long => Base::Long,
        _ => right,
    }
}

/// The type to which two numbers are promoted together (JLS 5.6.2).
pub fn promoted_together(left: &SrcTy, right: &SrcTy) -> Option<Base>
    ensures { result ≡ the_promoted_together (shown left.now) (shown right.now) }
{
    wider_if(promoted(left), promoted(right))
}

/// The wider of two promoted types, where both are there.
pub fn wider_if(left: Option<Base>, right: Option<Base>) -> Option<Base>
    ensures { result ≡ the_wider_if left right }
{
    let left = left?;
    let right = right?;
    Some(wider(left, right))
}

fn is_bool_if(base: Option<Base>) -> bool
    ensures { result ≡ the_is_bool_if base }
{
    match base {
        Some(Base::Bool) => true,
        _ => false,
    }
}

/// Whether it is `boolean`.
#[tactic(auto, using(crate::proofs::Plain::boolean_by_base))]
pub fn is_boolean(ty: &SrcTy) -> bool
    ensures { result ≡ the_is_boolean (shown ty.now) }
{
    is_bool_if(plain_of(ty))
}

fn is_number_if(base: Option<Base>) -> bool
    ensures { result ≡ the_is_number_if base }
{
    match base {
        Some(Base::Byte | Base::Short | Base::Char | Base::Int | Base::Long) => true,
        _ => false,
    }
}

/// Whether it is a number, or a char.
#[tactic(auto, using(crate::proofs::Plain::numeric_by_base))]
pub fn is_numeric(ty: &SrcTy) -> bool
    ensures { result ≡ the_is_numeric (shown ty.now) }
{
    is_number_if(plain_of(ty))
}

fn is_void_if(base: Option<Base>) -> bool
    ensures { result ≡ the_is_void_if base }
{
    match base {
        Some(Base::Void) => true,
        _ => false,
    }
}

/// Whether it is `void`.
#[tactic(auto, using(crate::proofs::Plain::void_by_base))]
pub fn is_void(ty: &SrcTy) -> bool
    ensures { result ≡ the_is_void (shown ty.now) }
{
    is_void_if(plain_of(ty))
}

fn primitive_if(base: Option<Base>) -> Option<Base>
    ensures { result ≡ the_primitive_if base }
{
    let base = base?;
    match base {
        Base::Null | Base::Void | Base::Class(_) => None,
        _ => Some(base),
    }
}

/// The base of a primitive type; none of what is no primitive type (JLS 4.2).
#[tactic(auto, using(crate::proofs::Plain::primitive_by_base))]
pub fn primitive(ty: &SrcTy) -> Option<Base>
    ensures { result ≡ the_primitive (shown ty.now) }
{
    primitive_if(plain_of(ty))
}

fn boolean_operand(ty: &SrcTy) -> Option<Base>
    ensures { result ≡ the_boolean_operand (shown ty.now) }
{
    if is_boolean(ty) {
        Some(Base::Bool)
    } else {
        None
    }
}

/// The type to which the operand of a unary operator is converted.
pub fn operand_base(op: UnOp, ty: &SrcTy) -> Option<Base>
    ensures { result ≡ the_operand_base op (shown ty.now) }
{
    match op {
        UnOp::Not => boolean_operand(ty),
        UnOp::Minus | UnOp::Tilde => promoted(ty),
    }
}

fn alike(base: Option<Base>) -> Option<Operands>
    ensures { result ≡ the_alike base }
{
    let base = base?;
    Some(Operands {
        left: base,
        right: base,
    })
}

fn apart(left: Option<Base>, right: Option<Base>) -> Option<Operands>
    ensures { result ≡ the_apart left right }
{
    let left = left?;
    let right = right?;
    Some(Operands { left, right })
}

fn truths_or_numbers(left: &SrcTy, right: &SrcTy) -> Option<Operands>
    ensures { result ≡ the_truths_or_numbers (shown left.now) (shown right.now) }
{
    if is_boolean(left) && is_boolean(right) {
        return alike(Some(Base::Bool));
    }
    alike(promoted_together(left, right))
}

/// The types to which the operands of a binary operator are converted.
pub fn operands(op: BinOp, left: &SrcTy, right: &SrcTy) -> Option<Operands>
    ensures { result ≡ the_operands (sort_of op) (shown left.now) (shown right.now) }
{
    match op {
        BinOp::Shl | BinOp::Shr | BinOp::Ushr => apart(promoted(left), promoted(right)),
        BinOp::Eq | BinOp::Ne | BinOp::BitAnd | BinOp::BitXor | BinOp::BitOr => {
            truths_or_numbers(left, right)
        }
        BinOp::Mul | BinOp::Div | BinOp::Rem | BinOp::Add | BinOp::Sub => {
            alike(promoted_together(left, right))
        }
        BinOp::Lt | BinOp::Gt | BinOp::Le | BinOp::Ge => alike(promoted_together(left, right)),
    }
}

/// The type of a binary operator's result.
pub fn result_base(op: BinOp, left: Base) -> Base
    ensures { result ≡ the_result_base (sort_of op) left }
{
    match op {
        BinOp::Lt | BinOp::Gt | BinOp::Le | BinOp::Ge | BinOp::Eq | BinOp::Ne => Base::Bool,
        _ => left,
    }
}
