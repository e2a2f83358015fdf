// The operators of the core program.

ghost use Rattle.std.specs.Prelude.{◌≡◌};
ghost use Rattle.je_typing.specs.Operators.{core_op as the_core_op};

use je_ast::BinaryOp;
use je_core::BinOp;

/// The operator of the core program; none of `&&` and `||`, which are forms of their own.
pub fn core_op(op: BinaryOp) -> Option<BinOp>
    ensures { result ≡ the_core_op op }
{
    match op {
        BinaryOp::Or | BinaryOp::And => None,
        BinaryOp::BitOr => Some(BinOp::BitOr),
        BinaryOp::BitXor => Some(BinOp::BitXor),
        BinaryOp::BitAnd => Some(BinOp::BitAnd),
        BinaryOp::Equal => Some(BinOp::Eq),
        BinaryOp::NotEqual => Some(BinOp::Ne),
        BinaryOp::Less => Some(BinOp::Lt),
        BinaryOp::Greater => Some(BinOp::Gt),
        BinaryOp::LessEqual => Some(BinOp::Le),
        BinaryOp::GreaterEqual => Some(BinOp::Ge),
        BinaryOp::ShiftLeft => Some(BinOp::Shl),
        BinaryOp::ShiftRight => Some(BinOp::Shr),
        BinaryOp::UnsignedShiftRight => Some(BinOp::Ushr),
        BinaryOp::Add => Some(BinOp::Add),
        BinaryOp::Subtract => Some(BinOp::Sub),
        BinaryOp::Multiply => Some(BinOp::Mul),
        BinaryOp::Divide => Some(BinOp::Div),
        BinaryOp::Remainder => Some(BinOp::Rem),
    }
}
