// Nodes with their types.

ghost use Rattle.std.specs.Prelude.{◌≡◌, true};
ghost use Rattle.je_core.specs.View.{view};
ghost use Rattle.je_typing.specs.Operators.{of_base as the_of_base};
ghost use Rattle.je_typing.specs.Typed.{is_primitive_base, null_source_type, primitive_type, string_type};
ghost use Rattle.name_types.specs.View.{shown};
ghost use Rattle.typed_nodes.specs.Seen.{seen};

use fit_parts::string;
use je_core::{Base, Expr};
use name_types::{SrcBase, SrcTy};

/// An expression of the core program with its type in the source.
#[derive(Drop)]
pub struct TypedExpr {
    pub node: Expr,
    pub ty: SrcTy,
}

/// A primitive type.
pub fn primitive_ty(base: Base) -> SrcTy
    requires { is_primitive_base base ≡ true }
    ensures { shown result ≡ primitive_type base }
{
    SrcTy {
        base: SrcBase::Plain(base),
        dims: 0,
    }
}

/// A node of a primitive type.
pub fn of_base(base: Base, node: Expr) -> TypedExpr
    requires { is_primitive_base base ≡ true }
    ensures { seen result ≡ the_of_base base (view node) }
{
    let ty = primitive_ty(base);
    TypedExpr { node, ty }
}

/// The type String.
pub fn string_ty() -> SrcTy
    ensures { shown result ≡ string_type }
{
    SrcTy {
        base: SrcBase::Plain(string().base),
        dims: 0,
    }
}

/// The type of `null`.
pub fn null_ty() -> SrcTy
    ensures { shown result ≡ null_source_type }
{
    SrcTy {
        base: SrcBase::Plain(Base::Null),
        dims: 0,
    }
}
