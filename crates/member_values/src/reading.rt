// What is read of a member (JLS 4.6).

ghost use Rattle.std.specs.Prelude.{◌≡◌, IfOk};
ghost use Rattle.je_classes.specs.Subtypes.{same_type};
ghost use Rattle.name_typing.specs.Variables.{taken as the_taken};
ghost use Rattle.source_subtypes.specs.View.{heads_of};
ghost use Rattle.typed_nodes.specs.Seen.{seen};

use je_base::Memory;
use je_core::{Mark, Ty, make_cast};
use source_subtypes::{ClassHeads, erased};
use std::alloc::Global;
use typed_nodes::TypedExpr;

fn is_same_type(ty: Ty, other: Ty) -> bool
    ensures { result ≡ same_type ty other }
{
    ty == other
}

/// What is read of a member: where its declared type is without type arguments, a cast asks it for them.
#[tactic(auto, unfolding(name_typing::specs::Variables::taken), using(je_core::proofs::Views::view_is))]
pub fn taken(alloc: Global, heads: &ClassHeads, read: TypedExpr) -> Result<TypedExpr, Memory>
    ensures { IfOk result (λ t. seen t ≡ the_taken (heads_of heads.now) (seen read)) }
{
    let ty = erased(heads, &read.ty);
    if is_same_type(read.node.ty, ty) {
        return Ok(read);
    }
    let TypedExpr { node, ty: of } = read;
    let mark = Mark {
        ty,
        span: node.span,
        at: node.at,
    };
    let node = make_cast(alloc, mark, node)?;
    Ok(TypedExpr { node, ty: of })
}
