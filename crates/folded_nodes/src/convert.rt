// Conversions of numbers (JLS 5.1.2, 5.1.3).

ghost use Rattle.std.specs.Prelude.{◌≡◌, IfOk};
ghost use Rattle.je_core.specs.View.{view};
ghost use Rattle.je_typing.specs.Conversions.{converted as the_converted, converted_if as the_converted_if};

use class_members::same_type;
use fit_parts::of;
use je_core::{Base, Expr, Mark, Memory, make_convert};
use std::alloc::Global;

/// One Convert where the type changes, and nothing else.
#[tactic(auto, unfolding(je_typing::specs::Conversions::converted), using(je_core::proofs::Views::view_is))]
pub fn converted(alloc: Global, base: Base, node: Expr) -> Result<Expr, Memory>
    ensures { IfOk result (λ made. view made ≡ the_converted base (view node)) }
{
    if same_type(node.ty, of(base)) {
        return Ok(node);
    }
    let mark = Mark {
        ty: of(base),
        span: node.span,
        at: node.at,
    };
    make_convert(alloc, mark, node)
}

/// The same where there is a primitive type; a reference stays as it is.
pub fn converted_if(alloc: Global, base: Option<Base>, node: Expr) -> Result<Expr, Memory>
    ensures { IfOk result (λ made. view made ≡ the_converted_if base (view node)) }
{
    match base {
        Some(base) => converted(alloc, base, node),
        None => Ok(node),
    }
}
