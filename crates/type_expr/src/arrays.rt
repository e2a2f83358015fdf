// The making of arrays, of parts that are judged (JLS 10.6, 15.10).

ghost use Rattle.std.specs.Prelude.{◌≡◌, IfErr, IfOk, map, min};
ghost use Rattle.je_scopes.specs.SourceTypes.{with_dims};
ghost use Rattle.je_typing.specs.Answers.{IsFault};
ghost use Rattle.je_typing.specs.Arrays.{array_type, elements_if, elements_node, new_array as the_new_array};
ghost use Rattle.je_typing.specs.Judged.{bind, gives};
ghost use Rattle.je_typing.specs.Typed.{element_type as the_element_type};
ghost use Rattle.name_types.specs.View.{base_shown, shown};
ghost use Rattle.body_typing.specs.Expressions.{array_over as the_array_over, element_or as the_element_or, innermost};
ghost use Rattle.operator_steps.specs.Parts.{part_seen};
ghost use Rattle.source_subtypes.specs.View.{heads_of};
ghost use Rattle.typed_nodes.specs.Seen.{seen};

use je_base::{Memory, Span};
use je_typing::Refusal;
use name_types::{SrcBase, SrcTy};
use operator_steps::{Part, new_array, new_array_of};
use source_subtypes::{ClassHeads, copied};
use std::alloc::Global;
use typed_nodes::{TypedExpr, element_type};

/// The type of an array's elements; of what is no array the type itself.
#[tactic(auto, using(crate::proofs::Types::elements))]
pub fn element_or(alloc: Global, ty: &SrcTy) -> Result<SrcTy, Memory>
    ensures { IfOk result (λ t. shown t ≡ the_element_or (shown ty.now)) }
{
    let copy = copied(alloc, ty)?;
    match element_type(copy) {
        Some(element) => Ok(element),
        None => copied(alloc, ty),
    }
}

// A type of so many dimensions, of which no more than 255 count.
fn sized(base: SrcBase, dims: usize) -> SrcTy
    ensures { shown result ≡ with_dims (base_shown base 0) (min 255 dims) }
{
    SrcTy {
        base,
        dims: dims.min(255) as u8,
    }
}

/// The type of a new array of so many dimensions, by that of its innermost elements.
#[tactic(auto, using(crate::proofs::Types::innermost_is))]
pub fn array_over(alloc: Global, of: &SrcTy, dims: usize) -> Result<SrcTy, Memory>
    ensures { IfOk result (λ t. shown t ≡ the_array_over (shown of.now) dims) }
{
    let copy = copied(alloc, of)?;
    Ok(sized(copy.base, dims))
}

/// `new A[e]..[]..`
#[tactic(auto, using(crate::proofs::Types::innermost_is))]
pub fn made_with_lengths(
    alloc: Global,
    heads: &ClassHeads,
    of: SrcTy,
    dims: usize,
    name: Span,
    span: Span,
    lengths: Vec<Part>,
) -> Result<TypedExpr, Refusal>
    ensures ok { IfOk result (λ t. the_new_array (heads_of heads.now) (innermost (shown of)) dims
        name span (map part_seen lengths.items) ≡ gives (seen t)) }
    ensures err { IfErr result (IsFault (the_new_array (heads_of heads.now) (innermost (shown of))
        dims name span (map part_seen lengths.items))) }
{
    new_array(alloc, heads, of.base, dims, name, span, lengths)
}

/// `new A[].. { .. }`
#[tactic(auto, using(crate::proofs::Types::innermost_is))]
pub fn made_with_elements(
    alloc: Global,
    heads: &ClassHeads,
    of: SrcTy,
    dims: usize,
    name: Span,
    span: Span,
    elements: Vec<Part>,
) -> Result<TypedExpr, Refusal>
    ensures ok { IfOk result (λ t. bind (elements_if (heads_of heads.now)
        (the_element_type (the_array_over (shown of) dims)) (map part_seen elements.items))
        (λ given. bind (array_type (heads_of heads.now) (innermost (shown of)) dims name)
        (λ made. gives (elements_node (heads_of heads.now) made span given))) ≡ gives (seen t)) }
    ensures err { IfErr result (IsFault (bind (elements_if (heads_of heads.now)
        (the_element_type (the_array_over (shown of) dims)) (map part_seen elements.items))
        (λ given. bind (array_type (heads_of heads.now) (innermost (shown of)) dims name)
        (λ made. gives (elements_node (heads_of heads.now) made span given))))) }
{
    new_array_of(alloc, heads, of.base, dims, name, span, elements)
}
