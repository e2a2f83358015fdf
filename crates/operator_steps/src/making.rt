// The making of arrays (JLS 10.6, 15.10).

ghost use Rattle.std.specs.Prelude.{◌≡◌, ◌≤◌, ◌+◌, [], IfOk, IfErr, length, map, nat_le, option_map};
ghost use Rattle.std.specs.Bool.{OnTrue};
ghost use Rattle.je_core.specs.View.{views};
ghost use Rattle.je_scopes.specs.SourceTypes.{with_dims};
ghost use Rattle.je_typing.specs.Answers.{IsFault};
ghost use Rattle.je_typing.specs.Arrays.{array_node as the_array_node, array_of as the_array_of, array_type as the_array_type, elements_from as the_elements_from, elements_if as the_elements_if, elements_node as the_elements_node, initialized as the_initialized, lengths_from as the_lengths_from, may_be_made as the_may_be_made, new_array as the_new_array};
ghost use Rattle.je_typing.specs.declared.fault.TypeRule.TheVariants.{BadArray};
ghost use Rattle.je_typing.specs.Judged.{gives, need as the_need};
ghost use Rattle.je_typing.specs.Typed.{element_type as the_element_type};
ghost use Rattle.name_types.specs.View.{base_shown, shown};
ghost use Rattle.operator_steps.specs.Made.{new_array_of as the_new_array_of};
ghost use Rattle.operator_steps.specs.Parts.{part_seen};
ghost use Rattle.operator_steps.specs.way.Elements.{array_by as the_array_by};
ghost use Rattle.source_subtypes.specs.View.{heads_of};
ghost use Rattle.typed_nodes.specs.Seen.{seen};

use crate::elements::int_index;
use crate::part::Part;
use conversion_steps::assigned;
use je_base::{Memory, Span};
use je_core::{Expr, Mark, make_array_of, make_new_array};
use je_typing::{Refusal, TypeFault, TypeRule};
use name_types::{SrcBase, SrcTy};
use reference_tests::is_reifiable;
use source_subtypes::{ClassHeads, copied, erased};
use std::alloc::Global;
use std::rc::Rc;
use typed_nodes::{TypedExpr, element_type, need_type};

#[tactic(auto, using(je_typing::proofs::Walks::walks, crate::proofs::Listing::lengths))]
fn lengths(alloc: Global, parts: Vec<Part>) -> Result<Vec<Rc<Expr>>, Refusal>
    ensures ok { IfOk result (λ ls. the_lengths_from [] (map part_seen parts.items)
        ≡ gives (views ls.items)) }
    ensures err { IfErr result (IsFault (the_lengths_from [] (map part_seen parts.items))) }
{
    let mut lengths = Vec::new(alloc);
    for part in parts {
        let Part { value, span } = part;
        let length = int_index(alloc, span, value)?;
        lengths.push(Rc::new(alloc, length)?)?;
    }
    Ok(lengths)
}

// Whether there are arrays of so many dimensions over a type: `lengths` and `dims`.
fn may_be_made(heads: &ClassHeads, element: &SrcTy, lengths: usize, dims: usize) -> bool
    ensures made { result ≡
        the_may_be_made (heads_of heads.now) (shown element.now) (lengths + dims) }
    ensures few { OnTrue result (lengths + dims ≤ 255) }
{
    is_reifiable(heads, element) && are_few(lengths, dims)
}

fn are_few(lengths: usize, dims: usize) -> bool
    ensures few { result ≡ nat_le (lengths + dims) 255 }
    ensures within { OnTrue result (lengths + dims ≤ 255) }
{
    lengths <= 255 && dims <= 255 - lengths
}

// The type of an array's innermost elements, which is no array.
fn innermost(element: SrcBase) -> SrcTy
    ensures shown { shown result ≡ base_shown element 0 }
    ensures base { result.base ≡ element }
{
    SrcTy {
        base: element,
        dims: 0,
    }
}

// A type of so many dimensions.
fn sized(base: SrcBase, dims: usize) -> SrcTy
    requires { dims ≤ 255 }
    ensures shown { shown result ≡ with_dims (base_shown base 0) dims }
    ensures base { result.base ≡ base }
{
    SrcTy {
        base,
        dims: dims as u8,
    }
}

// The type of an array, by that of its innermost elements, at whose span the fault stands.
#[tactic(auto, using(je_typing::proofs::Walks::walks, crate::proofs::Dimensions::arrays))]
fn array_type(
    heads: &ClassHeads,
    element: SrcBase,
    lengths: usize,
    dims: usize,
    span: Span,
) -> Result<SrcTy, Refusal>
    ensures ok { IfOk result (λ t. the_array_type (heads_of heads.now) (base_shown element 0)
        (lengths + dims) span ≡ gives (shown t)) }
    ensures err { IfErr result (IsFault (the_array_type (heads_of heads.now) (base_shown element 0)
        (lengths + dims) span)) }
{
    let element = innermost(element);
    if !may_be_made(heads, &element, lengths, dims) {
        return Err(Refusal::Fault(TypeFault {
            rule: TypeRule::BadArray,
            span,
        }));
    }
    let SrcTy { base, .. } = element;
    let array = sized(base, lengths + dims);
    Ok(array)
}

// How many parts are written.
#[tactic(auto, using(crate::proofs::Listing::part_count))]
fn count_of(parts: &Vec<Part>) -> usize
    ensures { result ≡ length (map part_seen parts.now.items) }
{
    parts.len()
}

// A new array of these lengths.
fn typed_new_array(heads: &ClassHeads, ty: SrcTy, span: Span, lengths: Vec<Rc<Expr>>) -> TypedExpr
    ensures { seen result ≡
        the_array_node (heads_of heads.now) (shown ty) span (views lengths.items) }
{
    let mark = Mark {
        ty: erased(heads, &ty),
        span,
        at: span,
    };
    let node = make_new_array(mark, lengths);
    TypedExpr { node, ty }
}

/// `new E[l]..[l][]..[]`: lengths, and so many brackets without, over innermost elements of a type that is no array.
#[tactic(auto, unfolding(je_typing::specs::Arrays::new_array), using(je_typing::proofs::Walks::walks))]
pub fn new_array(
    alloc: Global,
    heads: &ClassHeads,
    element: SrcBase,
    dims: usize,
    element_span: Span,
    span: Span,
    parts: Vec<Part>,
) -> Result<TypedExpr, Refusal>
    ensures ok { IfOk result (λ t. the_new_array (heads_of heads.now) (base_shown element 0) dims
        element_span span (map part_seen parts.items) ≡ gives (seen t)) }
    ensures err { IfErr result (IsFault (the_new_array (heads_of heads.now) (base_shown element 0) dims
        element_span span (map part_seen parts.items))) }
{
    let count = count_of(&parts);
    let lengths = lengths(alloc, parts)?;
    let ty = array_type(heads, element, count, dims, element_span)?;
    let whole = typed_new_array(heads, ty, span, lengths);
    Ok(whole)
}

#[tactic(auto, using(je_typing::proofs::Walks::walks, crate::proofs::Listing::elements))]
fn elements(
    alloc: Global,
    heads: &ClassHeads,
    ty: &SrcTy,
    parts: Vec<Part>,
) -> Result<Vec<Rc<Expr>>, Refusal>
    ensures ok { IfOk result (λ es. the_elements_from (heads_of heads.now) (shown ty.now) []
        (map part_seen parts.items) ≡ gives (views es.items)) }
    ensures err { IfErr result (IsFault (the_elements_from (heads_of heads.now) (shown ty.now) []
        (map part_seen parts.items))) }
{
    let mut elements = Vec::new(alloc);
    for part in parts {
        let Part { value, span } = part;
        let element = assigned(alloc, heads, ty, span, value)?;
        elements.push(Rc::new(alloc, element)?)?;
    }
    Ok(elements)
}

// The elements by their type, where there is one.
fn elements_if(
    alloc: Global,
    heads: &ClassHeads,
    element: &Option<SrcTy>,
    parts: Vec<Part>,
) -> Result<Vec<Rc<Expr>>, Refusal>
    ensures ok { IfOk result (λ es. the_elements_if (heads_of heads.now)
        (option_map shown element.now) (map part_seen parts.items) ≡ gives (views es.items)) }
    ensures err { IfErr result (IsFault (the_elements_if (heads_of heads.now)
        (option_map shown element.now) (map part_seen parts.items))) }
{
    match element {
        Some(element) => elements(alloc, heads, element, parts),
        None => Ok(Vec::new(alloc)),
    }
}

// The type of an array's elements, where an array of them may be made.
fn initialized(heads: &ClassHeads, ty: &SrcTy, element: Option<SrcTy>) -> Option<SrcTy>
    ensures { option_map shown result ≡
        the_initialized (heads_of heads.now) (shown ty.now) (option_map shown element) }
{
    let element = element?;
    if is_reifiable(heads, ty) {
        Some(element)
    } else {
        None
    }
}

// The same, else the fault.
fn needed_element(
    heads: &ClassHeads,
    ty: &SrcTy,
    element: Option<SrcTy>,
    span: Span,
) -> Result<SrcTy, Refusal>
    ensures ok { IfOk result (λ t. the_need BadArray span
        (the_initialized (heads_of heads.now) (shown ty.now) (option_map shown element))
        ≡ gives (shown t)) }
    ensures err { IfErr result (IsFault (the_need BadArray span
        (the_initialized (heads_of heads.now) (shown ty.now) (option_map shown element)))) }
{
    let element = initialized(heads, ty, element);
    need_type(TypeRule::BadArray, span, element)
}

// An array of these elements.
fn typed_elements(heads: &ClassHeads, ty: SrcTy, span: Span, values: Vec<Rc<Expr>>) -> TypedExpr
    ensures { seen result ≡
        the_elements_node (heads_of heads.now) (shown ty) span (views values.items) }
{
    let mark = Mark {
        ty: erased(heads, &ty),
        span,
        at: span,
    };
    let node = make_array_of(mark, values);
    TypedExpr { node, ty }
}

// An array initializer for a type, by the type of its elements, where it has any.
#[tactic(auto, unfolding(crate::specs::way::Elements::array_by), using(je_typing::proofs::Walks::walks))]
fn array_by(
    alloc: Global,
    heads: &ClassHeads,
    ty: SrcTy,
    element: Option<SrcTy>,
    span: Span,
    parts: Vec<Part>,
) -> Result<TypedExpr, Refusal>
    ensures ok { IfOk result (λ t. the_array_by (heads_of heads.now) (shown ty)
        (option_map shown element) span (map part_seen parts.items) ≡ gives (seen t)) }
    ensures err { IfErr result (IsFault (the_array_by (heads_of heads.now) (shown ty)
        (option_map shown element) span (map part_seen parts.items))) }
{
    let values = elements_if(alloc, heads, &element, parts)?;
    needed_element(heads, &ty, element, span)?;
    let whole = typed_elements(heads, ty, span, values);
    Ok(whole)
}

// The type of an array's elements, where it is one.
fn element_of(alloc: Global, ty: &SrcTy) -> Result<Option<SrcTy>, Memory>
    ensures { IfOk result (λ e. option_map shown e ≡ the_element_type (shown ty.now)) }
{
    let copy = copied(alloc, ty)?;
    Ok(element_type(copy))
}

/// An array initializer for a type. Its elements are judged first, by the type of the elements.
#[tactic(auto, using(je_typing::proofs::Walks::walks, crate::proofs::Initializing::by_element))]
pub fn array_of(
    alloc: Global,
    heads: &ClassHeads,
    ty: SrcTy,
    span: Span,
    parts: Vec<Part>,
) -> Result<TypedExpr, Refusal>
    ensures ok { IfOk result (λ t. the_array_of (heads_of heads.now) (shown ty) span
        (map part_seen parts.items) ≡ gives (seen t)) }
    ensures err { IfErr result (IsFault (the_array_of (heads_of heads.now) (shown ty) span
        (map part_seen parts.items))) }
{
    let element = element_of(alloc, &ty)?;
    let whole = array_by(alloc, heads, ty, element, span, parts)?;
    Ok(whole)
}

// The elements of a new array, of the type that is written.
#[tactic(auto, using(je_typing::proofs::Walks::walks))]
fn elements_of(
    alloc: Global,
    heads: &ClassHeads,
    ty: &SrcTy,
    parts: Vec<Part>,
) -> Result<Vec<Rc<Expr>>, Refusal>
    ensures ok { IfOk result (λ es. the_elements_if (heads_of heads.now)
        (the_element_type (shown ty.now)) (map part_seen parts.items) ≡ gives (views es.items)) }
    ensures err { IfErr result (IsFault (the_elements_if (heads_of heads.now)
        (the_element_type (shown ty.now)) (map part_seen parts.items))) }
{
    let element = element_of(alloc, ty)?;
    let values = elements_if(alloc, heads, &element, parts)?;
    Ok(values)
}

/// `new E[].. { .. }`: elements for so many dimensions over innermost elements of a type that is no array. They are judged
/// first, by the type, of which no more than 255 dimensions count.
#[tactic(auto, using(je_typing::proofs::Walks::walks))]
pub fn new_array_of(
    alloc: Global,
    heads: &ClassHeads,
    element: SrcBase,
    dims: usize,
    element_span: Span,
    span: Span,
    parts: Vec<Part>,
) -> Result<TypedExpr, Refusal>
    ensures ok { IfOk result (λ t. the_new_array_of (heads_of heads.now) (base_shown element 0) dims
        element_span span (map part_seen parts.items) ≡ gives (seen t)) }
    ensures err { IfErr result (IsFault (the_new_array_of (heads_of heads.now)
        (base_shown element 0) dims element_span span (map part_seen parts.items))) }
{
    let ty = sized(element, dims.min(255));
    let values = elements_of(alloc, heads, &ty, parts)?;
    let SrcTy { base, .. } = ty;
    let made = array_type(heads, base, dims, 0, element_span)?;
    let whole = typed_elements(heads, made, span, values);
    Ok(whole)
}
