// Signatures (JLS 8.4.2).

ghost use Rattle.std.specs.Prelude.{◌≡◌, ◌&&◌, map};
ghost use Rattle.name_types.specs.View.{shown};
ghost use Rattle.overriding.specs.Methods as words;
ghost use Rattle.class_methods.specs.View.{method_seen};
ghost use Rattle.source_subtypes.specs.View.{heads_of};

use crate::erasures::erasure;
use crate::method::Method;
use name_types::SrcTy;
use source_subtypes::{ClassHeads, are_same, is_same};

/// Whether two methods have one name.
pub fn have_one_name(method: &Method, other: &Method) -> bool
    ensures { result ≡ words.have_one_name (method_seen method.now) (method_seen other.now) }
{
    method.declared.name.name.0 == other.declared.name.name.0
}

/// Whether two lists of types are the same.
#[tactic(auto, using(crate::proofs::Types::same_lists))]
pub fn are_same_types(types: &[SrcTy], others: &[SrcTy]) -> bool
    ensures { result ≡ words.are_same_types (map shown types.now) (map shown others.now) }
{
    are_same(types, others)
}

/// Whether two methods have one name and the same parameters.
pub fn have_one_signature(method: &Method, other: &Method) -> bool
    ensures { result ≡ words.have_one_signature (method_seen method.now) (method_seen other.now) }
{
    have_one_name(method, other) && are_same_types(&method.parameters, &other.parameters)
}

// Whether types are the erasures of others.
fn are_erasures(heads: &ClassHeads, types: &[SrcTy], others: &[SrcTy]) -> bool
    ensures { result ≡ words.are_same_types (map shown types.now)
        (map (words.erasure (heads_of heads.now)) (map shown others.now)) }
{
    let mut left = others;
    for ty in types {
        let Some((first, rest)) = left.split_first() else {
            return false;
        };
        if !is_same(ty, &erasure(heads, first)) {
            return false;
        }
        left = rest;
    }
    left.is_empty()
}

/// Whether a method's signature is another one's, or its erasure.
pub fn is_subsignature(heads: &ClassHeads, method: &Method, other: &Method) -> bool
    ensures { result ≡ words.is_subsignature (heads_of heads.now) (method_seen method.now)
        (method_seen other.now) }
{
    have_one_signature(method, other) || is_erased_signature(heads, method, other)
}

fn is_erased_signature(heads: &ClassHeads, method: &Method, other: &Method) -> bool
    ensures { result ≡ (words.have_one_name (method_seen method.now) (method_seen other.now)
        && words.are_same_types (map shown method.now.parameters.items)
        (map (words.erasure (heads_of heads.now)) (map shown other.now.parameters.items))) }
{
    have_one_name(method, other) && are_erasures(heads, &method.parameters, &other.parameters)
}

/// Whether a method's signature is that of one of these, or its erasure.
pub fn is_overridden(heads: &ClassHeads, methods: &[Method], other: &Method) -> bool
    ensures { result ≡ words.is_overridden (heads_of heads.now) (map method_seen methods.now)
        (method_seen other.now) }
{
    for at in 0..methods.len() {
        if is_subsignature(heads, &methods[at], other) {
            return true;
        }
    }
    false
}
