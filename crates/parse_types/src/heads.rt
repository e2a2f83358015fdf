// Reads the heads of classes and interfaces, from the word `class` or `interface` to the `{`.

ghost use Rattle.std.specs.Prelude.{◌≡◌, ◌≤◌, max, IfOk};
ghost use Rattle.je_ast.specs.Types.{type_views_of, type_view_of_option, types_height, parameter_view};
ghost use Rattle.je_ast.specs.Height.{parameters_height, type_height_if};
ghost use Rattle.parse_laws.specs.way.Types.{parameter_at, parameters_at, superclass_at, references_at};
ghost use Rattle.parse_laws.specs.way.Members.{class_head_at, interface_head_at};
ghost use Rattle.parse_types.specs.way.HeadViews.{seen_part, PartHeight, parameters_view, seen_parameter, ParameterHeight, seen_class_head, ClassHeadHeight, seen_interface_head, InterfaceHeadHeight};

use crate::ahead::{behind, behind_word, identifier, is_symbol};
use crate::rest_of_type::{Rest, closes};
use crate::types::reference;
use je_ast::{Identifier, TyName, TypeParam};
use je_base::Memory;
use je_token::{Keyword, Symbol, Token};
use std::alloc::Global;

/// A class's head. `height` is that of its highest type, and the `{` stands first in `rest`.
#[derive(Drop)]
pub struct ClassHead<'a> {
    pub name: Identifier,
    pub params: Vec<TypeParam>,
    pub extends: Option<TyName>,
    pub implements: Vec<TyName>,
    pub height: u32,
    pub rest: &'a [Token],
}

/// An interface's head. `height` is that of its highest type, and the `{` stands first in `rest`.
#[derive(Drop)]
pub struct InterfaceHead<'a> {
    pub name: Identifier,
    pub params: Vec<TypeParam>,
    pub extends: Vec<TyName>,
    pub height: u32,
    pub rest: &'a [Token],
}

// What was read, the height of its highest type, and what stands behind it.
#[derive(Drop)]
struct Part<'a, T> {
    tree: T,
    height: u32,
    rest: Rest<'a>,
}

type ReadPart<'a, T> = Result<Option<Part<'a, T>>, Memory>;

/// `"class" id [Params] ["extends" Ref] ["implements" Ref {"," Ref}]` before a `{`, with types of at most this height.
#[tactic(auto, using(crate::proofs::Steps::superclass_absent, crate::proofs::Steps::references_absent), unfolding(parse_laws::specs::way::Members::class_head_at))]
pub fn class_head<'a>(
    alloc: Global,
    tokens: &'a [Token],
    most: u32,
) -> Result<Option<ClassHead<'a>>, Memory>
    ensures value { IfOk result (λ o. seen_class_head o ≡ class_head_at most tokens.now) }
    ensures height { IfOk result (ClassHeadHeight most) }
{
    let Some(named) = behind_word(tokens, Keyword::Class) else {
        return Ok(None);
    };
    let Some((name, rest)) = identifier(named) else {
        return Ok(None);
    };
    let Some(params) = type_params(alloc, rest, most)? else {
        return Ok(None);
    };
    let Some(rest) = params.rest.whole() else {
        return Ok(None);
    };
    let Some(extends) = superclass(alloc, rest, most)? else {
        return Ok(None);
    };
    let Some(rest) = extends.rest.whole() else {
        return Ok(None);
    };
    let Some(implements) = references(alloc, Keyword::Implements, rest, most)? else {
        return Ok(None);
    };
    let Some(rest) = implements.rest.whole() else {
        return Ok(None);
    };
    if !is_symbol(rest, Symbol::OpenBrace) {
        return Ok(None);
    }
    Ok(Some(ClassHead {
        name,
        params: params.tree,
        extends: extends.tree,
        implements: implements.tree,
        height: params.height.max(extends.height).max(implements.height),
        rest,
    }))
}

/// `"interface" id [Params] ["extends" Ref {"," Ref}]` before a `{`, with types of at most this height.
#[tactic(auto, using(crate::proofs::Steps::superclass_absent, crate::proofs::Steps::references_absent), unfolding(parse_laws::specs::way::Members::interface_head_at))]
pub fn interface_head<'a>(
    alloc: Global,
    tokens: &'a [Token],
    most: u32,
) -> Result<Option<InterfaceHead<'a>>, Memory>
    ensures value { IfOk result (λ o. seen_interface_head o ≡ interface_head_at most tokens.now) }
    ensures height { IfOk result (InterfaceHeadHeight most) }
{
    let Some(named) = behind_word(tokens, Keyword::Interface) else {
        return Ok(None);
    };
    let Some((name, rest)) = identifier(named) else {
        return Ok(None);
    };
    let Some(params) = type_params(alloc, rest, most)? else {
        return Ok(None);
    };
    let Some(rest) = params.rest.whole() else {
        return Ok(None);
    };
    let Some(extends) = references(alloc, Keyword::Extends, rest, most)? else {
        return Ok(None);
    };
    let Some(rest) = extends.rest.whole() else {
        return Ok(None);
    };
    if !is_symbol(rest, Symbol::OpenBrace) {
        return Ok(None);
    }
    Ok(Some(InterfaceHead {
        name,
        params: params.tree,
        extends: extends.tree,
        height: params.height.max(extends.height),
        rest,
    }))
}

// `["<" Param {"," Param} ">"]`
#[tactic(auto, using(crate::proofs::Steps::parameters_step, crate::proofs::Steps::parameters_none, crate::proofs::Steps::parameters_push, crate::proofs::Steps::parameters_height_push), unfolding(parse_laws::specs::way::Types::parameters_at))]
fn type_params<'a>(alloc: Global, tokens: &'a [Token], most: u32) -> ReadPart<'a, Vec<TypeParam>>
    ensures value { IfOk result (λ o. seen_part parameters_view o ≡ parameters_at most tokens.now) }
    ensures height { IfOk result (λ o. PartHeight
        (λ ps. parameters_height (parameters_view ps)) most o) }
{
    let mut list = Vec::new(alloc);
    let Some(mut next) = behind(tokens, Symbol::Less) else {
        return Ok(Some(Part {
            tree: list,
            height: 0,
            rest: Rest::Whole { tokens },
        }));
    };
    let mut height = 0;
    for _ in 0..tokens.len() {
        let Some((param, param_height, rest)) = type_param(alloc, next, most)? else {
            return Ok(None);
        };
        list.push(param)?;
        height = height.max(param_height);
        if let Some(behind_comma) = rest.behind_comma() {
            next = behind_comma;
            continue;
        }
        let Some((_, rest)) = closes(rest) else {
            return Ok(None);
        };
        return Ok(Some(Part {
            tree: list,
            height,
            rest,
        }));
    }
    Ok(None)
}

// `id ["extends" Ref]`: the type parameter, the height of its bound, and what stands behind it.
#[tactic(auto, unfolding(parse_laws::specs::way::Types::parameter_at))]
fn type_param<'a>(
    alloc: Global,
    tokens: &'a [Token],
    most: u32,
) -> Result<Option<(TypeParam, u32, Rest<'a>)>, Memory>
    ensures value { IfOk result (λ o. seen_parameter o ≡ parameter_at most tokens.now) }
    ensures height { IfOk result (ParameterHeight most) }
{
    let Some((name, rest)) = identifier(tokens) else {
        return Ok(None);
    };
    let Some(bounded) = behind_word(rest, Keyword::Extends) else {
        let param = TypeParam { name, bound: None };
        return Ok(Some((param, 0, Rest::Whole { tokens: rest })));
    };
    let Some(bound) = reference(alloc, bounded, most)? else {
        return Ok(None);
    };
    let param = TypeParam {
        name,
        bound: Some(bound.tree),
    };
    Ok(Some((param, bound.height, bound.rest)))
}

// `["extends" Ref]`
#[tactic(auto, unfolding(parse_laws::specs::way::Types::superclass_at))]
fn superclass<'a>(alloc: Global, tokens: &'a [Token], most: u32) -> ReadPart<'a, Option<TyName>>
    ensures value { IfOk result (λ o. seen_part type_view_of_option o
        ≡ superclass_at most tokens.now) }
    ensures height { IfOk result (λ o. PartHeight
        (λ t. type_height_if (type_view_of_option t)) most o) }
{
    let Some(named) = behind_word(tokens, Keyword::Extends) else {
        return Ok(Some(Part {
            tree: None,
            height: 0,
            rest: Rest::Whole { tokens },
        }));
    };
    let Some(found) = reference(alloc, named, most)? else {
        return Ok(None);
    };
    Ok(Some(Part {
        tree: Some(found.tree),
        height: found.height,
        rest: found.rest,
    }))
}

// `[word Ref {"," Ref}]`
#[tactic(auto, using(crate::proofs::Steps::references_step, crate::proofs::Steps::references_none, crate::proofs::Steps::types_push, crate::proofs::Steps::types_height_push), unfolding(parse_laws::specs::way::Types::references_at))]
fn references<'a>(
    alloc: Global,
    word: Keyword,
    tokens: &'a [Token],
    most: u32,
) -> ReadPart<'a, Vec<TyName>>
    ensures value { IfOk result (λ o. seen_part (λ ts. type_views_of ts.items) o
        ≡ references_at word most tokens.now) }
    ensures height { IfOk result (λ o. PartHeight
        (λ ts. types_height (type_views_of ts.items)) most o) }
{
    let mut list = Vec::new(alloc);
    let Some(mut next) = behind_word(tokens, word) else {
        return Ok(Some(Part {
            tree: list,
            height: 0,
            rest: Rest::Whole { tokens },
        }));
    };
    let mut height = 0;
    for _ in 0..tokens.len() {
        let Some(found) = reference(alloc, next, most)? else {
            return Ok(None);
        };
        list.push(found.tree)?;
        height = height.max(found.height);
        if let Some(behind_comma) = found.rest.behind_comma() {
            next = behind_comma;
            continue;
        }
        return Ok(Some(Part {
            tree: list,
            height,
            rest: found.rest,
        }));
    }
    Ok(None)
}
