// Reads types.

ghost use Rattle.std.specs.Prelude.{◌≡◌, ◌+◌, ◌-◌, ◌<◌, ◌≤◌, ◌^◌, IfOk, length, [], suc};
ghost use Rattle.je_ast.specs.Types.{type_view, type_views_of, type_height as height_of, types_height};
ghost use Rattle.je_grammar.specs.Types.{is_plain_primitive as is_plain};
ghost use Rattle.parse_laws.specs.way.Types.{dims_at, primitive_at, primitive_type_at, with_dims as dims_behind_it, type_argument_at, type_arguments_at, reference_layer, reference_at, type_at, element_at, plain_type_at};
ghost use Rattle.parse_types.specs.way.Views.{read_of, seen_rest, seen_dims_rest, seen_type, seen_found_type, HasTypeHeight, seen_reference, seen_class, ReferenceHeight, seen_arguments, ArgumentsHeight, seen_plain, seen_plain_type, IsLow};

use crate::ahead::{behind, first_span, join};
use crate::naming::{dims, name};
use crate::rest_of_type::{Rest, closes};
use je_ast::{Name, Primitive, TyName, make_class_type, make_ty_name};
use je_base::{Memory, Span};
use je_token::{Keyword, Symbol, Token, TokenKind};
use std::alloc::Global;

/// A type that was read, its height, and what stands behind it.
#[derive(Drop)]
pub struct FoundType<'a> {
    pub tree: TyName,
    pub height: u32,
    pub rest: Rest<'a>,
}

// A class type without brackets, by its parts.
#[derive(Drop)]
struct ClassType<'a> {
    name: Name,
    args: Vec<TyName>,
    span: Span,
    height: u32,
    rest: Rest<'a>,
}

// Type arguments up to the `>` that closes them.
#[derive(Drop)]
struct Arguments<'a> {
    list: Vec<TyName>,
    height: u32,
    close: Span,
    rest: Rest<'a>,
}

/// The primitive type whose word stands first, and the tokens behind it.
pub fn primitive(tokens: &[Token]) -> Option<(Primitive, &[Token])>
    ensures { read_of result ≡ primitive_at tokens.now }
{
    let (token, rest) = tokens.split_first()?;
    match token.kind {
        TokenKind::Keyword(Keyword::Boolean) => Some((Primitive::Boolean, rest)),
        TokenKind::Keyword(Keyword::Byte) => Some((Primitive::Byte, rest)),
        TokenKind::Keyword(Keyword::Short) => Some((Primitive::Short, rest)),
        TokenKind::Keyword(Keyword::Char) => Some((Primitive::Char, rest)),
        TokenKind::Keyword(Keyword::Int) => Some((Primitive::Int, rest)),
        TokenKind::Keyword(Keyword::Long) => Some((Primitive::Long, rest)),
        _ => None,
    }
}

// `{"[" "]"}` behind a type without them.
#[tactic(auto, using(crate::proofs::Steps::dims_stop))]
fn dims_behind<'a>(span: Span, rest: Rest<'a>) -> (usize, Span, Rest<'a>)
    ensures { seen_dims_rest result ≡ dims_at span (seen_rest rest.entry) }
{
    match rest.whole() {
        Some(tokens) => {
            let (count, span, tokens) = dims(span, tokens);
            (count, span, Rest::Whole { tokens })
        }
        None => (0, span, rest),
    }
}

// A primitive type, whose word has this span, with the brackets that follow it.
#[tactic(auto, unfolding(parse_laws::specs::way::Types::primitive_type_at))]
fn primitive_type<'a>(
    primitive: Primitive,
    word: Span,
    tokens: &'a [Token],
) -> (TyName, &'a [Token])
    ensures value { seen_plain result ≡ primitive_type_at primitive word tokens.now }
    ensures height { height_of (type_view result.0) ≡ 1 }
{
    let (count, span, rest) = dims(word, tokens);
    let tree = make_ty_name(TyName::Primitive {
        primitive,
        dims: count,
        span,
    });
    (tree, rest)
}

// A class type with the brackets that follow it.
fn with_dims<'a>(class: ClassType<'a>) -> FoundType<'a>
    requires { class.height ≡ suc (types_height (type_views_of class.args.items)) }
    ensures value { seen_found_type result ≡ dims_behind_it (seen_class class.entry) }
    ensures height { result.height ≡ height_of (type_view result.tree) }
    ensures same { result.height ≡ class.entry.height }
{
    let (count, span, rest) = dims_behind(class.span, class.rest);
    FoundType {
        tree: make_class_type(class.name, class.args, count, span),
        height: class.height,
        rest,
    }
}

/// A type of at most this height: `(Prim | Ref) {"[" "]"}`.
#[cycle(types)]
#[tactic(auto, using(crate::proofs::Steps::type_at_step, crate::proofs::Steps::type_at_zero), unfolding(parse_laws::specs::way::Types::type_layer))]
pub fn type_name<'a>(
    alloc: Global,
    tokens: &'a [Token],
    most: u32,
) -> Result<Option<FoundType<'a>>, Memory>
    ensures value { IfOk result (λ o. seen_type o ≡ type_at most tokens.now) }
    ensures height { IfOk result (HasTypeHeight most) }
{
    if most == 0 {
        return Ok(None);
    }
    if let Some((primitive, rest)) = primitive(tokens) {
        let (tree, rest) = primitive_type(primitive, first_span(tokens), rest);
        return Ok(Some(FoundType {
            tree,
            height: 1,
            rest: Rest::Whole { tokens: rest },
        }));
    }
    let Some(class) = class_reference(alloc, tokens, most - 1)? else {
        return Ok(None);
    };
    Ok(Some(with_dims(class)))
}

/// A class type without brackets behind it, of at most this height: `Name ["<" Arg {"," Arg} ">"]`.
#[tactic(auto, using(crate::proofs::Steps::reference_at_step, crate::proofs::Steps::reference_at_zero))]
pub fn reference<'a>(
    alloc: Global,
    tokens: &'a [Token],
    most: u32,
) -> Result<Option<FoundType<'a>>, Memory>
    ensures value { IfOk result (λ o. seen_type o ≡ reference_at most tokens.now) }
    ensures height { IfOk result (HasTypeHeight most) }
{
    if most == 0 {
        return Ok(None);
    }
    let Some(class) = class_reference(alloc, tokens, most - 1)? else {
        return Ok(None);
    };
    Ok(Some(FoundType {
        tree: make_class_type(class.name, class.args, 0, class.span),
        height: class.height,
        rest: class.rest,
    }))
}

// `Name ["<" Arg {"," Arg} ">"]`, with arguments of at most this height.
#[cycle(types)]
#[tactic(auto, unfolding(parse_laws::specs::way::Types::reference_layer))]
fn class_reference<'a>(
    alloc: Global,
    tokens: &'a [Token],
    below: u32,
) -> Result<Option<ClassType<'a>>, Memory>
    requires { below < 2 ^ 32 - 1 }
    ensures value { IfOk result (λ o. seen_reference o
        ≡ reference_layer (type_at below) tokens.now) }
    ensures height { IfOk result (ReferenceHeight (below + 1)) }
{
    let Some((name, rest)) = name(alloc, tokens)? else {
        return Ok(None);
    };
    let span = name.span;
    let Some(inside) = behind(rest, Symbol::Less) else {
        return Ok(Some(ClassType {
            name,
            args: Vec::new(alloc),
            span,
            height: 1,
            rest: Rest::Whole { tokens: rest },
        }));
    };
    let Some(args) = type_arguments(alloc, inside, below)? else {
        return Ok(None);
    };
    Ok(Some(ClassType {
        name,
        args: args.list,
        span: join(span, args.close),
        height: args.height + 1,
        rest: args.rest,
    }))
}

// `Arg {"," Arg} ">"`
#[cycle(types)]
#[tactic(auto, using(crate::proofs::Steps::arguments_step, crate::proofs::Steps::arguments_none, crate::proofs::Steps::types_push, crate::proofs::Steps::types_height_push))]
fn type_arguments<'a>(
    alloc: Global,
    tokens: &'a [Token],
    most: u32,
) -> Result<Option<Arguments<'a>>, Memory>
    requires { most < 2 ^ 32 - 1 }
    ensures value { IfOk result (λ o. seen_arguments o
        ≡ type_arguments_at (type_at most) (length tokens.now) [] tokens.now) }
    ensures height { IfOk result (ArgumentsHeight most) }
{
    let mut list = Vec::new(alloc);
    let mut height = 0;
    let mut next = tokens;
    for _ in 0..tokens.len() {
        let Some(found) = type_argument(alloc, next, most)? else {
            return Ok(None);
        };
        list.push(found.tree)?;
        height = height.max(found.height);
        if let Some(behind_comma) = found.rest.behind_comma() {
            next = behind_comma;
            continue;
        }
        let Some((close, rest)) = closes(found.rest) else {
            return Ok(None);
        };
        return Ok(Some(Arguments {
            list,
            height,
            close,
            rest,
        }));
    }
    Ok(None)
}

// A type argument, which is no primitive type without brackets.
#[cycle(types)]
#[tactic(auto, unfolding(parse_laws::specs::way::Types::type_argument_at))]
fn type_argument<'a>(
    alloc: Global,
    tokens: &'a [Token],
    most: u32,
) -> Result<Option<FoundType<'a>>, Memory>
    requires { most < 2 ^ 32 - 1 }
    ensures value { IfOk result (λ o. seen_type o ≡ type_argument_at (type_at most) tokens.now) }
    ensures height { IfOk result (HasTypeHeight most) }
{
    let Some(found) = type_name(alloc, tokens, most)? else {
        return Ok(None);
    };
    if is_plain_primitive(&found.tree) {
        return Ok(None);
    }
    Ok(Some(found))
}

#[tactic(auto, using(crate::proofs::Views::type_is))]
fn is_plain_primitive(ty: &TyName) -> bool
    ensures { result ≡ is_plain (type_view ty.now) }
{
    matches!(ty, TyName::Primitive { dims: 0, .. })
}

/// `Prim | Name`, of height 1.
#[tactic(auto, unfolding(parse_laws::specs::way::Types::element_at))]
pub fn element<'a>(
    alloc: Global,
    tokens: &'a [Token],
) -> Result<Option<(TyName, &'a [Token])>, Memory>
    ensures value { IfOk result (λ o. seen_plain_type o ≡ element_at tokens.now) }
    ensures height { IfOk result IsLow }
{
    if let Some((primitive, rest)) = primitive(tokens) {
        let tree = make_ty_name(TyName::Primitive {
            primitive,
            dims: 0,
            span: first_span(tokens),
        });
        return Ok(Some((tree, rest)));
    }
    let Some((name, rest)) = name(alloc, tokens)? else {
        return Ok(None);
    };
    let span = name.span;
    Ok(Some((make_class_type(name, Vec::new(alloc), 0, span), rest)))
}

/// A type without type arguments, of height 1: `(Prim | Name) {"[" "]"}`.
#[tactic(auto, unfolding(parse_laws::specs::way::Types::plain_type_at))]
pub fn plain_type<'a>(
    alloc: Global,
    tokens: &'a [Token],
) -> Result<Option<(TyName, &'a [Token])>, Memory>
    ensures value { IfOk result (λ o. seen_plain_type o ≡ plain_type_at tokens.now) }
    ensures height { IfOk result IsLow }
{
    if let Some((primitive, rest)) = primitive(tokens) {
        return Ok(Some(primitive_type(primitive, first_span(tokens), rest)));
    }
    let Some((name, rest)) = name(alloc, tokens)? else {
        return Ok(None);
    };
    let (count, span, rest) = dims(name.span, rest);
    Ok(Some((make_class_type(name, Vec::new(alloc), count, span), rest)))
}
