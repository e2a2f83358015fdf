// Reads members.

ghost use Rattle.std.specs.Prelude.{◌≡◌, ◌+◌, ◌<◌, ◌^◌, ℕ, IfOk};
ghost use Rattle.je_ast.specs.View.{member_view, declaration_view};
ghost use Rattle.parse_laws.specs.way.Members.{begins_initializer_at, begins_constructor_at};
ghost use Rattle.parse_laws.specs.way.Members.{begins_method_at};
ghost use Rattle.parse_types.specs.way.Views.{seen};
ghost use Rattle.parse_below.specs.way.Readers.{Reads, ReadsInitializers, ReadsBlockStatements};
ghost use Rattle.parse_below.specs.way.Readers.{ReadsBlocks, ReadsMembers};
ghost use Rattle.parse_below.specs.way.Views.{MemberHasHeight, DeclarationHasHeight};
ghost use Rattle.parse_members.specs.way.Views.{as_members};
ghost use Rattle.parse_members.specs.way.Readings.{member_layer, modified_at, initializer_at};
ghost use Rattle.parse_members.specs.way.Readings.{field_at};

use crate::constructors::constructor;
use crate::methods::method;
use crate::types_declared::{begins_declared, declared};
use je_ast::{
    Block, Decl, Expr, Member, Modifier, Stmt, make_field, make_initializer, make_member,
};
use je_base::Span;
use je_token::{Keyword, Symbol, Token};
use parse_below::Setting;
use parse_statements::variables;
use parse_types::{
    Found, Place, Read, behind, behind_word, first_span, identifier, is_symbol, is_word, join,
    modifiers, past_type, type_name,
};
use std::alloc::Global;

/// The longest Member of height at most one more than what is below.
pub fn member<
    'a,
    E: Fn(Place<'a>) -> Read<'a, Expr>,
    I: Fn(&'a [Token]) -> Read<'a, Expr>,
    B: Fn(&'a [Token]) -> Read<'a, Stmt>,
    K: Fn(&'a [Token]) -> Read<'a, Block>,
    M: Fn(&'a [Token]) -> Read<'a, Member>,
>(
    expr: &E,
    initializer: &I,
    block_statement: &B,
    block: &K,
    member: &M,
    alloc: Global,
    setting: &Setting,
    tokens: &'a [Token],
) -> Read<'a, Member>
    requires callable { E.IsAlwaysCallable expr.now }
    requires reads { Reads setting.now (E.post expr.now) }
    requires callable_initializer { I.IsAlwaysCallable initializer.now }
    requires reads_initializer { ReadsInitializers setting.now (I.post initializer.now) }
    requires callable_statements { B.IsAlwaysCallable block_statement.now }
    requires reads_statements { ReadsBlockStatements setting.now (B.post block_statement.now) }
    requires callable_blocks { K.IsAlwaysCallable block.now }
    requires reads_blocks { ReadsBlocks setting.now (K.post block.now) }
    requires callable_members { M.IsAlwaysCallable member.now }
    requires reads_members { ReadsMembers setting.now (M.post member.now) }
    requires room { setting.now.below + 1 < 2 ^ 32 }
    ensures value { IfOk result (λ o. seen member_view o ≡ member_layer setting.now tokens.now) }
    ensures height { IfOk result (MemberHasHeight (setting.now.below + 1)) }
{
    if begins_initializer(tokens) {
        return initializer_block(block, setting, tokens);
    }
    let (modifiers, rest) = modifiers(alloc, setting.names, tokens)?;
    let first = first_span(tokens);
    if begins_declared(rest) {
        return Ok(as_member(declared(member, alloc, setting, modifiers, first, rest)?));
    }
    if begins_constructor(rest) {
        return constructor(
            expr,
            block_statement,
            alloc,
            setting,
            modifiers,
            first,
            rest,
        );
    }
    if begins_method(rest, setting.below) {
        return method(block, alloc, setting, modifiers, first, rest);
    }
    field(initializer, alloc, setting, modifiers, first, rest)
}

// A type declaration as a member.
fn as_member(found: Option<Found<Decl>>) -> Option<Found<Member>>
    ensures value { seen member_view result ≡ as_members (seen declaration_view found.entry) }
    ensures height { (most : ℕ) → DeclarationHasHeight most found.entry
        → MemberHasHeight most result }
{
    let found = found?;
    Some(Found {
        tree: make_member(Member::Type { decl: found.tree }),
        height: found.height,
        rest: found.rest,
    })
}

/// Whether `["static"] "{"` stands here.
pub fn begins_initializer(tokens: &[Token]) -> bool
    ensures { result ≡ begins_initializer_at tokens.now }
{
    match behind_word(tokens, Keyword::Static) {
        Some(rest) => is_symbol(rest, Symbol::OpenBrace),
        None => is_symbol(tokens, Symbol::OpenBrace),
    }
}

// `["static"] Block`
#[tactic(auto, unfolding(parse_laws::specs::way::Members::initializer_at))]
fn initializer_block<'a, K: Fn(&'a [Token]) -> Read<'a, Block>>(
    block: &K,
    setting: &Setting,
    tokens: &'a [Token],
) -> Read<'a, Member>
    requires callable { K.IsAlwaysCallable block.now }
    requires reads { ReadsBlocks setting.now (K.post block.now) }
    requires room { setting.now.below + 1 < 2 ^ 32 }
    ensures value { IfOk result (λ o. seen member_view o ≡ initializer_at setting.now tokens.now) }
    ensures height { IfOk result (MemberHasHeight (setting.now.below + 1)) }
{
    let first = first_span(tokens);
    let (word, begin) = match behind_word(tokens, Keyword::Static) {
        Some(rest) => (Some(first), rest),
        None => (None, tokens),
    };
    let Some(found) = block(begin)? else {
        return Ok(None);
    };
    let span = join(first, found.tree.closing);
    Ok(Some(Found {
        tree: make_initializer(word, found.tree, span),
        height: found.height + 1,
        rest: found.rest,
    }))
}

// Whether `id "("` stands here.
fn begins_constructor(tokens: &[Token]) -> bool
    ensures { result ≡ begins_constructor_at tokens.now }
{
    match identifier(tokens) {
        Some((_, rest)) => is_symbol(rest, Symbol::OpenParen),
        None => false,
    }
}

// Whether `(Ty | "void") id "("` stands here, or `void`.
#[tactic(auto, unfolding(parse_laws::specs::way::Members::begins_method_at))]
fn begins_method(tokens: &[Token], below: u32) -> bool
    ensures { result ≡ begins_method_at below tokens.now }
{
    if is_word(tokens, Keyword::Void) {
        return true;
    }
    let Some(rest) = past_type(tokens, below) else {
        return false;
    };
    match rest.whole() {
        Some(whole) => begins_constructor(whole),
        None => false,
    }
}

// `Ty Var {"," Var} ";"` behind these modifiers.
#[tactic(auto, using(parse_statements::proofs::Steps::no_variables_behind), unfolding(parse_laws::specs::way::Members::field_at))]
fn field<'a, I: Fn(&'a [Token]) -> Read<'a, Expr>>(
    initializer: &I,
    alloc: Global,
    setting: &Setting,
    modifiers: Vec<Modifier>,
    first: Span,
    tokens: &'a [Token],
) -> Read<'a, Member>
    requires callable { I.IsAlwaysCallable initializer.now }
    requires reads { ReadsInitializers setting.now (I.post initializer.now) }
    requires room { setting.now.below + 1 < 2 ^ 32 }
    ensures value { IfOk result
        (λ o. seen member_view o ≡ field_at setting.now modifiers.items first tokens.now) }
    ensures height { IfOk result (MemberHasHeight (setting.now.below + 1)) }
{
    let Some(ty) = type_name(alloc, tokens, setting.below)? else {
        return Ok(None);
    };
    let Some(named) = ty.rest.whole() else {
        return Ok(None);
    };
    let Some(vars) = variables(initializer, alloc, setting, named)? else {
        return Ok(None);
    };
    let Some(rest) = behind(vars.rest, Symbol::Semicolon) else {
        return Ok(None);
    };
    let span = join(first, first_span(vars.rest));
    Ok(Some(Found {
        tree: make_field(modifiers, ty.tree, vars.tree, span),
        height: ty.height.max(vars.height) + 1,
        rest,
    }))
}
