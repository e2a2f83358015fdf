// The conditional operator `? :` (JLS 15.25).

ghost use Rattle.std.specs.Prelude.{◌≡◌, List, IfOk, IfErr, is_some, option_map, true};
ghost use Rattle.je_core.specs.declared.expr.Use.{Use as TheUse};
ghost use Rattle.je_core.specs.Making.{Makes};
ghost use Rattle.je_core.specs.View.{view};
ghost use Rattle.je_typing.specs.Answers.{IsFault};
ghost use Rattle.je_typing.specs.Conditionals.{choice as the_choice, choice_form as the_choice_form, choice_node as the_choice_node, choice_type as the_choice_type, choice_uses as the_choice_uses, constant_form as the_constant_form, is_byte_or_short as the_is_byte_or_short, number_choice as the_number_choice, primitive_choice as the_primitive_choice, reference_choice as the_reference_choice, takes_constant as the_takes_constant, is_int_base as the_is_int_base};
ghost use Rattle.je_typing.specs.declared.fault.TypeRule.TheVariants.{BadOperand};
ghost use Rattle.je_typing.specs.Judged.{gives, need as the_need};
ghost use Rattle.je_typing.specs.Typed.{is_primitive_base, primitive_type};
ghost use Rattle.name_types.specs.View.{shown};
ghost use Rattle.operator_steps.specs.way.ConditionalTypes.{judged_type as the_judged_type};
ghost use Rattle.operator_steps.specs.way.Choosing.{chosen_of, marked_if, truth_in};
ghost use Rattle.source_subtypes.specs.View.{heads_of};
ghost use Rattle.typed_nodes.specs.Seen.{seen};
ghost use Rattle.typed_nodes.specs.way.Kept.{kept_option};

use conversion_steps::{is_same_base, narrows_to};
use folded_nodes::{constant_text, constant_value, converted_if, joined_uses, put_uses, value_in};
use je_base::{Memory, Span};
use je_core::{Base, Expr, Mark, Use, Value, make_choose, make_const, make_text};
use je_typing::{Refusal, TypeRule, check};
use name_types::SrcTy;
use source_subtypes::{ClassHeads, copied, erased, is_subtype};
use std::alloc::Global;
use text_members::copied as copied_text;
use typed_nodes::{
    TypedExpr, is_boolean, need_type, primitive, primitive_ty, promoted_base, wider_if,
};

fn is_byte_or_short(base: Base) -> bool
    ensures { result ≡ the_is_byte_or_short base }
{
    match base {
        Base::Byte | Base::Short => true,
        _ => false,
    }
}

fn is_int_base(base: Base) -> bool
    ensures { result ≡ the_is_int_base base }
{
    match base {
        Base::Int => true,
        _ => false,
    }
}

// Whether the one type takes the other operand, an int constant that fits it.
fn takes_constant(base: Base, other: Base, value: Option<Value>) -> bool
    ensures { result ≡ the_takes_constant base other value }
{
    is_int_base(other) && narrows_to(base, value)
}

fn number_choice(
    yes: Base,
    no: Base,
    yes_value: Option<Value>,
    no_value: Option<Value>,
) -> Option<Base>
    ensures { result ≡ the_number_choice yes no yes_value no_value }
{
    if is_byte_or_short(yes) && is_byte_or_short(no) {
        return Some(Base::Short);
    }
    if takes_constant(yes, no, no_value) {
        return Some(yes);
    }
    if takes_constant(no, yes, yes_value) {
        return Some(no);
    }
    wider_if(promoted_base(yes), promoted_base(no))
}

// The type of two operands of primitive types; their values, where they are constant.
fn primitive_choice(
    yes: Base,
    no: Base,
    yes_value: Option<Value>,
    no_value: Option<Value>,
) -> Option<Base>
    ensures { result ≡ the_primitive_choice yes no yes_value no_value }
{
    if is_same_base(yes, no) {
        return Some(yes);
    }
    number_choice(yes, no, yes_value, no_value)
}

#[tactic(auto, using(crate::proofs::Choosing::is_kept))]
fn type_if(base: Option<Base>) -> Option<SrcTy>
    requires { kept_option is_primitive_base base ≡ true }
    ensures { option_map shown result ≡ option_map primitive_type base }
{
    Some(primitive_ty(base?))
}

// The one of two references of which the type is above the other's.
fn reference_choice(
    alloc: Global,
    heads: &ClassHeads,
    yes: &SrcTy,
    no: &SrcTy,
) -> Result<Option<SrcTy>, Memory>
    ensures { IfOk result (λ t. option_map shown t ≡
        the_reference_choice (heads_of heads.now) (shown yes.now) (shown no.now)) }
{
    if is_subtype(alloc, heads, yes, no)? {
        return Ok(Some(copied(alloc, no)?));
    }
    if is_subtype(alloc, heads, no, yes)? {
        return Ok(Some(copied(alloc, yes)?));
    }
    Ok(None)
}

// The type of the whole, where the operands stand beside each other.
#[tactic(auto, using(crate::proofs::Choosing::choice_is_kept))]
fn choice_type(
    alloc: Global,
    heads: &ClassHeads,
    yes: &TypedExpr,
    no: &TypedExpr,
) -> Result<Option<SrcTy>, Memory>
    ensures { IfOk result (λ t. option_map shown t ≡
        the_choice_type (heads_of heads.now) (seen yes.now) (seen no.now)) }
{
    match primitive(&yes.ty) {
        Some(base) => match primitive(&no.ty) {
            Some(other) => {
                let yes = constant_value(&yes.node);
                let no = constant_value(&no.node);
                Ok(type_if(primitive_choice(base, other, yes, no)))
            }
            None => Ok(None),
        },
        None => match primitive(&no.ty) {
            Some(_) => Ok(None),
            None => reference_choice(alloc, heads, &yes.ty, &no.ty),
        },
    }
}

fn choice_uses(alloc: Global, condition: &Expr, yes: &Expr, no: &Expr) -> Result<Vec<Use>, Memory>
    ensures { IfOk result (λ uses. uses.items ≡
        the_choice_uses (view condition.now) (view yes.now) (view no.now)) }
{
    let mut uses = joined_uses(alloc, condition, yes)?;
    put_uses(&mut uses, no)?;
    Ok(uses)
}

// A constant in the type of the whole: a primitive type, or a text where there is none.
fn constant_node(
    alloc: Global,
    mark: Mark,
    base: Option<Base>,
    node: &Expr,
    uses: Vec<Use>,
) -> Result<Option<Expr>, Memory>
    ensures { IfOk result (λ made. option_map view made ≡
        marked_if mark (the_constant_form base (view node.now) uses.items)) }
{
    match base {
        Some(base) => match value_in(base, constant_value(node)) {
            Some(value) => Ok(Some(make_const(mark, value, uses))),
            None => Ok(None),
        },
        None => match constant_text(node) {
            Some(units) => {
                let units = copied_text(alloc, units.as_slice())?;
                Ok(Some(make_text(mark, units, uses)))
            }
            None => Ok(None),
        },
    }
}

fn is_constant(base: Option<Base>, node: &Expr) -> bool
    ensures { (uses : List TheUse) → result ≡
        is_some (the_constant_form base (view node.now) uses) }
{
    match base {
        Some(base) => value_in(base, constant_value(node)).is_some(),
        None => constant_text(node).is_some(),
    }
}

fn truth(value: Option<Value>) -> Option<bool>
    ensures { result ≡ truth_in value }
{
    match value? {
        Value::Bool(truth) => Some(truth),
        _ => None,
    }
}

// Of three constants the one that is chosen.
#[tactic(auto, using(crate::proofs::Choosing::chosen))]
fn chosen_node(
    alloc: Global,
    mark: Mark,
    base: Option<Base>,
    condition: &Expr,
    yes: &Expr,
    no: &Expr,
) -> Result<Option<Expr>, Memory>
    ensures { IfOk result (λ made. option_map view made ≡ marked_if mark
        (chosen_of base (view condition.now) (view yes.now) (view no.now))) }
{
    let Some(is_yes) = truth(constant_value(condition)) else {
        return Ok(None);
    };
    if !is_constant(base, yes) {
        return Ok(None);
    }
    if !is_constant(base, no) {
        return Ok(None);
    }
    let uses = choice_uses(alloc, condition, yes, no)?;
    if is_yes {
        return constant_node(alloc, mark, base, yes, uses);
    }
    constant_node(alloc, mark, base, no, uses)
}

#[tactic(auto, using(crate::proofs::Choosing::formed))]
fn choice_node(
    alloc: Global,
    mark: Mark,
    base: Option<Base>,
    condition: Expr,
    yes: Expr,
    no: Expr,
) -> Result<Expr, Memory>
    ensures { Makes result mark (the_choice_form base (view condition) (view yes) (view no)) }
{
    match chosen_node(alloc, mark, base, &condition, &yes, &no)? {
        Some(node) => Ok(node),
        None => {
            let yes = converted_if(alloc, base, yes)?;
            let no = converted_if(alloc, base, no)?;
            make_choose(alloc, mark, condition, yes, no)
        }
    }
}

// The type of the whole, else the fault.
#[tactic(auto, using(je_typing::proofs::Walks::walks))]
fn needed_type(
    alloc: Global,
    heads: &ClassHeads,
    at: Span,
    yes: &TypedExpr,
    no: &TypedExpr,
) -> Result<SrcTy, Refusal>
    ensures ok { IfOk result (λ t. the_need BadOperand at
        (the_choice_type (heads_of heads.now) (seen yes.now) (seen no.now)) ≡ gives (shown t)) }
    ensures err { IfErr result (IsFault (the_need BadOperand at
        (the_choice_type (heads_of heads.now) (seen yes.now) (seen no.now)))) }
{
    let ty = choice_type(alloc, heads, yes, no)?;
    need_type(TypeRule::BadOperand, at, ty)
}

// The same, where the condition is one.
#[tactic(auto, unfolding(crate::specs::way::ConditionalTypes::judged_type), using(je_typing::proofs::Walks::walks))]
fn judged_type(
    alloc: Global,
    heads: &ClassHeads,
    at: Span,
    condition_span: Span,
    condition: &TypedExpr,
    yes: &TypedExpr,
    no: &TypedExpr,
) -> Result<SrcTy, Refusal>
    ensures ok { IfOk result (λ t. the_judged_type (heads_of heads.now) at condition_span
        (seen condition.now) (seen yes.now) (seen no.now) ≡ gives (shown t)) }
    ensures err { IfErr result (IsFault (the_judged_type (heads_of heads.now) at condition_span
        (seen condition.now) (seen yes.now) (seen no.now))) }
{
    let ty = needed_type(alloc, heads, at, yes, no)?;
    check(
        TypeRule::BadCondition,
        condition_span,
        is_boolean(&condition.ty),
    )?;
    Ok(ty)
}

// The whole, by its type.
fn typed_choice(
    alloc: Global,
    heads: &ClassHeads,
    ty: SrcTy,
    at: Span,
    span: Span,
    condition: Expr,
    yes: Expr,
    no: Expr,
) -> Result<TypedExpr, Memory>
    ensures { IfOk result (λ t. seen t ≡ record {
      node = the_choice_node (heads_of heads.now) (shown ty) at span (view condition) (view yes) (view no);
      type = shown ty;
    }) }
{
    let mark = Mark {
        ty: erased(heads, &ty),
        span,
        at,
    };
    let node = choice_node(alloc, mark, primitive(&ty), condition, yes, no)?;
    Ok(TypedExpr { node, ty })
}

/// `condition ? yes : no`; `at` is the `?`. The second and third operand have types that stand beside each other.
#[tactic(auto, using(je_typing::proofs::Walks::walks, crate::proofs::ConditionalTypes::choice_faults))]
pub fn choice(
    alloc: Global,
    heads: &ClassHeads,
    at: Span,
    condition_span: Span,
    span: Span,
    condition: TypedExpr,
    yes: TypedExpr,
    no: TypedExpr,
) -> Result<TypedExpr, Refusal>
    ensures ok { IfOk result (λ t. the_choice (heads_of heads.now) at condition_span span
        (seen condition) (seen yes) (seen no) ≡ gives (seen t)) }
    ensures err { IfErr result (IsFault (the_choice (heads_of heads.now) at condition_span span
        (seen condition) (seen yes) (seen no))) }
{
    let ty = judged_type(alloc, heads, at, condition_span, &condition, &yes, &no)?;
    let TypedExpr { node: first, .. } = condition;
    let TypedExpr { node: second, .. } = yes;
    let TypedExpr { node: third, .. } = no;
    let chosen = typed_choice(alloc, heads, ty, at, span, first, second, third)?;
    Ok(chosen)
}
