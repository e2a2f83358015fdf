// What a node asks of its parts beside that each of them fits.

ghost use Rattle.std.specs.Prelude.{◌≡◌, ◌&&◌, ◌||◌, not, nat_eq, nat_lt, nat_le, IfOk, length, map, slice_get};
ghost use Rattle.std.specs.List.{list_all};
ghost use Rattle.je_core.specs.Core.{cores, list_of, ty_of, form_of, maybe_core};
ghost use Rattle.je_core.specs.View.{view, views, view_if, form_view, capture_view, class_view, program_view};
ghost use Rattle.je_classes.specs.Hierarchy.{class_at};
ghost use Rattle.je_classes.specs.Subtypes.{class_type as the_class_type, array_of, same_type as the_same_type, is_reference as the_is_reference, is_subtype as the_is_subtype};
ghost use Rattle.je_fitting.specs.Types.{bool as the_bool, int as the_int, string as the_string, is_bool as the_is_bool, is_int as the_is_int, is_number as the_is_number, agrees as the_agrees, is_variable_type as the_is_variable_type, type_of_value as the_type_of_value, types_of};
ghost use Rattle.je_fitting.specs.Operators.{sort_of, takes as the_takes, gives as the_gives, takes_one as the_takes_one, joins as the_joins};
ghost use Rattle.je_fitting.specs.Expressions.{field_at as the_field_at, method_at as the_method_at, can_be_made as the_can_be_made, is_this as the_is_this};
ghost use Rattle.je_fitting.specs.way.Deciding.{gives_type as the_gives_type, is_static_as as the_is_static_as, is_field as the_is_field, is_open as the_is_open, can_be_made_in, element_of as the_element_of, uses_there as the_uses_there, stands_once as the_stands_once, is_virtual as the_is_virtual, is_exact as the_is_exact, is_made_by as the_is_made_by, is_place as the_is_place, is_there_core, captures_fit as the_captures_fit};

use class_members::{field_at, method_at, same_class, same_type};
use fit_parts::{
    Body, agrees, all_agree, all_agree_with, all_ints, builds, captures_fit, class_type, gives,
    is_bool, is_constructor, is_int, is_number, is_reference, is_variable_type, joins, local_type,
    of, stands_once, starts, string, takes, takes_one, type_of, type_of_value, uses_there,
};
use je_classes::is_subtype;
use je_core::{
    Base, BinOp, Capture, Class, ClassId, Expr, Form, Memory, Program, Sort, Ty, UnOp, Units, Use,
    Value,
};
use std::alloc::Global;
use std::rc::Rc;

// Whether there is a type, and it is this one.
fn gives_type(found: Option<Ty>, ty: Ty) -> bool
    ensures { result ≡ the_gives_type found ty }
{
    match found {
        None => false,
        Some(found) => same_type(found, ty),
    }
}

/// Of a constant that is no text.
pub fn constant_fits(program: &Program, value: Value, uses: &[Use], ty: Ty) -> bool
    ensures { result ≡ (the_gives_type (the_type_of_value value) ty &&
        the_uses_there (program_view program.now) uses.now) }
{
    gives_type(type_of_value(value), ty) && uses_there(program, uses)
}

/// Of a constant that is a text.
pub fn text_fits(program: &Program, units: &Units, uses: &[Use], ty: Ty) -> bool
    ensures { result ≡ (the_same_type the_string ty &&
        the_stands_once (program_view program.now) units.now &&
        the_uses_there (program_view program.now) uses.now) }
{
    same_type(string(), ty) && stands_once(program, units) && uses_there(program, uses)
}

/// Of a local.
pub fn local_fits(body: &Body<'_>, local: u32, ty: Ty) -> bool
    ensures { result ≡ the_gives_type (slice_get body.now.locals local) ty }
{
    gives_type(local_type(body, local), ty)
}

/// Of `this`.
pub fn this_fits(body: &Body<'_>, ty: Ty) -> bool
    ensures { result ≡ (not body.now.is_static
        && the_same_type (the_class_type body.now.class) ty) }
{
    !body.is_static && same_type(class_type(body.class), ty)
}

fn is_static_as(expected: bool, is_static: bool) -> bool
    ensures { result ≡ the_is_static_as expected is_static }
{
    if expected { is_static } else { !is_static }
}

/// Of a field of a class: whether it is there, static or not, and of this type.
pub fn field_fits(program: &Program, is_static: bool, class: ClassId, at: u32, ty: Ty) -> bool
    ensures { result ≡ the_is_field is_static
        (the_field_at (program_view program.now) class at) ty }
{
    match field_at(program, class, at as usize) {
        None => false,
        Some(field) => is_static_as(is_static, field.is_static) && same_type(field.ty, ty),
    }
}

/// Whether an object may stand before a member of a class.
pub fn is_received(
    alloc: Global,
    program: &Program,
    object: &Expr,
    class: ClassId,
) -> Result<bool, Memory>
    ensures { IfOk result (λ received. received ≡ the_is_subtype (program_view program.now)
        (ty_of (view object.now)) (the_class_type class)) }
{
    is_subtype(alloc, program, type_of(object), class_type(class))
}

/// Whether an array's elements are of this type.
pub fn is_array_of(array: &Expr, ty: Ty) -> bool
    ensures { result ≡ the_same_type (ty_of (view array.now)) (array_of ty) }
{
    let array = type_of(array);
    array.dims > 0 && array.dims - 1 == ty.dims && array.base == ty.base
}

/// Of an array's length.
pub fn length_fits(array: &Expr, ty: Ty) -> bool
    ensures { result ≡ (nat_lt 0 (ty_of (view array.now)).dims && the_same_type the_int ty) }
{
    type_of(array).dims > 0 && same_type(of(Base::Int), ty)
}

/// Whether an expression is `this`.
#[tactic(auto, using(je_core::proofs::Views::view_is))]
pub fn is_this(e: &Expr) -> bool
    ensures { result ≡ the_is_this (view e.now) }
{
    match e.form {
        Form::This => true,
        _ => false,
    }
}

// Whether a field is there and not final.
fn is_open(program: &Program, class: ClassId, at: u32) -> bool
    ensures { result ≡ the_is_open (the_field_at (program_view program.now) class at) }
{
    match field_at(program, class, at as usize) {
        None => false,
        Some(field) => !field.is_final,
    }
}

// Whether an expression of a form may be assigned to where it stands.
fn is_place_form(program: &Program, body: &Body<'_>, form: &Form) -> bool
    ensures { result ≡ the_is_place (program_view program.now) body.now (form_view form.now) }
{
    match form {
        Form::Local { .. } | Form::Index { .. } => true,
        Form::Field {
            object,
            class,
            field,
        } => {
            is_open(program, *class, *field)
                || (is_this(object) && builds(body.code) && same_class(*class, body.class))
        }
        Form::Static { class, field, .. } => {
            is_open(program, *class, *field)
                || (starts(body.code) && same_class(*class, body.class))
        }
        _ => false,
    }
}

/// Whether an expression may be assigned to where it stands.
#[tactic(auto, using(je_core::proofs::Views::form_of_view))]
pub fn is_place(program: &Program, body: &Body<'_>, place: &Expr) -> bool
    ensures { result ≡ the_is_place (program_view program.now) body.now (form_of (view place.now)) }
{
    is_place_form(program, body, &place.form)
}

/// Of an assignment: the value goes to its type, and that to the place.
pub fn assignment_fits(
    alloc: Global,
    program: &Program,
    place: &Expr,
    value: &Expr,
    ty: Ty,
) -> Result<bool, Memory>
    ensures { IfOk result (λ fits. fits ≡
        (the_agrees (program_view program.now) (ty_of (view value.now)) ty &&
        the_agrees (program_view program.now) ty (ty_of (view place.now)))) }
{
    if !agrees(alloc, program, type_of(value), ty)? {
        return Ok(false);
    }
    agrees(alloc, program, ty, type_of(place))
}

/// Of a unary operator.
pub fn unary_fits(op: UnOp, operand: &Expr, ty: Ty) -> bool
    ensures { result ≡ (the_takes_one op (ty_of (view operand.now)) &&
        the_same_type (ty_of (view operand.now)) ty) }
{
    takes_one(op, type_of(operand)) && same_type(type_of(operand), ty)
}

/// Of a binary operator.
pub fn binary_fits(op: BinOp, left: &Expr, right: &Expr, ty: Ty) -> bool
    ensures { result ≡ (the_takes (sort_of op) (ty_of (view left.now)) (ty_of (view right.now)) &&
        the_same_type (the_gives (sort_of op) (ty_of (view left.now))) ty) }
{
    takes(op, type_of(left), type_of(right)) && same_type(gives(op, type_of(left)), ty)
}

/// Of `&&` and `||`.
pub fn logic_fits(left: &Expr, right: &Expr, ty: Ty) -> bool
    ensures { result ≡ (the_is_bool (ty_of (view left.now))
        && the_is_bool (ty_of (view right.now)) &&
        the_same_type the_bool ty) }
{
    is_bool(type_of(left)) && is_bool(type_of(right)) && same_type(of(Base::Bool), ty)
}

/// Of `?:`: one of the two has its type.
pub fn choice_fits(yes: &Expr, no: &Expr, ty: Ty) -> bool
    ensures { result ≡ (the_same_type (ty_of (view yes.now)) ty
        || the_same_type (ty_of (view no.now)) ty) }
{
    same_type(type_of(yes), ty) || same_type(type_of(no), ty)
}

/// Of a conversion between two numeric types.
pub fn conversion_fits(operand: &Expr, ty: Ty) -> bool
    ensures { result ≡ (the_is_number (ty_of (view operand.now)) && the_is_number ty &&
        not (the_same_type (ty_of (view operand.now)) ty)) }
{
    is_number(type_of(operand)) && is_number(ty) && !same_type(type_of(operand), ty)
}

/// Of a cast, and what `instanceof` asks of its type.
pub fn cast_fits(program: &Program, operand: &Expr, to: Ty) -> bool
    ensures { result ≡ (the_is_reference (ty_of (view operand.now)) && the_is_reference to &&
        the_is_variable_type (program_view program.now) to) }
{
    is_reference(type_of(operand)) && is_reference(to) && is_variable_type(program, to)
}

/// Of a text's `+`.
pub fn concat_fits(left: &Expr, right: &Expr, ty: Ty) -> bool
    ensures { result ≡ (the_joins (ty_of (view left.now)) (ty_of (view right.now)) &&
        the_same_type the_string ty) }
{
    joins(type_of(left), type_of(right)) && same_type(string(), ty)
}

/// Of a method that is called on an object.
pub fn virtual_fits(
    alloc: Global,
    program: &Program,
    class: ClassId,
    at: u32,
    args: &[Rc<Expr>],
    ty: Ty,
) -> Result<bool, Memory>
    ensures { IfOk result (λ fits. fits ≡ the_is_virtual (program_view program.now)
        (the_method_at (program_view program.now) class at)
        (types_of (list_of (cores (views args.now)))) ty) }
{
    let Some(method) = method_at(program, class, at as usize) else {
        return Ok(false);
    };
    if method.flags.is_static || is_constructor(program, method) {
        return Ok(false);
    }
    if !all_agree(alloc, program, args, &method.params)? {
        return Ok(false);
    }
    Ok(same_type(method.returns, ty))
}

/// Of a method that is called as it stands, with a receiver or without.
pub fn exact_fits(
    alloc: Global,
    program: &Program,
    is_received: bool,
    class: ClassId,
    at: u32,
    args: &[Rc<Expr>],
    ty: Ty,
) -> Result<bool, Memory>
    ensures { IfOk result (λ fits. fits ≡ the_is_exact (program_view program.now) is_received
        (the_method_at (program_view program.now) class at)
        (types_of (list_of (cores (views args.now)))) ty) }
{
    let Some(method) = method_at(program, class, at as usize) else {
        return Ok(false);
    };
    if !(is_received || method.flags.is_static) {
        return Ok(false);
    }
    if method.flags.is_abstract || is_constructor(program, method) {
        return Ok(false);
    }
    if !all_agree(alloc, program, args, &method.params)? {
        return Ok(false);
    }
    Ok(same_type(method.returns, ty))
}

/// Whether there is a receiver.
pub fn has_receiver(receiver: &Option<Rc<Expr>>) -> bool
    ensures { result ≡ is_there_core (maybe_core (view_if receiver.now)) }
{
    match receiver {
        None => false,
        Some(_) => true,
    }
}

/// Whether a method is a constructor that takes these arguments.
pub fn is_made_by(
    alloc: Global,
    program: &Program,
    class: ClassId,
    at: u32,
    args: &[Rc<Expr>],
) -> Result<bool, Memory>
    ensures { IfOk result (λ made. made ≡ the_is_made_by (program_view program.now)
        (the_method_at (program_view program.now) class at)
        (types_of (list_of (cores (views args.now))))) }
{
    let Some(method) = method_at(program, class, at as usize) else {
        return Ok(false);
    };
    if !is_constructor(program, method) {
        return Ok(false);
    }
    all_agree(alloc, program, args, &method.params)
}

/// Whether a class is neither abstract nor an interface.
pub fn is_concrete(class: &Class) -> bool
    ensures { result ≡ the_can_be_made (class_view class.now) }
{
    match class.kind.sort {
        Sort::Interface => false,
        _ => !class.kind.is_abstract,
    }
}

/// Whether there are instances of a class itself.
pub fn can_be_made(program: &Program, class: ClassId) -> bool
    ensures { result ≡ can_be_made_in (class_at (program_view program.now) class) }
{
    match program.class(class) {
        None => false,
        Some(class) => is_concrete(class),
    }
}

/// Of a new instance: the class and its constructor.
pub fn maker_fits(
    alloc: Global,
    program: &Program,
    class: ClassId,
    at: u32,
    args: &[Rc<Expr>],
) -> Result<bool, Memory>
    ensures { IfOk result
        (λ fits. fits ≡ (can_be_made_in (class_at (program_view program.now) class) &&
        the_is_made_by (program_view program.now)
        (the_method_at (program_view program.now) class at)
        (types_of (list_of (cores (views args.now)))))) }
{
    if !can_be_made(program, class) {
        return Ok(false);
    }
    is_made_by(alloc, program, class, at, args)
}

/// Of a new instance: what its hidden fields begin with, and its type.
pub fn instance_fits(
    alloc: Global,
    program: &Program,
    body: &Body<'_>,
    class: ClassId,
    captures: &[Capture],
    ty: Ty,
) -> Result<bool, Memory>
    ensures { IfOk result
        (λ fits. fits ≡ (the_captures_fit (program_view program.now) body.now class
        (map capture_view captures.now) && the_same_type (the_class_type class) ty)) }
{
    if !captures_fit(alloc, program, body, class, captures)? {
        return Ok(false);
    }
    Ok(same_type(class_type(class), ty))
}

/// Of a new array with these lengths.
#[tactic(auto, using(crate::proofs::Lengths::lengths))]
pub fn new_array_fits(program: &Program, lengths: &[Rc<Expr>], ty: Ty) -> bool
    ensures { result ≡ (list_all the_is_int (types_of (list_of (cores (views lengths.now)))) &&
        nat_le 1 (length (list_of (cores (views lengths.now)))) &&
        nat_le (length (list_of (cores (views lengths.now)))) ty.dims &&
        the_is_variable_type (program_view program.now) ty) }
{
    all_ints(lengths)
        && 1 <= lengths.len()
        && lengths.len() <= ty.dims as usize
        && is_variable_type(program, ty)
}

// The type of an array's elements.
#[tactic(auto, using(crate::proofs::Lengths::pred_is))]
fn element_of(ty: Ty) -> Ty
    ensures { result ≡ the_element_of ty }
{
    Ty {
        base: ty.base,
        dims: ty.dims.saturating_sub(1),
    }
}

/// Of a new array of these elements.
pub fn array_of_fits(
    alloc: Global,
    program: &Program,
    values: &[Rc<Expr>],
    ty: Ty,
) -> Result<bool, Memory>
    ensures { IfOk result (λ fits. fits ≡ (nat_lt 0 ty.dims &&
        list_all (λ v. the_agrees (program_view program.now) v (the_element_of ty))
        (types_of (list_of (cores (views values.now)))) &&
        the_is_variable_type (program_view program.now) (the_element_of ty))) }
{
    if ty.dims == 0 {
        return Ok(false);
    }
    let element = element_of(ty);
    if !all_agree_with(alloc, program, values, element)? {
        return Ok(false);
    }
    Ok(is_variable_type(program, element))
}
