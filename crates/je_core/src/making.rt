// Expressions of the core program, seen as the mirror's: what typing makes them by.

ghost use Rattle.std.specs.Prelude.{◌≡◌, IfOk, None, map, option_map};
ghost use Rattle.je_core.specs.Core.{node, cores, maybe_core};
ghost use Rattle.je_core.specs.Core.{Const as ConstForm, Text as TextForm, Local as LocalForm, This as ThisForm, Field as FieldForm, Static as StaticForm, Index as IndexForm, Length as LengthForm};
ghost use Rattle.je_core.specs.Core.{Assign as AssignForm, Update as UpdateForm, Unary as UnaryForm, Binary as BinaryForm, And as AndForm, Or as OrForm, Choose as ChooseForm, Convert as ConvertForm};
ghost use Rattle.je_core.specs.Core.{Cast as CastForm, InstanceOf as InstanceOfForm, Concat as ConcatForm, CallVirtual as CallVirtualForm, CallExact as CallExactForm, New as NewForm, NewArray as NewArrayForm, ArrayOf as ArrayOfForm};
ghost use Rattle.je_core.specs.Making.{IsNode, Makes};
ghost use Rattle.je_core.specs.View.{view, form_view, views, view_if, capture_view};

use crate::expr::{BinOp, Capture, Expr, Form, UnOp, Use};
use crate::types::{ClassId, Ty};
use crate::value::Value;
use je_base::{Memory, Span, Units};
use std::alloc::Global;
use std::rc::Rc;

/// What every node carries beside its form: its erased type, its span, and the token that a rule points to.
#[derive(Clone, Copy, PartialEq, Eq)]
pub struct Mark {
    pub ty: Ty,
    pub span: Span,
    pub at: Span,
}

// A node of a form.
#[tactic(auto, using(crate::proofs::Views::view_is))]
fn expr(mark: Mark, form: Form) -> Expr
    ensures { IsNode result mark (form_view form) }
{
    Expr {
        form,
        ty: mark.ty,
        span: mark.span,
        at: mark.at,
    }
}

// A part that may be absent.
pub fn part_if(alloc: Global, e: Option<Expr>) -> Result<Option<Rc<Expr>>, Memory>
    ensures { IfOk result (λ r. view_if r ≡ option_map view e) }
{
    match e {
        None => Ok(None),
        Some(e) => Ok(Some(Rc::new(alloc, e)?)),
    }
}

/// A constant expression that is no text.
pub fn make_const(mark: Mark, value: Value, uses: Vec<Use>) -> Expr
    ensures { IsNode result mark (ConstForm value uses.items) }
{
    let form = Form::Const { value, uses };
    expr(mark, form)
}

/// A constant expression that is a text.
pub fn make_text(mark: Mark, units: Units, uses: Vec<Use>) -> Expr
    ensures { IsNode result mark (TextForm units uses.items) }
{
    let form = Form::Text { units, uses };
    expr(mark, form)
}

/// A local.
pub fn make_local(mark: Mark, local: u32) -> Expr
    ensures { IsNode result mark (LocalForm local) }
{
    let form = Form::Local { local };
    expr(mark, form)
}

/// `this`
pub fn make_this(mark: Mark) -> Expr
    ensures { IsNode result mark ThisForm }
{
    let form = Form::This;
    expr(mark, form)
}

/// A field of an object.
pub fn make_field(
    alloc: Global,
    mark: Mark,
    object: Expr,
    class: ClassId,
    field: u32,
) -> Result<Expr, Memory>
    ensures { Makes result mark (FieldForm (view object) class field) }
{
    let object = Rc::new(alloc, object)?;
    let form = Form::Field {
        object,
        class,
        field,
    };
    Ok(expr(mark, form))
}

/// A static field, selected from an expression where there is an object.
pub fn make_static(
    alloc: Global,
    mark: Mark,
    object: Option<Expr>,
    class: ClassId,
    field: u32,
) -> Result<Expr, Memory>
    ensures { Makes result mark (StaticForm (maybe_core (option_map view object)) class field) }
{
    let object = part_if(alloc, object)?;
    let form = Form::Static {
        object,
        class,
        field,
    };
    Ok(expr(mark, form))
}

/// An element of an array.
pub fn make_index(alloc: Global, mark: Mark, array: Expr, index: Expr) -> Result<Expr, Memory>
    ensures { Makes result mark (IndexForm (view array) (view index)) }
{
    let array = Rc::new(alloc, array)?;
    let index = Rc::new(alloc, index)?;
    let form = Form::Index { array, index };
    Ok(expr(mark, form))
}

/// The length of an array.
pub fn make_length(alloc: Global, mark: Mark, array: Expr) -> Result<Expr, Memory>
    ensures { Makes result mark (LengthForm (view array)) }
{
    let array = Rc::new(alloc, array)?;
    let form = Form::Length { array };
    Ok(expr(mark, form))
}

/// An assignment to a place.
pub fn make_assign(alloc: Global, mark: Mark, place: Expr, value: Expr) -> Result<Expr, Memory>
    ensures { Makes result mark (AssignForm (view place) (view value)) }
{
    let place = Rc::new(alloc, place)?;
    let value = Rc::new(alloc, value)?;
    let form = Form::Assign { place, value };
    Ok(expr(mark, form))
}

/// A compound assignment to a place, and `++` and `--`, which have no operand.
pub fn make_update(
    alloc: Global,
    mark: Mark,
    place: Expr,
    op: BinOp,
    operand: Option<Expr>,
    gives_old: bool,
) -> Result<Expr, Memory>
    ensures { Makes result mark (UpdateForm (view place) op
        (maybe_core (option_map view operand)) gives_old) }
{
    let place = Rc::new(alloc, place)?;
    let operand = part_if(alloc, operand)?;
    let form = Form::Update {
        place,
        op,
        operand,
        gives_old,
    };
    Ok(expr(mark, form))
}

/// An operator on one operand.
pub fn make_unary(alloc: Global, mark: Mark, op: UnOp, operand: Expr) -> Result<Expr, Memory>
    ensures { Makes result mark (UnaryForm op (view operand)) }
{
    let operand = Rc::new(alloc, operand)?;
    let form = Form::Unary { op, operand };
    Ok(expr(mark, form))
}

/// An operator on two operands.
pub fn make_binary(
    alloc: Global,
    mark: Mark,
    op: BinOp,
    left: Expr,
    right: Expr,
) -> Result<Expr, Memory>
    ensures { Makes result mark (BinaryForm op (view left) (view right)) }
{
    let left = Rc::new(alloc, left)?;
    let right = Rc::new(alloc, right)?;
    let form = Form::Binary { op, left, right };
    Ok(expr(mark, form))
}

/// `left && right`
pub fn make_and(alloc: Global, mark: Mark, left: Expr, right: Expr) -> Result<Expr, Memory>
    ensures { Makes result mark (AndForm (view left) (view right)) }
{
    let left = Rc::new(alloc, left)?;
    let right = Rc::new(alloc, right)?;
    let form = Form::And { left, right };
    Ok(expr(mark, form))
}

/// `left || right`
pub fn make_or(alloc: Global, mark: Mark, left: Expr, right: Expr) -> Result<Expr, Memory>
    ensures { Makes result mark (OrForm (view left) (view right)) }
{
    let left = Rc::new(alloc, left)?;
    let right = Rc::new(alloc, right)?;
    let form = Form::Or { left, right };
    Ok(expr(mark, form))
}

/// `condition ? yes : no`
pub fn make_choose(
    alloc: Global,
    mark: Mark,
    condition: Expr,
    yes: Expr,
    no: Expr,
) -> Result<Expr, Memory>
    ensures { Makes result mark (ChooseForm (view condition) (view yes) (view no)) }
{
    let condition = Rc::new(alloc, condition)?;
    let yes = Rc::new(alloc, yes)?;
    let no = Rc::new(alloc, no)?;
    let form = Form::Choose { condition, yes, no };
    Ok(expr(mark, form))
}

/// A conversion of a number or char to the mark's type.
pub fn make_convert(alloc: Global, mark: Mark, operand: Expr) -> Result<Expr, Memory>
    ensures { Makes result mark (ConvertForm (view operand)) }
{
    let operand = Rc::new(alloc, operand)?;
    let form = Form::Convert { operand };
    Ok(expr(mark, form))
}

/// A cast of a reference to the mark's type.
pub fn make_cast(alloc: Global, mark: Mark, operand: Expr) -> Result<Expr, Memory>
    ensures { Makes result mark (CastForm (view operand)) }
{
    let operand = Rc::new(alloc, operand)?;
    let form = Form::Cast { operand };
    Ok(expr(mark, form))
}

/// `operand instanceof of`
pub fn make_instance_of(alloc: Global, mark: Mark, operand: Expr, of: Ty) -> Result<Expr, Memory>
    ensures { Makes result mark (InstanceOfForm (view operand) of) }
{
    let operand = Rc::new(alloc, operand)?;
    let form = Form::InstanceOf { operand, of };
    Ok(expr(mark, form))
}

/// Two values' texts, one behind the other.
pub fn make_concat(alloc: Global, mark: Mark, left: Expr, right: Expr) -> Result<Expr, Memory>
    ensures { Makes result mark (ConcatForm (view left) (view right)) }
{
    let left = Rc::new(alloc, left)?;
    let right = Rc::new(alloc, right)?;
    let form = Form::Concat { left, right };
    Ok(expr(mark, form))
}

/// A call of the method that the receiver's class has for a method.
pub fn make_call_virtual(
    alloc: Global,
    mark: Mark,
    receiver: Expr,
    class: ClassId,
    method: u32,
    args: Vec<Rc<Expr>>,
) -> Result<Expr, Memory>
    ensures { Makes result mark (CallVirtualForm (view receiver) class method
        (cores (views args.items))) }
{
    let receiver = Rc::new(alloc, receiver)?;
    let form = Form::CallVirtual {
        receiver,
        class,
        method,
        args,
    };
    Ok(expr(mark, form))
}

/// A call of a static method that is selected from no expression.
pub fn make_static_call(mark: Mark, class: ClassId, method: u32, args: Vec<Rc<Expr>>) -> Expr
    ensures { IsNode result mark (CallExactForm (maybe_core None) class method
        (cores (views args.items))) }
{
    let form = Form::CallExact {
        receiver: None,
        class,
        method,
        args,
    };
    expr(mark, form)
}

/// A call of a method itself.
pub fn make_call_exact(
    alloc: Global,
    mark: Mark,
    receiver: Option<Expr>,
    class: ClassId,
    method: u32,
    args: Vec<Rc<Expr>>,
) -> Result<Expr, Memory>
    ensures { Makes result mark (CallExactForm (maybe_core (option_map view receiver)) class method
        (cores (views args.items))) }
{
    let receiver = part_if(alloc, receiver)?;
    let form = Form::CallExact {
        receiver,
        class,
        method,
        args,
    };
    Ok(expr(mark, form))
}

/// A new instance, its constructor's arguments, what its hidden fields begin with, and the span of the word `new`.
pub fn make_new(
    mark: Mark,
    class: ClassId,
    method: u32,
    args: Vec<Rc<Expr>>,
    captures: Vec<Capture>,
    word: Span,
) -> Expr
    ensures { IsNode result mark (NewForm class method (cores (views args.items))
        (map capture_view captures.items) word) }
{
    let form = Form::New {
        class,
        method,
        args,
        captures,
        word,
    };
    expr(mark, form)
}

/// A new array of the mark's type with these lengths.
pub fn make_new_array(mark: Mark, lengths: Vec<Rc<Expr>>) -> Expr
    ensures { IsNode result mark (NewArrayForm (cores (views lengths.items))) }
{
    let form = Form::NewArray { lengths };
    expr(mark, form)
}

/// A new array of the mark's type with these elements.
pub fn make_array_of(mark: Mark, values: Vec<Rc<Expr>>) -> Expr
    ensures { IsNode result mark (ArrayOfForm (cores (views values.items))) }
{
    let form = Form::ArrayOf { values };
    expr(mark, form)
}
