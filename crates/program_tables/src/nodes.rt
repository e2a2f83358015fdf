// The nodes of an enum's methods.

ghost use Rattle.std.specs.Prelude.{◌≡◌, ◌+◌, IfOk};
ghost use Rattle.class_typing.specs.Enums.{first_constant};
ghost use Rattle.je_core.specs.View.{stmt_view, stmt_views, view, views};
ghost use Rattle.je_fitting.specs.Types.{int as the_int};
ghost use Rattle.program_tables.specs.way.Words.{all_constants, array_of, body_of, both_kept, constant_in, constants_of, field_of, kept_in, returning_of, ty_of};

use fit_parts::{class_type, of as type_of, string};
use je_ast::Identifier;
use je_base::{Memory, Names, Span};
use je_core::{
    Base, ClassId, Expr, Mark, Stmt, Ty, make_array_of, make_assign, make_block, make_do,
    make_field, make_local, make_return, make_static, make_this,
};
use std::alloc::Global;
use std::rc::Rc;

/// An enum of a program with these names.
#[derive(Clone, Copy)]
pub struct EnumClass<'a> {
    pub names: &'a Names,
    pub class: ClassId,
    /// The span of its name, which the code of its methods has.
    pub span: Span,
    /// In the order in which they are written.
    pub constants: &'a [Identifier],
}

/// The hidden field with the name of a constant.
pub const NAME_PLACE: u32 = 0;
/// The hidden field with the place of a constant.
pub const ORDINAL_PLACE: u32 = 1;
// Behind them stand the constants.
const FIRST_CONSTANT: u32 = 2;

/// `int`.
pub fn int() -> Ty
    ensures { result ≡ the_int }
{
    type_of(Base::Int)
}

/// The type of its constants.
pub fn enum_ty(of: EnumClass) -> Ty
    ensures { result ≡ ty_of of.entry }
{
    class_type(of.class)
}

/// The type of arrays of its constants.
pub fn array_ty(of: EnumClass) -> Ty
    ensures { result ≡ array_of of.entry }
{
    Ty {
        base: Base::Class(of.class),
        dims: 1,
    }
}

/// The mark of a node to which a rule points by its whole span.
pub fn mark(ty: Ty, span: Span) -> Mark
    ensures { result ≡ record { ty = ty; span = span; at = span } }
{
    Mark { ty, span, at: span }
}

// A field of this one.
fn own_field(alloc: Global, of: EnumClass, at: u32, ty: Ty) -> Result<Expr, Memory>
    ensures { IfOk result (λ e. view e ≡ field_of of.entry at ty) }
{
    let object = make_this(mark(enum_ty(of), of.span));
    make_field(alloc, mark(ty, of.span), object, of.class, at)
}

// The constructor's parameter at a place, kept in the field there.
fn kept(alloc: Global, of: EnumClass, at: u32, ty: Ty) -> Result<Stmt, Memory>
    ensures { IfOk result (λ s. stmt_view s ≡ kept_in of.entry at ty) }
{
    let field = own_field(alloc, of, at, ty)?;
    let value = make_local(mark(ty, of.span), at);
    let assignment = make_assign(alloc, mark(ty, of.span), field, value)?;
    make_do(alloc, of.span, of.span, assignment)
}

// The block of a body.
fn enum_body(alloc: Global, of: EnumClass, parts: Vec<Rc<Stmt>>) -> Stmt
    ensures { stmt_view result ≡ body_of of.entry (stmt_views parts.items) }
{
    make_block(of.span, of.span, Vec::new(alloc), parts)
}

/// The body of the constructor, which keeps the name and the place of a constant.
pub fn keeping(alloc: Global, of: EnumClass) -> Result<Stmt, Memory>
    ensures { IfOk result (λ s. stmt_view s ≡ both_kept of.entry) }
{
    let name = kept(alloc, of, NAME_PLACE, string())?;
    let place = kept(alloc, of, ORDINAL_PLACE, int())?;
    let mut parts = Vec::new(alloc);
    parts.push(Rc::new(alloc, name)?)?;
    parts.push(Rc::new(alloc, place)?)?;
    Ok(enum_body(alloc, of, parts))
}

// A body that returns a value.
fn returning(alloc: Global, of: EnumClass, value: Expr) -> Result<Stmt, Memory>
    ensures { IfOk result (λ s. stmt_view s ≡ returning_of of.entry (view value)) }
{
    let statement = make_return(alloc, of.span, of.span, Some(value))?;
    let mut parts = Vec::new(alloc);
    parts.push(Rc::new(alloc, statement)?)?;
    Ok(enum_body(alloc, of, parts))
}

/// A body that returns the value of a field of this one.
pub fn returning_field(alloc: Global, of: EnumClass, at: u32, ty: Ty) -> Result<Stmt, Memory>
    ensures { IfOk result (λ s. stmt_view s ≡ returning_of of.entry (field_of of.entry at ty)) }
{
    let field = own_field(alloc, of, at, ty)?;
    let body = returning(alloc, of, field)?;
    Ok(body)
}

// The number of the field with the constant at a place. No memory holds more constants than a number can name.
fn constant_field(at: usize) -> Result<u32, Memory>
    ensures { IfOk result (λ n. n ≡ first_constant + at) }
{
    match u32::try_from(at) {
        Ok(at) if at <= u32::MAX - FIRST_CONSTANT => Ok(FIRST_CONSTANT + at),
        _ => Err(Memory),
    }
}

/// The static field with the constant at a place.
pub fn constant_at(alloc: Global, of: EnumClass, at: usize, span: Span) -> Result<Expr, Memory>
    ensures { IfOk result (λ e. view e ≡ constant_in of.entry at span) }
{
    let field = constant_field(at)?;
    make_static(alloc, mark(enum_ty(of), span), None, of.class, field)
}

// The constants in order.
fn constants(alloc: Global, of: EnumClass) -> Result<Vec<Rc<Expr>>, Memory>
    ensures { IfOk result (λ values. views values.items ≡
        constants_of of.entry 0 of.entry.constants.now) }
{
    let mut values = Vec::new(alloc);
    for (at, _) in of.constants.iter().enumerate() {
        let value = constant_at(alloc, of, at, of.span)?;
        values.push(Rc::new(alloc, value)?)?;
    }
    Ok(values)
}

/// A body that returns a new array of the constants.
pub fn returning_constants(alloc: Global, of: EnumClass) -> Result<Stmt, Memory>
    ensures { IfOk result (λ s. stmt_view s ≡ returning_of of.entry (all_constants of.entry)) }
{
    let values = constants(alloc, of)?;
    let array = make_array_of(mark(array_ty(of), of.span), values);
    let body = returning(alloc, of, array)?;
    Ok(body)
}
