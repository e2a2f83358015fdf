// The code of an enum's constructor and methods.

ghost use Rattle.std.specs.Prelude.{◌≡◌, [], IfOk, map};
ghost use Rattle.class_typing.specs.Enums.{enum_code as the_enum_code, flags as the_flags};
ghost use Rattle.je_core.specs.View.{method_view, stmt_view};
ghost use Rattle.je_core.specs.declared.program.Access.TheVariants as access;
ghost use Rattle.library_classes.specs.Numbers.{number_in};
ghost use Rattle.program_tables.specs.way.Words.{constructor as the_constructor, method_of, parameter_of};

use crate::declared::flags;
use crate::nodes::{
    EnumClass, NAME_PLACE, ORDINAL_PLACE, array_ty, int, keeping, returning_constants,
    returning_field,
};
use fit_parts::{of as type_of, string};
use je_base::Memory;
use je_core::{Access, Base, Local, Method, Stmt, Ty};
use std::alloc::Global;
use std::rc::Rc;
use word_numbers::number;

fn parameter(of: EnumClass, ty: Ty) -> Local
    ensures { result ≡ parameter_of of.entry ty }
{
    Local {
        name: number(of.names, ""),
        ty,
        is_final: false,
        span: of.span,
    }
}

// A method without parameters.
fn plain_method(
    alloc: Global,
    of: EnumClass,
    word: &str,
    returns: Ty,
    is_static: bool,
    body: Stmt,
) -> Result<Method, Memory>
    ensures { IfOk result (λ m. method_view m ≡ method_of of.entry word.now [] returns
        (the_flags access.Public is_static) [] (stmt_view body)) }
{
    Ok(Method {
        name: number(of.names, word),
        span: of.span,
        params: Vec::new(alloc),
        returns,
        flags: flags(Access::Public, is_static),
        throws: Vec::new(alloc),
        locals: Vec::new(alloc),
        body: Some(Rc::new(alloc, body)?),
    })
}

// Its constructor, which no source calls.
fn constructor(alloc: Global, of: EnumClass) -> Result<Method, Memory>
    ensures { IfOk result (λ m. method_view m ≡ the_constructor of.entry) }
{
    let mut params = Vec::new(alloc);
    params.push(string())?;
    params.push(int())?;
    let mut locals = Vec::new(alloc);
    locals.push(parameter(of, string()))?;
    locals.push(parameter(of, int()))?;
    let body = keeping(alloc, of)?;
    Ok(Method {
        name: number(of.names, "new"),
        span: of.span,
        params,
        returns: type_of(Base::Void),
        flags: flags(Access::Private, false),
        throws: Vec::new(alloc),
        locals,
        body: Some(Rc::new(alloc, body)?),
    })
}

/// The code of the constructor and the methods that an enum has without words of its own: `name`, `toString`, `ordinal`
/// and `values`.
pub fn enum_code(alloc: Global, of: EnumClass) -> Result<Vec<Method>, Memory>
    ensures { IfOk result (λ methods. map method_view methods.items ≡
        the_enum_code (number_in of.entry.names.now) of.entry.names.now of.entry.class.0
        of.entry.span of.entry.constants.now) }
{
    let new = constructor(alloc, of)?;
    let name = returning_field(alloc, of, NAME_PLACE, string())?;
    let text = returning_field(alloc, of, NAME_PLACE, string())?;
    let ordinal = returning_field(alloc, of, ORDINAL_PLACE, int())?;
    let values = returning_constants(alloc, of)?;
    let mut methods = Vec::new(alloc);
    methods.push(new)?;
    methods.push(plain_method(alloc, of, "name", string(), false, name)?)?;
    methods.push(plain_method(alloc, of, "toString", string(), false, text)?)?;
    methods.push(plain_method(alloc, of, "ordinal", int(), false, ordinal)?)?;
    methods.push(plain_method(alloc, of, "values", array_ty(of), true, values)?)?;
    Ok(methods)
}
