// What an enum declares without words of its own.

ghost use Rattle.std.specs.Prelude.{◌≡◌, [], IfOk, false, map};
ghost use Rattle.class_typing.specs.Enums.{declared as the_declared, enum_methods as the_enum_methods, flags as the_flags, hidden_types as the_hidden_types};
ghost use Rattle.declarations.specs.View.{method_shown};
ghost use Rattle.library_classes.specs.Numbers.{number_in};
ghost use Rattle.name_types.specs.View.{plain_shown, shown};
ghost use Rattle.je_core.specs.declared.program.Access.TheVariants as access;

use declarations::MethodDecl;
use je_ast::Identifier;
use je_base::{Memory, Names, Span};
use je_core::{Access, Base, ClassId, Flags};
use name_types::{SrcBase, SrcTy};
use std::alloc::Global;
use typed_nodes::string_ty;
use word_numbers::number;

/// What the head of a method that no source writes says beside its types.
pub fn flags(access: Access, is_static: bool) -> Flags
    ensures { result ≡ the_flags access is_static }
{
    Flags {
        is_static,
        is_final: false,
        is_abstract: false,
        is_native: false,
        is_finalizer: false,
        access,
    }
}

// A type without type arguments.
fn plain(base: Base, dims: u8) -> SrcTy
    ensures { shown result ≡ plain_shown base dims }
{
    SrcTy {
        base: SrcBase::Plain(base),
        dims,
    }
}

// The name and the place of a constant.
fn hidden_types(alloc: Global) -> Result<Vec<SrcTy>, Memory>
    ensures { IfOk result (λ ts. map shown ts.items ≡ the_hidden_types) }
{
    let mut types = Vec::new(alloc);
    types.push(string_ty())?;
    types.push(plain(Base::Int, 0))?;
    Ok(types)
}

fn declared(
    alloc: Global,
    names: &Names,
    word: &str,
    is_constructor: bool,
    parameters: Vec<SrcTy>,
    returns: SrcTy,
    flags: Flags,
) -> MethodDecl
    ensures { method_shown result ≡ the_declared (number_in names.now) word.now is_constructor
        (map shown parameters.items) (shown returns) flags }
{
    MethodDecl {
        name: Identifier {
            name: number(names, word),
            span: Span {
                file: 0,
                start: 0,
                end: 0,
            },
        },
        is_constructor,
        parameters,
        result: returns,
        throws: Vec::new(alloc),
        flags,
    }
}

// One without parameters.
fn method(alloc: Global, names: &Names, word: &str, returns: SrcTy, is_static: bool) -> MethodDecl
    ensures { method_shown result ≡ the_declared (number_in names.now) word.now false []
        (shown returns) (the_flags access.Public is_static) }
{
    let parameters = Vec::new(alloc);
    let flags = flags(Access::Public, is_static);
    declared(alloc, names, word, false, parameters, returns, flags)
}

/// What an enum declares without words of its own: its constructor, which a source never calls, and the methods `name`,
/// `toString`, `ordinal` and `values`.
pub fn enum_methods(alloc: Global, names: &Names, class: ClassId) -> Result<Vec<MethodDecl>, Memory>
    ensures { IfOk result (λ ms. map method_shown ms.items ≡
        the_enum_methods (number_in names.now) class.0) }
{
    let parameters = hidden_types(alloc)?;
    let flags = flags(Access::Private, false);
    let new = declared(
        alloc,
        names,
        "new",
        true,
        parameters,
        plain(Base::Void, 0),
        flags,
    );
    let mut methods = Vec::new(alloc);
    methods.push(new)?;
    methods.push(method(alloc, names, "name", string_ty(), false))?;
    methods.push(method(alloc, names, "toString", string_ty(), false))?;
    methods.push(method(alloc, names, "ordinal", plain(Base::Int, 0), false))?;
    methods.push(method(alloc, names, "values", plain(Base::Class(class), 1), true))?;
    Ok(methods)
}
