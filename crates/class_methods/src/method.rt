// Methods as a class sees them.

ghost use Rattle.std.specs.Prelude.{◌≡◌, IfOk, map};
ghost use Rattle.declarations.specs.View.{method_shown};
ghost use Rattle.overriding.specs.Methods as words;
ghost use Rattle.class_methods.specs.View.{method_seen};

use declarations::MethodDecl;
use je_base::Memory;
use je_core::{Access, ClassId};
use name_types::SrcTy;
use source_subtypes::{all_copied, copied};
use std::alloc::Global;

/// A method as a class sees it: which one it is, by the class that declares it and its place there, and its types with the
/// class's type arguments put in.
#[derive(Drop)]
pub struct Method<'a> {
    pub holder: ClassId,
    pub place: usize,
    pub declared: &'a MethodDecl,
    pub parameters: Vec<SrcTy>,
    pub result: SrcTy,
    pub throws: Vec<SrcTy>,
    pub is_abstract: bool,
}

/// A method as the class itself sees it that declares it at a place.
pub fn own_method(
    alloc: Global,
    holder: ClassId,
    place: usize,
    declared: &MethodDecl,
) -> Result<Method<'_>, Memory>
    ensures { IfOk result (λ m. method_seen m ≡
        words.own_method holder.0 place (method_shown declared.now)) }
{
    Ok(Method {
        holder,
        place,
        declared,
        parameters: all_copied(alloc, &declared.parameters)?,
        result: copied(alloc, &declared.result)?,
        throws: all_copied(alloc, &declared.throws)?,
        is_abstract: declared.flags.is_abstract,
    })
}

/// Whether it is the same method, whatever its types.
pub fn is_same_method(method: &Method, other: &Method) -> bool
    ensures { result ≡ words.is_same (method_seen method.now) (method_seen other.now) }
{
    method.holder.0 == other.holder.0 && method.place == other.place
}

/// Whether it is one of these.
pub fn has_method(methods: &[Method], method: &Method) -> bool
    ensures { result ≡ words.has_method (map method_seen methods.now) (method_seen method.now) }
{
    for at in 0..methods.len() {
        if is_same_method(method, &methods[at]) {
            return true;
        }
    }
    false
}

/// Whether classes below inherit it: all but private ones.
pub fn is_inheritable(method: &Method) -> bool
    ensures { result ≡ words.is_inheritable (method_seen method.now) }
{
    !matches!(method.declared.flags.access, Access::Private)
}
