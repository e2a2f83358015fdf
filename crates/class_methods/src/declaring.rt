// What a class declares, constructors aside.

ghost use Rattle.std.specs.Prelude.{◌≡◌, ◌∷◌, ◌++◌, IfOk, List, OnOk, map, if◌then◌else◌};
ghost use Rattle.class_heads.specs.View.{classes_of};
ghost use Rattle.declarations.specs.View.{method_shown};
ghost use Rattle.overriding.specs.Methods as words;
ghost use Rattle.class_methods.specs.View.{method_seen};

use crate::method::{Method, own_method};
use class_heads::AllClasses;
use declarations::MethodDecl;
use je_base::Memory;
use je_core::ClassId;
use std::alloc::Global;

/// The methods that a class declares, constructors aside.
pub fn own<'a>(
    alloc: Global,
    classes: AllClasses<'a>,
    class: ClassId,
) -> Result<Vec<Method<'a>>, Memory>
    ensures { IfOk result (λ ms. map method_seen ms.items ≡
        words.own (classes_of classes.entry) class.0) }
{
    match classes.class(class) {
        Some(declared) => own_in(alloc, class, &declared.methods),
        None => Ok(Vec::new(alloc)),
    }
}

fn own_in(alloc: Global, class: ClassId, methods: &[MethodDecl]) -> Result<Vec<Method<'_>>, Memory>
    ensures { IfOk result (λ ms. map method_seen ms.items ≡
        words.own_from class.0 0 (map method_shown methods.now)) }
{
    let mut own = Vec::new(alloc);
    for place in 0..methods.len() {
        push_own(alloc, class, place, &methods[place], &mut own)?;
    }
    Ok(own)
}

/// One method more, unless it is a constructor.
pub fn push_own<'a>(
    alloc: Global,
    class: ClassId,
    place: usize,
    declared: &'a MethodDecl,
    own: &mut Vec<Method<'a>>,
) -> Result<(), Memory>
    ensures { OnOk result ((rest : List words.Method) →
        map method_seen own.new.items ++ rest ≡
        map method_seen own.old.items ++ (if declared.now.is_constructor then rest
        else words.own_method class.0 place (method_shown declared.now) ∷ rest)) }
{
    if declared.is_constructor {
        return Ok(());
    }
    own.push(own_method(alloc, class, place, declared)?)?;
    Ok(())
}
