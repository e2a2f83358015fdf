// A place in a body, and the bodies that its class stands in (JLS 6.3, 8.1.3).

use crate::tables::Constant;
use je_base::NameId;
use je_core::ClassId;
use name_types::SrcTy;
use name_walk::Context;

/// A local variable or a parameter.
#[derive(Drop)]
pub struct LocalVariable {
    pub name: NameId,
    pub ty: SrcTy,
    pub is_final: bool,
    /// Its number in its body.
    pub number: u32,
    /// Its value, where it is a constant variable.
    pub constant: Option<Constant>,
}

/// An initializer of a class or an instance, with how many fields of the class are declared before it; of a field's
/// own initializer that field isn't one.
#[derive(Clone, Copy, PartialEq, Eq)]
pub struct Initializer {
    pub is_static: bool,
    pub declared: usize,
}

/// A body of a class at one place of it.
#[derive(Drop)]
pub struct Frame {
    pub class: ClassId,
    /// The locals in scope, the nearest first.
    pub locals: Vec<LocalVariable>,
    /// The local classes in scope, the nearest first.
    pub local_classes: Vec<ClassId>,
    pub context: Context,
    pub initializer: Option<Initializer>,
}

/// A place in a body, and the bodies that its class stands in, the innermost first.
#[derive(Clone, Copy)]
pub struct Place<'a> {
    pub here: &'a Frame,
    pub round: &'a [Frame],
}
