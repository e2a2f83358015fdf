// A class where it is written.

use je_ast::{Decl, Member, TyName};
use je_base::Span;
use je_core::Sort;

/// Where a class is written.
#[derive(Clone, Copy)]
pub enum Written<'a> {
    /// Nowhere: a class of the library.
    Library,
    /// A declaration.
    Declared {
        decl: &'a Decl,
    },
    /// A body behind `new`, which is `word`, and the type between them.
    Anonymous {
        word: Span,
        class: &'a TyName,
        body: &'a [Member],
    },
}

/// Whether there is a current object where a class is written (JLS 8.1.3, 8.8.7.1).
#[derive(Clone, Copy, PartialEq, Eq, Debug)]
pub enum Context {
    /// There is one.
    Instance,
    /// There will be one: the arguments of an explicit constructor call.
    ConstructorArguments,
    /// There is none: a static member or initializer, or no class at all.
    Static,
}

/// What a class is written in. Classes are named by their numbers.
#[derive(Clone, Copy, PartialEq, Eq)]
pub struct Spot {
    /// The place of its unit.
    pub unit: usize,
    /// The class directly round it.
    pub within: Option<usize>,
    /// The nearest local class that is in scope in the body of that class, apart from the class itself.
    pub nearest: Option<usize>,
    pub context: Context,
}

/// A class, where it is written, and in what.
#[derive(Clone, Copy)]
pub struct ClassSite<'a> {
    pub written: Written<'a>,
    pub sort: Sort,
    pub spot: Spot,
    /// A statement of a block declares it, so that it is in scope where it stands (JLS 6.3, 14.3).
    pub is_local: bool,
}
