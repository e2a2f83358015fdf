// What classes are made of.

ghost use Rattle.std.specs.Prelude.{◌≡◌};
ghost use Rattle.name_sites.specs.View.{source_of};

use crate::known::CapturedLocal;
use body_places::Program;
use declarations::FieldDecl;
use je_base::Names;
use je_core::{Bridge, Expr, Initializer, Method};

/// The classes of a program, and the names that it is written with.
#[derive(Clone, Copy)]
pub struct Making<'a> {
    pub program: Program<'a>,
    pub names: &'a Names,
    ghost named: { names.now ≡ (source_of program.source.sites.now).texts },
}

/// What a class is made of, beside what its header says.
#[derive(Drop)]
pub struct Parts<'a> {
    /// The locals that it captures.
    pub captured: &'a [CapturedLocal],
    /// The fields that a source writes.
    pub declared: &'a [FieldDecl],
    /// Of each of them the constant that it is, if it is one.
    pub constants: Vec<Option<Expr>>,
    pub initializers: Vec<Initializer>,
    pub methods: Vec<Method>,
    /// The number in its binary name.
    pub nth: u32,
    pub bridges: Vec<Bridge>,
}
