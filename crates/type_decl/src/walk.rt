// What the members of classes are walked by, and what is met meanwhile.

ghost use Rattle.std.specs.Prelude.{◌≡◌};
ghost use Rattle.name_sites.specs.View.{source_of};

use body_places::Constant;
use class_places::Stands;
use je_base::Names;
use member_forms::{Bodies, Met};
use std::alloc::Global;

/// The classes of a program whose members are walked: what these are judged by, the names of the program, and how many
/// hidden fields each class has.
#[derive(Clone, Copy)]
pub struct Walk<'a> {
    pub bodies: Bodies<'a>,
    pub names: &'a Names,
    pub hidden: &'a [usize],
    ghost named: { names.now ≡ (source_of bodies.calls.program.source.sites.now).texts },
}

/// Where nodes are made.
pub fn alloc(walk: &Walk) -> Global {
    walk.bodies.calls.program.source.alloc
}

/// What was met in the bodies of classes, and of each class the first of that which tells where it stands.
#[derive(Drop)]
pub struct AllMet<'a> {
    pub met: Vec<Met<'a>>,
    pub stands: Stands,
}

/// What was met in the bodies of classes, and the fields that are constant variables, as far as that is told behind
/// them.
#[derive(Drop)]
pub struct BodiesMet<'a> {
    pub all: AllMet<'a>,
    pub constants: Vec<Vec<Option<Constant>>>,
}
