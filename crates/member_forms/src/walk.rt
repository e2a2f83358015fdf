// What the members of a class are judged by.

ghost use Rattle.std.specs.Prelude.{◌≡◌};
ghost use Rattle.name_sites.specs.View.{source_of};

use body_places::Frame;
use je_base::Names;
use je_core::ClassId;
use statement_forms::Bodies;
use std::alloc::Global;

/// A class whose members are judged, the bodies round it, the innermost first, and the names of the program.
#[derive(Clone, Copy)]
pub struct ClassWalk<'a> {
    pub bodies: &'a Bodies<'a>,
    pub class: ClassId,
    pub round: &'a [Frame],
    pub names: &'a Names,
    ghost named: { names.now ≡ (source_of bodies.now.calls.program.source.sites.now).texts },
}

/// Where nodes are made.
pub fn alloc(walk: ClassWalk) -> Global {
    let bodies = walk.bodies;
    bodies.calls.program.source.alloc
}
