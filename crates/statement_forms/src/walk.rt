// What the walk over the statements of a body goes by.

ghost use Rattle.std.specs.Prelude.{◌≡◌};
ghost use Rattle.body_typing.specs.Bodies.{no_name as nameless};
ghost use Rattle.body_places.specs.View.{program_seen};

use body_walks::Bodies;
use je_base::NameId;
use statement_steps::Returning;
use std::alloc::Global;

/// What the statements of a body are judged by, what the body returns, and the name of a local that no source names.
#[derive(Clone, Copy)]
pub struct Walk<'a> {
    pub bodies: &'a Bodies<'a>,
    pub returning: Returning<'a>,
    pub no_name: NameId,
    ghost empty: { no_name ≡ nameless (program_seen bodies.now.calls.program) },
}

/// Where the nodes of a walk are made.
pub fn alloc(walk: Walk) -> Global {
    let bodies = walk.bodies;
    bodies.calls.program.source.alloc
}
