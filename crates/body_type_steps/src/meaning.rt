// What the name of a type means in a body (JLS 6.5.5).

ghost use Rattle.std.specs.Prelude.{◌≡◌, IfOk};
ghost use Rattle.body_types.specs.BodyTypes.{classes_at, look_at};
ghost use Rattle.name_lookup.specs.View.{look_view, numbers};
ghost use Rattle.name_steps.specs.Places.{frame_seen, program_seen};

use je_ast::Identifier;
use je_base::Memory;
use name_lookup::{Look, Meaning};
use name_steps::{Frame, Program, class_named};
use type_faults::Program as Source;

/// What the parts of a name mean in a body, and the classes that they name: the first part is a class in scope there,
/// or else the whole is the full name of a class of the library.
pub fn body_meaning(
    program: &Program,
    here: &Frame,
    parts: &[Identifier],
) -> Result<Meaning, Memory>
    ensures look { IfOk result (λ m. look_view m.look ≡
        look_at (program_seen program.now) (frame_seen here.now) parts.now) }
    ensures named { IfOk result (λ m. numbers m.named.items ≡
        classes_at (program_seen program.now) (frame_seen here.now) parts.now) }
{
    let Source {
        alloc,
        sites,
        headers,
    } = program.source;
    let Some((first, further)) = parts.split_first() else {
        return Ok(Meaning {
            look: Look::Nothing,
            named: Vec::new(alloc),
        });
    };
    let look = class_named(program, here, first.name)?;
    headers.meaning_behind(alloc, sites, look, parts, further)
}
