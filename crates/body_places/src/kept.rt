// The fields in which instances keep the values of locals.

ghost use Rattle.std.specs.Prelude.{◌≡◌};
ghost use Rattle.body_places.specs.Tables.{field_from};
ghost use Rattle.body_places.specs.View.{program_seen};

use crate::declared::fields_of;
use crate::program::Program;
use crate::tables::Captured;
use je_core::ClassId;

fn field_among(fields: &[Captured], past: u32, owner: ClassId, local: u32) -> u32
    ensures { result ≡ field_from fields.now past owner.0 local }
{
    for field in fields {
        if field.owner.0 == owner.0 && field.local == local {
            return field.field;
        }
    }
    past
}

/// The place of the field in which an instance of a class keeps the value of a local of a body of another class, by
/// the local's number; past all its fields where it keeps none.
pub fn captured_of(program: &Program, class: ClassId, owner: ClassId, local: u32) -> u32
    ensures { result ≡ (program_seen program.now).captured class.0 owner.0 local }
{
    let past = fields_of(program.classes, class).len() as u32;
    match program.captured.get(class.0 as usize) {
        Some(fields) => field_among(fields, past, owner, local),
        None => past,
    }
}
