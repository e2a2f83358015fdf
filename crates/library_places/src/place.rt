// Members of library classes among the rows of their table.

ghost use Rattle.std.specs.Prelude.{◌≡◌, map};
ghost use Rattle.je_table.specs.Rows.{row_said};
ghost use Rattle.library_places.specs.Places.{library_place as the_library_place, is_row_of, place_from};

use je_core::ClassId;
use je_table::{MemberRow, class_rows, member_rows};

/// The place in the library's table of the row of a field, or of a method or constructor, of a library class, by its number among
/// the fields, or the methods, of the class; None exactly where there is no such row, as for hidden fields and classes of a program.
pub fn library_place(class: ClassId, is_field: bool, at: u32) -> Option<usize>
    ensures { result ≡ the_library_place class is_field at }
{
    let Some(row) = class_rows().get(class.0 as usize) else {
        return None;
    };
    place_among(member_rows(), row.name, is_field, at)
}

// The place of the row of the class before which so many of its fields, or of its methods, stand.
#[tactic(auto, using(crate::proofs::Turns::passed_by, crate::proofs::Turns::counted, crate::proofs::Turns::there))]
fn place_among(rows: &[MemberRow], class: &str, is_field: bool, at: u32) -> Option<usize>
    ensures { result ≡ place_from (is_row_of class.now is_field) 0 (map row_said rows.now) at }
{
    let mut before = at;
    for (place, row) in rows.iter().enumerate() {
        if row.class == class && row.parameters.is_none() == is_field {
            if before == 0 {
                return Some(place);
            }
            before -= 1;
        }
    }
    None
}
