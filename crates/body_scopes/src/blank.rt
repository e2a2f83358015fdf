// Final fields without an initializer (JLS 4.12.4).

ghost use Rattle.std.specs.Prelude.{◌≡◌};
ghost use Rattle.body_scopes.specs.View.{blank_seen};

use je_core::ClassId;

/// Whether the field at a place of a class is a final one without an initializer, by what is known of each field of each
/// class.
pub fn is_blank(blank: &[Vec<bool>], class: ClassId, at: usize) -> bool
    ensures { result ≡ blank_seen blank.now (record { class = class; at = at }) }
{
    let Some(fields) = blank.get(class.0 as usize) else {
        return false;
    };
    match fields.get(at) {
        Some(is_blank) => *is_blank,
        None => false,
    }
}
