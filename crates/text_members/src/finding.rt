// Where a text or a unit stands in a text.

ghost use Rattle.std.specs.Prelude.{◌≡◌, ◌==◌, position};
ghost use Rattle.text_members.specs.Finding.{index_of as the_index_of, index_of_unit as the_index_of_unit, is_prefix as the_is_prefix, is_suffix as the_is_suffix};

/// `startsWith`. It costs at most the length of the part.
pub fn is_prefix(part: &[u16], units: &[u16]) -> bool
    ensures { result ≡ the_is_prefix part.now units.now }
{
    units.starts_with(part)
}

/// `endsWith`. It costs at most the length of the part.
pub fn is_suffix(part: &[u16], units: &[u16]) -> bool
    ensures { result ≡ the_is_suffix part.now units.now }
{
    units.ends_with(part)
}

/// `indexOf` of a text: the least place at which it stands; `None` where it stands nowhere. It costs at most
/// one length times the other.
#[tactic(auto, using(crate::proofs::Places::places))]
pub fn index_of(units: &[u16], part: &[u16]) -> Option<usize>
    ensures { result ≡ the_index_of units.now part.now }
{
    for at in 0..units.len() {
        if is_prefix(part, &units[at..]) {
            return Some(at);
        }
    }
    if part.is_empty() {
        Some(units.len())
    } else {
        None
    }
}

/// `indexOf` of an int: the least place of a unit of that value; `None` where there is no such unit. It costs
/// at most the length.
pub fn index_of_unit(units: &[u16], value: i32) -> Option<usize>
    ensures { result ≡ the_index_of_unit units.now value }
{
    if value < 0 {
        return None;
    }
    place_of(units, value as u32)
}

// The least place of a unit of that value.
fn place_of(units: &[u16], value: u32) -> Option<usize>
    ensures { result ≡ position (λ unit. unit == value) units.now }
{
    units.iter().position(|unit| u32::from(*unit) == value)
}
