// A unit of a text and parts of it.

ghost use Rattle.std.specs.Prelude.{◌≡◌, option_map};
ghost use Rattle.text_members.specs.Parts.{part_between as the_part_between, place_among as the_place_among, substring as the_substring, substring_from as the_substring_from, trimmed as the_trimmed, unit_at as the_unit_at, without_blanks_behind, without_blanks_in_front};

// The greatest unit that `trim` drops: a space.
const SPACE: u16 = 32;

/// The place that an int means among `count` units; `None` where it is below 0 or past the last.
pub fn place_among(count: usize, place: i32) -> Option<usize>
    ensures { result ≡ the_place_among count place }
{
    if place < 0 {
        return None;
    }
    let at = place as usize;
    if at < count { Some(at) } else { None }
}

/// `charAt`: the unit at a place; `None` where the place is out of range.
pub fn unit_at(units: &[u16], place: i32) -> Option<u16>
    ensures { result ≡ the_unit_at units.now place }
{
    if place < 0 {
        return None;
    }
    units.get(place as usize).copied()
}

/// `substring`: the units from `begin` up to `end`; there exactly where 0 <= begin <= end <= length.
pub fn substring(units: &[u16], begin: i32, end: i32) -> Option<&[u16]>
    ensures { option_map (λ part. part.now) result ≡ the_substring units.now begin end }
{
    if begin < 0 || end < 0 {
        return None;
    }
    part_between(units, begin as usize, end as usize)
}

/// `substring` of one place: the units from `begin` to the end; there exactly where 0 <= begin <= length.
pub fn substring_from(units: &[u16], begin: i32) -> Option<&[u16]>
    ensures { option_map (λ part. part.now) result ≡ the_substring_from units.now begin }
{
    if begin < 0 {
        return None;
    }
    part_between(units, begin as usize, units.len())
}

fn part_between(units: &[u16], begin: usize, end: usize) -> Option<&[u16]>
    ensures { option_map (λ part. part.now) result ≡ the_part_between units.now begin end }
{
    if begin <= end && end <= units.len() {
        Some(&units[begin..end])
    } else {
        None
    }
}

/// `trim`: without the units up to 32 at both ends. It costs at most the length.
pub fn trimmed(units: &[u16]) -> &[u16]
    ensures { result.now ≡ the_trimmed units.now }
{
    without_behind(without_in_front(units))
}

#[tactic(auto, using(crate::proofs::Blanks::blanks))]
fn without_in_front(units: &[u16]) -> &[u16]
    ensures { result.now ≡ without_blanks_in_front units.now }
{
    let mut start = 0;
    while start < units.len() && units[start] <= SPACE {
        start += 1;
    }
    &units[start..]
}

#[tactic(auto, using(crate::proofs::Blanks::blanks))]
fn without_behind(units: &[u16]) -> &[u16]
    ensures { result.now ≡ without_blanks_behind units.now }
{
    let mut end = units.len();
    while end > 0 && units[end - 1] <= SPACE {
        end -= 1;
    }
    &units[..end]
}
