// What tables have of each class, by its number.

ghost use Rattle.std.specs.Prelude.{◌≡◌, slice_set};
ghost use Rattle.class_tables.specs.way.Slots.{known_above as the_known_above};

use je_core::ClassId;

/// What is noted of a class, 0 where there is none or nothing is.
pub(crate) fn known_above(noted: &[usize], class: Option<ClassId>) -> usize
    ensures { result ≡ the_known_above noted.now class }
{
    match class {
        None => 0,
        Some(class) => match noted.get(class.0 as usize) {
            None => 0,
            Some(number) => *number,
        },
    }
}

/// Notes a number of a class, if the class is there.
pub(crate) fn note(noted: &mut Vec<usize>, class: ClassId, number: usize)
    ensures { noted.new.items ≡ slice_set noted.old.items class.0 number }
{
    let at = class.0 as usize;
    if at < noted.len() {
        noted[at] = number;
    }
}
