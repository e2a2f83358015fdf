// How many members a look-up finds.

ghost use Rattle.std.specs.Prelude.{◌≡◌};
ghost use Rattle.je_classes.specs.Members.{joined as the_joined};
ghost use Rattle.member_lookup.specs.Founds.{found_seen};

use class_members::same_class;
use je_core::ClassId;

/// What a look-up finds: nothing, one member by its class and its place there, or several.
#[derive(Clone, Copy, PartialEq, Eq, Debug)]
pub enum Found {
    Nothing,
    One(ClassId, usize),
    Several,
}

/// What is found in one place or in another one.
pub fn joined(one: Found, other: Found) -> Found
    ensures { found_seen result ≡ the_joined (found_seen one) (found_seen other) }
{
    match one {
        Found::Nothing => other,
        Found::Several => Found::Several,
        Found::One(class, at) => match other {
            Found::Nothing => Found::One(class, at),
            Found::Several => Found::Several,
            Found::One(second, place) => {
                if same_class(class, second) && at == place {
                    Found::One(class, at)
                } else {
                    Found::Several
                }
            }
        },
    }
}
