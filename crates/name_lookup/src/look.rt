// What a look-up comes to, and where a name stands.

ghost use Rattle.std.specs.Prelude.{◌≡◌, IsTrue, ◌↔◌};
ghost use Rattle.je_scopes.specs.Looks as looks;
ghost use Rattle.name_sites.specs.Number.{number_in};
ghost use Rattle.name_lookup.specs.View.{look_view};

use je_core::ClassId;

/// What a name is found to be.
#[derive(Clone, Copy, PartialEq, Eq)]
pub enum Look {
    /// Not known before the header of this class is.
    Waits(ClassId),
    /// No class and no type variable.
    Nothing,
    /// A class.
    Class(ClassId),
    /// A type variable, by its class and its place there.
    Variable(ClassId, usize),
    /// Several classes, or a type variable that means nothing in a static member.
    Unclear,
}

/// The part of a class that a name stands in.
#[derive(Clone, Copy, PartialEq, Eq)]
pub enum Part {
    /// Its type parameters' bounds and the types that it names as above it. Its members aren't in scope there.
    Header,
    /// A member that isn't static.
    Member,
    /// A static member.
    StaticMember,
}

/// Where a name stands.
#[derive(Clone, Copy, PartialEq, Eq)]
pub struct Place {
    pub class: ClassId,
    pub part: Part,
}

impl Look {
    /// A class, or nothing.
    pub(crate) fn of(class: Option<ClassId>) -> Look
        ensures { look_view result ≡ looks.found (number_in class) }
    {
        match class {
            Some(class) => Look::Class(class),
            None => Look::Nothing,
        }
    }

    /// The union of two sets of classes; with one that isn't known, it isn't known.
    pub(crate) fn joined(self, other: Look) -> Look
        ensures { look_view result ≡ looks.joined (look_view self) (look_view other) }
    {
        match (self, other) {
            (Look::Waits(class), _) => Look::Waits(class),
            (Look::Nothing, other) => other,
            (Look::Class(_), Look::Waits(class)) => Look::Waits(class),
            (Look::Class(class), Look::Nothing) => Look::Class(class),
            (Look::Class(class), Look::Class(other)) => {
                if class.0 == other.0 {
                    Look::Class(class)
                } else {
                    Look::Unclear
                }
            }
            (Look::Class(_), _) => Look::Unclear,
            (Look::Variable(_, _), Look::Waits(class)) => Look::Waits(class),
            (Look::Variable(_, _), _) => Look::Unclear,
            (Look::Unclear, Look::Waits(class)) => Look::Waits(class),
            (Look::Unclear, _) => Look::Unclear,
        }
    }

    /// Whether nothing was found.
    pub(crate) fn is_nothing(self) -> bool
        ensures { IsTrue result ↔ (look_view self ≡ looks.nothing) }
    {
        matches!(self, Look::Nothing)
    }
}
