// The four markers of Joe-E.

ghost use Rattle.std.specs.Prelude.{◌≡◌};
ghost use Rattle.taming_db.specs.Markers as words;

use je_table::marker;

/// A marker: what a type promises of its objects.
#[derive(Clone, Copy, PartialEq, Eq)]
pub enum Marker {
    /// Nothing that an object of the type reaches can change.
    Immutable,
    /// Immutable, and no object that one of the type reaches is a token: it grants nothing.
    Powerless,
    /// Nothing tells two objects of the type with the same content apart.
    Selfless,
    /// References of the type may be compared by `==`.
    Equatable,
}

impl Marker {
    /// The marker of that simple name; none exactly where no marker has it.
    pub fn named(text: &str) -> Option<Marker>
        ensures { result ≡ words.named text.now }
    {
        match text {
            "Immutable" => Some(Marker::Immutable),
            "Powerless" => Some(Marker::Powerless),
            "Selfless" => Some(Marker::Selfless),
            "Equatable" => Some(Marker::Equatable),
            _ => None,
        }
    }

    /// Whether it is in a set of markers, given as a sum of their weights: 1, 2, 4 and 8.
    pub(crate) fn is_in(self, markers: u8) -> bool
        ensures { result ≡ words.is_in markers self }
    {
        markers & self.weight() != 0
    }

    pub(crate) fn is_same(self, other: Marker) -> bool
        ensures { result ≡ words.is_same self other }
    {
        self.weight() == other.weight()
    }

    fn weight(self) -> u8
        ensures { result ≡ words.weight self }
    {
        match self {
            Marker::Immutable => marker::IMMUTABLE,
            Marker::Powerless => marker::POWERLESS,
            Marker::Selfless => marker::SELFLESS,
            Marker::Equatable => marker::EQUATABLE,
        }
    }
}
