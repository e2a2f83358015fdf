// The ways by which a statement is left other than by its end.

ghost use Rattle.std.specs.Prelude.{◌≡◌};
ghost use Rattle.flow_base.specs.Ways.{same_way, same_label};

use je_base::NameId;

/// A way out of a statement: a `break` or a `continue` with a label or with none, or a `return` (JLS 14.15 to 14.17).
#[derive(Clone, Copy, PartialEq, Eq)]
pub enum Way {
    Breaks(Option<NameId>),
    Continues(Option<NameId>),
    Returns,
}

/// Whether two ways are the same.
pub fn is_same(one: Way, other: Way) -> bool
    ensures { result ≡ same_way one other }
{
    match (one, other) {
        (Way::Breaks(label), Way::Breaks(other_label)) => is_same_label(label, other_label),
        (Way::Continues(label), Way::Continues(other_label)) => is_same_label(label, other_label),
        (Way::Returns, Way::Returns) => true,
        (Way::Breaks(_), Way::Continues(_))
        | (Way::Breaks(_), Way::Returns)
        | (Way::Continues(_), Way::Breaks(_))
        | (Way::Continues(_), Way::Returns)
        | (Way::Returns, Way::Breaks(_))
        | (Way::Returns, Way::Continues(_)) => false,
    }
}

// Whether two labels, or the lack of one, are the same.
fn is_same_label(one: Option<NameId>, other: Option<NameId>) -> bool
    ensures { result ≡ same_label one other }
{
    match (one, other) {
        (None, None) => true,
        (Some(one), Some(other)) => one.0 == other.0,
        (None, Some(_)) | (Some(_), None) => false,
    }
}
