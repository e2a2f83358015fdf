// Faults, and the first of them.

ghost use Rattle.std.specs.Prelude.{◌≡◌, None, Some, option_map};
ghost use Rattle.je_scopes.specs.Faults.{stands_before, where_so};
ghost use Rattle.name_faults.specs.View.{Adds, earliest, fault_view, first_of, kind_number};

use je_base::Span;

/// What is wrong with a name.
#[derive(Clone, Copy, PartialEq, Eq, Debug)]
pub enum FaultKind {
    /// It is declared a second time (JLS 7.5.1, 7.6, 8.1 to 8.5).
    Twice,
    /// It means nothing, or no one thing (JLS 6.5).
    Unknown,
    /// It leads back to the class or the type variable in whose declaration it stands (JLS 4.4, 8.1.4).
    Cycle,
    /// What it names may not be named there (JLS 6.6.1).
    NotAccessible,
    /// It stands in a way that the language leaves out.
    OutOfProfile,
}

/// A fault of a name, where it is written.
#[derive(Clone, Copy, PartialEq, Eq)]
pub struct NameFault {
    pub kind: FaultKind,
    pub span: Span,
}

/// The first of the faults that were found.
#[derive(Drop)]
pub struct Faults {
    first: Option<NameFault>,
}

impl Faults {
    /// No fault.
    #[tactic(auto, unfolding(crate::specs::View::first_of))]
    pub fn none() -> Faults
        ensures { first_of result ≡ None }
    {
        Faults { first: None }
    }

    /// The first fault; None where there is none.
    #[tactic(auto, unfolding(crate::specs::View::first_of))]
    pub fn first(&self) -> Option<NameFault>
        ensures { option_map fault_view result ≡ first_of self.now }
    {
        self.first
    }

    /// One more fault, where there is one.
    #[tactic(auto, unfolding(crate::specs::View::first_of))]
    pub fn add_where(&mut self, test: bool, kind: FaultKind, span: Span)
        ensures { Adds self.old self.new
            (where_so test (fault_view (record { kind = kind; span = span }))) }
    {
        if test {
            self.first = Some(earlier_of(self.first, NameFault { kind, span }));
        }
    }
}

// The first of a fault and one that was found before it.
fn earlier_of(before: Option<NameFault>, fault: NameFault) -> NameFault
    ensures { Some (fault_view result) ≡
        earliest (option_map fault_view before) (Some (fault_view fault)) }
{
    match before {
        Some(first) => if stands_first(fault, first) {
            fault
        } else {
            first
        },
        None => fault,
    }
}

// Whether a fault stands before another one: by file, first byte, number, last byte.
fn stands_first(one: NameFault, other: NameFault) -> bool
    ensures { result ≡ stands_before (fault_view one) (fault_view other) }
{
    let place = (
        one.span.file,
        one.span.start,
        number(one.kind),
        one.span.end,
    );
    let other_place = (
        other.span.file,
        other.span.start,
        number(other.kind),
        other.span.end,
    );
    place < other_place
}

// The number of a kind.
fn number(kind: FaultKind) -> u8
    ensures { result ≡ kind_number kind }
{
    match kind {
        FaultKind::Twice => 1,
        FaultKind::Unknown => 2,
        FaultKind::Cycle => 3,
        FaultKind::NotAccessible => 4,
        FaultKind::OutOfProfile => 5,
    }
}
