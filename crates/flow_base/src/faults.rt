// The faults of flow, and the first of those that were found.

ghost use Rattle.std.specs.Prelude.{◌≡◌, None};
ghost use Rattle.flow_base.specs.FaultSets.{fault_where, number_of, stands_before};
ghost use Rattle.flow_base.specs.way.Kept.{first_of, kept};

use je_base::Span;
use std::marker::Model;

/// Which rule of flow is broken.
#[derive(Clone, Copy, PartialEq, Eq, Debug)]
pub enum FaultKind {
    /// A variable is read, or left so by a constructor or initializers, before it is definitely assigned (JLS 16).
    NotAssigned,
    /// A blank final variable is assigned where it isn't definitely unassigned (JLS 16).
    AssignedTwice,
    /// A statement can't be reached, or an initializer can't complete normally (JLS 14.21, 8.6, 8.7).
    Unreachable,
    /// A body that must return can complete normally (JLS 8.4.7).
    MissingReturn,
    /// A checked exception is neither caught nor declared (JLS 11.2).
    Unreported,
}

/// A fault of flow, and the token or part where it stands.
#[derive(Clone, Copy, PartialEq, Eq)]
pub struct FlowFault {
    pub kind: FaultKind,
    pub span: Span,
}

/// The first of the faults that were found so far.
#[derive(Drop)]
pub struct FirstFault {
    first: Option<FlowFault>,
}

impl Model for FirstFault {
    ghost use Rattle.std.specs.Prelude.{Option};
    ghost use Rattle.flow_base.specs.declared.faults.FlowFault.{FlowFault as Fault};

    ghost Value = { Option Fault };

    ghost view = { λ f. f.first };
}

impl FirstFault {
    /// None yet.
    pub fn none() -> FirstFault
        ensures { result ≡ None }
    {
        FirstFault { first: None }
    }

    /// The first; None where none was found.
    pub fn get(&self) -> Option<FlowFault>
        ensures { result ≡ self.now }
    {
        self.first
    }

    /// One more fault.
    pub fn add(&mut self, kind: FaultKind, span: Span)
        ensures { self.new ≡ kept self.old (record { kind = kind; span = span }) }
    {
        let fault = FlowFault { kind, span };
        match self.first {
            None => self.first = Some(fault),
            Some(first) => {
                if stands_first(fault, first) {
                    self.first = Some(fault);
                }
            }
        }
    }

    /// One more fault, where the test holds.
    pub fn add_where(&mut self, test: bool, kind: FaultKind, span: Span)
        ensures { self.new ≡ first_of self.old (fault_where test kind span) }
    {
        if test {
            self.add(kind, span);
        }
    }
}

// Whether a fault stands before another one: by file, first byte, number, last byte.
fn stands_first(one: FlowFault, other: FlowFault) -> bool
    ensures { result ≡ stands_before one other }
{
    let place = (
        one.span.file,
        one.span.start,
        number(one.kind),
        one.span.end,
    );
    let other_place = (
        other.span.file,
        other.span.start,
        number(other.kind),
        other.span.end,
    );
    place < other_place
}

// The number of a kind.
fn number(kind: FaultKind) -> u8
    ensures { result ≡ number_of kind }
{
    match kind {
        FaultKind::NotAssigned => 1,
        FaultKind::AssignedTwice => 2,
        FaultKind::Unreachable => 3,
        FaultKind::MissingReturn => 4,
        FaultKind::Unreported => 5,
    }
}
