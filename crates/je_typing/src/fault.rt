// Faults of types.

use je_base::{Memory, Span};
use std::alloc::{AllocError, AllocFailed};

/// What is wrong with a class, a statement or an expression. The order is that in which rules are judged at one place.
#[derive(Clone, Copy, PartialEq, Eq)]
pub enum TypeRule {
    /// What a class names as above it may not stand there (JLS 8.1.4, 8.1.5, 9.1.3).
    BadSuper,
    /// A modifier that its place doesn't allow (JLS 8.1.1, 8.3.1, 8.4.3).
    BadModifier,
    /// A body that may not stand, or is missing (JLS 8.4.7).
    BadBody,
    /// A class that isn't abstract has an abstract method (JLS 8.1.1.1).
    NotAbstract,
    /// A method overrides one that it may not (JLS 8.4.8).
    BadOverride,
    /// Two methods of one erasure, of which neither overrides the other (JLS 8.4.8.3).
    SameErasure,
    /// A static member of an inner class (JLS 8.1.3).
    BadStatic,
    /// A type argument that isn't below its bound (JLS 4.5).
    BadBound,
    /// A name that means nothing that may stand there (JLS 6.5).
    UnknownName,
    /// A type without that field (JLS 15.11).
    UnknownField,
    /// No method of that name accepts the arguments (JLS 15.12.2).
    NoMethod,
    /// Several methods accept the arguments, and none is chosen (JLS 15.12.2.5).
    AmbiguousMethod,
    /// No constructor accepts the arguments (JLS 15.9.3).
    NoConstructor,
    /// A private member outside the class that holds it (JLS 6.6).
    NotAccessible,
    /// A field name that is inherited twice (JLS 8.3.3.3).
    AmbiguousField,
    /// A second local of that name in scope (JLS 14.4.2).
    LocalTwice,
    /// A value that assignment or a call doesn't take (JLS 5.2, 5.3).
    NotConvertible,
    /// Operands that the operator doesn't take (JLS 15.14 to 15.26).
    BadOperand,
    /// A cast that no value can pass, or to a type that isn't there when a program runs (JLS 5.5, 15.16).
    BadCast,
    /// The same of `instanceof` (JLS 15.20.2).
    BadInstanceOf,
    /// A condition that isn't boolean (JLS 14.9, 15.25).
    BadCondition,
    /// An index or a length that isn't an int, or an indexed value that isn't an array (JLS 15.10, 15.13).
    BadIndex,
    /// What is assigned is no variable (JLS 15.26).
    BadTarget,
    /// A final variable is assigned (JLS 4.12.4).
    FinalAssign,
    /// `this`, or what needs it, where there is none (JLS 8.8.7.1, 15.8.3).
    StaticContext,
    /// An instance of a class that has none (JLS 15.9.1).
    AbstractNew,
    /// An inner class without the instance round it (JLS 15.9.2).
    NoEnclosing,
    /// A local that isn't final, in a class inside its method (JLS 8.1.3).
    NotFinalCapture,
    /// An integer literal beyond the greatest value (JLS 3.10.1).
    LiteralRange,
    /// A value is returned where none may be, or none where one must be (JLS 14.17).
    BadReturn,
    /// What is thrown isn't below Throwable (JLS 14.18).
    BadThrow,
    /// What is caught isn't below Throwable (JLS 14.20).
    BadCatch,
    /// A jump without its target, or a label in one of the same name (JLS 14.7, 14.15).
    BadLabel,
    /// A selector or a label that a switch doesn't take (JLS 14.11).
    BadCase,
    /// An array that may not be made (JLS 10.6, 15.10).
    BadArray,
    /// A call that gives nothing is used as a value (JLS 14.8).
    VoidValue,
    /// Constructors that call each other (JLS 8.8.7).
    CtorCycle,
    /// A `for` over what isn't an array (JLS 14.14.2).
    BadForEach,
    /// A field that is read before its declaration (JLS 8.3.2.3).
    ForwardUse,
    /// A call of an abstract method by `super` (JLS 15.12.3).
    BadSuperCall,
}

/// A fault of a type, at the token or part that offends.
#[derive(Clone, Copy, PartialEq, Eq)]
pub struct TypeFault {
    pub rule: TypeRule,
    pub span: Span,
}

/// Why an expression has no type.
#[derive(Clone, Copy, PartialEq, Eq)]
pub enum Refusal {
    /// Want of memory.
    Memory,
    /// The first fault.
    Fault(TypeFault),
}

impl From<Memory> for Refusal {
    ghost use Rattle.std.specs.Prelude.{◌≡◌};
    ghost use Rattle.je_typing.specs.declared.fault.Refusal.TheVariants.{Memory as memory};

    ghost from_gives = { λ _ e. e ≡ memory };

    fn from(_: Memory) -> Self {
        Refusal::Memory
    }
}

impl From<AllocError> for Refusal {
    ghost use Rattle.std.specs.Prelude.{◌≡◌};
    ghost use Rattle.je_typing.specs.declared.fault.Refusal.TheVariants.{Memory as memory};

    ghost from_gives = { λ _ e. e ≡ memory };

    fn from(_: AllocError) -> Self {
        Refusal::Memory
    }
}

impl<T: Drop> From<AllocFailed<T>> for Refusal {
    ghost use Rattle.std.specs.Prelude.{◌≡◌};
    ghost use Rattle.je_typing.specs.declared.fault.Refusal.TheVariants.{Memory as memory};

    ghost from_gives = { λ _ e. e ≡ memory };

    fn from(_: AllocFailed<T>) -> Self {
        Refusal::Memory
    }
}
