// The sixteen rules of Joe-E.

ghost use Rattle.std.specs.Prelude.{◌≡◌};
ghost use Rattle.rule_breaks.specs.Breaks.{number_of};

/// A rule of Joe-E, by the order in which a report names those that are broken at one place.
#[derive(Clone, Copy, PartialEq, Eq)]
pub enum ConfinementRule {
    /// A class variable isn't final, or its type isn't powerless.
    StaticField,
    /// An immutable class has a field that isn't final or whose type isn't immutable.
    ImmutableField,
    /// A powerless class has a field whose type isn't powerless.
    PowerlessField,
    /// A selfless class has a field that isn't final, a superclass that isn't selfless, or asks for its identity.
    SelflessClass,
    /// A class or interface is both selfless and equatable.
    SelflessEquatable,
    /// An object under construction is used beside the reading and writing of its fields.
    ThisEscapes,
    /// An immutable or powerless class captures a local whose type isn't.
    CapturedLocal,
    /// An immutable or powerless class has an enclosing instance that isn't.
    EnclosingObject,
    /// References are compared whose types aren't equatable.
    IdentityComparison,
    /// An object is turned into text by a member of the library that isn't enabled.
    ObjectText,
    /// A method is native.
    NativeMethod,
    /// A method is a finalizer.
    Finalizer,
    /// A catch names an error.
    CatchError,
    /// A `finally` stands.
    Finally,
    /// A member of the library is used that isn't enabled.
    NotEnabled,
    /// A class or interface of the library is extended that isn't open.
    NotExtensible,
}

impl ConfinementRule {
    /// The rule's number, from 1.
    pub fn number(self) -> u8
        ensures { result ≡ number_of self }
    {
        match self {
            ConfinementRule::StaticField => 1,
            ConfinementRule::ImmutableField => 2,
            ConfinementRule::PowerlessField => 3,
            ConfinementRule::SelflessClass => 4,
            ConfinementRule::SelflessEquatable => 5,
            ConfinementRule::ThisEscapes => 6,
            ConfinementRule::CapturedLocal => 7,
            ConfinementRule::EnclosingObject => 8,
            ConfinementRule::IdentityComparison => 9,
            ConfinementRule::ObjectText => 10,
            ConfinementRule::NativeMethod => 11,
            ConfinementRule::Finalizer => 12,
            ConfinementRule::CatchError => 13,
            ConfinementRule::Finally => 14,
            ConfinementRule::NotEnabled => 15,
            ConfinementRule::NotExtensible => 16,
        }
    }
}
