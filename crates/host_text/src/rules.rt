// The rules that a program may break, and how a report names them.

ghost use Rattle.std.specs.Prelude.{◌≡◌};
ghost use Rattle.host_text.specs.Rules.{said, said_of_confinement, said_of_flow, said_of_names, said_of_tokens, said_of_types};

use flow_base::FaultKind as FlowRule;
use je_lexer::FaultKind as TokenRule;
use je_typing::TypeRule;
use name_faults::FaultKind as NameRule;
use rule_breaks::ConfinementRule;

/// A rule that a program may break, by the phase that finds it.
#[derive(Clone, Copy, PartialEq, Eq)]
pub enum Rule {
    /// Of tokens (JLS 3).
    Token(TokenRule),
    /// Of the grammar (JLS 18).
    Syntax,
    /// Of names (JLS 6).
    Name(NameRule),
    /// Of types (JLS 4, 5, 8, 9, 14, 15).
    Typing(TypeRule),
    /// Of flow (JLS 11.2, 14.21, 16).
    Flow(FlowRule),
    /// Of Joe-E.
    Confinement(ConfinementRule),
}

/// The code of a rule, which is its phase's letter and its number there, a space, and its word.
pub fn said(rule: Rule) -> &'static str
    ensures { result.now ≡ said rule }
{
    match rule {
        Rule::Token(rule) => said_of_tokens(rule),
        Rule::Syntax => "S1 Syntax",
        Rule::Name(rule) => said_of_names(rule),
        Rule::Typing(rule) => said_of_types(rule),
        Rule::Flow(rule) => said_of_flow(rule),
        Rule::Confinement(rule) => said_of_confinement(rule),
    }
}

fn said_of_tokens(rule: TokenRule) -> &'static str
    ensures { result.now ≡ said_of_tokens rule }
{
    match rule {
        TokenRule::NotUtf8 => "L1 NotUtf8",
        TokenRule::BadEscape => "L2 BadEscape",
        TokenRule::BadChar => "L3 BadChar",
        TokenRule::OpenComment => "L4 OpenComment",
        TokenRule::OpenText => "L5 OpenText",
        TokenRule::BadLiteral => "L6 BadLiteral",
    }
}

fn said_of_names(rule: NameRule) -> &'static str
    ensures { result.now ≡ said_of_names rule }
{
    match rule {
        NameRule::Twice => "N1 Twice",
        NameRule::Unknown => "N2 Unknown",
        NameRule::Cycle => "N3 Cycle",
        NameRule::NotAccessible => "N4 NotAccessible",
        NameRule::OutOfProfile => "N5 OutOfProfile",
    }
}

fn said_of_types(rule: TypeRule) -> &'static str
    ensures { result.now ≡ said_of_types rule }
{
    match rule {
        TypeRule::BadSuper => "T1 BadSuper",
        TypeRule::BadModifier => "T2 BadModifier",
        TypeRule::BadBody => "T3 BadBody",
        TypeRule::NotAbstract => "T4 NotAbstract",
        TypeRule::BadOverride => "T5 BadOverride",
        TypeRule::SameErasure => "T6 SameErasure",
        TypeRule::BadStatic => "T7 BadStatic",
        TypeRule::BadBound => "T8 BadBound",
        TypeRule::UnknownName => "T9 UnknownName",
        TypeRule::UnknownField => "T10 UnknownField",
        TypeRule::NoMethod => "T11 NoMethod",
        TypeRule::AmbiguousMethod => "T12 AmbiguousMethod",
        TypeRule::NoConstructor => "T13 NoConstructor",
        TypeRule::NotAccessible => "T14 NotAccessible",
        TypeRule::AmbiguousField => "T15 AmbiguousField",
        TypeRule::LocalTwice => "T16 LocalTwice",
        TypeRule::NotConvertible => "T17 NotConvertible",
        TypeRule::BadOperand => "T18 BadOperand",
        TypeRule::BadCast => "T19 BadCast",
        TypeRule::BadInstanceOf => "T20 BadInstanceOf",
        TypeRule::BadCondition => "T21 BadCondition",
        TypeRule::BadIndex => "T22 BadIndex",
        TypeRule::BadTarget => "T23 BadTarget",
        TypeRule::FinalAssign => "T24 FinalAssign",
        TypeRule::StaticContext => "T25 StaticContext",
        TypeRule::AbstractNew => "T26 AbstractNew",
        TypeRule::NoEnclosing => "T27 NoEnclosing",
        TypeRule::NotFinalCapture => "T28 NotFinalCapture",
        TypeRule::LiteralRange => "T29 LiteralRange",
        TypeRule::BadReturn => "T30 BadReturn",
        TypeRule::BadThrow => "T31 BadThrow",
        TypeRule::BadCatch => "T32 BadCatch",
        TypeRule::BadLabel => "T33 BadLabel",
        TypeRule::BadCase => "T34 BadCase",
        TypeRule::BadArray => "T35 BadArray",
        TypeRule::VoidValue => "T36 VoidValue",
        TypeRule::CtorCycle => "T37 CtorCycle",
        TypeRule::BadForEach => "T38 BadForEach",
        TypeRule::ForwardUse => "T39 ForwardUse",
        TypeRule::BadSuperCall => "T40 BadSuperCall",
    }
}

fn said_of_flow(rule: FlowRule) -> &'static str
    ensures { result.now ≡ said_of_flow rule }
{
    match rule {
        FlowRule::NotAssigned => "F1 NotAssigned",
        FlowRule::AssignedTwice => "F2 AssignedTwice",
        FlowRule::Unreachable => "F3 Unreachable",
        FlowRule::MissingReturn => "F4 MissingReturn",
        FlowRule::Unreported => "F5 Unreported",
    }
}

fn said_of_confinement(rule: ConfinementRule) -> &'static str
    ensures { result.now ≡ said_of_confinement rule }
{
    match rule {
        ConfinementRule::StaticField => "V1 StaticField",
        ConfinementRule::ImmutableField => "V2 ImmutableField",
        ConfinementRule::PowerlessField => "V3 PowerlessField",
        ConfinementRule::SelflessClass => "V4 SelflessClass",
        ConfinementRule::SelflessEquatable => "V5 SelflessEquatable",
        ConfinementRule::ThisEscapes => "V6 ThisEscapes",
        ConfinementRule::CapturedLocal => "V7 CapturedLocal",
        ConfinementRule::EnclosingObject => "V8 EnclosingObject",
        ConfinementRule::IdentityComparison => "V9 IdentityComparison",
        ConfinementRule::ObjectText => "V10 ObjectText",
        ConfinementRule::NativeMethod => "V11 NativeMethod",
        ConfinementRule::Finalizer => "V12 Finalizer",
        ConfinementRule::CatchError => "V13 CatchError",
        ConfinementRule::Finally => "V14 Finally",
        ConfinementRule::NotEnabled => "V15 NotEnabled",
        ConfinementRule::NotExtensible => "V16 NotExtensible",
    }
}
