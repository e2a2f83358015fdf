// Which modifiers stand on a declaration.

ghost use Rattle.std.specs.Prelude.{◌≡◌};
ghost use Rattle.member_rules.specs.Modifiers as words;

use je_ast::{Modifier, ModifierKind};
use je_base::Span;

/// What is declared.
#[derive(Clone, Copy, PartialEq, Eq)]
pub enum Declared {
    /// A class.
    Class,
    /// An interface.
    Interface,
    /// An enum.
    Enum,
    /// A field.
    Field,
    /// A method.
    Method,
    /// A constructor.
    Constructor,
}

/// What a declaration stands in.
#[derive(Clone, Copy, PartialEq, Eq)]
pub enum Surrounding {
    /// A file: it stands at the top.
    Unit,
    /// The body of a class.
    ClassBody,
    /// The body of an interface.
    InterfaceBody,
    /// A block.
    Block,
}

/// The first modifier, read from left to right, that the declaration can't have in its place, or not beside those before it:
/// one twice, two access words, `abstract` with `final`, or on a method `abstract` with `private`, `static` or `native`.
/// `@Override` may stand everywhere, as often as it is written.
#[tactic(auto, unfolding(crate::specs::Modifiers::bad_modifier))]
pub fn bad_modifier(declared: Declared, place: Surrounding, modifiers: &[Modifier]) -> Option<Span>
    ensures { result ≡ words.bad_modifier declared place modifiers.now }
{
    for at in 0..modifiers.len() {
        let modifier = modifiers[at];
        if is_bad(declared, place, &modifiers[..at], modifier.kind) {
            return Some(modifier.span);
        }
    }
    None
}

fn is_bad(declared: Declared, place: Surrounding, earlier: &[Modifier], kind: ModifierKind) -> bool
    ensures { result ≡ words.is_bad declared place earlier.now kind }
{
    !allows(declared, place, kind) || clashes(declared, earlier, kind)
}

fn clashes(declared: Declared, earlier: &[Modifier], kind: ModifierKind) -> bool
    ensures { result ≡ words.clashes declared earlier.now kind }
{
    for at in 0..earlier.len() {
        if clash(declared, earlier[at].kind, kind) {
            return true;
        }
    }
    false
}

// Whether the declaration can have a modifier at all.
fn allows(declared: Declared, place: Surrounding, kind: ModifierKind) -> bool
    ensures { result ≡ words.allows declared place kind }
{
    match kind {
        ModifierKind::Override => true,
        ModifierKind::Public => allows_public(place),
        ModifierKind::Protected | ModifierKind::Private => matches!(place, Surrounding::ClassBody),
        ModifierKind::Static => allows_static(declared, place),
        ModifierKind::Final => allows_final(declared, place),
        ModifierKind::Abstract => allows_abstract(declared),
        ModifierKind::Native => is_class_method(declared, place),
    }
}

fn allows_public(place: Surrounding) -> bool
    ensures { result ≡ words.allows_public place }
{
    !matches!(place, Surrounding::Block)
}

fn is_in_class_or_interface(place: Surrounding) -> bool
    ensures { result ≡ words.is_in_class_or_interface place }
{
    matches!(place, Surrounding::ClassBody | Surrounding::InterfaceBody)
}

fn is_class_method(declared: Declared, place: Surrounding) -> bool
    ensures { result ≡ words.is_class_method declared place }
{
    matches!(declared, Declared::Method) && matches!(place, Surrounding::ClassBody)
}

fn allows_static(declared: Declared, place: Surrounding) -> bool
    ensures { result ≡ words.allows_static declared place }
{
    match declared {
        Declared::Class | Declared::Interface | Declared::Enum | Declared::Field => {
            is_in_class_or_interface(place)
        }
        Declared::Method | Declared::Constructor => is_class_method(declared, place),
    }
}

fn allows_final(declared: Declared, place: Surrounding) -> bool
    ensures { result ≡ words.allows_final declared place }
{
    match declared {
        Declared::Class | Declared::Field => true,
        Declared::Interface | Declared::Enum => false,
        Declared::Method | Declared::Constructor => is_class_method(declared, place),
    }
}

fn allows_abstract(declared: Declared) -> bool
    ensures { result ≡ words.allows_abstract declared }
{
    matches!(
        declared,
        Declared::Class | Declared::Interface | Declared::Method
    )
}

// Whether two modifiers of a declaration can't stand together.
fn clash(declared: Declared, one: ModifierKind, other: ModifierKind) -> bool
    ensures { result ≡ words.clash declared one other }
{
    match one {
        ModifierKind::Override => false,
        ModifierKind::Public | ModifierKind::Protected => is_access(other),
        ModifierKind::Private => is_access(other) || is_abstract_method(declared, other),
        ModifierKind::Static => {
            matches!(other, ModifierKind::Static) || is_abstract_method(declared, other)
        }
        ModifierKind::Final => matches!(other, ModifierKind::Final | ModifierKind::Abstract),
        ModifierKind::Abstract => clashes_with_abstract(declared, other),
        ModifierKind::Native => {
            matches!(other, ModifierKind::Native) || is_abstract_method(declared, other)
        }
    }
}

fn is_access(kind: ModifierKind) -> bool
    ensures { result ≡ words.is_access kind }
{
    matches!(
        kind,
        ModifierKind::Public | ModifierKind::Protected | ModifierKind::Private
    )
}

fn is_abstract_method(declared: Declared, kind: ModifierKind) -> bool
    ensures { result ≡ words.is_abstract_method declared kind }
{
    matches!(declared, Declared::Method) && matches!(kind, ModifierKind::Abstract)
}

fn clashes_with_abstract(declared: Declared, kind: ModifierKind) -> bool
    ensures { result ≡ words.clashes_with_abstract declared kind }
{
    match kind {
        ModifierKind::Abstract | ModifierKind::Final => true,
        ModifierKind::Private | ModifierKind::Static | ModifierKind::Native => {
            matches!(declared, Declared::Method)
        }
        ModifierKind::Override | ModifierKind::Public | ModifierKind::Protected => false,
    }
}
