// What modifiers say.

ghost use Rattle.std.specs.Prelude.{◌≡◌};
ghost use Rattle.declarations.specs.Words as words;

use je_ast::{Modifier, ModifierKind};
use je_core::Access;
use name_walk::has_private;

fn has_public(modifiers: &[Modifier]) -> bool
    ensures { result ≡ words.has_public modifiers.now }
{
    modifiers
        .iter()
        .any(|modifier| matches!(modifier.kind, ModifierKind::Public))
}

fn has_protected(modifiers: &[Modifier]) -> bool
    ensures { result ≡ words.has_protected modifiers.now }
{
    modifiers.iter().any(|modifier| matches!(modifier.kind, ModifierKind::Protected))
}

/// Whether `final` stands among modifiers.
pub fn has_final(modifiers: &[Modifier]) -> bool
    ensures { result ≡ words.has_final modifiers.now }
{
    modifiers
        .iter()
        .any(|modifier| matches!(modifier.kind, ModifierKind::Final))
}

/// Whether `abstract` stands among modifiers.
pub fn has_abstract(modifiers: &[Modifier]) -> bool
    ensures { result ≡ words.has_abstract modifiers.now }
{
    modifiers
        .iter()
        .any(|modifier| matches!(modifier.kind, ModifierKind::Abstract))
}

/// Whether `native` stands among modifiers.
pub fn has_native(modifiers: &[Modifier]) -> bool
    ensures { result ≡ words.has_native modifiers.now }
{
    modifiers
        .iter()
        .any(|modifier| matches!(modifier.kind, ModifierKind::Native))
}

/// The access that modifiers say (JLS 6.6); a member of an interface is public (JLS 9.3, 9.4, 9.5).
pub fn access_of(in_interface: bool, modifiers: &[Modifier]) -> Access
    ensures { result ≡ words.access_of in_interface modifiers.now }
{
    if has_private(modifiers) {
        Access::Private
    } else if in_interface || has_public(modifiers) {
        Access::Public
    } else if has_protected(modifiers) {
        Access::Protected
    } else {
        Access::Package
    }
}
