// Which members have a body.

ghost use Rattle.std.specs.Prelude.{◌≡◌};
ghost use Rattle.je_ast.specs.View.{member_node_view};
ghost use Rattle.je_scopes.specs.Headers.{has_name};
ghost use Rattle.member_rules.specs.Bodies as words;

use je_ast::{Identifier, Member, Modifier, ModifierKind};
use je_base::{NameId, Span};

/// The place that offends where a member of a class or an interface has a body and can't have one, or has none and should: a
/// method's or a constructor's name, an initializer's opening bracket. `class` is the simple name of the class, where it has
/// one; a constructor has that name.
pub fn bad_body(class: Option<NameId>, in_interface: bool, member: &Member) -> Option<Span>
    ensures { result ≡ words.bad_body class in_interface (member_node_view member.now) }
{
    match member {
        Member::Type { .. } | Member::Field { .. } => None,
        Member::Method {
            modifiers,
            name,
            body,
            ..
        } => bad_method(in_interface, modifiers, *name, body.is_some()),
        Member::Constructor { name, .. } => bad_constructor(class, in_interface, *name),
        Member::Initializer { body, .. } => bad_initializer(in_interface, body.opening),
    }
}

fn bad_method(
    in_interface: bool,
    modifiers: &[Modifier],
    name: Identifier,
    has_body: bool,
) -> Option<Span>
    ensures { result ≡ words.bad_method in_interface modifiers.now name has_body }
{
    if has_body == (in_interface || has_no_body(modifiers)) {
        Some(name.span)
    } else {
        None
    }
}

// Whether modifiers say that a method has its body elsewhere, or none.
fn has_no_body(modifiers: &[Modifier]) -> bool
    ensures { result ≡ words.has_no_body modifiers.now }
{
    modifiers.iter().any(|modifier| {
        matches!(modifier.kind, ModifierKind::Abstract | ModifierKind::Native)
    })
}

fn bad_constructor(class: Option<NameId>, in_interface: bool, name: Identifier) -> Option<Span>
    ensures { result ≡ words.bad_constructor class in_interface name }
{
    if in_interface || !is_named(class, name.name) {
        Some(name.span)
    } else {
        None
    }
}

fn is_named(class: Option<NameId>, name: NameId) -> bool
    ensures { result ≡ has_name class name }
{
    match class {
        None => false,
        Some(own) => own.0 == name.0,
    }
}

fn bad_initializer(in_interface: bool, opening: Span) -> Option<Span>
    ensures { result ≡ words.bad_initializer in_interface opening }
{
    if in_interface { Some(opening) } else { None }
}
