// What modifiers say of where a class stands.

ghost use Rattle.std.specs.Prelude.{◌≡◌};
ghost use Rattle.je_ast.specs.View.{declaration_node_view, declaration_view, statement_node_view, statement_view};
ghost use Rattle.je_scopes.specs.Sites.{has_static as has_static_word, has_private as has_private_word, is_static_declaration as is_static_member, context_of as context_for, initializer_context as context_in};
ghost use Rattle.name_walk.specs.View.{context_view, is_local_class};

use crate::site::Context;
use je_ast::{Decl, Modifier, ModifierKind, Stmt};
use je_base::Span;

/// Whether `static` stands among modifiers.
pub fn has_static(modifiers: &[Modifier]) -> bool
    ensures { result ≡ has_static_word modifiers.now }
{
    modifiers
        .iter()
        .any(|modifier| matches!(modifier.kind, ModifierKind::Static))
}

/// Whether `private` stands among modifiers.
pub fn has_private(modifiers: &[Modifier]) -> bool
    ensures { result ≡ has_private_word modifiers.now }
{
    modifiers
        .iter()
        .any(|modifier| matches!(modifier.kind, ModifierKind::Private))
}

/// Whether a member class has no enclosing instance (JLS 8.5.2, 8.9, 9.5).
#[tactic(auto, using(je_ast::proofs::Views::declaration_is))]
pub fn is_static_declaration(decl: &Decl, in_interface: bool) -> bool
    ensures { result ≡ is_static_member in_interface (declaration_view decl.now) }
{
    is_static_here(decl, in_interface)
}

fn is_static_here(decl: &Decl, in_interface: bool) -> bool
    ensures { result ≡ is_static_member in_interface (declaration_node_view decl.now) }
{
    match decl {
        Decl::Class { modifiers, .. } => in_interface || has_static(modifiers),
        Decl::Interface { .. } | Decl::Enum { .. } => true,
    }
}

/// Whether a statement declares a class.
#[tactic(auto, using(je_ast::proofs::Views::statement_is))]
pub fn declares_class(stmt: &Stmt) -> bool
    ensures { result ≡ is_local_class (statement_view stmt.now) }
{
    declares_here(stmt)
}

fn declares_here(stmt: &Stmt) -> bool
    ensures { result ≡ is_local_class (statement_node_view stmt.now) }
{
    matches!(stmt, Stmt::Class { .. })
}

/// The context in a member.
pub fn context_of(is_static: bool) -> Context
    ensures { context_view result ≡ context_for is_static }
{
    if is_static {
        Context::Static
    } else {
        Context::Instance
    }
}

/// The context in an initializer, before which the word `static` may stand.
pub fn initializer_context(word: &Option<Span>) -> Context
    ensures { context_view result ≡ context_in word.now }
{
    match word {
        Some(_) => Context::Static,
        None => Context::Instance,
    }
}
