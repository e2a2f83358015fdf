// The members of a class.

ghost use Rattle.std.specs.Prelude.{◌≡◌};
ghost use Rattle.je_ast.specs.View.{declaration_view, declaration_node_view, member_views_of};
ghost use Rattle.je_scopes.specs.Headers.{constants_in, declared_constants, declared_members, members_in};
ghost use Rattle.name_walk.specs.View.{written_view};

use je_ast::{Decl, Identifier, Member};
use name_walk::Written;

#[tactic(auto, using(je_ast::proofs::Views::declaration_is))]
fn members(decl: &Decl) -> &[Member]
    ensures { member_views_of result.now ≡ declared_members (declaration_view decl.now) }
{
    members_here(decl)
}

fn members_here(decl: &Decl) -> &[Member]
    ensures { member_views_of result.now ≡ declared_members (declaration_node_view decl.now) }
{
    match decl {
        Decl::Class { body, .. } | Decl::Interface { body, .. } => body,
        Decl::Enum { .. } => &[],
    }
}

/// The members of a class, in order (JLS 8.1.6, 9.1.4).
pub fn members_of<'a>(written: Written<'a>) -> &'a [Member]
    ensures { member_views_of result.now ≡ members_in (written_view written.entry) }
{
    match written {
        Written::Library => &[],
        Written::Declared { decl } => members(decl),
        Written::Anonymous { body, .. } => body,
    }
}

#[tactic(auto, using(je_ast::proofs::Views::declaration_is))]
fn constants(decl: &Decl) -> &[Identifier]
    ensures { result.now ≡ declared_constants (declaration_view decl.now) }
{
    constants_here(decl)
}

fn constants_here(decl: &Decl) -> &[Identifier]
    ensures { result.now ≡ declared_constants (declaration_node_view decl.now) }
{
    match decl {
        Decl::Enum { constants, .. } => constants,
        Decl::Class { .. } | Decl::Interface { .. } => &[],
    }
}

/// The constants of an enum, in order (JLS 8.9); other classes have none.
pub fn constants_of<'a>(written: Written<'a>) -> &'a [Identifier]
    ensures { result.now ≡ constants_in (written_view written.entry) }
{
    match written {
        Written::Declared { decl } => constants(decl),
        Written::Library | Written::Anonymous { .. } => &[],
    }
}
