// Qualified names (JLS 6.5.4, 6.5.5, 6.6.1).

ghost use Rattle.std.specs.Prelude.{◌≡◌, ◌++◌, IfOk, OnOk};
ghost use Rattle.je_scopes.specs.Looks.{class_found};
ghost use Rattle.je_scopes.specs.Scope as scope;
ghost use Rattle.name_sites.specs.View.{source_of};
ghost use Rattle.name_lookup.specs.View.{look_view, part_view, numbers, known_of};
ghost use Rattle.name_lookup.specs.Table.{AreHeadersOf};

use crate::headers::Headers;
use crate::look::{Look, Place};
use je_ast::Identifier;
use je_base::{Memory, NameId};
use je_core::ClassId;
use name_sites::Sites;
use std::alloc::Global;

/// What a name means, and the classes that it names: each part that is one, a qualifier too.
#[derive(Drop)]
pub struct Meaning {
    pub look: Look,
    pub named: Vec<ClassId>,
}

// Puts the class that was found behind the others.
fn add_found(named: &mut Vec<ClassId>, look: Look) -> Result<(), Memory>
    ensures { OnOk result
        (numbers named.new.items ≡ numbers named.old.items ++ class_found (look_view look)) }
{
    if let Look::Class(class) = look {
        named.push(class)?;
    }
    Ok(())
}

impl Headers {
    /// What a name means at a place.
    pub fn meaning(
        &self,
        alloc: Global,
        sites: &Sites,
        place: Place,
        parts: &[Identifier],
    ) -> Result<Meaning, Memory>
        requires { AreHeadersOf (source_of sites.now) self.now }
        ensures look { IfOk result (λ m. look_view m.look ≡
            scope.meaning (source_of sites.now) (known_of self.now) place.class.0
            (part_view place.part) parts.now) }
        ensures named { IfOk result (λ m. numbers m.named.items ≡
            scope.named (source_of sites.now) (known_of self.now) place.class.0
            (part_view place.part) parts.now) }
    {
        let Some((first, further)) = parts.split_first() else {
            return Ok(Meaning {
                look: Look::Nothing,
                named: Vec::new(alloc),
            });
        };
        let look = self.in_scope(alloc, sites, place, first.name)?;
        self.meaning_behind(alloc, sites, look, parts, further)
    }

    /// What a name means whose first part means this, with the parts behind that one; where that means nothing, the
    /// whole name means a class of the library.
    pub fn meaning_behind(
        &self,
        alloc: Global,
        sites: &Sites,
        first: Look,
        parts: &[Identifier],
        further: &[Identifier],
    ) -> Result<Meaning, Memory>
        requires { AreHeadersOf (source_of sites.now) self.now }
        ensures look { IfOk result (λ m. look_view m.look ≡
            scope.or_full_name (source_of sites.now) parts.now (look_view first)
            (scope.qualified (source_of sites.now) (known_of self.now)
            (look_view first) further.now)) }
        ensures named { IfOk result (λ m. numbers m.named.items ≡
            scope.or_whole (source_of sites.now) parts.now (look_view first)
            (scope.named_on (source_of sites.now) (known_of self.now)
            (look_view first) further.now)) }
    {
        if first.is_nothing() {
            return self.whole(alloc, Look::of(sites.full_name(alloc, parts)?));
        }
        self.qualified(alloc, sites, first, further)
    }

    // A name that means this as a whole.
    fn whole(&self, alloc: Global, look: Look) -> Result<Meaning, Memory>
        ensures look { IfOk result (λ m. look_view m.look ≡ look_view look) }
        ensures named { IfOk result (λ m. numbers m.named.items ≡ class_found (look_view look)) }
    {
        let mut named = Vec::new(alloc);
        add_found(&mut named, look)?;
        Ok(Meaning { look, named })
    }

    // What further parts mean behind what is found of those before them.
    fn qualified(
        &self,
        alloc: Global,
        sites: &Sites,
        first: Look,
        further: &[Identifier],
    ) -> Result<Meaning, Memory>
        requires { AreHeadersOf (source_of sites.now) self.now }
        ensures look { IfOk result (λ m. look_view m.look ≡
            scope.qualified (source_of sites.now) (known_of self.now)
            (look_view first) further.now) }
        ensures named { IfOk result (λ m. numbers m.named.items ≡
            scope.named_on (source_of sites.now) (known_of self.now)
            (look_view first) further.now) }
    {
        let mut named = Vec::new(alloc);
        let mut look = first;
        for part in further {
            add_found(&mut named, look)?;
            look = self.member_of(alloc, sites, look, part.name)?;
        }
        add_found(&mut named, look)?;
        Ok(Meaning { look, named })
    }

    // A member class of what is found; a type variable has none.
    fn member_of(
        &self,
        alloc: Global,
        sites: &Sites,
        look: Look,
        name: NameId,
    ) -> Result<Look, Memory>
        requires { AreHeadersOf (source_of sites.now) self.now }
        ensures { IfOk result (λ found. look_view found ≡
            scope.member_of (source_of sites.now) (known_of self.now) name (look_view look)) }
    {
        match look {
            Look::Class(class) => self.member_class(alloc, sites, class, name),
            Look::Variable(_, _) => Ok(Look::Unclear),
            Look::Waits(class) => Ok(Look::Waits(class)),
            Look::Nothing => Ok(Look::Nothing),
            Look::Unclear => Ok(Look::Unclear),
        }
    }
}

/// Whether a class may be named in another: a private member class only in its top-level class (JLS 6.6.1).
pub fn is_accessible(sites: &Sites, class: ClassId, named: ClassId) -> bool
    ensures { result ≡ scope.is_accessible (source_of sites.now) class.0 named.0 }
{
    !sites.is_private(named) || sites.top_of(class).0 == sites.top_of(named).0
}
