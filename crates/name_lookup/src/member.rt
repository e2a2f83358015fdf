// Member classes, declared and inherited (JLS 8.5, 9.5).

ghost use Rattle.std.specs.Prelude.{◌≡◌, ℕ, ◌<◌, nat_eq, length, IfOk, OnOk};
ghost use Rattle.std.specs.List.{Contains, IsDistinct};
ghost use Rattle.je_scopes.specs.Looks as looks;
ghost use Rattle.je_scopes.specs.Scope as scope;
ghost use Rattle.scope_laws.specs.Walks.{brings, leads_to, inherited_from};
ghost use Rattle.scope_laws.proofs.Gains.{Gains};
ghost use Rattle.name_sites.specs.Number.{number_of};
ghost use Rattle.name_sites.specs.View.{source_of};
ghost use Rattle.name_lookup.specs.View.{look_view, numbers, known_of};
ghost use Rattle.name_lookup.specs.Table.{AreHeadersOf};

use crate::headers::Headers;
use crate::look::Look;
use indexmap::IndexSet;
use je_base::{Memory, NameId};
use je_core::ClassId;
use name_sites::Sites;
use std::alloc::Global;

/// Puts each of these that isn't there yet behind the classes that are.
pub fn add_all(met: &mut IndexSet<ClassId>, classes: &[ClassId]) -> Result<(), Memory>
    ensures gains { OnOk result
        (Gains (numbers met.old.keys) (numbers met.new.keys) (numbers classes.now)) }
    ensures distinct { OnOk result (IsDistinct nat_eq (numbers met.old.keys) →
        IsDistinct nat_eq (numbers met.new.keys)) }
{
    for class in classes {
        met.insert(*class)?;
    }
    Ok(())
}

impl Headers {
    #[tactic(auto, using(crate::proofs::Members::own_member, crate::proofs::Members::no_member))]
    /// The member class of a class by a name: the one that it declares, or else the one that it inherits (JLS 8.5).
    pub fn member_class(
        &self,
        alloc: Global,
        sites: &Sites,
        class: ClassId,
        name: NameId,
    ) -> Result<Look, Memory>
        requires { AreHeadersOf (source_of sites.now) self.now }
        ensures { IfOk result (λ look. look_view look ≡
            scope.member_class (source_of sites.now) (known_of self.now) name class.0) }
    {
        if let Some(member) = sites.declared(Some(class), name) {
            return Ok(Look::Class(member));
        }
        let Some(supers) = self.known(class) else {
            return Ok(Look::Waits(class));
        };
        if supers.is_empty() {
            return Ok(Look::Nothing);
        }
        self.among(alloc, sites, &[class], name)
    }

    /// What a class inherits by a name.
    pub(crate) fn inherited(
        &self,
        alloc: Global,
        sites: &Sites,
        class: ClassId,
        name: NameId,
    ) -> Result<Look, Memory>
        requires { AreHeadersOf (source_of sites.now) self.now }
        ensures { IfOk result (λ look. look_view look ≡
            scope.inherited (source_of sites.now) (known_of self.now) name class.0) }
    {
        match self.known(class) {
            Some(supers) => self.among(alloc, sites, supers, name),
            None => Ok(Look::Waits(class)),
        }
    }

    // What can be inherited from these classes: of all classes that a look-up comes by, each once.
    fn among(
        &self,
        alloc: Global,
        sites: &Sites,
        supers: &[ClassId],
        name: NameId,
    ) -> Result<Look, Memory>
        requires fits { AreHeadersOf (source_of sites.now) self.now }
        requires within { (c : ℕ) → Contains (numbers supers.now) c →
            c < length (source_of sites.now).sites }
        ensures { IfOk result (λ look. look_view look ≡
            inherited_from (source_of sites.now) (known_of self.now) name (numbers supers.now)) }
    {
        let mut met = IndexSet::new(alloc);
        add_all(&mut met, supers)?;
        let mut found = Look::Nothing;
        let mut at = 0;
        while let Some(class) = met.get_index(at).copied() {
            let brought = self.visit(sites, &mut met, class, name)?;
            if let Look::Waits(_) = brought {
                return Ok(brought);
            }
            found = found.joined(brought);
            at += 1;
        }
        Ok(found)
    }

    // What a class itself brings, with the classes above it met too where it declares none by the name. What it declares hides
    // what stands above it, also where it is private and isn't inherited.
    fn visit(
        &self,
        sites: &Sites,
        met: &mut IndexSet<ClassId>,
        class: ClassId,
        name: NameId,
    ) -> Result<Look, Memory>
        ensures brings { IfOk result (λ look. look_view look ≡
            brings (source_of sites.now) (known_of self.now) name class.0) }
        ensures gains { OnOk result (Gains (numbers met.old.keys) (numbers met.new.keys)
            (leads_to (source_of sites.now) (known_of self.now) name class.0)) }
        ensures distinct { OnOk result (IsDistinct nat_eq (numbers met.old.keys) →
            IsDistinct nat_eq (numbers met.new.keys)) }
    {
        if let Some(member) = sites.declared(Some(class), name) {
            return Ok(inheritable(sites, member));
        }
        let Some(above) = self.known(class) else {
            return Ok(Look::Waits(class));
        };
        add_all(met, above)?;
        Ok(Look::Nothing)
    }
}

// A class, where it isn't private.
fn inheritable(sites: &Sites, member: ClassId) -> Look
    ensures { look_view result ≡ scope.inheritable (source_of sites.now) (looks.a_class member.0) }
{
    if sites.is_private(member) {
        Look::Nothing
    } else {
        Look::Class(member)
    }
}
