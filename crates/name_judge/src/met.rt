// Signatures that were met.

ghost use Rattle.std.specs.Prelude.{◌≡◌, ◌++◌, ◌∷◌, [], List, IfOk, OnOk};
ghost use Rattle.std.specs.List.{list_any};
ghost use Rattle.je_scopes.specs.Faults.{same_signature};
ghost use Rattle.je_scopes.specs.Members.{MethodSite};
ghost use Rattle.je_scopes.specs.Settled.{settled};
ghost use Rattle.je_scopes.specs.Source.{Source};
ghost use Rattle.name_sites.specs.View.{source_of};
ghost use Rattle.name_lookup.specs.View.{known_of};
ghost use Rattle.name_lookup.specs.Table.{AreHeadersOf};

use crate::spelling::{Around, signature};
use indexmap::IndexSet;
use je_ast::Formal;
use je_base::{Memory, NameId};
use name_lookup::{Headers, Place};
use name_sites::Sites;
use std::alloc::Global;

/// The head of a method or constructor: where its parameters' types stand, and what its signature is made of.
#[derive(Clone, Copy)]
pub struct MethodHead<'a> {
    pub place: Place,
    pub is_constructor: bool,
    pub name: NameId,
    pub formals: &'a [Formal],
}

/// The signatures of methods and constructors of one class.
#[derive(Drop)]
pub struct Signatures {
    lists: IndexSet<Vec<u128>>,
}

impl Signatures {
    ghost use Rattle.std.specs.Prelude.{◌≡◌, ◌++◌, ◌∷◌, [], ℕ, List, IfOk, OnOk};
    ghost use Rattle.name_judge.specs.Kept.{AreMet, IsHead};

    /// No signatures.
    #[tactic(auto, unfolding(crate::specs::Kept::AreMet, crate::specs::Kept::holds))]
    pub fn new(alloc: Global) -> Signatures
        ensures { (p : Source) (c : ℕ) → AreMet p c [] result }
    {
        Signatures {
            lists: IndexSet::new(alloc),
        }
    }

    /// One more method or constructor of the class. Whether it has the signature of an earlier one.
    pub fn add(
        &mut self,
        alloc: Global,
        headers: &Headers,
        sites: &Sites,
        head: MethodHead,
    ) -> Result<bool, Memory>
        requires fits { AreHeadersOf (source_of sites.now) headers.now }
        requires settled { settled (source_of sites.now) ≡ known_of headers.now }
        ensures repeats { IfOk result (λ repeats. (earlier : List MethodSite) (m : MethodSite) →
            AreMet (source_of sites.now) head.entry.place.class.0 earlier self.old →
            IsHead head.entry m → repeats ≡
            list_any (same_signature (source_of sites.now) head.entry.place.class.0 m) earlier) }
        ensures met { OnOk result ((earlier : List MethodSite) (m : MethodSite) →
            AreMet (source_of sites.now) head.entry.place.class.0 earlier self.old →
            IsHead head.entry m → AreMet (source_of sites.now) head.entry.place.class.0
            (earlier ++ m ∷ []) self.new) }
    {
        let around = Around {
            alloc,
            headers,
            sites,
            place: head.place,
        };
        let list = signature(&around, head.is_constructor, head.name, head.formals)?;
        let (_, is_new) = self.lists.insert_full(list)?;
        Ok(!is_new)
    }
}
