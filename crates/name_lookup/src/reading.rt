// What a header names, over the headers that are known (JLS 8.1.4, 8.1.5, 9.1.3).

ghost use Rattle.std.specs.Prelude.{◌≡◌, ◌++◌, IfOk, OnOk};
ghost use Rattle.std.specs.List.{list_all};
ghost use Rattle.je_ast.specs.Types.{type_view, type_node_view};
ghost use Rattle.je_scopes.specs.Laws.{header_of};
ghost use Rattle.je_scopes.specs.Settled.{parts_of};
ghost use Rattle.je_scopes.specs.Scope as scope;
ghost use Rattle.name_sites.specs.View.{source_of};
ghost use Rattle.name_lookup.specs.View.{look_view, numbers, known_of, reading_view, given};
ghost use Rattle.name_lookup.specs.Table.{AreHeadersOf};

use crate::headers::Headers;
use crate::look::{Look, Part, Place};
use crate::meaning::{Meaning, is_accessible};
use je_ast::TyName;
use je_base::Memory;
use je_core::ClassId;
use name_sites::Sites;
use std::alloc::Global;

/// What comes of the reading of a header.
#[derive(Drop)]
pub enum Reading {
    /// A name in it waits for the header of this class.
    Waits(ClassId),
    /// It names these classes.
    Supers(Vec<ClassId>),
}

/// Whether each of these may be named in a class (JLS 6.6.1).
pub fn are_accessible(sites: &Sites, class: ClassId, named: &[ClassId]) -> bool
    ensures { result ≡ list_all (scope.is_accessible (source_of sites.now) class.0)
        (numbers named.now) }
{
    for other in named {
        if !is_accessible(sites, class, *other) {
            return false;
        }
    }
    true
}

// Puts the class that a name in a header means behind the others, if all that it names may be named there.
fn add_super(
    sites: &Sites,
    supers: &mut Vec<ClassId>,
    class: ClassId,
    meant: &Meaning,
) -> Result<(), Memory>
    ensures { OnOk result (numbers supers.new.items ≡
        numbers supers.old.items ++ given (list_all (scope.is_accessible (source_of sites.now)
        class.0) (numbers meant.now.named.items)) (look_view meant.now.look)) }
{
    if let Look::Class(above) = meant.look {
        if are_accessible(sites, class, meant.named.as_slice()) {
            supers.push(above)?;
        }
    }
    Ok(())
}

impl Headers {
    /// What a type in a header means.
    #[tactic(auto, using(je_ast::proofs::Views::type_is))]
    pub fn head_meaning(
        &self,
        alloc: Global,
        sites: &Sites,
        class: ClassId,
        head: &TyName,
    ) -> Result<Meaning, Memory>
        requires { AreHeadersOf (source_of sites.now) self.now }
        ensures look { IfOk result (λ m. look_view m.look ≡
            scope.meaning (source_of sites.now) (known_of self.now) class.0 scope.header
            (parts_of (type_view head.now))) }
        ensures named { IfOk result (λ m. numbers m.named.items ≡
            scope.named (source_of sites.now) (known_of self.now) class.0 scope.header
            (parts_of (type_view head.now))) }
    {
        self.node_meaning(alloc, sites, class, head)
    }

    fn node_meaning(
        &self,
        alloc: Global,
        sites: &Sites,
        class: ClassId,
        head: &TyName,
    ) -> Result<Meaning, Memory>
        requires { AreHeadersOf (source_of sites.now) self.now }
        ensures look { IfOk result (λ m. look_view m.look ≡
            scope.meaning (source_of sites.now) (known_of self.now) class.0 scope.header
            (parts_of (type_node_view head.now))) }
        ensures named { IfOk result (λ m. numbers m.named.items ≡
            scope.named (source_of sites.now) (known_of self.now) class.0 scope.header
            (parts_of (type_node_view head.now))) }
    {
        match head {
            TyName::Primitive { .. } => Ok(Meaning {
                look: Look::Nothing,
                named: Vec::new(alloc),
            }),
            TyName::Class { name, .. } => {
                let place = Place {
                    class,
                    part: Part::Header,
                };
                self.meaning(alloc, sites, place, name.parts.as_slice())
            }
        }
    }

    /// What the header of a class names, or the first header for which it waits.
    pub fn read(&self, alloc: Global, sites: &Sites, class: ClassId) -> Result<Reading, Memory>
        requires { AreHeadersOf (source_of sites.now) self.now }
        ensures { IfOk result
            (λ r. reading_view r ≡ header_of (source_of sites.now) (known_of self.now) class.0) }
    {
        let mut supers = Vec::new(alloc);
        let mut at = 0;
        while let Some(head) = sites.head(class, at) {
            let meant = self.head_meaning(alloc, sites, class, head)?;
            if let Look::Waits(needed) = meant.look {
                return Ok(Reading::Waits(needed));
            }
            add_super(sites, &mut supers, class, &meant)?;
            at += 1;
        }
        Ok(Reading::Supers(supers))
    }
}
