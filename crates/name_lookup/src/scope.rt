// Scopes: what a name means at a place (JLS 6.3, 6.5, 8.1.2, 14.3).

ghost use Rattle.std.specs.Prelude.{◌≡◌, IfOk};
ghost use Rattle.je_scopes.specs.Scope as scope;
ghost use Rattle.name_sites.specs.View.{source_of};
ghost use Rattle.name_walk.specs.View.{context_view};
ghost use Rattle.name_lookup.specs.View.{look_view, part_view, known_of};
ghost use Rattle.name_lookup.specs.Table.{AreHeadersOf};

use crate::headers::Headers;
use crate::look::{Look, Part, Place};
use je_base::{Memory, NameId};
use je_core::ClassId;
use name_sites::Sites;
use name_walk::Context;
use std::alloc::Global;

impl Part {
    // Where a class that stands so in the class round it is: what is in a static member stays so further out.
    fn outside(self, context: Context) -> Part
        ensures { part_view result ≡ scope.part_outside (part_view self) (context_view context) }
    {
        match (self, context) {
            (Part::StaticMember, _) => Part::StaticMember,
            (_, Context::Static) => Part::StaticMember,
            (Part::Header, _) => Part::Member,
            (Part::Member, _) => Part::Member,
        }
    }
}

// The type variable of a class by a name; in its static members it means nothing (JLS 8.1.2).
fn variable(sites: &Sites, class: ClassId, part: Part, name: NameId) -> Look
    ensures { look_view result ≡
        scope.variable_named (source_of sites.now) class.0 (part_view part) name }
{
    match (sites.parameter(class, name), part) {
        (None, _) => Look::Nothing,
        (Some(_), Part::StaticMember) => Look::Unclear,
        (Some(at), Part::Header) => Look::Variable(class, at),
        (Some(at), Part::Member) => Look::Variable(class, at),
    }
}

impl Headers {
    /// What a simple name means at a place: what the nearest class or block round it has, or else the unit or the program at
    /// its top (JLS 6.3).
    pub fn in_scope(
        &self,
        alloc: Global,
        sites: &Sites,
        place: Place,
        name: NameId,
    ) -> Result<Look, Memory>
        requires { AreHeadersOf (source_of sites.now) self.now }
        ensures { IfOk result (λ look. look_view look ≡
            scope.in_scope (source_of sites.now) (known_of self.now) place.class.0
            (part_view place.part) name) }
    {
        let mut class = place.class;
        let mut part = place.part;
        loop {
            let near = self.nearest(alloc, sites, class, part, name)?;
            if !near.is_nothing() {
                return Ok(near);
            }
            let outside = sites.outside(class);
            let Some(within) = outside.within else {
                return Ok(Look::of(sites.at_top(sites.unit(class), name)));
            };
            part = part.outside(outside.context);
            class = within;
        }
    }

    // What a class has, or else the nearest local class that is in scope where it stands (JLS 14.3).
    fn nearest(
        &self,
        alloc: Global,
        sites: &Sites,
        class: ClassId,
        part: Part,
        name: NameId,
    ) -> Result<Look, Memory>
        requires { AreHeadersOf (source_of sites.now) self.now }
        ensures { IfOk result (λ look. look_view look ≡
            scope.nearest (source_of sites.now) (known_of self.now) name (part_view part) class.0) }
    {
        let inside = self.in_class(alloc, sites, class, part, name)?;
        if !inside.is_nothing() {
            return Ok(inside);
        }
        Ok(Look::of(sites.local_named(class, name)))
    }

    // What a class has by a name: the member class that it declares, or else a type variable, or else what it inherits. In its
    // header its members aren't in scope (JLS 6.3, 8.1.2, 8.5).
    fn in_class(
        &self,
        alloc: Global,
        sites: &Sites,
        class: ClassId,
        part: Part,
        name: NameId,
    ) -> Result<Look, Memory>
        requires { AreHeadersOf (source_of sites.now) self.now }
        ensures { IfOk result (λ look. look_view look ≡
            scope.in_class (source_of sites.now) (known_of self.now) name
            (part_view part) class.0) }
    {
        let variable = variable(sites, class, part, name);
        if let Part::Header = part {
            return Ok(variable);
        }
        let declared = Look::of(sites.declared(Some(class), name));
        if !declared.is_nothing() {
            return Ok(declared);
        }
        if !variable.is_nothing() {
            return Ok(variable);
        }
        self.inherited(alloc, sites, class, name)
    }
}
