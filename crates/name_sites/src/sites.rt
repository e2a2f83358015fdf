// The classes of all units.

ghost use Rattle.std.specs.Prelude.{◌≡◌, ◌<◌, ◌^◌, ℕ, Option, Some, length, slice_index};
ghost use Rattle.je_base.specs.declared.span.NameId.{NameId};
ghost use Rattle.je_scopes.specs.Headers.{top_of};
ghost use Rattle.je_scopes.specs.Looks.{found};
ghost use Rattle.je_scopes.specs.Scope.{first_declared, first_import};
ghost use Rattle.name_walk.specs.View.{NameEarlier, sites_of};
ghost use Rattle.name_sites.specs.ByName.{kept};
ghost use Rattle.name_sites.specs.Imports.{imports_among};
ghost use Rattle.name_sites.specs.Library.{implicit_numbers};

use crate::by_name::ByName;
use crate::header::{
    has_this_name, head, is_local, modifiers_of, name_of, parameter_place, parameters_of,
};
use crate::library::{full_name, text_of};
use je_ast::{Identifier, Modifier, TyName, TypeParam, Unit};
use je_base::{Memory, NameId, Names};
use je_core::{ClassId, Sort};
use name_walk::{ClassSite, Context, Spot, Written, has_private};
use std::alloc::Global;

/// The classes of all units, where each is written, and the maps by which names are found among them.
#[derive(Drop)]
pub struct Sites<'a> {
    pub(crate) names: &'a Names,
    pub(crate) units: &'a [Unit],
    pub(crate) classes: Vec<ClassSite<'a>>,
    pub(crate) tops: Vec<u32>,
    pub(crate) declared: ByName,
    pub(crate) imported: ByName,
    pub(crate) implicit: Vec<Option<u32>>,
    ghost few: { length classes.items < 2 ^ 27 },
    ghost earlier: { NameEarlier classes.items },
    ghost each_top: { length tops.items ≡ length classes.items },
    ghost tops_are: { (c : ℕ) → c < length classes.items → slice_index tops.items c ≡
        top_of (sites_of classes.items) c },
    ghost imported_are: { (u : ℕ) (x : NameId) → found (kept imported (Some u) x) ≡
        first_import names.now x (imports_among units.now u) },
    ghost implicit_are: { implicit.items ≡ implicit_numbers names.now },
    ghost declared_are: { (p : Option ℕ) (x : NameId) → kept declared p x ≡
        first_declared 0 (sites_of classes.items) p x },
}

/// What stands directly round a class.
#[derive(Clone, Copy, PartialEq, Eq)]
pub struct Outside {
    /// The class directly round it.
    pub within: Option<ClassId>,
    pub context: Context,
}

impl<'a> Sites<'a> {
    ghost use Rattle.std.specs.Prelude.{◌≡◌, ◌+◌, ◌<◌, ◌^◌, ℕ, IfOk, OnSome, Option, length, map, option_map, slice_get};
    ghost use Rattle.std.specs.Option.{ForSome};
    ghost use Rattle.je_ast.specs.Types.{parameter_view, type_view};
    ghost use Rattle.je_scopes.specs.Headers.{site_at, name_in, modifiers_in, parameters_in, is_private, top_of, within};
    ghost use Rattle.je_scopes.specs.Looks.{found};
    ghost use Rattle.je_scopes.specs.Scope.{at_top, declared, first_named, place_of_parameter};
    ghost use Rattle.je_scopes.specs.Source.{implicit_class, library_class, text_in};
    ghost use Rattle.je_scopes.specs.Settled.{heads_of};
    ghost use Rattle.name_walk.specs.View.{context_view, round_from, written_view};
    ghost use Rattle.name_sites.specs.Shown.{Shows};
    ghost use Rattle.name_sites.specs.Number.{number_in};
    ghost use Rattle.name_sites.specs.View.{source_of};

    /// How many classes there are.
    #[tactic(auto, using(name_walk::proofs::Behind::count_of_sites), unfolding(crate::specs::View::source_of))]
    pub fn len(&self) -> usize
        ensures count { result ≡ length (source_of self.now).sites }
        ensures few { result < 2 ^ 27 }
    {
        self.classes.len()
    }

    // The class of a number; one with nothing in it past the last.
    #[tactic(auto, unfolding(crate::specs::View::source_of))]
    fn class(&self, class: ClassId) -> ClassSite<'a>
        ensures { Shows (source_of self.now).sites class.0 result }
    {
        let at = class.0 as usize;
        if at < self.classes.len() {
            self.classes[at]
        } else {
            nothing()
        }
    }

    /// The first class that a class declares under a name, or that is declared under it at the top (JLS 7.6, 8.5).
    #[tactic(auto, unfolding(crate::specs::View::source_of))]
    pub fn declared(&self, within: Option<ClassId>, name: NameId) -> Option<ClassId>
        ensures { found (number_in result) ≡ declared (source_of self.now) (number_in within) name }
    {
        match self.declared.get(number(within), name) {
            Some(at) => Some(ClassId(at)),
            None => None,
        }
    }

    /// The class that a name means at the top of a unit: one that it imports, or else a class at the top of any unit, or else
    /// one of `java.lang` (JLS 6.4.1, 7.5.1, 7.5.5).
    #[tactic(auto, unfolding(crate::specs::View::source_of))]
    pub fn at_top(&self, unit: usize, name: NameId) -> Option<ClassId>
        ensures { found (number_in result) ≡ at_top (source_of self.now) unit name }
    {
        if let Some(at) = self.imported.get(Some(unit), name) {
            return Some(ClassId(at));
        }
        if let Some(at) = self.declared.get(None, name) {
            return Some(ClassId(at));
        }
        self.implicit(name)
    }

    // The class of `java.lang` of a simple name.
    #[tactic(auto, unfolding(crate::specs::View::source_of))]
    fn implicit(&self, name: NameId) -> Option<ClassId>
        ensures { number_in result ≡ implicit_class (source_of self.now).texts name }
    {
        let at = name.0 as usize;
        if at < self.implicit.len() {
            match self.implicit[at] {
                Some(class) => Some(ClassId(class)),
                None => None,
            }
        } else {
            None
        }
    }

    /// The class of the library whose full name these parts are (JLS 6.7).
    #[tactic(auto, unfolding(crate::specs::View::source_of))]
    pub fn full_name(&self, alloc: Global, parts: &[Identifier]) -> Result<Option<ClassId>, Memory>
        ensures { IfOk result
            (λ class. number_in class ≡ library_class (source_of self.now).texts parts.now) }
    {
        match full_name(alloc, self.names, parts)? {
            Some(class) => Ok(Some(ClassId(class))),
            None => Ok(None),
        }
    }

    /// The place of the type parameter of a name among those of a class (JLS 8.1.2).
    pub fn parameter(&self, class: ClassId, name: NameId) -> Option<usize>
        ensures { result ≡ place_of_parameter 0
            (parameters_in (site_at (source_of self.now).sites class.0).written) name }
    {
        parameter_place(parameters_of(self.class(class).written), name)
    }

    /// The type parameters of a class, in order (JLS 8.1.2, 9.1.2); those of a class of the library aren't among them.
    pub fn parameters(&self, class: ClassId) -> &'a [TypeParam]
        ensures { map parameter_view result.now ≡
            parameters_in (site_at (source_of self.now).sites class.0).written }
    {
        parameters_of(self.class(class).written)
    }

    /// The text of a name; the empty one for a number that is no name of the program.
    #[tactic(auto, unfolding(crate::specs::View::source_of))]
    pub fn text(&self, name: NameId) -> &'a str
        ensures { result.now ≡ text_in (source_of self.now).texts name }
    {
        text_of(self.names, name)
    }

    /// The nearest local class of a name that is in scope where a class stands, itself among them (JLS 6.3, 14.3).
    #[tactic(auto, using(crate::proofs::Locals::named_here, crate::proofs::Locals::named_further))]
    pub fn local_named(&self, class: ClassId, name: NameId) -> Option<ClassId>
        ensures { found (number_in result) ≡
            first_named (source_of self.now) name
            (site_at (source_of self.now).sites class.0).spot.locals }
    {
        let mut next = Some(class);
        while let Some(here) = next {
            let site = self.class(here);
            if is_local_named(&site, name) {
                return Some(here);
            }
            next = numbered(site.spot.nearest);
        }
        None
    }

    /// The class directly round a class, and the context in which it stands there (JLS 8.1.3).
    pub fn outside(&self, class: ClassId) -> Outside
        ensures round { (site_at (source_of self.now).sites class.0).spot.round ≡
            round_from (source_of self.now).sites (number_in result.within) }
        ensures within { number_in result.within ≡
            within (site_at (source_of self.now).sites class.0) }
        ensures context { context_view result.context ≡
            (site_at (source_of self.now).sites class.0).spot.context }
        ensures earlier { ForSome (number_in result.within) (λ d. d < class.0) }
    {
        let site = self.class(class);
        Outside {
            within: numbered(site.spot.within),
            context: site.spot.context,
        }
    }

    /// The place of the unit that a class stands in.
    pub fn unit(&self, class: ClassId) -> usize
        ensures { result ≡ (site_at (source_of self.now).sites class.0).spot.unit }
    {
        self.class(class).spot.unit
    }

    /// The top-level class that a class stands in.
    #[tactic(auto, unfolding(crate::specs::View::source_of))]
    pub fn top_of(&self, class: ClassId) -> ClassId
        ensures { result.0 ≡ top_of (source_of self.now).sites class.0 }
    {
        let at = class.0 as usize;
        if at < self.tops.len() {
            ClassId(self.tops[at])
        } else {
            class
        }
    }

    /// The modifiers of a class (JLS 8.1.1, 9.1.1); none, of one of the library or behind `new`.
    pub fn modifiers(&self, class: ClassId) -> &'a [Modifier]
        ensures { result.now ≡ modifiers_in (site_at (source_of self.now).sites class.0).written }
    {
        modifiers_of(self.class(class).written)
    }

    /// The type at a place among those that a class's header names (JLS 8.1.4, 8.1.5, 9.1.3, 15.9.5).
    pub fn head(&self, class: ClassId, at: usize) -> Option<&'a TyName>
        ensures lookup { option_map (λ t. type_view t.now) result ≡
            slice_get (heads_of (source_of self.now) class.0) at }
        ensures few { OnSome result (at + 1 < 2 ^ 64) }
    {
        head(self.class(class).written, at)
    }

    /// Whether a class is a private member class (JLS 6.6.1).
    pub fn is_private(&self, class: ClassId) -> bool
        ensures { result ≡ is_private (site_at (source_of self.now).sites class.0) }
    {
        let site = self.class(class);
        match site.spot.within {
            Some(_) => !is_local(site.sort) && has_private(modifiers_of(site.written)),
            None => false,
        }
    }

    /// The simple name of a class; none for one of the library or behind `new`.
    pub fn name(&self, class: ClassId) -> Option<NameId>
        ensures { result ≡ name_in (site_at (source_of self.now).sites class.0).written }
    {
        name_of(self.class(class).written)
    }

    /// Where a class is written.
    pub fn written(&self, class: ClassId) -> Written<'a>
        ensures { written_view result ≡ (site_at (source_of self.now).sites class.0).written }
    {
        self.class(class).written
    }

    /// The sort of a class.
    pub fn sort(&self, class: ClassId) -> Sort
        ensures { result ≡ (site_at (source_of self.now).sites class.0).sort }
    {
        self.class(class).sort
    }
}

ghost use Rattle.std.specs.Prelude.{◌&&◌, option_map};
ghost use Rattle.std.specs.Option.{ForSome};
ghost use Rattle.je_scopes.specs.Headers.{has_name, name_in};
ghost use Rattle.name_walk.specs.View.{written_view};
ghost use Rattle.name_sites.specs.Number.{number_in};
ghost use Rattle.name_sites.specs.Shown.{no_class};

// The number of a class.
fn number(class: Option<ClassId>) -> Option<usize>
    ensures { result ≡ option_map (λ c. c.0) class }
{
    match class {
        Some(class) => Some(class.0 as usize),
        None => None,
    }
}

// The class of a number.
fn numbered(number: Option<usize>) -> Option<ClassId>
    requires { ForSome number (λ n. n < 2 ^ 32) }
    ensures { number_in result ≡ number }
{
    match number {
        Some(number) => Some(ClassId(number as u32)),
        None => None,
    }
}

// Whether it is a local class of a name.
fn is_local_named(site: &ClassSite, name: NameId) -> bool
    ensures { result ≡ (site.now.is_local
        && has_name (name_in (written_view site.now.written)) name) }
{
    site.is_local && has_this_name(site.written, name)
}

// A class with nothing in it.
fn nothing<'a>() -> ClassSite<'a>
    ensures { result ≡ no_class }
{
    ClassSite {
        written: Written::Library,
        sort: Sort::Class,
        spot: Spot {
            unit: 0,
            within: None,
            nearest: None,
            context: Context::Static,
        },
        is_local: false,
    }
}
