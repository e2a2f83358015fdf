// The classes by their places in the text.

ghost use Rattle.std.specs.Prelude.{◌≡◌, IfOk, unwrap_or};
ghost use Rattle.std.specs.List.{position};
ghost use Rattle.body_typing.specs.Expressions.{is_behind};
ghost use Rattle.je_scopes.specs.Sites.{Site};
ghost use Rattle.name_sites.specs.View.{source_of};
ghost use Rattle.body_typing.specs.LocalClasses.{is_declared_at};
ghost use Rattle.class_spots.specs.Spots.{AreSpotsOf};
ghost use Rattle.class_spots.specs.Starts.{kept};

use crate::starts::Starts;
use crate::written::{name_of, word_of};
use je_ast::Identifier;
use je_base::{Memory, Span};
use je_core::ClassId;
use name_sites::Sites;
use std::alloc::Global;

/// The classes of bodies behind `new`, by that word, and those that are declared, by their names.
#[derive(Drop)]
pub struct ClassSpots {
    anonymous: Starts,
    declared: Starts,
}

/// The places of all classes.
pub fn spots(alloc: Global, sites: &Sites) -> Result<ClassSpots, Memory>
    ensures { IfOk result (AreSpotsOf (source_of sites.now).sites) }
{
    let mut anonymous = Starts::new(alloc);
    let mut declared = Starts::new(alloc);
    for at in 0..sites.len() {
        let class = at as u32;
        let written = sites.written(ClassId(class));
        anonymous.keep(word_of(written), class)?;
        declared.keep(name_of(written), class)?;
    }
    Ok(ClassSpots {
        anonymous,
        declared,
    })
}

// The class that stands where a span begins; the first of all where none does.
fn class_at(starts: &Starts, span: Span) -> ClassId
    ensures { result.0 ≡ unwrap_or (kept starts.now span) 0 }
{
    match starts.get(span) {
        Some(class) => ClassId(class),
        None => ClassId(0),
    }
}

impl ClassSpots {
    /// The class of the body behind the `new` that stands there.
    pub fn anonymous(&self, sites: &Sites, word: Span) -> ClassId
        requires { AreSpotsOf (source_of sites.now).sites self.now }
        ensures { result.0 ≡ unwrap_or (position (λ (s : Site). is_behind word s.written)
            (source_of sites.now).sites) 0 }
    {
        class_at(&self.anonymous, word)
    }

    /// The class whose declaration has its name there.
    pub fn declared(&self, sites: &Sites, name: Identifier) -> ClassId
        requires { AreSpotsOf (source_of sites.now).sites self.now }
        ensures { result.0 ≡ unwrap_or (position (λ (s : Site). is_declared_at name s.written)
            (source_of sites.now).sites) 0 }
    {
        class_at(&self.declared, name.span)
    }
}
