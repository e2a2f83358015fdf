// The class that a simple name means in a body (JLS 6.3, 14.3).

ghost use Rattle.std.specs.Prelude.{◌≡◌, IfOk};
ghost use Rattle.je_scopes.specs.Headers.{has_name, name_in, site_at};
ghost use Rattle.je_scopes.specs.Looks.{found};
ghost use Rattle.je_scopes.specs.Scope.{first_named as the_first_named};
ghost use Rattle.name_lookup.specs.View.{look_view, numbers, part_view};
ghost use Rattle.name_sites.specs.Number.{number_in};
ghost use Rattle.name_sites.specs.View.{source_of};
ghost use Rattle.name_typing.specs.Qualified.{class_named as the_class_named, part_in as the_part_in};
ghost use Rattle.name_walk.specs.View.{context_view};
ghost use Rattle.body_places.specs.Places.{frame_seen};
ghost use Rattle.body_places.specs.View.{program_seen};

use body_places::{Frame, Program};
use je_base::{Memory, NameId};
use je_core::ClassId;
use name_lookup::{Look, Part, Place};
use name_sites::Sites;
use name_walk::Context;

fn is_named(sites: &Sites, class: ClassId, name: NameId) -> bool
    ensures { result ≡
        has_name (name_in (site_at (source_of sites.now).sites class.0).written) name }
{
    match sites.name(class) {
        Some(own) => own.0 == name.0,
        None => false,
    }
}

// The nearest of some local classes that has a name.
fn first_named(sites: &Sites, name: NameId, classes: &[ClassId]) -> Option<ClassId>
    ensures { found (number_in result) ≡
        the_first_named (source_of sites.now) name (numbers classes.now) }
{
    for class in classes {
        if is_named(sites, *class, name) {
            return Some(*class);
        }
    }
    None
}

fn part_in(context: Context) -> Part
    ensures { part_view result ≡ the_part_in (context_view context) }
{
    match context {
        Context::Static => Part::StaticMember,
        Context::Instance | Context::ConstructorArguments => Part::Member,
    }
}

/// The class that a simple name means in a body: a local class in scope, or what it means in a member of the class.
#[tactic(auto, using(crate::proofs::LocalClasses::classes))]
pub fn class_named(program: &Program, here: &Frame, name: NameId) -> Result<Look, Memory>
    ensures { IfOk result (λ look. look_view look ≡
        the_class_named (program_seen program.now) (frame_seen here.now) name) }
{
    let sites = program.source.sites;
    if let Some(class) = first_named(sites, name, &here.local_classes) {
        return Ok(Look::Class(class));
    }
    let place = Place {
        class: here.class,
        part: part_in(here.context),
    };
    let look = program
        .source
        .headers
        .in_scope(program.source.alloc, sites, place, name)?;
    Ok(look)
}
