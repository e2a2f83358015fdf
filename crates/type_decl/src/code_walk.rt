// The second walk, for code.

ghost use Rattle.std.specs.Prelude.{◌≡◌, ◌<◌, IfErr, IfOk, length, map};
ghost use Rattle.name_sites.specs.View.{source_of};
ghost use Rattle.declarations.specs.View.{field_shown};
ghost use Rattle.je_core.specs.View.{class_view};
ghost use Rattle.je_typing.specs.Answers.{IsFault};
ghost use Rattle.je_typing.specs.Judged.{gives};
ghost use Rattle.member_forms.specs.Bodies.{met_seen, program_in};
ghost use Rattle.class_typing.specs.Classes.{core_class as the_core_class, written_fields as the_written_fields};
ghost use Rattle.class_typing.specs.Elaboration.{core_classes as the_core_classes, guest_count};
ghost use Rattle.class_typing.specs.Programs.{library_count};
ghost use Rattle.program_tables.specs.Known.{captured_local_seen};
ghost use Rattle.member_forms.specs.Seen.{members_seen};
ghost use Rattle.type_decl.specs.way.Seen.{ArePlaced, IsWhole, captured_of, world_of};
ghost use Rattle.type_decl.specs.way.Walked.{made as the_made};

use crate::member_walk::members;
use crate::walk::{AllMet, Walk, alloc};
use body_places::fields_of;
use class_bridges::bridges;
use class_methods::Hierarchy;
use declarations::FieldDecl;
use field_values::count_of;
use je_base::Memory;
use je_core::{Class, ClassId};
use je_typing::Refusal;
use member_forms::MembersDone;
use name_sites::Sites;
use program_tables::{CapturedLocal, Making, Parts, core_class, counted};

/// What the second walk goes by: the classes of a program, of which it is known what they capture, what they have of
/// methods, and the number in the binary name of each.
#[derive(Clone, Copy)]
pub struct WholeWalk<'a> {
    pub walk: Walk<'a>,
    pub hierarchy: &'a Hierarchy<'a>,
    pub numbers: &'a [usize],
}

// The locals that a class captures.
fn captured_by<'a>(walk: &Walk<'a>, class: ClassId) -> &'a [CapturedLocal]
    ensures { map captured_local_seen result.now ≡ captured_of walk.now class.0 }
{
    match walk.bodies.known.captured.get(class.0 as usize) {
        Some(locals) => locals,
        None => &[],
    }
}

// The fields of a class that a source writes.
fn written_fields<'a>(whole: &WholeWalk<'a>, class: ClassId) -> &'a [FieldDecl]
    requires { IsWhole (program_in whole.now.walk.bodies).source whole.now }
    ensures { map field_shown result.now ≡ the_written_fields (program_in whole.now.walk.bodies)
        (captured_of whole.now.walk) class.0 }
{
    let walk = &whole.walk;
    let fields = fields_of(walk.bodies.calls.program.classes, class);
    let hidden = count_of(walk.hidden, class.0 as usize).min(fields.len());
    &fields[hidden..]
}

// The class of the core program, of what its members come to.
fn made(whole: &WholeWalk, class: ClassId, done: MembersDone) -> Result<Class, Memory>
    requires whole { IsWhole (program_in whole.now.walk.bodies).source whole.now }
    requires there { class.0 < length (program_in whole.now.walk.bodies).source.sites }
    ensures { IfOk result (λ k. class_view k ≡ the_core_class (program_in whole.now.walk.bodies)
        (captured_of whole.now.walk) class.0 (members_seen done.entry)) }
{
    let walk = &whole.walk;
    let program = walk.bodies.calls.program;
    let alloc = alloc(walk);
    let nth = counted(count_of(whole.numbers, class.0 as usize))?;
    let bridges = bridges(
        alloc,
        program.heads,
        program.classes,
        whole.hierarchy,
        class,
    )?;
    let MembersDone {
        constants,
        initializers,
        methods,
        ..
    } = done;
    let parts = Parts {
        captured: captured_by(walk, class),
        declared: written_fields(whole, class),
        constants,
        initializers,
        methods,
        nth,
        bridges,
    };
    let making = Making {
        program,
        names: walk.names,
    };
    let made = core_class(making, class, parts)?;
    Ok(made)
}

// One class.
#[tactic(auto, using(je_typing::proofs::Walks::walks))]
fn class_at(
    whole: &WholeWalk,
    sites: &Sites,
    all: &AllMet,
    class: ClassId,
) -> Result<Class, Refusal>
    requires whole { IsWhole (source_of sites.now) whole.now }
    requires placed { ArePlaced (source_of sites.now).sites all.now }
    requires there { class.0 < length (source_of sites.now).sites }
    ensures ok { IfOk result (λ k. the_made (source_of sites.now) (world_of whole.now.walk)
        (captured_of whole.now.walk) (map met_seen all.now.met.items) class.0 ≡
        gives (class_view k)) }
    ensures err { IfErr result (IsFault (the_made (source_of sites.now) (world_of whole.now.walk)
        (captured_of whole.now.walk) (map met_seen all.now.met.items) class.0)) }
{
    let done = members(&whole.walk, sites, all, class)?;
    Ok(made(whole, class, done)?)
}

/// The classes of the core program that a program writes, behind what was met in the bodies of all.
#[tactic(auto, using(je_typing::proofs::Walks::walks))]
pub fn core_classes(
    whole: &WholeWalk,
    sites: &Sites,
    all: &AllMet,
    library: usize,
) -> Result<Vec<Class>, Refusal>
    requires whole { IsWhole (source_of sites.now) whole.now }
    requires placed { ArePlaced (source_of sites.now).sites all.now }
    requires library { library ≡ library_count (source_of sites.now) }
    ensures ok { IfOk result (λ ks. the_core_classes (source_of sites.now)
        (world_of whole.now.walk) (captured_of whole.now.walk) (map met_seen all.now.met.items)
        library (guest_count (source_of sites.now)) ≡ gives (map class_view ks.items)) }
    ensures err { IfErr result (IsFault (the_core_classes (source_of sites.now)
        (world_of whole.now.walk) (captured_of whole.now.walk) (map met_seen all.now.met.items)
        library (guest_count (source_of sites.now)))) }
{
    let mut classes = Vec::new(alloc(&whole.walk));
    for at in library..sites.len() {
        let class = class_at(whole, sites, all, ClassId(at as u32))?;
        classes.push(class)?;
    }
    Ok(classes)
}
