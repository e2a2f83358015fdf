// The first walk, for what is met in bodies.

ghost use Rattle.std.specs.Prelude.{◌≡◌, ◌<◌, IfErr, IfOk, length};
ghost use Rattle.name_sites.specs.View.{source_of};
ghost use Rattle.je_typing.specs.Answers.{IsFault};
ghost use Rattle.je_typing.specs.Judged.{gives};
ghost use Rattle.body_places.specs.Tables.{constant_at};
ghost use Rattle.body_places.specs.View.{program_seen};
ghost use Rattle.member_forms.specs.Bodies.{HasAllMethods, program_in};
ghost use Rattle.class_typing.specs.Elaboration.{constants_first, first_bodies as the_first_bodies};
ghost use Rattle.class_typing.specs.Programs.{library_count};
ghost use Rattle.type_decl.specs.way.Seen.{ArePlaced, IsFirst, bodies_met_seen};
ghost use Rattle.type_decl.specs.way.Walked.{walked};

use crate::meeting::nothing_met;
use crate::member_walk::members;
use crate::told::{FirstWalk, behind};
use crate::walk::{BodiesMet, Walk, alloc};
use body_places::{Constant, Program};
use call_steps::Calls;
use je_core::ClassId;
use je_typing::Refusal;
use member_forms::{Bodies, MembersDone};
use name_sites::Sites;

/// The same program where these fields are constants.
pub fn program_with<'a>(program: Program<'a>, constants: &'a [Vec<Option<Constant>>]) -> Program<'a>
    ensures { program_seen result ≡
        record (program_seen program.entry) { constants = constant_at constants.now } }
{
    Program {
        source: program.source,
        heads: program.heads,
        classes: program.classes,
        constants,
        outer: program.outer,
        captured: program.captured,
    }
}

// The first walk where these fields are constants.
#[tactic(auto, unfolding(program_tables::specs::Known::known_seen))]
fn walk_with<'a>(walk: &Walk<'a>, constants: &'a [Vec<Option<Constant>>]) -> Walk<'a>
    ensures program { program_in result.bodies ≡
        record (program_in walk.now.bodies) { constants = constant_at constants.now } }
    ensures known { result.bodies.known ≡ walk.now.bodies.known }
    ensures hidden { result.hidden ≡ walk.now.hidden }
    ensures methods { HasAllMethods walk.now.bodies → HasAllMethods result.bodies }
{
    let bodies = &walk.bodies;
    Walk {
        bodies: Bodies {
            calls: Calls {
                program: program_with(bodies.calls.program, constants),
                methods: bodies.calls.methods,
            },
            known: bodies.known,
            spots: bodies.spots,
        },
        names: walk.names,
        hidden: walk.hidden,
    }
}

// One class further.
#[tactic(auto, using(je_typing::proofs::Walks::walks))]
fn walk_class<'a>(
    first: &FirstWalk,
    sites: &Sites<'a>,
    class: ClassId,
    done: BodiesMet<'a>,
) -> Result<BodiesMet<'a>, Refusal>
    requires begins { IsFirst (source_of sites.now) first.now }
    requires placed { ArePlaced (source_of sites.now).sites done.all }
    requires there { class.0 < length (source_of sites.now).sites }
    ensures ok { IfOk result (λ d. walked (source_of sites.now) (bodies_met_seen done.entry) class.0
        ≡
        gives (bodies_met_seen d)) }
    ensures placed { IfOk result (λ d. ArePlaced (source_of sites.now).sites d.all) }
    ensures err { IfErr result (IsFault (walked (source_of sites.now) (bodies_met_seen done.entry)
        class.0)) }
{
    let walk = walk_with(&first.walk, &done.constants);
    let MembersDone { met, .. } = members(&walk, sites, &done.all, class)?;
    Ok(behind(first, sites, met, done)?)
}

/// What is met in the bodies of all classes, and the constants that are told behind them; these were told before.
#[tactic(auto, using(je_typing::proofs::Walks::walks))]
pub fn first_bodies<'a>(
    first: &FirstWalk,
    sites: &Sites<'a>,
    library: usize,
    constants: Vec<Vec<Option<Constant>>>,
) -> Result<BodiesMet<'a>, Refusal>
    requires begins { IsFirst (source_of sites.now) first.now }
    requires library { library ≡ library_count (source_of sites.now) }
    requires constants { constant_at constants.items ≡ constants_first (source_of sites.now) }
    ensures ok { IfOk result (λ m. the_first_bodies (source_of sites.now) ≡
        gives (bodies_met_seen m)) }
    ensures placed { IfOk result (λ m. ArePlaced (source_of sites.now).sites m.all) }
    ensures err { IfErr result (IsFault (the_first_bodies (source_of sites.now))) }
{
    let all = nothing_met(alloc(&first.walk), sites)?;
    let mut done = BodiesMet { all, constants };
    for at in library..sites.len() {
        done = walk_class(first, sites, ClassId(at as u32), done)?;
    }
    Ok(done)
}
