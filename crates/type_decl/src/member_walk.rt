// The members of one class.

ghost use Rattle.std.specs.Prelude.{◌≡◌, ◌<◌, IfErr, IfOk, length, map};
ghost use Rattle.name_sites.specs.View.{source_of};
ghost use Rattle.je_typing.specs.Answers.{IsFault};
ghost use Rattle.je_typing.specs.Judged.{gives};
ghost use Rattle.member_forms.specs.Bodies.{HasAllMethods, met_seen, program_in};
ghost use Rattle.field_values.specs.Values.{count_at};
ghost use Rattle.member_forms.specs.Seen.{members_seen};
ghost use Rattle.type_decl.specs.way.Seen.{ArePlaced, members_at, world_of};

use crate::members::class_members;
use crate::walk::{AllMet, Walk, alloc};
use class_places::round_met;
use field_values::count_of;
use je_core::ClassId;
use je_typing::Refusal;
use member_forms::{ClassWalk, MembersDone};
use name_sites::Sites;

/// What the members of a class come to, behind what was met in bodies.
#[tactic(auto, using(je_typing::proofs::Walks::walks))]
pub fn members<'a>(
    walk: &Walk,
    sites: &Sites<'a>,
    all: &AllMet,
    class: ClassId,
) -> Result<MembersDone<'a>, Refusal>
    requires methods { HasAllMethods walk.now.bodies }
    requires sites { source_of sites.now ≡ (program_in walk.now.bodies).source }
    requires placed { ArePlaced (source_of sites.now).sites all.now }
    requires there { class.0 < length (source_of sites.now).sites }
    ensures ok { IfOk result (λ d. members_at (world_of walk.now) (count_at walk.now.hidden.now)
        (map met_seen all.now.met.items) class.0 ≡ gives (members_seen d)) }
    ensures err { IfErr result (IsFault (members_at (world_of walk.now)
        (count_at walk.now.hidden.now) (map met_seen all.now.met.items) class.0)) }
{
    let round = round_met(alloc(walk), sites, &all.stands, &all.met, class)?;
    let of_class = ClassWalk {
        bodies: &walk.bodies,
        class,
        round: &round,
        names: walk.names,
    };
    let stands = all.stands.first(&all.met, class);
    class_members(
        of_class,
        sites.written(class),
        stands,
        count_of(walk.hidden, class.0 as usize),
    )
}
