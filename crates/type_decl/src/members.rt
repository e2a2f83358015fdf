// The members of a class, in the order in which they are written, and behind them what no source writes.

ghost use Rattle.std.specs.Prelude.{◌≡◌, IfErr, IfOk, List, option_map};
ghost use Rattle.std.specs.List.{find};
ghost use Rattle.je_ast.specs.View.{member_node_view, member_view, member_views_of};
ghost use Rattle.je_typing.specs.Answers.{IsFault};
ghost use Rattle.je_typing.specs.Judged.{gives};
ghost use Rattle.body_typing.specs.Bodies.{Met as SeenMet};
ghost use Rattle.class_typing.specs.Members.{class_members as the_class_members};
ghost use Rattle.class_typing.specs.Places.{stands_at};
ghost use Rattle.name_walk.specs.View.{written_view};
ghost use Rattle.member_forms.specs.Bodies.{HasAllMethods, met_seen};
ghost use Rattle.member_forms.specs.Seen.{known_of, members_seen, program_of, round_of};
ghost use Rattle.type_decl.specs.way.Walks.{members_from as the_members_from, one_member as the_one_member, written_of};
ghost use Rattle.type_decl.specs.way.Unwritten.{whole_for};

use crate::constructors::constructor;
use crate::fields::variables;
use crate::initializers::initializer;
use crate::methods::method;
use crate::unwritten::unwritten;
use je_ast::Member;
use je_typing::Refusal;
use member_faults::members_of;
use member_forms::{
    ClassWalk, MembersDone, Met, alloc, declared_at, fields_behind, follow, methods_behind,
    no_cycle, nothing,
};
use name_walk::Written;

// One member, before which so many fields and methods stand.
#[tactic(auto, using(je_ast::proofs::Views::member_is))]
fn one_member<'a>(
    walk: ClassWalk,
    fields: usize,
    methods: usize,
    member: &'a Member,
) -> Result<MembersDone<'a>, Refusal>
    requires { HasAllMethods walk.bodies.now }
    ensures ok { IfOk result (λ d. the_one_member walk.entry fields methods
        (member_view member.now) ≡ gives (members_seen d)) }
    ensures err { IfErr result (IsFault (the_one_member walk.entry fields methods
        (member_view member.now))) }
{
    one_member_here(walk, fields, methods, member)
}

fn one_member_here<'a>(
    walk: ClassWalk,
    fields: usize,
    methods: usize,
    member: &'a Member,
) -> Result<MembersDone<'a>, Refusal>
    requires { HasAllMethods walk.bodies.now }
    ensures ok { IfOk result (λ d. the_one_member walk.entry fields methods
        (member_node_view member.now) ≡ gives (members_seen d)) }
    ensures err { IfErr result (IsFault (the_one_member walk.entry fields methods
        (member_node_view member.now))) }
{
    match member {
        Member::Type { .. } => Ok(nothing(alloc(walk))),
        Member::Field { vars, .. } => variables(walk, fields, vars),
        Member::Method {
            name,
            formals,
            body,
            ..
        } => method(walk, *name, formals, body, declared_at(walk, methods)),
        Member::Constructor {
            name,
            formals,
            call,
            body,
            ..
        } => {
            let declared = declared_at(walk, methods);
            constructor(walk, methods, *name, formals, call, body, declared)
        }
        Member::Initializer { word, body, .. } => initializer(walk, fields, word, body),
    }
}

// Members in order, before which so many hidden fields stand.
#[tactic(auto, using(je_typing::proofs::Walks::walks))]
fn members_from<'a>(
    walk: ClassWalk,
    hidden: usize,
    members: &'a [Member],
) -> Result<MembersDone<'a>, Refusal>
    requires { HasAllMethods walk.bodies.now }
    ensures ok { IfOk result (λ d. the_members_from walk.entry hidden 0
        (member_views_of members.now) ≡ gives (members_seen d)) }
    ensures err { IfErr result (IsFault
        (the_members_from walk.entry hidden 0 (member_views_of members.now))) }
{
    let mut done = nothing(alloc(walk));
    let mut fields = hidden;
    let mut methods = 0;
    for member in members {
        let more = one_member(walk, fields, methods, member)?;
        follow(&mut done, more)?;
        fields = fields_behind(fields, member)?;
        methods = methods_behind(methods, member)?;
    }
    Ok(done)
}

// All members, by what was met where the class stands.
#[tactic(auto, unfolding(crate::specs::way::Unwritten::whole_for), using(je_typing::proofs::Walks::walks))]
fn whole<'a>(
    walk: ClassWalk,
    written: Written<'a>,
    stands: Option<&Met<'_>>,
    hidden: usize,
) -> Result<MembersDone<'a>, Refusal>
    requires methods { HasAllMethods walk.bodies.now }
    requires written { written_view written ≡ written_of walk }
    ensures ok { IfOk result (λ d. whole_for walk.entry
        (option_map (λ m. met_seen m.now) stands.entry) hidden ≡ gives (members_seen d)) }
    ensures err { IfErr result (IsFault (whole_for walk.entry
        (option_map (λ m. met_seen m.now) stands.entry) hidden)) }
{
    let mut done = members_from(walk, hidden, members_of(written))?;
    let further = unwritten(walk, stands, written)?;
    no_cycle(alloc(walk), &done.calls)?;
    follow(&mut done, further)?;
    Ok(done)
}

/// What the members of a class come to, which is written so and has so many hidden fields. Of all that was met in the
/// bodies round it, `stands` is what first tells where the class stands, if anything does.
#[tactic(auto, using(crate::proofs::Standing::whole_is))]
pub fn class_members<'a>(
    walk: ClassWalk,
    written: Written<'a>,
    stands: Option<&Met<'_>>,
    hidden: usize,
) -> Result<MembersDone<'a>, Refusal>
    requires methods { HasAllMethods walk.bodies.now }
    requires written { written_view written ≡ written_of walk }
    ensures ok { (met : List SeenMet) → find (stands_at walk.entry.class.0) met ≡
        option_map (λ m. met_seen m.now) stands.entry → IfOk result (λ d. the_class_members
        (program_of walk.entry) (known_of walk.entry) walk.entry.class.0 (round_of walk.entry) met
        hidden ≡ gives (members_seen d)) }
    ensures err { (met : List SeenMet) → find (stands_at walk.entry.class.0) met ≡
        option_map (λ m. met_seen m.now) stands.entry → IfErr result (IsFault (the_class_members
        (program_of walk.entry) (known_of walk.entry) walk.entry.class.0 (round_of walk.entry) met
        hidden)) }
{
    whole(walk, written, stands, hidden)
}
