// What no source writes of a class (JLS 8.8.9, 8.9, 15.9.5.1).

ghost use Rattle.std.specs.Prelude.{◌≡◌, IfErr, IfOk, Some, option_map};
ghost use Rattle.je_ast.specs.Types.{type_view};
ghost use Rattle.je_ast.specs.View.{views_of};
ghost use Rattle.je_typing.specs.Answers.{IsFault};
ghost use Rattle.je_typing.specs.Judged.{gives};
ghost use Rattle.name_walk.specs.View.{written_view};
ghost use Rattle.overloads.specs.View.{candidate_seen};
ghost use Rattle.class_typing.specs.Constructors.{chosen_for as the_chosen_for};
ghost use Rattle.member_forms.specs.Bodies.{HasAllMethods, met_seen, standing_seen};
ghost use Rattle.member_forms.specs.Seen.{known_of, members_seen, program_of};
ghost use Rattle.type_decl.specs.way.Walks.{anonymous_constructor as the_anonymous_constructor};
ghost use Rattle.type_decl.specs.way.Unwritten.{anonymous_at as the_anonymous_at, unwritten_for, unwritten_if};

use crate::enums::enum_members;
use je_ast::{Expr, TyName};
use je_base::Span;
use je_core::Sort;
use je_typing::Refusal;
use member_faults::constants_of;
use member_forms::{
    ClassWalk, MembersDone, Met, Standing, alloc, anonymous_code, chosen_for, default_constructor,
    is_without_constructor, nothing, scope_at,
};
use name_walk::Written;
use overloads::Candidate;
use type_statements::values;

// The constructor that an anonymous class calls, by where it stands.
#[tactic(auto, using(je_typing::proofs::Walks::walks))]
fn chosen_at(
    walk: ClassWalk,
    standing: &Standing,
    word: Span,
    ty: &TyName,
    exprs: &[Expr],
) -> Result<Candidate, Refusal>
    requires { HasAllMethods walk.bodies.now }
    ensures ok { IfOk result (λ m. the_chosen_for (program_of walk.entry) (known_of walk.entry)
        (standing_seen standing.now) word (type_view ty.now) (views_of exprs.now)
        ≡ gives (candidate_seen m)) }
    ensures err { IfErr result (IsFault (the_chosen_for (program_of walk.entry)
        (known_of walk.entry) (standing_seen standing.now) word (type_view ty.now)
        (views_of exprs.now))) }
{
    let scope = scope_at(alloc(walk), standing)?;
    let args = values(walk.bodies, &scope, exprs)?;
    let chosen = chosen_for(walk, &scope, word, ty, &args)?;
    Ok(chosen)
}

// The constructor of an anonymous class (JLS 15.9.5.1) that stands there.
#[tactic(auto, using(je_typing::proofs::Walks::walks))]
fn anonymous_at<'a>(
    walk: ClassWalk,
    standing: &Standing,
    word: Span,
    ty: &TyName,
    exprs: &[Expr],
) -> Result<MembersDone<'a>, Refusal>
    requires { HasAllMethods walk.bodies.now }
    ensures ok { IfOk result (λ d. the_anonymous_at walk.entry (standing_seen standing.now) word
        (type_view ty.now) (views_of exprs.now) ≡ gives (members_seen d)) }
    ensures err { IfErr result (IsFault (the_anonymous_at walk.entry (standing_seen standing.now)
        word (type_view ty.now) (views_of exprs.now))) }
{
    let chosen = chosen_at(walk, standing, word, ty, exprs)?;
    let done = anonymous_code(walk, &chosen)?;
    Ok(done)
}

// The same, by what was met.
fn anonymous_met<'a>(walk: ClassWalk, met: &Met<'_>) -> Result<MembersDone<'a>, Refusal>
    requires { HasAllMethods walk.bodies.now }
    ensures ok { IfOk result (λ d. the_anonymous_constructor walk.entry (Some (met_seen met.now))
        ≡ gives (members_seen d)) }
    ensures err { IfErr result (IsFault
        (the_anonymous_constructor walk.entry (Some (met_seen met.now)))) }
{
    match met {
        Met::StandsBehindNew {
            scope,
            word,
            ty,
            arguments,
            ..
        } => anonymous_at(walk, scope, *word, ty, arguments),
        _ => Ok(nothing(alloc(walk))),
    }
}

// The same, if anything was met where it stands.
fn anonymous_constructor<'a>(
    walk: ClassWalk,
    stands: Option<&Met<'_>>,
) -> Result<MembersDone<'a>, Refusal>
    requires { HasAllMethods walk.bodies.now }
    ensures ok { IfOk result (λ d. the_anonymous_constructor walk.entry
        (option_map (λ m. met_seen m.now) stands.entry) ≡ gives (members_seen d)) }
    ensures err { IfErr result (IsFault (the_anonymous_constructor walk.entry
        (option_map (λ m. met_seen m.now) stands.entry))) }
{
    match stands {
        Some(met) => anonymous_met(walk, met),
        None => Ok(nothing(alloc(walk))),
    }
}

// Of a class that a declaration declares.
#[tactic(auto, using(je_typing::proofs::Walks::walks))]
fn unwritten_of<'a>(walk: ClassWalk, written: Written<'_>) -> Result<MembersDone<'a>, Refusal>
    ensures ok { IfOk result (λ d. unwritten_if walk.entry (written_view written.entry)
        ≡ gives (members_seen d)) }
    ensures err { IfErr result (IsFault
        (unwritten_if walk.entry (written_view written.entry))) }
{
    let bodies = walk.bodies;
    match bodies.calls.program.source.sites.sort(walk.class) {
        Sort::Enum => {
            let done = enum_members(walk, constants_of(written))?;
            Ok(done)
        }
        Sort::Interface => Ok(nothing(alloc(walk))),
        _ => {
            if is_without_constructor(walk) {
                default_constructor(walk)
            } else {
                Ok(nothing(alloc(walk)))
            }
        }
    }
}

/// What no source writes of a class; `stands` is what was met where it stands.
pub fn unwritten<'a>(
    walk: ClassWalk,
    stands: Option<&Met<'_>>,
    written: Written<'_>,
) -> Result<MembersDone<'a>, Refusal>
    requires { HasAllMethods walk.bodies.now }
    ensures ok { IfOk result (λ d. unwritten_for walk.entry
        (option_map (λ m. met_seen m.now) stands.entry) (written_view written.entry)
        ≡ gives (members_seen d)) }
    ensures err { IfErr result (IsFault (unwritten_for walk.entry
        (option_map (λ m. met_seen m.now) stands.entry) (written_view written.entry))) }
{
    match written {
        Written::Library => Ok(nothing(alloc(walk))),
        Written::Declared { .. } => unwritten_of(walk, written),
        Written::Anonymous { .. } => anonymous_constructor(walk, stands),
    }
}
