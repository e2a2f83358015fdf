// Places of fields and methods among the members of a class.

ghost use Rattle.std.specs.Prelude.{◌≡◌, ◌+◌, IfOk, option_map, slice_get, suc};
ghost use Rattle.je_ast.specs.View.{member_node_view, member_view, variable_views_of};
ghost use Rattle.overriding.specs.Methods.{methods_in};
ghost use Rattle.class_typing.specs.Members.{fields_behind as the_fields_behind, methods_behind as the_methods_behind, variable_count as the_variable_count};
ghost use Rattle.declarations.specs.View.{method_shown};
ghost use Rattle.member_forms.specs.Seen.{program_of};

use crate::walk::ClassWalk;
use declarations::MethodDecl;
use je_ast::{Member, Var};
use je_base::Memory;

/// The method or the constructor at a place, as the class declares it.
pub fn declared_at<'a>(walk: ClassWalk<'a>, at: usize) -> Option<&'a MethodDecl>
    ensures { option_map (λ m. method_shown m.now) result ≡
        slice_get (methods_in (slice_get (program_of walk.entry).classes walk.entry.class.0)) at }
{
    let bodies = walk.bodies;
    let declared = bodies.calls.program.classes.class(walk.class)?;
    declared.methods.get(at)
}

// The place behind so many variables.
fn behind(at: usize, count: usize) -> Result<usize, Memory>
    ensures { IfOk result (λ n. n ≡ at + count) }
{
    match at.checked_add(count) {
        Some(behind) => Ok(behind),
        None => Err(Memory),
    }
}

/// The place behind one.
pub fn next(at: usize) -> Result<usize, Memory>
    ensures { IfOk result (λ n. n ≡ suc at) }
{
    behind(at, 1)
}

/// The number of a place. No memory holds a class with as many members as a number can't name.
pub fn numbered(place: usize) -> Result<u32, Memory>
    ensures { IfOk result (λ n. n ≡ place) }
{
    match u32::try_from(place) {
        Ok(number) => Ok(number),
        Err(_) => Err(Memory),
    }
}

/// The place of a field behind a member.
#[tactic(auto, using(je_ast::proofs::Views::member_is))]
pub fn fields_behind(at: usize, member: &Member) -> Result<usize, Memory>
    ensures { IfOk result (λ n. n ≡ the_fields_behind at (member_view member.now)) }
{
    fields_behind_here(at, member)
}

#[tactic(auto, using(crate::proofs::Counted::variables_counted))]
fn variable_count(vars: &[Var]) -> usize
    ensures { result ≡ the_variable_count (variable_views_of vars.now) }
{
    vars.len()
}

fn fields_behind_here(at: usize, member: &Member) -> Result<usize, Memory>
    ensures { IfOk result (λ n. n ≡ the_fields_behind at (member_node_view member.now)) }
{
    match member {
        Member::Field { vars, .. } => behind(at, variable_count(vars)),
        _ => Ok(at),
    }
}

/// The place of a method or a constructor behind a member.
#[tactic(auto, using(je_ast::proofs::Views::member_is))]
pub fn methods_behind(at: usize, member: &Member) -> Result<usize, Memory>
    ensures { IfOk result (λ n. n ≡ the_methods_behind at (member_view member.now)) }
{
    methods_behind_here(at, member)
}

fn methods_behind_here(at: usize, member: &Member) -> Result<usize, Memory>
    ensures { IfOk result (λ n. n ≡ the_methods_behind at (member_node_view member.now)) }
{
    match member {
        Member::Method { .. } | Member::Constructor { .. } => next(at),
        _ => Ok(at),
    }
}
