// What a simple name means as a variable (JLS 6.3.1, 6.5.6.1).

ghost use Rattle.std.specs.Prelude.{◌≡◌, IfOk, map, option_map};
ghost use Rattle.member_lookup.specs.Founds.{found_seen};
ghost use Rattle.name_typing.specs.Variables.{field_found as the_field_found, in_frame as the_in_frame, local_named as the_local_named, outwards as the_outwards, variable_named as the_variable_named};
ghost use Rattle.body_places.specs.Places.{frame_seen, local_seen, place_seen};
ghost use Rattle.name_steps.specs.Variables.{is_no_variable, variable_seen};
ghost use Rattle.body_places.specs.View.{program_seen};

use body_places::{Found, Frame, LocalVariable, Place, Program, find_field};
use header_steps::own_type;
use je_base::{Memory, NameId};
use je_core::ClassId;

/// What a simple name means as a variable.
#[derive(Clone, Copy)]
pub enum Variable<'a> {
    Nothing,
    /// A local of the body so many classes outwards.
    Local {
        outwards: usize,
        local: &'a LocalVariable,
    },
    /// A field of the class so many classes outwards, by the class that declares it and its place there.
    Field {
        outwards: usize,
        class: ClassId,
        at: usize,
    },
    /// A field's name that is inherited twice.
    Unclear,
}

// The nearest of some locals that has a name.
fn local_named(locals: &[LocalVariable], name: NameId) -> Option<&LocalVariable>
    ensures { option_map (λ v. local_seen v.now) result ≡
        the_local_named (map local_seen locals.now) name }
{
    for local in locals {
        if local.name.0 == name.0 {
            return Some(local);
        }
    }
    None
}

fn field_found(outwards: usize, found: Found) -> Variable<'static>
    ensures { variable_seen result ≡ the_field_found outwards (found_seen found) }
{
    match found {
        Found::Nothing => Variable::Nothing,
        Found::One(class, at) => Variable::Field {
            outwards,
            class,
            at,
        },
        Found::Several => Variable::Unclear,
    }
}

// What the body so many classes outwards and its class have under a name: a local hides a field.
fn in_frame<'a>(
    program: &Program,
    outwards: usize,
    name: NameId,
    frame: &'a Frame,
) -> Result<Variable<'a>, Memory>
    ensures { IfOk result (λ v. variable_seen v ≡
        the_in_frame (program_seen program.now) outwards name (frame_seen frame.now)) }
{
    if let Some(local) = local_named(&frame.locals, name) {
        return Ok(Variable::Local { outwards, local });
    }
    let own = own_type(program.source.alloc, program.heads, frame.class)?;
    let found = find_field(
        program.source.alloc,
        program.heads,
        program.classes,
        &own,
        name,
    )?;
    Ok(field_found(outwards, found))
}

/// Whether a name means no variable.
pub fn is_nothing(variable: Variable) -> bool
    ensures { result ≡ is_no_variable (variable_seen variable.entry) }
{
    matches!(variable, Variable::Nothing)
}

// What the bodies behind the first have under a name, the innermost first.
fn outwards<'a>(program: &Program, name: NameId, round: &'a [Frame]) -> Result<Variable<'a>, Memory>
    ensures { IfOk result (λ v. variable_seen v ≡
        the_outwards (program_seen program.now) 1 name (map frame_seen round.now)) }
{
    for (at, frame) in round.iter().enumerate() {
        let variable = in_frame(program, at + 1, name, frame)?;
        if !is_nothing(variable) {
            return Ok(variable);
        }
    }
    Ok(Variable::Nothing)
}

/// What a simple name means as a variable: what is nearest of that name, a local before a field.
#[tactic(auto, unfolding(name_typing::specs::Variables::variable_named))]
pub fn variable_named<'a>(
    program: &Program,
    place: Place<'a>,
    name: NameId,
) -> Result<Variable<'a>, Memory>
    ensures { IfOk result (λ v. variable_seen v ≡
        the_variable_named (program_seen program.now) (place_seen place.entry) name) }
{
    let variable = in_frame(program, 0, name, place.here)?;
    if !is_nothing(variable) {
        return Ok(variable);
    }
    outwards(program, name, place.round)
}
