// Locals, bodies and scopes that are kept.

ghost use Rattle.std.specs.Prelude.{◌≡◌, IfOk, map, option_map};
ghost use Rattle.body_places.specs.Places.{frame_seen, local_seen};
ghost use Rattle.body_places.specs.Tables.{constant_seen};
ghost use Rattle.core_making.specs.Scopes.{scope_seen};
ghost use Rattle.body_walks.specs.Standings.{standing_seen};

use crate::met::Standing;
use body_places::{Constant, Frame, LocalVariable};
use core_making::Scope;
use je_base::Memory;
use source_subtypes::copied;
use std::alloc::Global;
use text_members::copied as copied_text;

fn copied_constant(alloc: Global, constant: &Constant) -> Result<Constant, Memory>
    ensures { IfOk result (λ c. constant_seen c ≡ constant_seen constant.now) }
{
    match constant {
        Constant::Value(value) => Ok(Constant::Value(*value)),
        Constant::Text(units) => Ok(Constant::Text(copied_text(alloc, units.as_slice())?)),
    }
}

fn copied_constant_if(
    alloc: Global,
    constant: &Option<Constant>,
) -> Result<Option<Constant>, Memory>
    ensures { IfOk result (λ c. option_map constant_seen c ≡
        option_map constant_seen constant.now) }
{
    match constant {
        None => Ok(None),
        Some(constant) => Ok(Some(copied_constant(alloc, constant)?)),
    }
}

/// The same local once more.
pub fn copied_local(alloc: Global, local: &LocalVariable) -> Result<LocalVariable, Memory>
    ensures { IfOk result (λ v. local_seen v ≡ local_seen local.now) }
{
    let ty = copied(alloc, &local.ty)?;
    let constant = copied_constant_if(alloc, &local.constant)?;
    Ok(LocalVariable {
        name: local.name,
        ty,
        is_final: local.is_final,
        number: local.number,
        constant,
    })
}

fn copied_locals(alloc: Global, locals: &[LocalVariable]) -> Result<Vec<LocalVariable>, Memory>
    ensures { IfOk result (λ vs. map local_seen vs.items ≡ map local_seen locals.now) }
{
    let mut copies = Vec::new(alloc);
    for local in locals {
        copies.push(copied_local(alloc, local)?)?;
    }
    Ok(copies)
}

/// The same body once more.
pub fn copied_frame(alloc: Global, frame: &Frame) -> Result<Frame, Memory>
    ensures { IfOk result (λ f. frame_seen f ≡ frame_seen frame.now) }
{
    let locals = copied_locals(alloc, &frame.locals)?;
    let local_classes = frame.local_classes.to_vec(alloc)?;
    Ok(Frame {
        class: frame.class,
        locals,
        local_classes,
        context: frame.context,
        initializer: frame.initializer,
    })
}

/// The same bodies once more.
pub fn copied_frames(alloc: Global, frames: &[Frame]) -> Result<Vec<Frame>, Memory>
    ensures { IfOk result (λ fs. map frame_seen fs.items ≡ map frame_seen frames.now) }
{
    let mut copies = Vec::new(alloc);
    for frame in frames {
        copies.push(copied_frame(alloc, frame)?)?;
    }
    Ok(copies)
}

/// A scope, to be kept.
pub fn standing(alloc: Global, scope: &Scope) -> Result<Standing, Memory>
    ensures { IfOk result (λ s. standing_seen s ≡ scope_seen scope.now) }
{
    let here = copied_frame(alloc, &scope.here)?;
    let round = copied_frames(alloc, scope.round)?;
    let given = scope.given.to_vec(alloc)?;
    Ok(Standing {
        here,
        round,
        is_constructor: scope.is_constructor,
        given,
    })
}
