// What a walk over statements has so far.

ghost use Rattle.std.specs.Prelude.{◌≡◌, ◌+◌, ◌<◌, ◌^◌, IfOk, OnOk};
ghost use Rattle.name_types.specs.View.{shown};
ghost use Rattle.source_subtypes.specs.View.{heads_of};
ghost use Rattle.body_typing.specs.Bodies.{next_number as the_next_number, with_number};
ghost use Rattle.statement_forms.specs.Seen.{progress_seen};

use body_walks::Met;
use je_base::{Memory, NameId, Span};
use je_core::Local;
use name_types::SrcTy;
use source_subtypes::{ClassHeads, erased};

/// What the walk over a body has so far: all its locals, whose numbers are their places, and all that was met.
#[derive(Drop)]
pub struct Progress<'a> {
    pub locals: Vec<Local>,
    pub met: Vec<Met<'a>>,
}

/// The number of the next local. No memory holds as many locals as a number can't name.
pub fn next_number(progress: &Progress) -> Result<u32, Memory>
    ensures { IfOk result (λ n. n ≡ the_next_number (progress_seen progress.now)) }
{
    match u32::try_from(progress.locals.len()) {
        Ok(number) => Ok(number),
        Err(_) => Err(Memory),
    }
}

/// The same where two more locals have numbers.
pub fn next_numbers(progress: &Progress) -> Result<u32, Memory>
    ensures number { IfOk result (λ n. n ≡ the_next_number (progress_seen progress.now)) }
    ensures few { IfOk result (λ n. n + 2 < 2 ^ 32) }
{
    let number = next_number(progress)?;
    if number >= 4_294_967_293 {
        return Err(Memory);
    }
    Ok(number)
}

/// Adds a local of the body.
pub fn add_number(
    heads: &ClassHeads,
    progress: &mut Progress,
    name: NameId,
    ty: &SrcTy,
    is_final: bool,
    span: Span,
) -> Result<(), Memory>
    ensures { OnOk result (progress_seen progress.new ≡ with_number (heads_of heads.now) name
        (shown ty.now) is_final span (progress_seen progress.old)) }
{
    progress.locals.push(Local {
        name,
        ty: erased(heads, ty),
        is_final,
        span,
    })?;
    Ok(())
}
