// What the newest frame does with a jump.

ghost use Rattle.std.specs.Prelude.{◌≡◌, ◌≤◌, ◌+◌, IfOk, length};
ghost use Rattle.je_core.specs.View.{stmt_view, stmt_form_view};
ghost use Rattle.je_java.specs.Steps.{is_label as the_is_label};
ghost use Rattle.machine_parts.specs.Ways.{turning, landed, broken, frame_ways, height, gives};
ghost use Rattle.machine_parts.specs.way.Clauses.{IsAhead, RunsAhead, RunsAheadOf};
ghost use Rattle.je_java.specs.Steps.{takes as the_takes};
ghost use Rattle.je_java.specs.Meaning.{labels_of};

use crate::catch::finish;
use crate::turn::{again as done_again, takes};
use je_base::NameId;
use je_core::{Memory, Stmt};
use machine_parts::frame::{Context, Control, End, Frame};
use machine_parts::stack::Stack;
use std::rc::Rc;

// Whether a jump comes to the statement of a label.
fn is_label(own: NameId, label: Option<NameId>) -> bool
    ensures { result ≡ the_is_label own label }
{
    match label {
        None => false,
        Some(name) => own.0 == name.0,
    }
}

// A jump out of a loop's body.
fn jump_from_body(
    node: Rc<Stmt>,
    again: bool,
    label: Option<NameId>,
    frames: &mut Stack,
) -> Result<Control, Memory>
    ensures goes { IfOk result (RunsAheadOf frames.old frames.new (λ p m k.
        (turning (the_takes (labels_of (stmt_form_view node.value.form)))
        (m.again (stmt_view node.value)) k).out.jump again label)) }
    ensures short { IfOk result (λ c. length frames.new + gives c ≤ length frames.old + 1) }
{
    if !takes(&node.form, label) {
        return Ok(Control::Jump { again, label });
    }
    if again {
        done_again(node, frames)
    } else {
        Ok(Control::Next)
    }
}

// A jump out of the statement behind a label.
fn jump_from_labelled(
    own: NameId,
    node: Rc<Stmt>,
    again: bool,
    label: Option<NameId>,
    frames: &mut Stack,
) -> Result<Control, Memory>
    ensures goes { IfOk result (RunsAheadOf frames.old frames.new (λ p m k.
        (landed (the_is_label own) (m.again (stmt_view node.value)) k).out.jump again label)) }
    ensures short { IfOk result (λ c. length frames.new + gives c ≤ length frames.old + 1) }
{
    if !is_label(own, label) {
        return Ok(Control::Jump { again, label });
    }
    if again {
        done_again(node, frames)
    } else {
        Ok(Control::Next)
    }
}

// A jump out of the groups of a `switch`.
fn jump_from_cases(again: bool, label: Option<NameId>) -> Control
    ensures goes { IsAhead result (λ p m k. (broken k).out.jump again label) }
    ensures short { gives result ≤ 1 }
{
    if again || label.is_some() {
        Control::Jump { again, label }
    } else {
        Control::Next
    }
}

/// A jump leaves a frame, or comes to it. No jump leaves a method's body.
#[tactic(auto)]
pub fn jump(
    context: &mut Context,
    frame: Frame,
    again: bool,
    label: Option<NameId>,
) -> Result<Control, Memory>
    ensures goes { IfOk result (RunsAhead context.old context.new
        (λ p m k. (frame_ways p m frame k).out.jump again label)) }
    ensures short { IfOk result (λ c. height context.new + gives c ≤ height context.old + 1) }
    ensures begun { context.new.begun ≡ context.old.begun }
{
    match frame {
        Frame::Body { node } => jump_from_body(node, again, label, &mut context.frames),
        Frame::Cases { .. } => Ok(jump_from_cases(again, label)),
        Frame::Labelled { label: own, node } => {
            jump_from_labelled(own, node, again, label, &mut context.frames)
        }
        Frame::Try { node } => finish(&node.form, End::Jump { again, label }, &mut context.frames),
        Frame::Finally { node } => {
            finish(&node.form, End::Jump { again, label }, &mut context.frames)
        }
        Frame::Called { .. } | Frame::Telling { .. } => Ok(Control::Wrong),
        Frame::Constructor { .. } | Frame::Initializer { .. } => Ok(Control::Wrong),
        Frame::Starting { .. } => Ok(Control::Wrong),
        _ => Ok(Control::Jump { again, label }),
    }
}
