// What is known of all classes.

ghost use Rattle.std.specs.Prelude.{◌≡◌, map};
ghost use Rattle.body_places.specs.Places.{frame_seen};
ghost use Rattle.core_making.specs.Known.{captured_local_seen, captured_seen, round_seen};

use body_places::{Frame, LocalVariable};
use je_core::ClassId;

/// A local of a body of a class, which a class inside that body captures.
#[derive(Drop)]
pub struct CapturedLocal {
    /// The class of the body.
    pub owner: ClassId,
    pub variable: LocalVariable,
}

/// What is known of all classes, by class.
#[derive(Clone, Copy)]
pub struct Known<'a> {
    /// The locals that each captures, in the order of the fields that keep them.
    pub captured: &'a [Vec<CapturedLocal>],
    /// The bodies round each, the innermost first.
    pub round: &'a [Vec<Frame>],
    /// Which of its fields are final and have no initializer.
    pub blank: &'a [Vec<bool>],
}

/// The locals that a class captures.
pub fn captured_by<'a>(known: Known<'a>, class: ClassId) -> &'a [CapturedLocal]
    ensures { map captured_local_seen result.now ≡ captured_seen known.entry.captured.now class.0 }
{
    match known.captured.get(class.0 as usize) {
        Some(locals) => locals,
        None => &[],
    }
}

/// The bodies round a class.
pub fn bodies_round<'a>(known: Known<'a>, class: ClassId) -> &'a [Frame]
    ensures { map frame_seen result.now ≡ round_seen known.entry.round.now class.0 }
{
    match known.round.get(class.0 as usize) {
        Some(frames) => frames,
        None => &[],
    }
}
