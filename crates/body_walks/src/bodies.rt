// What the bodies of a program are judged by.

ghost use Rattle.class_spots.specs.Spots.{AreSpotsOf};
ghost use Rattle.name_sites.specs.View.{source_of};

use call_steps::Calls;
use class_spots::ClassSpots;
use core_making::Known;

/// The classes of a program where bodies are walked: what calls are judged by, what is known of all classes, and which
/// class stands at a place of the text.
#[derive(Clone, Copy)]
pub struct Bodies<'a> {
    pub calls: Calls<'a>,
    pub known: Known<'a>,
    pub spots: &'a ClassSpots,
    ghost spotted: { AreSpotsOf (source_of calls.program.source.sites.now).sites spots.now },
}
