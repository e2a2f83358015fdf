// Which members guests may use.

ghost use Rattle.std.specs.Prelude.{◌≡◌, Option, false};
ghost use Rattle.taming_db.specs.View.{rows};
ghost use Rattle.node_rules.specs.Enabled.{is_enabled_if, may_use as the_may_use};

use fit_members::is_guest;
use je_core::ClassId;
use library_places::library_place;
use taming_db::Taming;

fn is_enabled_if(taming: &Taming, member: Option<usize>) -> bool
    ensures { result ≡ is_enabled_if (rows taming.now) member }
{
    match member {
        None => false,
        Some(member) => taming.enabled(member),
    }
}

/// Whether guests may use the field, or the method or constructor, at a place of a class: one of a program's own classes, or one of
/// the library's that the taming text enables.
pub fn may_use(taming: &Taming, is_field: bool, class: ClassId, at: u32) -> bool
    ensures { result ≡ the_may_use (rows taming.now) is_field (record { class = class; at = at }) }
{
    is_guest(class) || is_enabled_if(taming, library_place(class, is_field, at))
}

/// Whether guests may use the method or constructor at a place of a class.
#[tactic(auto, using(crate::proofs::Places::no_place))]
pub fn may_call(taming: &Taming, class: ClassId, at: usize) -> bool
    ensures { result ≡ the_may_use (rows taming.now) false (record { class = class; at = at }) }
{
    if at > u32::MAX as usize {
        return is_guest(class);
    }
    may_use(taming, false, class, at as u32)
}
