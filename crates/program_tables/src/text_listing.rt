// Each constant string once, in the order of the text.

ghost use Rattle.std.specs.Prelude.{◌≡◌, ◌++◌, ◌∷◌, [], IfOk, OnOk, map, if◌then◌else◌};
ghost use Rattle.std.specs.List.{list_any};
ghost use Rattle.std.specs.Str.{bytes_eq};
ghost use Rattle.class_typing.specs.Texts.{each_once as the_each_once, in_order as the_in_order, texts as the_texts, units_of};
ghost use Rattle.je_core.specs.View.{class_view};
ghost use Rattle.program_tables.specs.way.Once.{Has};
ghost use Rattle.program_tables.specs.way.Seen.{found_seen};

use crate::classes::found_in;
use crate::found::Found;
use je_base::{Memory, Units};
use je_core::Class;
use std::alloc::Global;
use std::collections::BTreeSet;
use text_members::copied;

fn in_order<'a>(found: Vec<Found<'a>>) -> Result<Vec<Found<'a>>, Memory>
    ensures { IfOk result (λ sorted. map found_seen sorted.items ≡
        the_in_order (map found_seen found.entry.items)) }
{
    let mut sorted = found;
    sorted.sort_by_key(|text| (text.span.file, text.span.start))?;
    Ok(sorted)
}

// One more, unless it is there.
fn add_text<'a>(
    alloc: Global,
    seen: &mut BTreeSet<&'a [u16]>,
    texts: &mut Vec<Units>,
    units: &'a Units,
) -> Result<(), Memory>
    requires { Has seen.old texts.old.items }
    ensures has { OnOk result (Has seen.new texts.new.items) }
    ensures texts { OnOk result (texts.new.items ≡
        (if list_any (bytes_eq units.now) texts.old.items then texts.old.items
        else texts.old.items ++ units.now ∷ [])) }
{
    if seen.insert(units.as_slice())? {
        texts.push(copied(alloc, units.as_slice())?)?;
    }
    Ok(())
}

fn each_once(alloc: Global, found: &[Found]) -> Result<Vec<Units>, Memory>
    ensures { IfOk result (λ texts. texts.items ≡
        the_each_once [] (map units_of (map found_seen found.now))) }
{
    let mut seen = BTreeSet::new(alloc);
    let mut texts = Vec::new(alloc);
    for text in found {
        add_text(alloc, &mut seen, &mut texts, text.units)?;
    }
    Ok(texts)
}

/// The constant strings in the code of classes, in the order in which they stand in the text, each once.
#[tactic(auto, unfolding(class_typing::specs::Texts::texts))]
pub fn texts(alloc: Global, classes: &[Class]) -> Result<Vec<Units>, Memory>
    ensures { IfOk result (λ texts. texts.items ≡ the_texts (map class_view classes.now)) }
{
    let found = found_in(alloc, classes)?;
    let sorted = in_order(found)?;
    let texts = each_once(alloc, &sorted)?;
    Ok(texts)
}
