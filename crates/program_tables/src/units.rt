// The UTF-16 units of a name.

ghost use Rattle.std.specs.Prelude.{◌≡◌, ◌++◌, IfOk, OnOk};
ghost use Rattle.std.specs.Char.Escape.{encode_utf16};
ghost use Rattle.class_typing.specs.Enums.{name_units as the_name_units};
ghost use Rattle.je_scopes.specs.Source.{text_in};
ghost use Rattle.program_tables.specs.way.Units.{units_of as the_units_of};

use je_base::{Memory, NameId, Names, Units};
use std::alloc::Global;
use text_members::append;

fn add_units(units: &mut Units, c: char) -> Result<(), Memory>
    ensures { OnOk result (units.new ≡ units.old ++ encode_utf16 c) }
{
    let mut both = [0; 2];
    append(units, c.encode_utf16(&mut both))
}

fn units_of(alloc: Global, text: &str) -> Result<Units, Memory>
    ensures { IfOk result (λ units. units ≡ the_units_of text.now) }
{
    let mut units = Units::new(alloc);
    for c in text.chars() {
        add_units(&mut units, c)?;
    }
    Ok(units)
}

fn text_of(names: &Names, name: NameId) -> &str
    ensures { result.now ≡ text_in names.now name }
{
    match names.text(name) {
        Some(text) => text,
        None => "",
    }
}

/// The units of the text of a name; none for a number that is no name.
pub fn name_units(alloc: Global, names: &Names, name: NameId) -> Result<Units, Memory>
    ensures { IfOk result (λ units. units ≡ the_name_units names.now name) }
{
    units_of(alloc, text_of(names, name))
}
