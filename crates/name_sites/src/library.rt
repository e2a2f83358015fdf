// How names mean classes of the library.

ghost use Rattle.std.specs.Prelude.{◌≡◌, ◌<◌, ◌^◌, ◌++◌, ◌∷◌, [], IfOk, IfSome, OnOk, codes, length, map, string_bytes};
ghost use Rattle.std.specs.List.{position};
ghost use Rattle.std.specs.Str.{bytes_eq};
ghost use Rattle.je_table.specs.Library.{class_number};
ghost use Rattle.je_scopes.specs.Source.{full_text as the_full_text, library_class, part_text, text_in};
ghost use Rattle.name_sites.specs.Library.{further_text, implicit_numbers};

use je_ast::Identifier;
use je_base::{Memory, NameId, Names};
use je_table::{ClassRow, class_rows};
use std::alloc::Global;

/// The class of a full name.
#[tactic(auto, using(crate::proofs::Positions::count_of_rows))]
pub fn class_named(full: &str) -> Option<u32>
    ensures { result ≡ class_number full.now }
{
    match place_of(class_rows(), full) {
        Some(at) => Some(at as u32),
        None => None,
    }
}

// The place of the first row of a name.
fn place_of(rows: &[ClassRow], full: &str) -> Option<usize>
    ensures place { result ≡ position (λ row. bytes_eq row.name.now full.now) rows.now }
    ensures within { IfSome result (λ at. at < length rows.now) }
{
    rows.iter().position(|row| row.name == full)
}

/// The text of a name, which is one of these.
pub fn text_of<'a>(names: &'a Names, name: NameId) -> &'a str
    ensures { result.now ≡ text_in names.now name }
{
    match names.text(name) {
        Some(text) => text,
        None => "",
    }
}

// Parts with points between them.
#[tactic(auto, using(crate::proofs::Texts::joined_is))]
fn full_text(alloc: Global, names: &Names, parts: &[Identifier]) -> Result<String, Memory>
    ensures { IfOk result (λ text. string_bytes text ≡ the_full_text names.now parts.now) }
{
    let Some((first, further)) = parts.split_first() else {
        return Ok(String::new(alloc));
    };
    let mut text = String::from_str(alloc, text_of(names, first.name))?;
    push_further(&mut text, names, further)?;
    Ok(text)
}

fn push_further(text: &mut String, names: &Names, parts: &[Identifier]) -> Result<(), Memory>
    ensures { OnOk result (string_bytes text.new ≡
        string_bytes text.old ++ further_text (map (part_text names.now) parts.now)) }
{
    for part in parts {
        text.push('.')?;
        text.push_str(text_of(names, part.name))?;
    }
    Ok(())
}

/// The class whose full name these parts are (JLS 6.7).
pub fn full_name(alloc: Global, names: &Names, parts: &[Identifier]) -> Result<Option<u32>, Memory>
    ensures { IfOk result (λ class. class ≡ library_class names.now parts.now) }
{
    let text = full_text(alloc, names, parts)?;
    Ok(class_named(text.as_str()))
}

// The class of `java.lang` of a simple name (JLS 7.5.5).
fn in_java_lang(alloc: Global, simple: &str) -> Result<Option<u32>, Memory>
    ensures { IfOk result (λ class. class ≡ class_number (codes "java.lang." ++ simple.now)) }
{
    let mut full = String::from_str(alloc, "java.lang.")?;
    full.push_str(simple)?;
    Ok(class_named(full.as_str()))
}

/// Of each name the class of `java.lang` that it is the simple name of.
pub fn implicit_classes(alloc: Global, names: &Names) -> Result<Vec<Option<u32>>, Memory>
    requires { length names.now < 2 ^ 32 }
    ensures { IfOk result (λ classes. classes.items ≡ implicit_numbers names.now) }
{
    let mut classes = Vec::new(alloc);
    for at in 0..names.len() {
        let class = in_java_lang(alloc, text_of(names, NameId(at as u32)))?;
        classes.push(class)?;
    }
    Ok(classes)
}
