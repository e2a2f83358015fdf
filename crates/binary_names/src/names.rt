// Which classes have the binary name of an earlier one.

ghost use Rattle.std.specs.Prelude.{◌≡◌, ◌<◌, ◌++◌, ℕ, List, IfOk, OnOk, Some, length, slice_get};
ghost use Rattle.std.specs.List.{list_any};
ghost use Rattle.std.specs.Str.{bytes_eq};
ghost use Rattle.je_scopes.specs.BinaryNames.{binary_name, number_in, number_text, simple_text};
ghost use Rattle.je_scopes.specs.Faults.{below};
ghost use Rattle.name_sites.specs.View.{source_of};
ghost use Rattle.binary_names.specs.Names.{AreNamed};
ghost use Rattle.binary_names.specs.Texts.{IsText, Stays};

use crate::numbering::numbers;
use crate::repeating::repeats;
use crate::texts::Texts;
use itoa::Buffer;
use je_base::Memory;
use je_core::ClassId;
use name_sites::{Sites, is_local};
use std::alloc::Global;

/// Of each class whether an earlier one has its binary name, as two member classes of one name in a class have, and two at
/// the top (JLS 13.1).
pub fn repeated_names(alloc: Global, sites: &Sites) -> Result<Vec<bool>, Memory>
    ensures count { IfOk result (λ flags. length flags.items ≡ length (source_of sites.now).sites) }
    ensures flags { IfOk result
        (λ flags. (c : ℕ) → c < length (source_of sites.now).sites → slice_get flags.items c ≡
        Some (list_any (λ d. bytes_eq (binary_name (source_of sites.now) d)
        (binary_name (source_of sites.now) c)) (below c))) }
{
    let numbers = numbers(alloc, sites)?;
    let mut texts = Texts::new(alloc);
    let mut names = Vec::new(alloc);
    for at in 0..sites.len() {
        let name = add_name(&mut texts, sites, &names, ClassId(at as u32), numbers[at])?;
        names.push(name)?;
    }
    repeats(alloc, &names)
}

// The number of a class's binary name, where those of the classes before it are known.
fn add_name(
    texts: &mut Texts,
    sites: &Sites,
    names: &[usize],
    class: ClassId,
    number: usize,
) -> Result<usize, Memory>
    requires earlier { length names.now ≡ class.0 }
    requires named { AreNamed (source_of sites.now) texts.old names.now }
    requires number { number ≡ number_in (source_of sites.now) class.0 }
    ensures stays { OnOk result (Stays texts.old texts.new) }
    ensures text { IfOk result
        (λ n. IsText texts.new n (binary_name (source_of sites.now) class.0)) }
{
    let simple = simple_name(sites, class);
    let Some(round) = sites.outside(class).within else {
        return texts.extended(Texts::EMPTY, simple.as_bytes());
    };
    let outer = texts.extended(names[round.0 as usize], b"$")?;
    let numbered = add_number(texts, sites, class, number, outer)?;
    texts.extended(numbered, simple.as_bytes())
}

// A text with the number of a local or anonymous class behind it.
fn add_number(
    texts: &mut Texts,
    sites: &Sites,
    class: ClassId,
    number: usize,
    text: usize,
) -> Result<usize, Memory>
    requires { number ≡ number_in (source_of sites.now) class.0 }
    ensures stays { OnOk result (Stays texts.old texts.new) }
    ensures text { IfOk result (λ n. (t : List ℕ) → IsText texts.old text t →
        IsText texts.new n (t ++ number_text (source_of sites.now) class.0)) }
{
    if !is_local(sites.sort(class)) {
        return Ok(text);
    }
    let mut buffer = Buffer::new();
    texts.extended(text, buffer.format(number).as_bytes())
}

// The simple name of a class; the empty one where it has none.
fn simple_name<'a>(sites: &Sites<'a>, class: ClassId) -> &'a str
    ensures { result.now ≡ simple_text (source_of sites.now) class.0 }
{
    match sites.name(class) {
        Some(name) => sites.text(name),
        None => "",
    }
}
