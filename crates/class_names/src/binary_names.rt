// The binary names of classes (JLS 13.1).

ghost use Rattle.std.specs.Prelude.{◌≡◌, ◌++◌, codes, length, IfOk, OnOk};
ghost use Rattle.je_core.specs.View.{program_view};
ghost use Rattle.je_classes.specs.Hierarchy.{class_at};
ghost use Rattle.class_names.specs.BinaryNames.{within_in, binary_name as the_binary_name, inner_text, number_text, round_within, simple_text};

use itoa::Buffer;
use je_base::{Memory, Names};
use je_classes::class_count;
use je_core::{ClassId, Program, Sort};
use std::alloc::Global;

/// The binary name of a class of a program, and the full name of a class of the library, as UTF-8. `names` has the program's
/// names; a class that isn't there, and a name that has no text, adds nothing.
#[tactic(auto, using(crate::proofs::Joining::outermost_first, crate::proofs::Joining::pieces_last), unfolding(crate::specs::BinaryNames::binary_name))]
pub fn binary_name(
    alloc: Global,
    program: &Program,
    names: &Names,
    class: ClassId,
) -> Result<Vec<u8>, Memory>
    ensures { IfOk result
        (λ name. name.items ≡ the_binary_name (program_view program.now) names.now class) }
{
    let mut round = round_of(alloc, program, class)?;
    let mut name = Vec::new(alloc);
    if let Some(outermost) = round.pop() {
        add_simple(&mut name, program, names, outermost)?;
    }
    while let Some(inner) = round.pop() {
        add_inner(&mut name, program, names, inner)?;
    }
    Ok(name)
}

// A class and those round it, innermost first.
fn round_of(alloc: Global, program: &Program, class: ClassId) -> Result<Vec<ClassId>, Memory>
    ensures { IfOk result (λ round. round.items ≡
        round_within (program_view program.now) (length (program_view program.now).classes) class) }
{
    let mut round = Vec::new(alloc);
    let mut next = class;
    'out: for _ in 0..class_count(program) {
        round.push(next)?;
        let Some(outer) = within(program, next) else {
            return Ok(round);
        };
        next = outer;
    }
    Ok(round)
}

// The class directly round one.
fn within(program: &Program, class: ClassId) -> Option<ClassId>
    ensures { result ≡ within_in (class_at (program_view program.now) class) }
{
    match program.class(class) {
        None => None,
        Some(class) => class.within,
    }
}

// A class's simple name, behind what stands there.
fn add_simple(
    name: &mut Vec<u8>,
    program: &Program,
    names: &Names,
    class: ClassId,
) -> Result<(), Memory>
    ensures { OnOk result
        (name.new.items ≡ name.old.items
        ++ simple_text (program_view program.now) names.now class) }
{
    let Some(class) = program.class(class) else {
        return Ok(());
    };
    let Some(text) = names.text(class.name) else {
        return Ok(());
    };
    name.extend_from_slice(text.as_bytes())?;
    Ok(())
}

// The number of a local or anonymous class, behind what stands there.
fn add_number(name: &mut Vec<u8>, program: &Program, class: ClassId) -> Result<(), Memory>
    ensures { OnOk result
        (name.new.items ≡ name.old.items ++ number_text (program_view program.now) class) }
{
    let Some(class) = program.class(class) else {
        return Ok(());
    };
    match class.kind.sort {
        Sort::Local | Sort::Anonymous => {
            let mut buffer = Buffer::new();
            name.extend_from_slice(buffer.format(class.nth).as_bytes())?;
            Ok(())
        }
        _ => Ok(()),
    }
}

// What a class adds to the name of the class round it.
fn add_inner(
    name: &mut Vec<u8>,
    program: &Program,
    names: &Names,
    class: ClassId,
) -> Result<(), Memory>
    ensures { OnOk result (name.new.items ≡ name.old.items ++
        inner_text (program_view program.now) names.now class) }
{
    name.extend_from_slice(b"$")?;
    add_number(name, program, class)?;
    add_simple(name, program, names, class)
}
