// Wild members of the library, and the texts of objects that come from one.

ghost use Rattle.std.specs.Prelude.{◌≡◌, IfOk, filter, map, slice_get};
ghost use Rattle.je_core.specs.View.{method_view, program_view};
ghost use Rattle.je_classes.specs.Hierarchy.{IsAcyclic};
ghost use Rattle.je_classes.specs.Members.{method_of};
ghost use Rattle.je_table.specs.Rows.{row_said};
ghost use Rattle.member_lookup.specs.Founds.{found_seen};
ghost use Rattle.plain_programs.specs.Wild.{is_method_row, is_wild_row, is_wild as the_is_wild, is_wild_found as the_is_wild_found, text_place as the_text_place, has_wild_text as the_has_wild_text, has_wild_text_by, has_wild_text_of, is_wild_text as the_is_wild_text};

use class_members::method_at;
use je_classes::object_class;
use je_core::{Base, ClassId, Memory, Method, Program, Ty};
use je_table::{MemberRow, class_rows, member_rows};
use member_lookup::Found;
use method_lookup::find_method;
use std::alloc::Global;

// Whether the method of a number among those of a class's rows is wild.
#[tactic(auto, using(crate::proofs::Rows::rows_in_turn))]
fn is_wild_among(rows: &[MemberRow], class: &str, at: usize) -> bool
    ensures { result ≡ is_wild_row (slice_get
        (filter (is_method_row class.now) (map row_said rows.now)) at) }
{
    let mut before = at;
    for row in rows {
        if row.class == class && !row.parameters.is_none() {
            if before == 0 {
                return !row.tame;
            }
            before -= 1;
        }
    }
    false
}

/// Whether the method or constructor at a place of a class is a wild one of the library.
pub fn is_wild(class: ClassId, at: usize) -> bool
    ensures { result ≡ the_is_wild (record { class = class; at = at }) }
{
    let Some(row) = class_rows().get(class.0 as usize) else {
        return false;
    };
    is_wild_among(member_rows(), row.name, at)
}

fn is_wild_found(found: Found) -> bool
    ensures { result ≡ the_is_wild_found (found_seen found) }
{
    match found {
        Found::One(class, at) => is_wild(class, at),
        _ => false,
    }
}

// The place of Object's `toString()` among its methods.
#[tactic(auto, unfolding(crate::specs::Wild::text_place))]
fn text_place() -> usize
    ensures { result ≡ the_text_place }
{
    3
}

// Whether what a name like that of Object's `toString()` finds without arguments in a class is wild.
fn finds_wild(
    alloc: Global,
    program: &Program,
    class: ClassId,
    text: &Method,
) -> Result<bool, Memory>
    requires { IsAcyclic (program_view program.now) }
    ensures { IfOk result (λ wild. wild ≡
        has_wild_text_by (program_view program.now) class (method_view text.now)) }
{
    let found = find_method(alloc, program, class, text.name, &[])?;
    Ok(is_wild_found(found))
}

// Whether the `toString()` that is found in a class is wild.
#[tactic(auto, unfolding(crate::specs::Wild::has_wild_text))]
fn has_wild_text(alloc: Global, program: &Program, class: ClassId) -> Result<bool, Memory>
    requires { IsAcyclic (program_view program.now) }
    ensures { IfOk result (λ wild. wild ≡ the_has_wild_text (program_view program.now) class) }
{
    match method_at(program, object_class(), text_place()) {
        None => Ok(false),
        Some(text) => finds_wild(alloc, program, class, text),
    }
}

/// Whether the `toString()` that is found in a type is wild. An array has Object's members (JLS 10.7).
pub fn is_wild_text(alloc: Global, program: &Program, ty: Ty) -> Result<bool, Memory>
    requires { IsAcyclic (program_view program.now) }
    ensures { IfOk result (λ wild. wild ≡ the_is_wild_text (program_view program.now) ty) }
{
    if ty.dims > 0 {
        return has_wild_text(alloc, program, object_class());
    }
    match ty.base {
        Base::Class(class) => has_wild_text(alloc, program, class),
        _ => Ok(false),
    }
}
