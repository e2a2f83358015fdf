// Judges the tables of a taming text, one after the other.

ghost use Rattle.std.specs.Prelude.{◌≡◌, IfOk, bytes_eq, position, Some, map, option_map, string_bytes};
ghost use Rattle.std.specs.List.{list_all, list_any};
ghost use Rattle.std.specs.Result.{result_map_both};
ghost use Rattle.toml.specs.View.{view};
ghost use Rattle.je_table.specs.Library.{class_number};
ghost use Rattle.taming_db.specs.Markers.{is_same};
ghost use Rattle.taming_db.specs.Rows as words;
ghost use Rattle.taming_db.specs.View.{row_view, table_view};

use crate::fault::TamingRule;
use crate::marker::Marker;
use crate::shape;
use crate::table::Table;
use crate::taming::Row;
use je_table::{ClassRow, class_rows, find_member, member_rows};
use std::alloc::{AllocError, Global};
use toml::Value;

/// The row of a table, behind those of earlier tables, or the first rule that it breaks.
pub(crate) fn row(
    alloc: Global,
    earlier: &[Row],
    value: &Value,
) -> Result<Result<Row, TamingRule>, AllocError>
    ensures { IfOk result (λ r. result_map_both row_view (λ rule. rule) r ≡
        words.row_of (map row_view earlier.now) (view value.now)) }
{
    match shape::table(alloc, value)? {
        None => Ok(Err(TamingRule::BadShape)),
        Some(table) => row_of_table(alloc, earlier, table),
    }
}

fn row_of_table(
    alloc: Global,
    earlier: &[Row],
    table: Table,
) -> Result<Result<Row, TamingRule>, AllocError>
    ensures { IfOk result (λ r. result_map_both row_view (λ rule. rule) r ≡
        words.with_table (map row_view earlier.now) (Some (table_view table))) }
{
    match class_named(table.name.as_str()) {
        None => Ok(Err(TamingRule::UnknownClass)),
        Some(class) => row_of_class(alloc, earlier, table, class),
    }
}

fn row_of_class(
    alloc: Global,
    earlier: &[Row],
    table: Table,
    class: usize,
) -> Result<Result<Row, TamingRule>, AllocError>
    ensures { IfOk result (λ r. result_map_both row_view (λ rule. rule) r ≡
        words.with_class (map row_view earlier.now) (table_view table) (Some class)) }
{
    match members(alloc, table.name.as_str(), &table.enable)? {
        None => Ok(Err(TamingRule::UnknownMember)),
        Some(enable) => Ok(judged(
            earlier,
            Row {
                class,
                honorary: table.honorary,
                extend: table.extend,
                enable,
            },
        )),
    }
}

// The row, unless it breaks one of the rules that speak of known classes and members.
fn judged(earlier: &[Row], row: Row) -> Result<Row, TamingRule>
    ensures { result_map_both row_view (λ rule. rule) result ≡
        words.judged (map row_view earlier.now) (row_view row) }
{
    if !are_tame(&row.enable) {
        Err(TamingRule::Wild)
    } else if !are_true(row.class, &row.honorary) {
        Err(TamingRule::FalseHonorary)
    } else if is_taken(earlier, row.class)
        || has_marker_twice(&row.honorary)
        || has_place_twice(&row.enable)
    {
        Err(TamingRule::Twice)
    } else {
        Ok(row)
    }
}

// The place of the class of that full name among the library's.
#[tactic(auto, using(crate::proofs::Places::class_place))]
fn class_named(name: &str) -> Option<usize>
    ensures { result ≡ class_number name.now }
{
    place_of(class_rows(), name)
}

// The place of the first row of a name.
fn place_of(rows: &[ClassRow], name: &str) -> Option<usize>
    ensures { result ≡ position (λ row. bytes_eq row.name.now name.now) rows.now }
{
    rows.iter().position(|row| row.name == name)
}

// The members of all signatures, where the class declares each.
fn members(
    alloc: Global,
    class: &str,
    signatures: &[String],
) -> Result<Option<Vec<usize>>, AllocError>
    ensures { IfOk result (λ o. option_map (λ v. v.items) o ≡
        words.member_places class.now (map string_bytes signatures.now)) }
{
    let mut places = Vec::new(alloc);
    for signature in signatures {
        match member_named(class, signature.as_str()) {
            None => return Ok(None),
            Some(place) => places.push(place)?,
        }
    }
    Ok(Some(places))
}

/// The place of the member that a class of that full name declares with that signature.
#[tactic(auto, using(crate::proofs::Places::member_is))]
pub(crate) fn member_named(class: &str, signature: &str) -> Option<usize>
    ensures { result ≡ words.member_place class.now signature.now }
{
    find_member(member_rows(), class, signature)
}

fn are_tame(members: &[usize]) -> bool
    ensures { result ≡ list_all words.is_tame members.now }
{
    members.iter().all(|&member| is_tame(member))
}

#[tactic(auto, using(crate::proofs::Places::tame_none, crate::proofs::Places::tame_some))]
fn is_tame(member: usize) -> bool
    ensures { result ≡ words.is_tame member }
{
    match member_rows().get(member) {
        None => false,
        Some(row) => row.tame,
    }
}

fn are_true(class: usize, markers: &[Marker]) -> bool
    ensures { result ≡ list_all (words.is_true_marker class) markers.now }
{
    markers.iter().all(|&marker| is_true(class, marker))
}

#[tactic(auto, using(crate::proofs::Places::true_none, crate::proofs::Places::true_some))]
fn is_true(class: usize, marker: Marker) -> bool
    ensures { result ≡ words.is_true_marker class marker }
{
    match class_rows().get(class) {
        None => false,
        Some(row) => marker.is_in(row.markers),
    }
}

fn is_taken(earlier: &[Row], class: usize) -> bool
    ensures { result ≡ list_any (words.is_of class) (map row_view earlier.now) }
{
    is_class_of(earlier, class)
}

fn is_class_of(rows: &[Row], class: usize) -> bool
    ensures { result ≡ list_any (λ row. words.is_of class (row_view row)) rows.now }
{
    rows.iter().any(|row| row.class == class)
}

#[tactic(auto, using(crate::proofs::Mapped::twice_from))]
fn has_marker_twice(markers: &[Marker]) -> bool
    ensures { result ≡ words.has_twice is_same markers.now }
{
    for at in 0..markers.len() {
        if has_marker(&markers[at + 1..], markers[at]) {
            return true;
        }
    }
    false
}

/// Whether the marker is one of these.
pub(crate) fn has_marker(markers: &[Marker], marker: Marker) -> bool
    ensures { result ≡ list_any (λ one. is_same one marker) markers.now }
{
    markers.iter().any(|one| one.is_same(marker))
}

#[tactic(auto, using(crate::proofs::Mapped::twice_from))]
fn has_place_twice(places: &[usize]) -> bool
    ensures { result ≡ words.has_twice words.same_place places.now }
{
    for at in 0..places.len() {
        if has_place(&places[at + 1..], places[at]) {
            return true;
        }
    }
    false
}

/// Whether the place is one of these.
pub(crate) fn has_place(places: &[usize], place: usize) -> bool
    ensures { result ≡ list_any (λ one. words.same_place one place) places.now }
{
    places.iter().any(|&one| one == place)
}
