// Reads the tables of a taming text from what its TOML stands for.

ghost use Rattle.std.specs.Prelude.{◌≡◌, IfOk, map, option_map, option_and_then, string_bytes};
ghost use Rattle.std.specs.Option.{option_copied};
ghost use Rattle.toml.specs.Data.{as_str, get_member};
ghost use Rattle.toml.specs.View.{items_view, table_view as data_of, view};
ghost use Rattle.taming_db.specs.Shape as words;
ghost use Rattle.taming_db.specs.View.{table_view};

use crate::marker::Marker;
use crate::table::Table;
use std::alloc::{AllocError, Global};
use toml::Value;

/// The tables of a text; none where its top level is not of the shape.
pub(crate) fn tables<'a>(document: &'a toml::Table) -> Option<&'a [Value]>
    ensures { option_map (λ v. items_view v.now) result ≡ words.tables_of (data_of document.now) }
{
    if !is_version(value_at(document, "version")) || !has_document_keys(document) {
        return None;
    }
    match listed(value_at(document, "class")) {
        Some(tables) if are_tables(tables) => Some(tables),
        _ => None,
    }
}

fn is_version(value: Option<&Value>) -> bool
    ensures { result ≡ words.is_version (option_map (λ v. view v.now) value.entry) }
{
    match value {
        Some(value) => value.as_integer() == Some(1),
        None => false,
    }
}

// The items of an array; none are there where nothing is.
fn listed<'a>(value: Option<&'a Value>) -> Option<&'a [Value]>
    ensures { option_map (λ v. items_view v.now) result ≡
        words.tables_at (option_map (λ v. view v.now) value.entry) }
{
    match value {
        None => Some(&[]),
        Some(value) => match value.as_array() {
            None => None,
            Some(items) => Some(items.as_slice()),
        },
    }
}

fn are_tables(values: &[Value]) -> bool
    ensures { result ≡ words.are_tables (items_view values.now) }
{
    for value in values {
        if value.as_table().is_none() {
            return false;
        }
    }
    true
}

/// One table; none where it is not of the shape.
pub(crate) fn table(alloc: Global, value: &Value) -> Result<Option<Table>, AllocError>
    ensures { IfOk result (λ o. option_map table_view o ≡ words.table_of (view value.now)) }
{
    match value.as_table() {
        None => Ok(None),
        Some(table) => table_of(alloc, table),
    }
}

fn table_of(alloc: Global, table: &toml::Table) -> Result<Option<Table>, AllocError>
    ensures { IfOk result (λ o. option_map table_view o ≡
        words.table_of_members (data_of table.now)) }
{
    if !has_table_keys(table) {
        return Ok(None);
    }
    let Some(name) = text_at(table, "name") else {
        return Ok(None);
    };
    let Some(honorary) = markers(alloc, value_at(table, "honorary"))? else {
        return Ok(None);
    };
    let Some(extend) = flag(value_at(table, "extend")) else {
        return Ok(None);
    };
    let Some(enable) = texts(alloc, value_at(table, "enable"))? else {
        return Ok(None);
    };
    Ok(Some(Table {
        name: String::from_str(alloc, name)?,
        honorary,
        extend,
        enable,
    }))
}

fn value_at<'a>(table: &'a toml::Table, key: &str) -> Option<&'a Value>
    ensures { option_map (λ v. view v.now) result ≡ get_member key.now (data_of table.now) }
{
    table.get(key)
}

fn text_at<'a>(table: &'a toml::Table, key: &str) -> Option<&'a str>
    ensures { option_copied result ≡
        option_and_then as_str (get_member key.now (data_of table.now)) }
{
    match value_at(table, key) {
        Some(value) => value.as_str(),
        None => None,
    }
}

// The truth value of a key, which is false where nothing is.
fn flag(value: Option<&Value>) -> Option<bool>
    ensures { result ≡ words.flag_at (option_map (λ v. view v.now) value.entry) }
{
    match value {
        None => Some(false),
        Some(value) => value.as_bool(),
    }
}

// The texts of an array; none are there where nothing is.
fn texts(alloc: Global, value: Option<&Value>) -> Result<Option<Vec<String>>, AllocError>
    ensures { IfOk result (λ o. option_map (λ v. map string_bytes v.items) o ≡
        words.texts_at (option_map (λ v. view v.now) value.entry)) }
{
    match value {
        None => Ok(Some(Vec::new(alloc))),
        Some(value) => match value.as_array() {
            None => Ok(None),
            Some(values) => texts_of(alloc, values.as_slice()),
        },
    }
}

fn texts_of(alloc: Global, values: &[Value]) -> Result<Option<Vec<String>>, AllocError>
    ensures { IfOk result (λ o. option_map (λ v. map string_bytes v.items) o ≡
        words.texts_of (items_view values.now)) }
{
    let mut texts = Vec::new(alloc);
    for value in values {
        match value.as_str() {
            None => return Ok(None),
            Some(text) => texts.push(String::from_str(alloc, text)?)?,
        }
    }
    Ok(Some(texts))
}

fn markers(alloc: Global, value: Option<&Value>) -> Result<Option<Vec<Marker>>, AllocError>
    ensures { IfOk result (λ o. option_map (λ v. v.items) o ≡
        option_and_then words.markers_of
        (words.texts_at (option_map (λ v. view v.now) value.entry))) }
{
    match texts(alloc, value)? {
        None => Ok(None),
        Some(texts) => markers_of(alloc, &texts),
    }
}

fn markers_of(alloc: Global, texts: &[String]) -> Result<Option<Vec<Marker>>, AllocError>
    ensures { IfOk result (λ o. option_map (λ v. v.items) o ≡
        words.markers_of (map string_bytes texts.now)) }
{
    let mut markers = Vec::new(alloc);
    for text in texts {
        match Marker::named(text.as_str()) {
            None => return Ok(None),
            Some(marker) => markers.push(marker)?,
        }
    }
    Ok(Some(markers))
}

fn has_document_keys(table: &toml::Table) -> bool
    ensures { result ≡ words.has_only words.is_document_key (data_of table.now) }
{
    for key in table.keys() {
        if !matches!(key.as_str(), "version" | "class") {
            return false;
        }
    }
    true
}

fn has_table_keys(table: &toml::Table) -> bool
    ensures { result ≡ words.has_only words.is_table_key (data_of table.now) }
{
    for key in table.keys() {
        if !matches!(key.as_str(), "name" | "honorary" | "extend" | "enable") {
            return false;
        }
    }
    true
}
