// Reads a taming text, and tells what it says of the library.

ghost use Rattle.std.specs.Prelude.{◌≡◌, IfErr, IfOk, Ok, [], map};
ghost use Rattle.taming_db.specs.declared.fault.TamingFault.TheVariants.{Refused};
ghost use Rattle.std.specs.List.{list_any};
ghost use Rattle.toml.specs.View.{items_view, table_view as data_of};
ghost use Rattle.taming_db.specs.Rows.{rows_from, rows_of};
ghost use Rattle.taming_db.specs.Taming as words;
ghost use Rattle.taming_db.specs.View.{row_view, rows};
ghost use Rattle.taming_db.specs.way.Faults.{IsAt};

use crate::fault::{TamingFault, TamingRule};
use crate::judge::{has_marker, has_place, member_named, row};
use crate::marker::Marker;
use crate::shape::tables;
use crate::taming::{Row, Taming};
use je_table::LibraryClass;
use std::alloc::Global;
use toml::Value;

impl Taming {
    /// Reads a taming text.
    ///
    /// # Errors
    ///
    /// `Refused` with the first fault exactly where the text has one, and `Memory` for want of memory.
    pub fn read(alloc: Global, bytes: &[u8]) -> Result<Taming, TamingFault>
        ensures ok { IfOk result (λ taming. words.Says bytes.now (Ok (rows taming))) }
        ensures err { IfErr result (words.IsFaultOf bytes.now) }
    {
        match toml::table_from_slice(alloc, bytes) {
            Ok(document) => read_document(alloc, &document),
            Err(error) => {
                if error.is_memory() {
                    Err(TamingFault::Memory)
                } else {
                    Err(refused(0, TamingRule::NotToml))
                }
            }
        }
    }

    /// Whether guests may use that member, by its place in `LIBRARY`. The constructor of Object is always enabled.
    pub fn enabled(&self, member: usize) -> bool
        ensures { result ≡ words.is_enabled (rows self.now) member }
    {
        is_object_constructor(member) || enables(&self.rows, member)
    }

    /// Whether that class, by its place in `CLASSES`, is given that marker.
    pub fn honorary(&self, class: usize, marker: Marker) -> bool
        ensures { result ≡ words.is_honorary (rows self.now) class marker }
    {
        gives(&self.rows, class, marker)
    }

    /// Whether guests may extend or implement that class, by its place in `CLASSES`. Object and the four markers are always open.
    pub fn may_extend(&self, class: usize) -> bool
        ensures { result ≡ words.is_open (rows self.now) class }
    {
        is_always_open(class) || opens(&self.rows, class)
    }
}

fn read_document(alloc: Global, document: &toml::Table) -> Result<Taming, TamingFault>
    ensures ok { IfOk result (λ taming. rows_of (data_of document.now) ≡ Ok (rows taming)) }
    ensures err { IfErr result (IsAt (rows_of (data_of document.now))) }
{
    match tables(document) {
        None => Err(refused(0, TamingRule::BadShape)),
        Some(tables) => Ok(Taming {
            rows: read_tables(alloc, tables)?,
        }),
    }
}

#[tactic(auto, using(crate::proofs::Reading::next_table))]
fn read_tables(alloc: Global, tables: &[Value]) -> Result<Vec<Row>, TamingFault>
    ensures ok { IfOk result (λ all. rows_from 1 [] (items_view tables.now) ≡
        Ok (map row_view all.items)) }
    ensures err { IfErr result (IsAt (rows_from 1 [] (items_view tables.now))) }
{
    let mut rows = Vec::new(alloc);
    for (before, table) in tables.iter().enumerate() {
        match row(alloc, &rows, table)? {
            Ok(row) => rows.push(row)?,
            Err(rule) => return Err(refused(before + 1, rule)),
        }
    }
    Ok(rows)
}

fn refused(table: usize, rule: TamingRule) -> TamingFault
    ensures { result ≡ Refused table rule }
{
    TamingFault::Refused { table, rule }
}

fn is_object_constructor(member: usize) -> bool
    ensures { result ≡ words.is_object_constructor member }
{
    member_named("java.lang.Object", "new()") == Some(member)
}

fn enables(rows: &[Row], member: usize) -> bool
    ensures { result ≡ list_any (λ row. words.enables member (row_view row)) rows.now }
{
    rows.iter().any(|row| has_place(&row.enable, member))
}

fn gives(rows: &[Row], class: usize, marker: Marker) -> bool
    ensures { result ≡ list_any (λ row. words.gives_marker class marker (row_view row)) rows.now }
{
    rows.iter().any(|row| row.class == class && has_marker(&row.honorary, marker))
}

fn opens(rows: &[Row], class: usize) -> bool
    ensures { result ≡ list_any (λ row. words.opens class (row_view row)) rows.now }
{
    rows.iter().any(|row| row.class == class && row.extend)
}

fn is_always_open(class: usize) -> bool
    ensures { result ≡ words.is_always_open class }
{
    has_number(LibraryClass::Object, class)
        || has_number(LibraryClass::Immutable, class)
        || has_number(LibraryClass::Powerless, class)
        || has_number(LibraryClass::Selfless, class)
        || has_number(LibraryClass::Equatable, class)
}

fn has_number(class: LibraryClass, number: usize) -> bool
    ensures { result ≡ words.has_number number class }
{
    class.number() as usize == number
}
