// Constants by class: those of the classes that are asked in place of earlier ones.

ghost use Rattle.std.specs.Prelude.{◌≡◌, length, map, option_map, true, if◌then◌else◌};
ghost use Rattle.body_places.specs.Tables.{constant_at, constant_seen};
ghost use Rattle.je_classes.specs.Members.{Member};
ghost use Rattle.type_decl.specs.way.Asked.{is_asked};

use crate::judging::asks;
use body_places::Constant;
use field_values::is_same_constant;
use std::mem;

fn is_same(one: &Option<Constant>, other: &Option<Constant>) -> bool
    ensures { result ≡ true →
        option_map constant_seen one.now ≡ option_map constant_seen other.now }
{
    match (one, other) {
        (None, None) => true,
        (Some(one), Some(other)) => is_same_constant(one, other),
        (None, Some(_)) | (Some(_), None) => false,
    }
}

fn is_same_row(row: &[Option<Constant>], other: &[Option<Constant>]) -> bool
    ensures { result ≡ true →
        map (option_map constant_seen) row.now ≡ map (option_map constant_seen) other.now }
{
    if row.len() != other.len() {
        return false;
    }
    for at in 0..row.len() {
        if !is_same(&row[at], &other[at]) {
            return false;
        }
    }
    true
}

/// Whether these constants of the classes that are asked are surely the earlier ones.
pub fn are_settled(
    asked: &[bool],
    rows: &[Vec<Option<Constant>>],
    constants: &[Vec<Option<Constant>>],
) -> bool
    requires { length rows.now ≡ length constants.now }
    ensures { result ≡ true → (m : Member) → is_asked asked.now m.class.0 ≡ true →
        constant_at rows.now m ≡ constant_at constants.now m }
{
    for at in 0..rows.len() {
        if asks(asked, at) && !is_same_row(&rows[at], &constants[at]) {
            return false;
        }
    }
    true
}

/// Puts the constants of the classes that are asked in place of the earlier ones.
pub fn put(
    asked: &[bool],
    mut rows: Vec<Vec<Option<Constant>>>,
    constants: &mut Vec<Vec<Option<Constant>>>,
)
    requires { length rows.items ≡ length constants.old.items }
    ensures whole { length constants.new.items ≡ length constants.old.items }
    ensures each { (m : Member) → constant_at constants.new.items m ≡
        (if is_asked asked.now m.class.0 then constant_at rows.items m
        else constant_at constants.old.items m) }
{
    for at in 0..constants.len() {
        if asks(asked, at) {
            mem::swap(&mut rows[at], &mut constants[at]);
        }
    }
}
