//! The members of the library's classes.
ghost use Rattle.std.specs.Prelude.{◌≡◌, IsTrue, map};
ghost use Rattle.je_table.specs.Library.{library};
ghost use Rattle.je_table.specs.Members.{key_cmp, keys};
ghost use Rattle.je_table.specs.Rows.{row_of, row_said};
ghost use Rattle.je_table.specs.Tables.{is_sorted};

use crate::classes::LibraryClass;
use crate::members::{CostKind, MemberRow};
use crate::types::{RowBase, RowType};

macro_rules! row_type {
    (void) => { RowType { base: RowBase::Void, dims: 0 } };
    (boolean) => { RowType { base: RowBase::Boolean, dims: 0 } };
    (char) => { RowType { base: RowBase::Char, dims: 0 } };
    (int) => { RowType { base: RowBase::Int, dims: 0 } };
    (long) => { RowType { base: RowBase::Long, dims: 0 } };
    (T) => { RowType { base: RowBase::Parameter, dims: 0 } };
    (char[]) => { RowType { base: RowBase::Char, dims: 1 } };
    (int[]) => { RowType { base: RowBase::Int, dims: 1 } };
    (T[]) => { RowType { base: RowBase::Parameter, dims: 1 } };
    ($class:ident) => { RowType { base: RowBase::Class(LibraryClass::$class), dims: 0 } };
    ($class:ident[]) => { RowType { base: RowBase::Class(LibraryClass::$class), dims: 1 } };
}

macro_rules! is_static {
    (static) => { true };
    (instance) => { false };
}

macro_rules! is_tame {
    (tame) => { true };
    (wild) => { false };
}

/// A method or constructor as `static tame name(type, type) -> type`. Its signature is written from its name and types.
macro_rules! method {
    ($class:literal, $reach:ident $power:ident $name:ident($($p:ident $([$($d:tt)*])? $(, $q:ident $([$($e:tt)*])?)*)?) -> $r:ident $([$($f:tt)*])?, $cost:ident) => {
        MemberRow {
            class: $class,
            signature: concat!(stringify!($name), "(" $(, stringify!($p) $(, "[]" $($d)*)? $(, ",", stringify!($q) $(, "[]" $($e)*)?)*)?, ")"),
            name: stringify!($name),
            parameters: Some(&[$(row_type!($p $([$($d)*])?) $(, row_type!($q $([$($e)*])?))*)?]),
            returns: row_type!($r $([$($f)*])?),
            is_static: is_static!($reach),
            tame: is_tame!($power),
            cost: CostKind::$cost,
        }
    };
}

/// A constant field.
macro_rules! field {
    ($class:literal, $name:ident: $type:ident) => {
        MemberRow { class: $class, signature: stringify!($name), name: stringify!($name), parameters: None, returns: row_type!($type), is_static: true, tame: true, cost: CostKind::Plain }
    };
}

/// The members, sorted by the full name of their class, then by their signature.
pub static LIBRARY: [MemberRow; 110] = [
    method!("host.Cell", instance tame get() -> long, Plain),
    method!("host.Cell", instance tame set(long) -> void, Plain),
    method!("host.Clock", instance tame now() -> long, Plain),
    method!("host.Console", instance tame print(String) -> void, Plain),
    method!("host.Inbox", instance tame next() -> String, Plain),
    method!("host.Refused", instance tame code() -> int, Plain),
    method!("host.Store", instance tame get(String) -> String, Plain),
    method!("host.Store", instance tame put(String, String) -> void, Plain),
    method!("java.lang.ArithmeticException", instance tame new() -> void, Plain),
    method!("java.lang.ArithmeticException", instance tame new(String) -> void, Plain),
    method!("java.lang.ArrayIndexOutOfBoundsException", instance tame new() -> void, Plain),
    method!("java.lang.ArrayIndexOutOfBoundsException", instance tame new(String) -> void, Plain),
    method!("java.lang.ArrayStoreException", instance tame new() -> void, Plain),
    method!("java.lang.ArrayStoreException", instance tame new(String) -> void, Plain),
    method!("java.lang.ClassCastException", instance tame new() -> void, Plain),
    method!("java.lang.ClassCastException", instance tame new(String) -> void, Plain),
    MemberRow {
        class: "java.lang.Comparable",
        signature: "compareTo(Object)",
        name: "compareTo",
        parameters: Some(&[row_type!(T)]),
        returns: row_type!(int),
        is_static: false,
        tame: true,
        cost: CostKind::Plain,
    },
    method!("java.lang.Error", instance tame new() -> void, Plain),
    method!("java.lang.Error", instance tame new(String) -> void, Plain),
    method!("java.lang.Exception", instance tame new() -> void, Plain),
    method!("java.lang.Exception", instance tame new(String) -> void, Plain),
    method!("java.lang.IllegalArgumentException", instance tame new() -> void, Plain),
    method!("java.lang.IllegalArgumentException", instance tame new(String) -> void, Plain),
    method!("java.lang.IllegalStateException", instance tame new() -> void, Plain),
    method!("java.lang.IllegalStateException", instance tame new(String) -> void, Plain),
    method!("java.lang.IndexOutOfBoundsException", instance tame new() -> void, Plain),
    method!("java.lang.IndexOutOfBoundsException", instance tame new(String) -> void, Plain),
    field!("java.lang.Integer", MAX_VALUE: int),
    field!("java.lang.Integer", MIN_VALUE: int),
    method!("java.lang.Integer", static tame bitCount(int) -> int, Plain),
    method!("java.lang.Integer", static tame parseInt(String) -> int, Plain),
    method!("java.lang.Integer", static tame toHexString(int) -> String, Result),
    method!("java.lang.Integer", static tame toString(int) -> String, Result),
    field!("java.lang.Long", MAX_VALUE: long),
    field!("java.lang.Long", MIN_VALUE: long),
    method!("java.lang.Long", static tame parseLong(String) -> long, Plain),
    method!("java.lang.Long", static tame toString(long) -> String, Result),
    method!("java.lang.Math", static tame abs(int) -> int, Plain),
    method!("java.lang.Math", static tame abs(long) -> long, Plain),
    method!("java.lang.Math", static tame max(int, int) -> int, Plain),
    method!("java.lang.Math", static tame max(long, long) -> long, Plain),
    method!("java.lang.Math", static tame min(int, int) -> int, Plain),
    method!("java.lang.Math", static tame min(long, long) -> long, Plain),
    method!("java.lang.NegativeArraySizeException", instance tame new() -> void, Plain),
    method!("java.lang.NegativeArraySizeException", instance tame new(String) -> void, Plain),
    method!("java.lang.NullPointerException", instance tame new() -> void, Plain),
    method!("java.lang.NullPointerException", instance tame new(String) -> void, Plain),
    method!("java.lang.NumberFormatException", instance tame new() -> void, Plain),
    method!("java.lang.NumberFormatException", instance tame new(String) -> void, Plain),
    method!("java.lang.Object", instance tame equals(Object) -> boolean, Plain),
    method!("java.lang.Object", instance wild hashCode() -> int, Plain),
    method!("java.lang.Object", instance tame new() -> void, Plain),
    method!("java.lang.Object", instance wild toString() -> String, Plain),
    method!("java.lang.Runnable", instance tame run() -> void, Plain),
    method!("java.lang.RuntimeException", instance tame new() -> void, Plain),
    method!("java.lang.RuntimeException", instance tame new(String) -> void, Plain),
    method!("java.lang.String", instance tame charAt(int) -> char, Plain),
    method!("java.lang.String", instance tame compareTo(String) -> int, Receiver),
    method!("java.lang.String", instance tame concat(String) -> String, Result),
    method!("java.lang.String", instance tame endsWith(String) -> boolean, Receiver),
    method!("java.lang.String", instance tame equals(Object) -> boolean, Receiver),
    method!("java.lang.String", instance tame hashCode() -> int, Receiver),
    method!("java.lang.String", instance tame indexOf(String) -> int, Product),
    method!("java.lang.String", instance tame indexOf(int) -> int, Receiver),
    method!("java.lang.String", instance tame length() -> int, Plain),
    method!("java.lang.String", instance tame new(char[]) -> void, Result),
    method!("java.lang.String", instance tame replace(char, char) -> String, Result),
    method!("java.lang.String", instance tame startsWith(String) -> boolean, Receiver),
    method!("java.lang.String", instance tame substring(int) -> String, Result),
    method!("java.lang.String", instance tame substring(int, int) -> String, Result),
    method!("java.lang.String", instance tame toCharArray() -> char[], Result),
    method!("java.lang.String", instance tame toString() -> String, Plain),
    method!("java.lang.String", instance tame trim() -> String, Result),
    method!("java.lang.String", static tame valueOf(boolean) -> String, Result),
    method!("java.lang.String", static tame valueOf(char) -> String, Result),
    method!("java.lang.String", static tame valueOf(int) -> String, Result),
    method!("java.lang.String", static tame valueOf(long) -> String, Result),
    method!("java.lang.StringBuilder", instance tame append(String) -> StringBuilder, Result),
    method!("java.lang.StringBuilder", instance tame append(boolean) -> StringBuilder, Result),
    method!("java.lang.StringBuilder", instance tame append(char) -> StringBuilder, Result),
    method!("java.lang.StringBuilder", instance tame append(int) -> StringBuilder, Result),
    method!("java.lang.StringBuilder", instance tame append(long) -> StringBuilder, Result),
    method!("java.lang.StringBuilder", instance tame charAt(int) -> char, Plain),
    method!("java.lang.StringBuilder", instance tame deleteCharAt(int) -> StringBuilder, Receiver),
    method!("java.lang.StringBuilder", instance tame length() -> int, Plain),
    method!("java.lang.StringBuilder", instance tame new() -> void, Plain),
    method!("java.lang.StringBuilder", instance tame new(String) -> void, Result),
    method!("java.lang.StringBuilder", instance tame setCharAt(int, char) -> void, Receiver),
    method!("java.lang.StringBuilder", instance tame toString() -> String, Result),
    method!("java.lang.StringIndexOutOfBoundsException", instance tame new() -> void, Plain),
    method!("java.lang.StringIndexOutOfBoundsException", instance tame new(String) -> void, Plain),
    method!("java.lang.System", static wild currentTimeMillis() -> long, Plain),
    method!("java.lang.System", static wild getProperty(String) -> String, Plain),
    method!("java.lang.System", static wild identityHashCode(Object) -> int, Plain),
    method!("java.lang.System", static wild setProperty(String, String) -> String, Plain),
    method!("java.lang.Throwable", instance tame getMessage() -> String, Plain),
    method!("java.lang.Throwable", instance tame new() -> void, Plain),
    method!("java.lang.Throwable", instance tame new(String) -> void, Plain),
    method!("java.lang.UnsupportedOperationException", instance tame new() -> void, Plain),
    method!("java.lang.UnsupportedOperationException", instance tame new(String) -> void, Plain),
    method!("joee.lib.ConstRow", instance tame get(int) -> T, Plain),
    MemberRow {
        class: "joee.lib.ConstRow",
        signature: "new(Immutable[])",
        name: "new",
        parameters: Some(&[row_type!(T[])]),
        returns: row_type!(void),
        is_static: false,
        tame: true,
        cost: CostKind::Result,
    },
    method!("joee.lib.ConstRow", instance tame size() -> int, Plain),
    method!("joee.lib.IntRow", instance tame get(int) -> int, Plain),
    method!("joee.lib.IntRow", instance tame new(int[]) -> void, Result),
    method!("joee.lib.IntRow", instance tame size() -> int, Plain),
    method!("joee.lib.TextRow", instance tame get(int) -> String, Plain),
    method!("joee.lib.TextRow", instance tame new(String[]) -> void, Result),
    method!("joee.lib.TextRow", instance tame size() -> int, Plain),
    method!("org.joe_e.Token", instance tame new() -> void, Plain),
];

/// The library's members: `LIBRARY`, of which contracts know each row.
pub fn member_rows() -> &'static [MemberRow]
    ensures rows { map row_said result.now ≡ map row_of library }
    ensures sorted { IsTrue (is_sorted key_cmp (keys result.now)) }
{
    &LIBRARY
}
