//! The classes of the library.
ghost use Rattle.std.specs.Prelude.{◌≡◌, map};
ghost use Rattle.je_table.specs.Library.{classes};
ghost use Rattle.je_table.specs.Rows.{class_said};

use crate::marker::{EQUATABLE, IMMUTABLE, POWERLESS, SELFLESS};

/// A class or interface of the library. Its number is its place in `CLASSES`.
#[derive(Clone, Copy, PartialEq, Eq)]
pub enum LibraryClass {
    Object,
    String,
    StringBuilder,
    Integer,
    Long,
    Math,
    System,
    Comparable,
    Runnable,
    Throwable,
    Immutable,
    Selfless,
    Equatable,
    Powerless,
    Token,
    ConstRow,
    IntRow,
    TextRow,
    Console,
    Cell,
    Clock,
    Inbox,
    Store,
    Refused,
    Exception,
    Error,
    RuntimeException,
    ArithmeticException,
    ArrayStoreException,
    ClassCastException,
    IllegalArgumentException,
    IllegalStateException,
    IndexOutOfBoundsException,
    NegativeArraySizeException,
    NullPointerException,
    UnsupportedOperationException,
    ArrayIndexOutOfBoundsException,
    StringIndexOutOfBoundsException,
    NumberFormatException,
}

impl LibraryClass {
    ghost use Rattle.je_table.specs.Library.{class_number, class_row};

    /// Its number, 0 to 38: the place of its full name among the classes.
    pub fn number(self) -> u32
        ensures { class_number (class_row self).name ≡ Some result }
    {
        self as u32
    }
}

/// What the language says of a library class.
#[derive(Clone, Copy)]
pub struct ClassRow {
    /// The full name, as `java.lang.String`.
    pub name: &'static str,
    /// An interface, and no class.
    pub is_interface: bool,
    /// No class extends it.
    pub is_final: bool,
    /// The bound of its one type parameter, which is Object where none is written; none for a class that isn't generic.
    pub bound: Option<LibraryClass>,
    /// What stands directly above it. A class other than Object has its superclass first, and then its interfaces.
    pub supers: &'static [Super],
    /// The markers that it truly has, as a sum of bits of `marker`.
    pub markers: u8,
}

/// A class that stands directly above another.
#[derive(Clone, Copy, PartialEq, Eq)]
pub struct Super {
    /// The class or interface above.
    pub class: LibraryClass,
    /// Its type argument, where it is generic.
    pub argument: Option<LibraryClass>,
}

macro_rules! supers {
    ($($class:ident),*) => {
        &[$(Super { class: LibraryClass::$class, argument: None }),*]
    };
}

macro_rules! class {
    ($name:literal, $is_final:ident, [$($above:ident),*], $markers:expr) => {
        ClassRow { name: $name, is_interface: false, is_final: is_final!($is_final), bound: None, supers: supers!($($above),*), markers: $markers }
    };
}

macro_rules! is_final {
    (final) => { true };
    (open) => { false };
}

macro_rules! interface {
    ($name:literal, $bound:expr, [$($above:ident),*]) => {
        ClassRow { name: $name, is_interface: true, is_final: false, bound: $bound, supers: supers!($($above),*), markers: 0 }
    };
}

/// The classes, in the order of `LibraryClass`.
pub static CLASSES: [ClassRow; 39] = [
    class!("java.lang.Object", open, [], 0),
    ClassRow {
        name: "java.lang.String",
        is_interface: false,
        is_final: true,
        bound: None,
        supers: &[
            Super {
                class: LibraryClass::Object,
                argument: None,
            },
            Super {
                class: LibraryClass::Comparable,
                argument: Some(LibraryClass::String),
            },
        ],
        markers: IMMUTABLE | POWERLESS | SELFLESS,
    },
    class!("java.lang.StringBuilder", final, [Object], 0),
    class!("java.lang.Integer", final, [Object], 0),
    class!("java.lang.Long", final, [Object], 0),
    class!("java.lang.Math", final, [Object], 0),
    class!("java.lang.System", final, [Object], 0),
    interface!("java.lang.Comparable", Some(LibraryClass::Object), []),
    interface!("java.lang.Runnable", None, []),
    class!("java.lang.Throwable", open, [Object], IMMUTABLE | POWERLESS),
    interface!("org.joe_e.Immutable", None, []),
    interface!("org.joe_e.Selfless", None, []),
    interface!("org.joe_e.Equatable", None, []),
    interface!("org.joe_e.Powerless", None, [Immutable]),
    class!(
        "org.joe_e.Token",
        open,
        [Object, Immutable, Equatable],
        IMMUTABLE | EQUATABLE
    ),
    ClassRow {
        name: "joee.lib.ConstRow",
        is_interface: false,
        is_final: true,
        bound: Some(LibraryClass::Immutable),
        supers: &[
            Super {
                class: LibraryClass::Object,
                argument: None,
            },
            Super {
                class: LibraryClass::Immutable,
                argument: None,
            },
        ],
        markers: IMMUTABLE,
    },
    class!("joee.lib.IntRow", final, [Object, Powerless], IMMUTABLE | POWERLESS),
    class!("joee.lib.TextRow", final, [Object, Powerless], IMMUTABLE | POWERLESS),
    interface!("host.Console", None, []),
    interface!("host.Cell", None, []),
    interface!("host.Clock", None, []),
    interface!("host.Inbox", None, []),
    interface!("host.Store", None, []),
    class!(
        "host.Refused",
        open,
        [RuntimeException],
        IMMUTABLE | POWERLESS
    ),
    class!(
        "java.lang.Exception",
        open,
        [Throwable],
        IMMUTABLE | POWERLESS
    ),
    class!("java.lang.Error", open, [Throwable], IMMUTABLE | POWERLESS),
    class!(
        "java.lang.RuntimeException",
        open,
        [Exception],
        IMMUTABLE | POWERLESS
    ),
    class!(
        "java.lang.ArithmeticException",
        open,
        [RuntimeException],
        IMMUTABLE | POWERLESS
    ),
    class!(
        "java.lang.ArrayStoreException",
        open,
        [RuntimeException],
        IMMUTABLE | POWERLESS
    ),
    class!(
        "java.lang.ClassCastException",
        open,
        [RuntimeException],
        IMMUTABLE | POWERLESS
    ),
    class!(
        "java.lang.IllegalArgumentException",
        open,
        [RuntimeException],
        IMMUTABLE | POWERLESS
    ),
    class!(
        "java.lang.IllegalStateException",
        open,
        [RuntimeException],
        IMMUTABLE | POWERLESS
    ),
    class!(
        "java.lang.IndexOutOfBoundsException",
        open,
        [RuntimeException],
        IMMUTABLE | POWERLESS
    ),
    class!(
        "java.lang.NegativeArraySizeException",
        open,
        [RuntimeException],
        IMMUTABLE | POWERLESS
    ),
    class!(
        "java.lang.NullPointerException",
        open,
        [RuntimeException],
        IMMUTABLE | POWERLESS
    ),
    class!(
        "java.lang.UnsupportedOperationException",
        open,
        [RuntimeException],
        IMMUTABLE | POWERLESS
    ),
    class!(
        "java.lang.ArrayIndexOutOfBoundsException",
        open,
        [IndexOutOfBoundsException],
        IMMUTABLE | POWERLESS
    ),
    class!(
        "java.lang.StringIndexOutOfBoundsException",
        open,
        [IndexOutOfBoundsException],
        IMMUTABLE | POWERLESS
    ),
    class!(
        "java.lang.NumberFormatException",
        open,
        [IllegalArgumentException],
        IMMUTABLE | POWERLESS
    ),
];

/// The library's classes: `CLASSES`, of which contracts know each row.
pub fn class_rows() -> &'static [ClassRow]
    ensures { map class_said result.now ≡ classes }
{
    &CLASSES
}
