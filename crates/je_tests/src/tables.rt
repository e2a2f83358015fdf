// The tables beside what the language says of them, written out by hand.
ghost use Rattle.std.specs.Prelude.{◌≡◌};

use je_table::LibraryClass::{
    Comparable, Equatable, Exception, IllegalArgumentException, Immutable,
    IndexOutOfBoundsException, Object, Powerless, RuntimeException, Throwable,
};
use je_table::{
    ClassRow, CostKind, KEYWORDS, LibraryClass, MemberRow, OPERATORS, RowBase, RowType, Super,
    class_rows, find_keyword, find_member, find_word, marker, member_rows,
};
use std::test::Fail;

const FROZEN: u8 = marker::IMMUTABLE | marker::POWERLESS;

const WORDS: &str =
    "abstract assert boolean break byte case catch char class const continue default do double else enum extends \
     final finally float for goto if implements import instanceof int interface long native new package private \
     protected public return short static strictfp super switch synchronized this throw throws transient try void \
     volatile while true false null";

const SIGNS: &str =
    "( ) { } [ ] ; , . ... @ = > < ! ~ ? : == <= >= != && || ++ -- + - * / & | ^ % << >> >>> += -= *= /= &= \
     |= ^= %= <<= >>= >>>=";

// How many of these keywords there are, or None if one is missing or stands elsewhere.
fn count_of_keywords(words: &str) -> Option<usize> {
    let mut count = 0;
    for word in words.split_whitespace() {
        if KEYWORDS.get(find_keyword(word)?) != Some(&word) || count >= KEYWORDS.len() {
            return None;
        }
        count += 1;
    }
    Some(count)
}

fn has_keyword(words: &str) -> bool {
    for word in words.split(' ') {
        if find_keyword(word).is_some() {
            return true;
        }
    }
    false
}

#[test]
fn finds_each_keyword(rt: HostRuntime) {
    let holds = count_of_keywords(WORDS) == Some(KEYWORDS.len())
        && !has_keyword("Abstract abstrac abstracts main String zebra ");
    assert!(rt; holds);
}

// How many of these operators there are, or None if one is missing or stands elsewhere.
fn count_of_operators(words: &str) -> Option<usize> {
    let mut count = 0;
    for word in words.split_whitespace() {
        if OPERATORS.get(find_word(&OPERATORS, word)?) != Some(&word) || count >= OPERATORS.len() {
            return None;
        }
        count += 1;
    }
    Some(count)
}

fn has_operator(words: &str) -> bool {
    for word in words.split(' ') {
        if find_word(&OPERATORS, word).is_some() {
            return true;
        }
    }
    false
}

#[test]
fn finds_each_operator(rt: HostRuntime) {
    let holds = count_of_operators(SIGNS) == Some(OPERATORS.len())
        && !has_operator(".. -> :: # === >>>> ");
    assert!(rt; holds);
}

#[test]
fn finds_the_first_of_equal_words(rt: HostRuntime) -> Result<(), Fail> {
    let rows: [&str; 5] = ["a", "b", "b", "b", "c"];
    assert_eq!(rt; find_word(&rows, "b"), Some(1));
    assert_eq!(rt; find_word(&rows[..0], "b"), None);
    Ok(())
}

// Each class with what stands above it, whether it is final, its markers and the number of its members.
static CLASS_FACTS: [(&str, &[LibraryClass], bool, u8, usize); 39] = [
    ("java.lang.Object", &[], false, 0, 4),
    (
        "java.lang.String",
        &[Object, Comparable],
        true,
        FROZEN | marker::SELFLESS,
        21,
    ),
    ("java.lang.StringBuilder", &[Object], true, 0, 12),
    ("java.lang.Integer", &[Object], true, 0, 6),
    ("java.lang.Long", &[Object], true, 0, 4),
    ("java.lang.Math", &[Object], true, 0, 6),
    ("java.lang.System", &[Object], true, 0, 4),
    ("java.lang.Comparable", &[], false, 0, 1),
    ("java.lang.Runnable", &[], false, 0, 1),
    ("java.lang.Throwable", &[Object], false, FROZEN, 3),
    ("org.joe_e.Immutable", &[], false, 0, 0),
    ("org.joe_e.Selfless", &[], false, 0, 0),
    ("org.joe_e.Equatable", &[], false, 0, 0),
    ("org.joe_e.Powerless", &[Immutable], false, 0, 0),
    (
        "org.joe_e.Token",
        &[Object, Immutable, Equatable],
        false,
        marker::IMMUTABLE | marker::EQUATABLE,
        1,
    ),
    (
        "joee.lib.ConstRow",
        &[Object, Immutable],
        true,
        marker::IMMUTABLE,
        3,
    ),
    ("joee.lib.IntRow", &[Object, Powerless], true, FROZEN, 3),
    ("joee.lib.TextRow", &[Object, Powerless], true, FROZEN, 3),
    ("host.Console", &[], false, 0, 1),
    ("host.Cell", &[], false, 0, 2),
    ("host.Clock", &[], false, 0, 1),
    ("host.Inbox", &[], false, 0, 1),
    ("host.Store", &[], false, 0, 2),
    ("host.Refused", &[RuntimeException], false, FROZEN, 1),
    ("java.lang.Exception", &[Throwable], false, FROZEN, 2),
    ("java.lang.Error", &[Throwable], false, FROZEN, 2),
    ("java.lang.RuntimeException", &[Exception], false, FROZEN, 2),
    (
        "java.lang.ArithmeticException",
        &[RuntimeException],
        false,
        FROZEN,
        2,
    ),
    (
        "java.lang.ArrayStoreException",
        &[RuntimeException],
        false,
        FROZEN,
        2,
    ),
    (
        "java.lang.ClassCastException",
        &[RuntimeException],
        false,
        FROZEN,
        2,
    ),
    (
        "java.lang.IllegalArgumentException",
        &[RuntimeException],
        false,
        FROZEN,
        2,
    ),
    (
        "java.lang.IllegalStateException",
        &[RuntimeException],
        false,
        FROZEN,
        2,
    ),
    (
        "java.lang.IndexOutOfBoundsException",
        &[RuntimeException],
        false,
        FROZEN,
        2,
    ),
    (
        "java.lang.NegativeArraySizeException",
        &[RuntimeException],
        false,
        FROZEN,
        2,
    ),
    (
        "java.lang.NullPointerException",
        &[RuntimeException],
        false,
        FROZEN,
        2,
    ),
    (
        "java.lang.UnsupportedOperationException",
        &[RuntimeException],
        false,
        FROZEN,
        2,
    ),
    (
        "java.lang.ArrayIndexOutOfBoundsException",
        &[IndexOutOfBoundsException],
        false,
        FROZEN,
        2,
    ),
    (
        "java.lang.StringIndexOutOfBoundsException",
        &[IndexOutOfBoundsException],
        false,
        FROZEN,
        2,
    ),
    (
        "java.lang.NumberFormatException",
        &[IllegalArgumentException],
        false,
        FROZEN,
        2,
    ),
];

// Whether a class has what is written of it.
fn is_so(row: &ClassRow, fact: &(&str, &[LibraryClass], bool, u8, usize)) -> bool {
    let (name, supers, is_final, markers, members) = fact;
    row.name == *name
        && row.is_final == *is_final
        && row.markers == *markers
        && have_classes(row.supers, supers)
        && count_members(name) == *members
}

// The name of the first class of which something else is written.
fn first_other() -> Option<&'static str> {
    for (row, fact) in class_rows().iter().zip(&CLASS_FACTS) {
        if !is_so(row, fact) {
            return Some(row.name);
        }
    }
    None
}

#[test]
fn has_each_class(rt: HostRuntime) {
    assert_eq!(rt; first_other(), None);
    let holds = class_rows().len() == CLASS_FACTS.len()
        && LibraryClass::Object.number() == 0
        && LibraryClass::NumberFormatException.number() == 38;
    assert!(rt; holds);
}

fn have_classes(supers: &[Super], classes: &[LibraryClass]) -> bool {
    supers.len() == classes.len()
        && supers
            .iter()
            .zip(classes)
            .all(|(above, class)| above.class == *class)
}

fn count_members(class: &str) -> usize {
    member_rows()
        .iter()
        .filter(|row| row.class == class)
        .count()
}

fn member(class: &str, signature: &str) -> Option<&'static MemberRow> {
    let rows = member_rows();
    rows.get(find_member(rows, class, signature)?)
}

// Whether there is such a member, which is wild.
fn is_wild(class: &str, signature: &str, is_static: bool) -> bool {
    match member(class, signature) {
        Some(row) => !row.tame && row.is_static == is_static,
        None => false,
    }
}

fn count_wild() -> usize {
    member_rows().iter().filter(|row| !row.tame).count()
}

#[test]
fn has_six_wild_members(rt: HostRuntime) {
    let holds = is_wild("java.lang.Object", "hashCode()", false)
        && is_wild("java.lang.Object", "toString()", false)
        && is_wild("java.lang.System", "currentTimeMillis()", true)
        && is_wild("java.lang.System", "getProperty(String)", true)
        && is_wild("java.lang.System", "identityHashCode(Object)", true)
        && is_wild("java.lang.System", "setProperty(String,String)", true)
        && count_wild() == 6;
    assert!(rt; holds);
}

// Whether there is such a member, which costs as much.
fn costs(class: &str, signature: &str, cost: CostKind) -> bool {
    match member(class, signature) {
        Some(row) => row.signature == signature && row.cost == cost,
        None => false,
    }
}

fn is_missing(class: &str, signature: &str) -> bool {
    member(class, signature).is_none()
}

#[test]
fn finds_members(rt: HostRuntime) {
    let holds = costs("java.lang.String", "indexOf(String)", CostKind::Product)
        && costs("java.lang.String", "indexOf(int)", CostKind::Receiver)
        && costs("java.lang.String", "new(char[])", CostKind::Result)
        && costs("java.lang.String", "valueOf(boolean)", CostKind::Result)
        && costs(
            "java.lang.StringBuilder",
            "append(String)",
            CostKind::Result,
        )
        && costs("java.lang.Integer", "MAX_VALUE", CostKind::Plain)
        && costs("java.lang.Comparable", "compareTo(Object)", CostKind::Plain)
        && costs("joee.lib.ConstRow", "new(Immutable[])", CostKind::Result)
        && costs("joee.lib.ConstRow", "get(int)", CostKind::Plain)
        && costs("host.Store", "put(String,String)", CostKind::Plain)
        && costs("java.lang.Error", "new(String)", CostKind::Plain)
        && is_missing("java.lang.String", "indexOf")
        && is_missing("java.lang.Strin", "trim()")
        && is_missing("host.Cell", "trim()")
        && is_missing("", "");
    assert!(rt; holds);
}

#[test]
fn finds_the_first_of_equal_members(rt: HostRuntime) -> Result<(), Fail> {
    let rows = [row("A", "f"), row("B", "f"), row("B", "f"), row("B", "g")];
    assert_eq!(rt; find_member(&rows, "B", "f"), Some(1));
    assert_eq!(rt; find_member(&rows, "B", "g"), Some(3));
    Ok(())
}

fn row(class: &'static str, signature: &'static str) -> MemberRow
    ensures class { result.class.now ≡ class.now }
    ensures signature { result.signature.now ≡ signature.now }
{
    MemberRow {
        class,
        signature,
        name: "f",
        parameters: None,
        returns: RowType {
            base: RowBase::Void,
            dims: 0,
        },
        is_static: false,
        tame: true,
        cost: CostKind::Plain,
    }
}
