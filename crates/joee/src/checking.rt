// Programs under a taming text, with the report of each.

use crate::calls::{blanks, report};
use crate::programs::{FAULTS, NEIGHBOURS, PROGRAMS};
use je_base::Memory;
use je_top::FILE_LIMIT;
use std::alloc::Global;
use std::test::Fail;

/// A taming text that enables what the rows use.
const TAMING: &str = "version = 1
[[class]]
name = \"java.lang.StringBuilder\"
enable = [\"length()\"]
";

/// A taming text that enables a wild member, and one that gives a marker that the class doesn't have.
const WILD: &str =
    "version = 1\n[[class]]\nname = \"java.lang.System\"\nenable = [\"identityHashCode(Object)\"]\n";

const MARKED: &str =
    "version = 1\n[[class]]\nname = \"java.lang.StringBuilder\"\nhonorary = [\"Immutable\"]\n";

/// What a call of `check` with these words puts, over taming texts and sources with this one as `A.java`, and after it
/// the number of its status.
fn checked(alloc: Global, source: &str, words: &str) -> Result<String, Fail> {
    let files = [
        ("t.toml", TAMING),
        ("w.toml", WILD),
        ("m.toml", MARKED),
        ("n.toml", "version"),
        ("A.java", source),
        ("B.java", "class B { static int y; static int z; }"),
        ("C.java", "class C { D d; }"),
        ("D.java", "class D { C c; }"),
    ];
    let line = format!(in alloc; "joee check {words}")?;
    report(alloc, &line, &files)
}

/// What is put for a program of one file, and after it the number of its status.
pub fn said(alloc: Global, source: &str) -> Result<String, Fail> {
    checked(alloc, source, "t.toml A.java")
}

/// What is put for these findings, one a line, or for `accepted`, and after it the number of its status.
fn due(alloc: Global, findings: &str) -> Result<String, Memory> {
    if findings == "accepted" {
        return Ok(String::from_str(alloc, "accepted\n0")?);
    }
    let count = findings.lines().count();
    Ok(format!(in alloc; "{findings}\nrefused {count}\n1")?)
}

/// The first of these cases that is told otherwise. A case is a source of one line, and below it its findings or
/// `accepted`; a blank line parts cases.
pub fn told_otherwise<'a>(alloc: Global, cases: &'a str) -> Result<Option<&'a str>, Fail> {
    for case in cases.split("\n\n") {
        let (source, findings) = case
            .split_once('\n')
            .ok_or("a source without its findings")?;
        if said(alloc, source)?.as_str() != due(alloc, findings)?.as_str() {
            return Ok(Some(case));
        }
    }
    Ok(None)
}

/// The first of these sources, one a line, that is refused for more than rules of Joe-E.
pub fn first_refused<'a>(alloc: Global, sources: &'a str) -> Result<Option<&'a str>, Fail> {
    for source in sources.lines() {
        let put = said(alloc, source)?;
        if put.as_str() != "accepted\n0" && !put.contains(" V") {
            return Ok(Some(source));
        }
    }
    Ok(None)
}

#[test]
fn programs_of_one_file(rt: HostRuntime) -> Result<(), Fail> {
    assert_eq!(rt; told_otherwise(rt.alloc(), PROGRAMS)?, None);
    Ok(())
}

/// The words of a check, and below them what it puts, and the number of its status; a blank line parts calls.
const CALLS: &str = "\
t.toml A.java No.java
missing No.java
10

u.toml A.java
missing u.toml
10

w.toml No.java
taming 1 5 Wild
7

m.toml A.java
taming 1 6 FalseHonorary
7

n.toml A.java
taming 0 1 NotToml
7

t.toml A.java B.java
A.java 21..22 V1 StaticField
B.java 21..22 V1 StaticField
B.java 35..36 V1 StaticField
refused 3
1

t.toml B.java A.java
B.java 21..22 V1 StaticField
B.java 35..36 V1 StaticField
A.java 21..22 V1 StaticField
refused 3
1

t.toml A.java A.java
A.java 6..7 N1 Twice
refused 1
1

t.toml C.java D.java
accepted
0

t.toml
usage: joee check TAMING FILE... | run TAMING SCRIPT FILE... | gen N
2

-x A.java
usage: joee check TAMING FILE... | run TAMING SCRIPT FILE... | gen N
2

t.toml A A A A A A A A A A A A A A A A A
usage: joee check TAMING FILE... | run TAMING SCRIPT FILE... | gen N
2";

#[test]
fn words_and_files(rt: HostRuntime) -> Result<(), Fail> {
    let alloc = rt.alloc();
    for call in CALLS.split("\n\n") {
        let (words, put) = call.split_once('\n').ok_or("words without what is put")?;
        let told = checked(alloc, "class A { static int x; }", words)?;
        assert_eq!(rt; told.as_str(), put, "{words}");
    }
    Ok(())
}

/// Two files, a line each, and the one finding on them. A file's tokens come before an earlier file's grammar, and in each
/// phase the earlier file is first.
const TWO_FILES: &str = "\
class A {
class B { } #
B.java 12..13 L3 BadChar

class A { } #
\"x
A.java 12..13 L3 BadChar

class A {
class B { } }
A.java 9..9 S1 Syntax

class A { }
class B { } }
B.java 12..13 S1 Syntax

class A extends B { }
class B { C c; }
B.java 10..11 N2 Unknown";

#[test]
fn phases_go_over_all_files(rt: HostRuntime) -> Result<(), Fail> {
    let alloc = rt.alloc();
    for case in TWO_FILES.split("\n\n") {
        let (first, rest) = case.split_once('\n').ok_or("no second file")?;
        let (second, finding) = rest.split_once('\n').ok_or("no finding")?;
        let files = [("t.toml", TAMING), ("A.java", first), ("B.java", second)];
        let put = report(alloc, "joee check t.toml A.java B.java", &files)?;
        assert_eq!(rt; put.as_str(), due(alloc, finding)?.as_str(), "{case}");
    }
    Ok(())
}

#[test]
fn files_that_are_too_long(rt: HostRuntime) -> Result<(), Fail> {
    let alloc = rt.alloc();
    let mut long = blanks(alloc, FILE_LIMIT)?;
    assert_eq!(rt; said(alloc, &long)?.as_str(), "accepted\n0");
    long.push_str(" ")?;
    let put = said(alloc, &long)?;
    assert_eq!(rt; put.as_str(), "toolong A.java\n11");
    Ok(())
}

#[test]
fn each_fault_is_told_with_its_place(rt: HostRuntime) -> Result<(), Fail> {
    assert_eq!(rt; told_otherwise(rt.alloc(), FAULTS)?, None);
    Ok(())
}

#[test]
fn their_neighbours_have_none(rt: HostRuntime) -> Result<(), Fail> {
    assert_eq!(rt; first_refused(rt.alloc(), NEIGHBOURS)?, None);
    Ok(())
}
