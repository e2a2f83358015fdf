// Command lines over files and a sink in memory, and the system's files.

use crate::calls::{blanks, called, held, report};
use je_base::Memory;
use je_top::{FILE_LIMIT, FileFault, Files, MemFiles, MemSink, RealFiles, RealSink, Sink};
use std::alloc::Global;
use std::test::Fail;

const SUM: &str = "class One { static int main() { return 1 + 2; } }\n";

const ENDLESS: &str =
    "class One { static int f(int x) { return f(x); } static int main() { return f(0); } }\n";

const NO_ONE: &str = "class One { int f() { return 1; } }\n";

/// The words of a call, and below them what it puts, and the number of its status; a blank line parts calls.
const CALLS: &str = "\
joee run One.java
reply i:3
0

joee run Endless.java
spent
0

joee run F.java
notbuilt F.java
12

joee run Full.java
notbuilt Full.java
12

joee run Long.java
toolong Long.java
11

joee run No.java
missing No.java
10

joee run one.java
missing one.java
10";

/// Words that are outside the grammar, a line each. The first line has none.
const OUTSIDE: &str = "
joee
joee run
joee One.java
joee frob One.java
joee runs One.java
joee run\x20
joee run -x
\x20run One.java
- run One.java
joee run One.java F.java";

const USAGE: &str = "usage: joee check TAMING FILE... | run TAMING SCRIPT FILE... | gen N\n2";

/// The first of these calls that puts something else.
fn first_other(alloc: Global, files: &[(&str, &str)]) -> Result<Option<&'static str>, Fail> {
    for call in CALLS.split("\n\n") {
        let (line, put) = call.split_once('\n').ok_or("words without what is put")?;
        if report(alloc, line, files)?.as_str() != put {
            return Ok(Some(call));
        }
    }
    Ok(None)
}

/// The first of these words that are taken for a command.
fn first_taken(alloc: Global, files: &[(&str, &str)]) -> Result<Option<&'static str>, Fail> {
    for line in OUTSIDE.split('\n') {
        if report(alloc, line, files)?.as_str() != USAGE {
            return Ok(Some(line));
        }
    }
    Ok(None)
}

#[test]
fn command_lines(rt: HostRuntime) -> Result<(), Fail> {
    let alloc = rt.alloc();
    let (full, long) = (blanks(alloc, FILE_LIMIT)?, blanks(alloc, FILE_LIMIT + 1)?);
    let files = [
        ("One.java", SUM),
        ("Endless.java", ENDLESS),
        ("F.java", NO_ONE),
        ("Full.java", full.as_str()),
        ("Long.java", long.as_str()),
    ];
    assert_eq!(rt; first_other(alloc, &files)?, None);
    Ok(())
}

#[test]
fn other_words(rt: HostRuntime) -> Result<(), Fail> {
    assert_eq!(rt; first_taken(rt.alloc(), &[("One.java", SUM)])?, None);
    Ok(())
}

/// Three calls in a row, on one file after the other.
fn statuses(alloc: Global, files: &mut MemFiles, out: &mut MemSink) -> Result<[u8; 3], Memory> {
    let first = called(alloc, "joee run One.java", files, out)?.number();
    let second = called(alloc, "joee run No.java", files, out)?.number();
    let third = called(alloc, "joee run One.java", files, out)?.number();
    Ok([first, second, third])
}

/// What these calls put over one files and one sink that fail so, and their statuses.
fn in_a_row(alloc: Global, reads: &[u64], puts: &[u64]) -> Result<String, Fail> {
    let held = held(alloc, &[("One.java", SUM)])?;
    let mut files = MemFiles::new(alloc, held, Vec::from_slice(alloc, reads)?);
    let mut out = MemSink::new(alloc, Vec::from_slice(alloc, puts)?);
    let [first, second, third] = statuses(alloc, &mut files, &mut out)?;
    let text = str::from_utf8(out.taken()).map_err(|_| "no text")?;
    Ok(format!(in alloc; "{text}{first} {second} {third}")?)
}

/// Whether they put that, where these reads and puts fail.
fn is_put(alloc: Global, reads: &[u64], puts: &[u64], put: &str) -> Result<bool, Fail> {
    Ok(in_a_row(alloc, reads, puts)?.as_str() == put)
}

#[test]
fn numbered_faults(rt: HostRuntime) -> Result<(), Fail> {
    let alloc = rt.alloc();
    let (all, none) = (
        "reply i:3\nmissing No.java\nreply i:3\n0 10 0",
        [].as_slice(),
    );
    let holds = is_put(alloc, none, none, all)?
        && is_put(
            alloc,
            &[1],
            none,
            "read One.java\nmissing No.java\nreply i:3\n3 10 0",
        )?
        && is_put(alloc, &[2], none, all)?
        && is_put(
            alloc,
            &[3],
            none,
            "reply i:3\nmissing No.java\nread One.java\n0 10 3",
        )?
        && is_put(alloc, none, &[2], "reply i:3\nreply i:3\n0 4 0")?
        && is_put(alloc, &[1, 3], &[1, 3], "missing No.java\n4 10 4")?;
    assert!(rt; holds);
    Ok(())
}

/// Devices and folders of the system that are there on each machine.
#[test]
fn real_files(rt: HostRuntime) -> Result<(), Fail> {
    let alloc = rt.alloc();
    let table: [(&str, Result<(), FileFault>, usize); 5] = [
        ("/dev/null", Ok(()), 0),
        ("/dev/zero", Err(FileFault::TooLong), FILE_LIMIT + 1),
        ("/", Err(FileFault::Failed), 0),
        ("/no/such/file", Err(FileFault::NotThere), 0),
        ("a\0b", Err(FileFault::Failed), 0),
    ];
    let mut files = RealFiles::new(alloc, &rt);
    for (name, result, length) in table {
        let mut bytes = Vec::from_slice(alloc, b"before")?;
        assert_eq!(rt; files.read(name, &mut bytes), result, "{name}");
        assert_eq!(rt; bytes.len(), length, "{name}");
    }
    assert_eq!(rt; RealSink::new(&rt).put(b"taken\n"), Ok(()));
    Ok(())
}
