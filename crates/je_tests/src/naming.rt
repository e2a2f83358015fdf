// The words of the library, and binary names as javac gives them to its class files (JLS 13.1).

use class_names::{binary_name, library_words};
use je_core::{Class, ClassId, Kind, Memory, NameId, Names, Program, Sort, Span};
use std::alloc::Global;

#[test]
fn the_library_s_words_have_numbers(rt: HostRuntime) -> Result<(), Memory> {
    let mut names = Names::new(rt.alloc());
    let Some(first) = first_number(&mut names)? else {
        assert_eq!(rt; false, true);
        return Ok(());
    };
    if names.len() < 1_000 {
        library_words(&mut names)?;
    }
    assert_eq!(rt; names.find("mine"), Some(first));
    let words = [
        "",
        "java.lang.Object",
        "host.Refused",
        "new",
        "substring",
        "MIN_VALUE",
        "name",
        "ordinal",
        "values",
        "message",
        "code",
        "finalize",
    ];
    for word in words {
        assert!(rt; names.find(word).is_some(), "{word}");
    }
    assert_eq!(rt; names.find("yours"), None);
    Ok(())
}

fn first_number(names: &mut Names) -> Result<Option<je_core::NameId>, Memory> {
    if names.len() < 1_000 {
        return Ok(Some(names.intern("mine")?));
    }
    Ok(None)
}

// Of a class its name, its sort, the class that it stands in, and its number there.
type Row = (&'static str, Sort, Option<u32>, u32);

fn add(alloc: Global, names: &mut Names, classes: &mut Vec<Class>, row: Row) -> Result<(), Memory> {
    let (name, sort, within, nth) = row;
    let name = if names.len() < 1_000 {
        names.intern(name)?
    } else {
        NameId(0)
    };
    classes.push(Class {
        name,
        span: Span {
            file: 0,
            start: 0,
            end: 0,
        },
        kind: Kind {
            sort,
            is_abstract: false,
            is_final: false,
            is_static: false,
        },
        superclass: None,
        interfaces: Vec::new(alloc),
        heads: Vec::new(alloc),
        fields: Vec::new(alloc),
        initializers: Vec::new(alloc),
        methods: Vec::new(alloc),
        enclosing: None,
        captured: 0,
        within: within.map(|c| ClassId(c)),
        nth,
        top: ClassId(0),
        bridges: Vec::new(alloc),
    })?;
    Ok(())
}

// class A { class B { Object o = new Object() { }; } void m() { class L { class M { } } } void n() { class L { } } }
#[test]
fn classes_in_classes_have_binary_names(rt: HostRuntime) -> Result<(), Memory> {
    let rows: [(Row, &str); 7] = [
        (
            ("java.lang.Object", Sort::Class, None, 0),
            "java.lang.Object",
        ),
        (("A", Sort::Class, None, 0), "A"),
        (("B", Sort::Class, Some(1), 0), "A$B"),
        (("", Sort::Anonymous, Some(2), 1), "A$B$1"),
        (("L", Sort::Local, Some(1), 1), "A$1L"),
        (("M", Sort::Class, Some(4), 0), "A$1L$M"),
        (("L", Sort::Local, Some(1), 2), "A$2L"),
    ];
    let alloc = rt.alloc();
    let mut names = Names::new(alloc);
    let mut classes = Vec::new(alloc);
    for (row, _) in rows {
        add(alloc, &mut names, &mut classes, row)?;
    }
    let program = Program {
        classes,
        texts: Vec::new(alloc),
    };
    for (at, (_, want)) in rows.iter().enumerate() {
        let name = binary_name(alloc, &program, &names, ClassId(at as u32))?;
        assert!(rt; name.as_slice() == want.as_bytes(), "{want}");
    }
    Ok(())
}
