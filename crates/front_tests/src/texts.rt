// What taming texts say, or their first fault.

use je_table::{LibraryClass, class_rows, find_member, member_rows};
use std::test::Fail;
use taming_db::{Marker, Taming, TamingFault, TamingRule};

#[test]
fn the_first_fault_of_a_text_is_told(rt: HostRuntime) -> Result<(), Fail> {
    use TamingRule::{BadShape, FalseHonorary, NotToml, Twice, UnknownClass, UnknownMember, Wild};
    let rows = [
        ("version = ", 0, NotToml),
        ("", 0, BadShape),
        ("version = 2", 0, BadShape),
        ("version = 1\nclass = [1]", 0, BadShape),
        ("version = 1\nclass = [{ }]", 1, BadShape),
        (
            "version = 1\nclass = [{ name = \"java.lang.Strin\", enable = [\"f()\"] }]",
            1,
            UnknownClass,
        ),
        // a member is looked for in its own class alone
        (
            "version = 1\nclass = [{ name = \"org.joe_e.Token\", enable = [\"toString()\"] }]",
            1,
            UnknownMember,
        ),
        (
            "version = 1\nclass = [{ name = \"java.lang.System\", enable = [\"identityHashCode(Object)\"] }]",
            1,
            Wild,
        ),
        (
            "version = 1\nclass = [{ name = \"java.lang.StringBuilder\", honorary = [\"Immutable\"] }]",
            1,
            FalseHonorary,
        ),
        (
            "version = 1\nclass = [{ name = \"host.Cell\" }, { name = \"host.Cell\" }]",
            2,
            Twice,
        ),
        (
            "version = 1\nclass = [{ name = \"host.Cell\", enable = [\"get()\", \"set(long)\", \"get()\"] }]",
            1,
            Twice,
        ),
    ];
    for (text, table, rule) in rows {
        let read = Taming::read(rt.alloc(), text.as_bytes());
        assert_eq!(rt;
            read.err(),
            Some(TamingFault::Refused { table, rule }),
            "at {text}"
        );
    }
    Ok(())
}

// A text that opens one interface, enables one of its members and gives a class a marker.
const SMALL: &str = "version = 1
[[class]]
name = \"host.Cell\"
extend = true
enable = [\"get()\"]
[[class]]
name = \"java.lang.String\"
honorary = [\"Selfless\"]
";

// The place of a member, and that of its class.
fn places(class: &str, signature: &str) -> Option<(usize, usize)> {
    let member = find_member(member_rows(), class, signature)?;
    let class = class_rows().iter().position(|row| row.name == class)?;
    Some((member, class))
}

#[test]
fn a_text_says_what_it_says_and_no_more(rt: HostRuntime) -> Result<(), Fail> {
    let Ok(taming) = Taming::read(rt.alloc(), SMALL.as_bytes()) else {
        return Err("the text is refused")?;
    };
    let rows = [
        ("host.Cell", "get()", true, true),
        ("host.Cell", "set(long)", false, true),
        ("java.lang.Object", "new()", true, true),
        ("java.lang.Object", "toString()", false, true),
        ("java.lang.String", "length()", false, false),
    ];
    for (class, signature, enabled, open) in rows {
        let Some((member, number)) = places(class, signature) else {
            return Err("there is no such member")?;
        };
        assert_eq!(rt; taming.enabled(member), enabled, "at {signature}");
        assert_eq!(rt; taming.may_extend(number), open, "at {class}");
    }
    let string = LibraryClass::String.number() as usize;
    let holds = taming.honorary(string, Marker::Selfless)
        && !taming.honorary(string, Marker::Immutable)
        && taming.may_extend(LibraryClass::Powerless.number() as usize);
    assert!(rt; holds);
    Ok(())
}
