// Sources with a fault of flow, and their nearest neighbours (JLS 11.2, 14.21, 16).

use crate::checking::{first_refused, said, told_otherwise};
use je_base::Memory;
use std::alloc::Global;
use std::test::Fail;

/// Sources of one line, and below each its fault with its place; a blank line parts them.
const FAULTS: &str = "\
class A { void f() { return; f(); } }
A.java 29..30 F3 Unreachable

class A { void f() { while (true) { } f(); } }
A.java 38..39 F3 Unreachable

class A { void f() { while (false) { } } }
A.java 35..36 F3 Unreachable

class A { void f() { l: for (;;) { do { continue l; } while (false); f(); } } }
A.java 69..70 F3 Unreachable

class E extends Exception { } class A { void f() { try { } catch (E e) { } } }
A.java 66..67 F3 Unreachable

class E extends Exception { } class F extends E { } class A { void f() { try { throw new E(); } catch (E e) { } catch (F e) { } } }
A.java 119..120 F3 Unreachable

class A { int f() { int x; int y = 1; return x; } }
A.java 45..46 F1 NotAssigned

class A { int f(boolean b) { int x; if (b) x = 1; return x; } }
A.java 57..58 F1 NotAssigned

class A { int f() { int x; while (true) { break; } return x; } }
A.java 58..59 F1 NotAssigned

class A { int f(boolean b) { int x; while (b) x = 1; return x; } }
A.java 60..61 F1 NotAssigned

class A { final int x; }
A.java 20..21 F1 NotAssigned

class A { void f() { final int x; x = 1; x = 2; } }
A.java 41..42 F2 AssignedTwice

class A { void f(boolean b) { final int x; while (b) x = 1; } }
A.java 53..54 F2 AssignedTwice

class A { void f(boolean b) { final int x; do { x = 1; } while (b); } }
A.java 48..49 F2 AssignedTwice

class A { void f(boolean b) { final int x; l: { if (b) { try { break l; } finally { x = 1; } } } x = 1; } }
A.java 97..98 F2 AssignedTwice

class A { final int x; { x = 1; } A() { x = 2; } }
A.java 40..41 F2 AssignedTwice

class A { final int x; A() { this(1); x = 2; } A(int y) { x = y; } }
A.java 38..39 F2 AssignedTwice

class E extends Exception { } class A { void f() { throw new E(); } }
A.java 51..56 F5 Unreported

class E extends Exception { } class F extends E { } class A { void f() throws F { throw new E(); } }
A.java 82..87 F5 Unreported

class E extends Exception { } class F extends E { } class A { void f() { try { throw new E(); } catch (F e) { } } }
A.java 79..84 F5 Unreported

class E extends Exception { } class A { void f() { new Object() { { if (true) throw new E(); } }; } }
A.java 51..54 F5 Unreported

class E extends Exception { } class A { void f() throws E { } void g() { f(); } }
A.java 73..74 F5 Unreported

class E extends Exception { } class A { int f() { int x; int y = x; throw new E(); } }
A.java 65..66 F1 NotAssigned

class E extends Exception { } class A { void f(boolean b) { if (b) throw new E(); int x; int y = x; } }
A.java 67..72 F5 Unreported";

/// Sources in which nothing is found before the rules of Joe-E.
const NEIGHBOURS: &str = "\
class A { void f() { while (true) { break; } f(); } }
class A { void f() { if (false) { } f(); } }
class A { void f() { do { continue; } while (false); f(); } }
class A { void f() { try { } catch (Exception e) { } } }
class E extends Exception { } class F extends E { } class A { void f() { try { throw new E(); } catch (F e) { } catch (E e) { } } }
class A { int f(boolean b) { int x; if (b) x = 1; else x = 2; return x; } }
class A { int f(boolean b) { int x; if (b) x = 1; else return 2; return x; } }
class A { int f() { int x; while (true) { if (f() > 0) { x = 1; break; } } return x; } }
class A { int f(boolean b) { int x; do { x = 1; } while (b); return x; } }
class A { void f(boolean b) { final int x; if (b) x = 1; else x = 2; } }
class A { void f(boolean b) { final int x; while (b) { x = 1; break; } } }
class A { void f(boolean b) { while (b) { final int x; x = 1; } } }
class A { void f() { final int x; do { x = 1; } while (false); } }
class A { void f(boolean b) { final int x; l: { if (b) { try { } finally { x = 1; } return; } } x = 1; } }
class A { final int x; { x = 1; } A() { } }
class A { final int x; A() { this(1); } A(int y) { x = y; } }
class E extends Exception { } class F extends E { } class A { void f() throws E { throw new F(); } }
class A { void f() { throw new RuntimeException(); } }
class E extends Exception { } class F extends E { } class A { void f() { try { throw new F(); } catch (E e) { } } }
class E extends Exception { } class A { void f() { try { throw new E(); } finally { return; } } }
class E extends Exception { } class A { void f() throws E { new Object() { { if (true) throw new E(); } }; } }
";

#[test]
fn faults_of_flow_are_told(rt: HostRuntime) -> Result<(), Fail> {
    assert_eq!(rt; told_otherwise(rt.alloc(), FAULTS)?, None);
    Ok(())
}

#[test]
fn neighbours_of_faults_flow(rt: HostRuntime) -> Result<(), Fail> {
    assert_eq!(rt; first_refused(rt.alloc(), NEIGHBOURS)?, None);
    Ok(())
}

/// A source that stands in so many copies of another.
fn within(
    alloc: Global,
    count: usize,
    open: &str,
    inner: &str,
    close: &str,
) -> Result<String, Memory> {
    let mut text = String::from_str(alloc, "class A { void f(boolean b) { final int x; ")?;
    for _ in 0..count {
        text.push_str(open)?;
    }
    text.push_str(inner)?;
    for _ in 0..count {
        text.push_str(close)?;
    }
    text.push_str(" } }")?;
    Ok(text)
}

/// The deepest sources, and loops that would never end were each walked twice for each of its levels.
#[test]
fn deep_sources_flow(rt: HostRuntime) -> Result<(), Fail> {
    let alloc = rt.alloc();
    let table = [
        (250, "while (b) ", "x = 1;", "", " F2 AssignedTwice\n"),
        (250, "while (b) ", "f(b);", "", "accepted\n"),
        (
            60,
            "try { } finally { ",
            "throw new Exception();",
            " }",
            " F5 Unreported\n",
        ),
        (
            40,
            "while (b) { if (b) { ",
            "",
            " return; } f(b); }",
            "accepted\n",
        ),
        (
            40,
            "while (b) { if (b) { ",
            "x = 1;",
            " return; } f(b); }",
            "accepted\n",
        ),
    ];
    for (count, open, inner, close, end) in table {
        let source = within(alloc, count, open, inner, close)?;
        let put = said(alloc, &source)?;
        assert_eq!(rt; put.contains(end), true, "{put}");
    }
    Ok(())
}
