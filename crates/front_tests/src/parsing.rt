// Files with the place of their syntax fault, or with none, and what is read at a token.

ghost use Rattle.std.specs.Prelude.{IfSome};
ghost use Rattle.parse_expr.specs.Answers.{IsFile};

use je_lexer::{Tokens, lex, tokens_are_whole};
use parse_decl::{syntax_place, unit};
use parse_expr::{ParseFault, block_stmt, decl, expr, member};
use std::alloc::Global;
use std::test::Fail;

// What reading a text gives.
#[derive(Clone, Copy, PartialEq, Eq, Debug)]
enum Answer {
    NoTokens,
    Unit,
    Fault(u32, u32),
    Memory,
}

// The tokens of a text of at most 1,048,576 bytes; None for a longer one, and where it has none.
fn tokens_of(alloc: Global, text: &[u8]) -> Option<Tokens>
    ensures { IfSome result (λ tokens. IsFile tokens) }
{
    tokens_are_whole();
    if text.len() <= 1048576 {
        return lex(alloc, 0, text).ok();
    }
    None
}

fn read(alloc: Global, text: &[u8]) -> Answer {
    let Some(tokens) = tokens_of(alloc, text) else {
        return Answer::NoTokens;
    };
    match unit(alloc, &tokens) {
        Ok(_) => Answer::Unit,
        Err(ParseFault::Memory) => Answer::Memory,
        Err(ParseFault::Syntax(span)) => Answer::Fault(span.start, span.end),
    }
}

#[test]
fn files_are_read_or_have_a_place(rt: HostRuntime) -> Result<(), Fail> {
    let alloc = rt.alloc();
    let rows = [
        ("", Answer::Unit),
        (
            "class A { static int f(int a, int b) { return (a) + b; } }",
            Answer::Unit,
        ),
        (
            "class A { static int f(int a, int b) { return (a) b; } }",
            Answer::Unit,
        ),
        ("enum E { A, B, ; }", Answer::Unit),
        ("class A { float x; }", Answer::Fault(10, 15)),
        ("class A { int f( }", Answer::Fault(10, 13)),
        ("class A {", Answer::Fault(9, 9)),
        (
            "class A { void f() { int x = 1; x = ; } }",
            Answer::Fault(32, 33),
        ),
        // no tree is spelled so
        ("class A { void f() { ++a = 1; } }", Answer::Fault(21, 23)),
        ("class A { void f() { try { } } }", Answer::Fault(21, 24)),
        ("class A { A() { ; this(); } }", Answer::Fault(18, 22)),
        ("enum E { A() }", Answer::Fault(0, 4)),
        ("; import a;", Answer::Fault(2, 8)),
        // what is read of a member, an `if` and a `try` before what can't be
        ("class A { int x; int f( }", Answer::Fault(17, 20)),
        (
            "class A { void f() { if (a) b(); else int x; } }",
            Answer::Fault(33, 37),
        ),
        (
            "class A { void f() { try { } catch (E e) { } catch (F) { } } }",
            Answer::Fault(45, 50),
        ),
        (
            "class A { void f() { try { } catch (E e) { } finally x(); } }",
            Answer::Fault(45, 52),
        ),
    ];
    for (text, want) in rows {
        assert_eq!(rt; read(alloc, text.as_bytes()), want);
    }
    Ok(())
}

// A text with so many of one part in one another.
#[derive(Clone, Copy)]
struct Nest {
    before: &'static str,
    opening: &'static str,
    count: usize,
    closing: &'static str,
    after: &'static str,
}

impl Nest {
    fn read(&self, alloc: Global, middle: &str) -> Result<Answer, Fail> {
        let mut text = Vec::new(alloc);
        text.extend_from_slice(self.before.as_bytes())?;
        for _ in 0..self.count {
            text.extend_from_slice(self.opening.as_bytes())?;
        }
        text.extend_from_slice(middle.as_bytes())?;
        for _ in 0..self.count {
            text.extend_from_slice(self.closing.as_bytes())?;
        }
        text.extend_from_slice(self.after.as_bytes())?;
        Ok(read(alloc, &text))
    }
}

// The value of a field, under the class and the field.
fn value(opening: &'static str, count: usize, closing: &'static str) -> Nest {
    Nest {
        before: "class A { int x = ",
        opening,
        count,
        closing,
        after: "; }",
    }
}

// The body of a method, under the class, the method and the block.
fn body(opening: &'static str, count: usize, closing: &'static str) -> Nest {
    Nest {
        before: "class A { void f() { ",
        opening,
        count,
        closing,
        after: " } }",
    }
}

// Each is of height 300 around the first middle, and of height 301 around the second: then the member alone is low enough,
// and the place is the class.
#[test]
fn trees_are_of_height_300_at_most(rt: HostRuntime) -> Result<(), Fail> {
    let alloc = rt.alloc();
    let types = Nest {
        before: "class A { ",
        opening: "G<",
        count: 297,
        closing: ">",
        after: " x; }",
    };
    let rows = [
        (value("(", 297, ")"), "1", "(1)"),
        (value("(int) - ", 148, ""), "(1)", "((1))"),
        (value("f(", 148, ").g"), "(1)", "((1))"),
        (value("a[b = ", 148, "]"), "(1)", "((1))"),
        (value("a ? b : 1 + (", 99, ")"), "1", "(1)"),
        (value("new A() { int[] x = {", 99, "}; }"), "1", "(1)"),
        (types, "A", "G<A>"),
        (
            body("if (a) { for (;;) switch (b) { case 1: ", 74, "} }"),
            ";",
            "{ ; }",
        ),
        (
            body("class B { void f() { try { ", 59, "} finally { } } }"),
            "{ ; }",
            "{ { ; } }",
        ),
    ];
    for (nest, middle, higher) in &rows {
        assert_eq!(rt; nest.read(alloc, middle)?, Answer::Unit, "{}", nest.opening);
        assert_eq!(rt;
            nest.read(alloc, higher)?,
            Answer::Fault(0, 5),
            "{}",
            nest.opening
        );
    }
    // two levels more, and the field can't be read either
    let brackets = value("(", 299, ")");
    assert_eq!(rt; brackets.read(alloc, "1")?, Answer::Fault(10, 13));
    Ok(())
}

// The place behind what is read at a token.
fn behind<T: Drop>(found: Result<(T, usize), ParseFault>) -> Option<usize> {
    match found {
        Ok((_, place)) => Some(place),
        Err(_) => None,
    }
}

// What is read at four tokens of `class A { int x; } ; a + b c`.
fn is_read(alloc: Global, tokens: &Tokens) -> bool
    requires { IsFile tokens.now }
{
    tokens.list.len() >= 8
        && behind(decl(alloc, tokens, 0)) == Some(7)
        && behind(member(alloc, tokens, 3)) == Some(6)
        && behind(block_stmt(alloc, tokens, 7)) == Some(8)
        && behind(expr(alloc, tokens, 8)) == Some(11)
        && behind(expr(alloc, tokens, 7)).is_none()
}

#[test]
fn the_longest_tree_at_a_token_is_read(rt: HostRuntime) {
    let alloc = rt.alloc();
    let holds = match tokens_of(alloc, b"class A { int x; } ; a + b c") {
        Some(tokens) => is_read(alloc, &tokens),
        None => false,
    };
    assert!(rt; holds);
}

#[test]
fn the_place_of_a_fault_is_that_of_a_token(rt: HostRuntime) -> Result<(), Fail> {
    let alloc = rt.alloc();
    let place = match tokens_of(alloc, b"class A {") {
        Some(tokens) => syntax_place(alloc, &tokens)?,
        None => 0,
    };
    assert!(rt; place == 3);
    Ok(())
}
