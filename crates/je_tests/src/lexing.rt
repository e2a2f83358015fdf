//! Texts with their tokens or their fault.
ghost use Rattle.std.specs.Prelude.{◌≤◌, length};

use je_base::{NameId, Span};
use je_lexer::*;
use std::alloc::Global;
use std::test::Fail;

// Each token as a letter and its bytes: k keyword, i identifier, s symbol, n int, l long, c character, t text, e end.
fn letter(kind: TokenKind) -> char {
    match kind {
        TokenKind::Keyword(_) => 'k',
        TokenKind::Symbol(_) => 's',
        TokenKind::Identifier => 'i',
        TokenKind::IntLiteral => 'n',
        TokenKind::LongLiteral => 'l',
        TokenKind::CharLiteral => 'c',
        TokenKind::TextLiteral => 't',
        TokenKind::End => 'e',
    }
}

// The tokens of a text, numbers and characters with their values; or its fault and the bytes that it names.
fn told(alloc: Global, bytes: &[u8]) -> Result<String, Fail>
    requires { length bytes.now ≤ 1048576 }
{
    let mut text = String::new(alloc);
    let tokens = match lex(alloc, 3, bytes) {
        Ok(tokens) => tokens,
        Err(LexFault::Memory) => return Err("memory")?,
        Err(LexFault::At { kind, span }) => {
            if span.file != 3 {
                return Err("a fault in another file")?;
            }
            write!(text, "{kind:?} {}..{}", span.start, span.end)?;
            return Ok(text);
        }
    };
    for token in &tokens.list {
        if !text.is_empty() {
            text.push(' ')?;
        }
        let span = token.span;
        write!(text, "{}{}..{}", letter(token.kind), span.start, span.end)?;
        if matches!(
            token.kind,
            TokenKind::IntLiteral | TokenKind::LongLiteral | TokenKind::CharLiteral
        ) {
            write!(text, "={}", token.value)?;
        }
    }
    Ok(text)
}

// A text of one line, and what is told of it.
const LINES: &str = r##" => e0..0
class A { } => k0..5 i6..7 s8..9 s10..11 e11..11
\u0063lass A { static int x; } => k0..10 i11..12 s13..14 k15..21 k22..25 i26..27 s27..28 s29..30 e30..30
x$_1 => i0..4 e4..4
truely true => i0..6 k7..11 e11..11
>>>= => s0..4 e4..4
>>> = => s0..3 s4..5 e5..5
a>>>b => i0..1 s1..4 i4..5 e5..5
a+++b => i0..1 s1..3 s3..4 i4..5 e5..5
.... => s0..3 s3..4 e4..4
=== !== &&& ||| --- <<< <<== >>>> >>>>= *== %== ^== &== |== +== -== >>= >== <== .... ~= ?: @== => s0..2 s2..3 s4..6 s6..7 s8..10 s10..11 s12..14 s14..15 s16..18 s18..19 s20..22 s22..23 s24..27 s27..28 s29..32 s32..33 s34..37 s37..39 s40..42 s42..43 s44..46 s46..47 s48..50 s50..51 s52..54 s54..55 s56..58 s58..59 s60..62 s62..63 s64..66 s66..67 s68..71 s72..74 s74..75 s76..78 s78..79 s80..83 s83..84 s85..86 s86..87 s88..89 s89..90 s91..92 s92..94 e94..94
.. => s0..1 s1..2 e2..2
a.b => i0..1 s1..2 i2..3 e3..3
/ => s0..1 e1..1
/= => s0..2 e2..2
/**/ => e4..4
/*/ */x => i6..7 e7..7
0 => n0..1=0 e1..1
017 => n0..3=15 e3..3
0x7fffffff => n0..10=2147483647 e10..10
0xffffffff => n0..10=-1 e10..10
037777777777 => n0..12=-1 e12..12
2147483648 => n0..10=2147483648 e10..10
9223372036854775808L => l0..20=9223372036854775808 e20..20
0xFFFFFFFFFFFFFFFFL => l0..19=-1 e19..19
0l => l0..2=0 e2..2
1L.foo => l0..2=1 s2..3 i3..6 e6..6
0x1.foo => n0..3=1 s3..4 i4..7 e7..7
'a' => c0..3=97 e3..3
'\'' => c0..4=39 e4..4
'\377' => c0..6=255 e6..6
'"' => c0..3=34 e3..3
'\\' => c0..4=92 e4..4
'\u0041' => c0..8=65 e8..8
'\uD800' => c0..8=55296 e8..8
"" => t0..2 e2..2
"a\"b" => t0..6 e6..6
\u0022a" => t0..8 e8..8
"\\u0041" => t0..9 e9..9
\u0061b => i0..7 e7..7
\uuu0061 => i0..8 e8..8
a\u001a => i0..1 e7..7
a // => i0..1 e4..4
/* */ a */ => i6..7 s8..9 s9..10 e10..10
/* " ' */a//' => i9..10 e13..13
_a $b _ $ => i0..2 i3..5 i6..7 i8..9 e9..9
\ud801\udc00x => i0..13 e13..13
...5 => s0..3 n3..4=5 e4..4
0X1f => n0..4=31 e4..4
1l 0x1l 01l => l0..2=1 l3..7=1 l8..11=1 e11..11
2147483647 => n0..10=2147483647 e10..10
017777777777 => n0..12=2147483647 e12..12
020000000000 => n0..12=-2147483648 e12..12
0x80000000 => n0..10=-2147483648 e10..10
040000000000L => l0..13=4294967296 e13..13
9223372036854775807L => l0..20=9223372036854775807 e20..20
0777777777777777777777L => l0..23=9223372036854775807 e23..23
01000000000000000000000L => l0..24=-9223372036854775808 e24..24
01777777777777777777777L => l0..24=-1 e24..24
0x7fffffffffffffffL => l0..19=9223372036854775807 e19..19
0x8000000000000000L => l0..19=-9223372036854775808 e19..19
'\u005c'' => c0..9=39 e9..9
# \u12 => BadEscape 2..3
\u => BadEscape 0..1
\u00g1 => BadEscape 0..1
// \uuu => BadEscape 3..4
# => BadChar 0..1
a \ b => BadChar 2..3
\\u0041 => BadChar 0..1
\ud800 => BadChar 0..6
a /* b => OpenComment 2..6
/* * => OpenComment 0..4
/*/ => OpenComment 0..3
"ab => OpenText 0..3
class A { String s = "ab => OpenText 21..24
"a\q => OpenText 0..4
"\u000a" => OpenText 0..1
"a\q" => BadEscape 2..3
'ab\q' => BadEscape 3..4
"\8" => BadEscape 1..2
'' => BadLiteral 0..2
'\u0027' => BadLiteral 0..7
''' => BadLiteral 0..2
'ab' => BadLiteral 0..4
08 => BadLiteral 0..2
09L => BadLiteral 0..3
0x => BadLiteral 0..2
0xL => BadLiteral 0..3
1. => BadLiteral 0..2
.5 => BadLiteral 0..2
a.5 => BadLiteral 1..3
07.foo => BadLiteral 0..6
0x1.8p1 => BadLiteral 0..7
0x.8p1 => BadLiteral 0..6
1e5 => BadLiteral 0..3
1a+ => BadLiteral 0..2
2147483649 => BadLiteral 0..10
9223372036854775809L => BadLiteral 0..20
0x100000000 => BadLiteral 0..11
0x10000000000000000L => BadLiteral 0..20
\u0023 => BadChar 0..6
# 09 => BadChar 0..1
\u002f* a => OpenComment 0..9
\u0022a => OpenText 0..7
"\u005cq" => BadEscape 1..7
"\u005cu0041" => BadEscape 1..7
"\s" => BadEscape 1..2
"a\q" # => BadEscape 2..3
'\ud801\udc00' => BadLiteral 0..14
09 => BadLiteral 0..2
09 # => BadLiteral 0..2
1_000 => BadLiteral 0..5
0b1 => BadLiteral 0..3
1f => BadLiteral 0..2
1d => BadLiteral 0..2
1e+5 => BadLiteral 0..2
1.5e+3 => BadLiteral 0..4
1..2 => BadLiteral 0..4
..5 => BadLiteral 1..3
0x1P3 => BadLiteral 0..5
0x1.p1 => BadLiteral 0..6
0x1.8p+1 => BadLiteral 0..6
0x1.8 => BadLiteral 3..5
0x1.8p => BadLiteral 3..6
040000000000 => BadLiteral 0..12
02000000000000000000000L => BadLiteral 0..24"##;

#[test]
fn lines_are_told(rt: HostRuntime) -> Result<(), Fail> {
    for line in LINES.lines() {
        let (text, expected) = line.split_once(" => ").ok_or("a line without tokens")?;
        assert!(rt; text.len() <= 1_048_576);
        let found = told(rt.alloc(), text.as_bytes())?;
        assert!(rt; found.as_str() == expected, "{text}: {found}");
    }
    Ok(())
}

#[test]
fn other_bytes_are_told(rt: HostRuntime) -> Result<(), Fail> {
    let rows: [(&[u8], &str); 26] = [
        (b"// a\nb", "i5..6 e6..6"),
        (b"// a\r\nb", "i6..7 e7..7"),
        (b"a\x1a", "i0..1 e2..2"),
        (b"\xf0\x90\x90\x80x", "i0..5 e5..5"),
        (b"a\tb\x0cc", "i0..1 i2..3 i4..5 e5..5"),
        (b"// a\rb", "i5..6 e6..6"),
        (b"\xc3\xa9t\xe4\xb8\xad", "i0..6 e6..6"),
        (b"a\xcc\x80\xd9\xa1b", "i0..6 e6..6"),
        (b"a\xff", "NotUtf8 1..2"),
        (b"\\u12 \xc3", "NotUtf8 5..6"),
        (b"'\xe2\x82", "NotUtf8 1..2"),
        (b"\x1a\x1a", "BadChar 0..1"),
        (b"\xef\xbb\xbfx", "BadChar 0..3"),
        (b"/* \x1a", "OpenComment 0..4"),
        (b"\"abc\\\nd\"", "OpenText 0..5"),
        (b"\"a\r\n\"", "OpenText 0..2"),
        (b"'a\n'", "OpenText 0..2"),
        (b"\"a\r\"", "OpenText 0..2"),
        (b"\"a\x1a", "OpenText 0..3"),
        (b"'\xf0\x90\x90\x80'", "BadLiteral 0..6"),
        (b"a\x0bb", "BadChar 1..2"),
        (b"\x00", "BadChar 0..1"),
        (b"\xcc\x80a", "BadChar 0..2"),
        (b"\xd9\xa1", "BadChar 0..2"),
        (b"\\u001a\x1a", "BadChar 0..6"),
        (b"1\xcc\x80", "BadLiteral 0..3"),
    ];
    for (bytes, expected) in rows {
        assert!(rt; bytes.len() <= 1_048_576);
        let found = told(rt.alloc(), bytes)?;
        assert!(rt; found.as_str() == expected, "{found}");
    }
    Ok(())
}

#[test]
fn reads_texts(rt: HostRuntime) -> Result<(), Fail> {
    let rows: [(&str, &[u16]); 20] = [
        ("\"\"", &[]),
        ("\"ab\"", &[97, 98]),
        (
            "\"\\b\\t\\n\\f\\r\\\"\\'\\\\\"",
            &[8, 9, 10, 12, 13, 34, 39, 92],
        ),
        ("\"\\0\"", &[0]),
        ("\"\\377\"", &[255]),
        ("\"\\400\"", &[32, 48]),
        ("\"\\08\"", &[0, 56]),
        ("\"a\\u0022", &[97]),
        ("\"\\u005c\"\"", &[34]),
        ("\"\u{10400}\"", &[0xD801, 0xDC00]),
        ("\"\\ud801\\udc00\"", &[0xD801, 0xDC00]),
        ("\"\\ud801\"", &[0xD801]),
        ("\"\\\\u0041\"", &[92, 117, 48, 48, 52, 49]),
        ("\"\\\\\\u0041\"", &[92, 65]),
        ("\"\\\\\\\\u0041\"", &[92, 92, 117, 48, 48, 52, 49]),
        ("\"\\\\\\\\\\u0041\"", &[92, 92, 65]),
        ("\"\\u005c\\u005c\"", &[92]),
        ("\"\\udc00\\ud801\"", &[0xDC00, 0xD801]),
        ("\"\\1234\\477\"", &[83, 52, 39, 55]),
        ("\"//\"", &[47, 47]),
    ];
    for (text, expected) in rows {
        assert!(rt; text.len() <= 1_048_576);
        match lex(rt.alloc(), 0, text.as_bytes()) {
            Ok(tokens) => match tokens.texts.first() {
                Some(units) => assert!(rt; units.as_slice() == expected, "{text}"),
                None => return Err("no text")?,
            },
            Err(fault) => {
                eprintln!(rt; "{text}: {fault:?}")?;
                return Err("a fault")?;
            }
        }
    }
    Ok(())
}

// Of each token its first byte, its end, its name, its value, and the ends of its first two characters; then the names.
fn carried(tokens: &Tokens, alloc: Global) -> Result<String, Fail> {
    let mut text = String::new(alloc);
    for token in &tokens.list {
        let Span { start, end, .. } = token.span;
        let NameId(name) = token.text;
        let (first, second) = (token.first_end, token.second_end);
        write!(
            text,
            "{start} {end} {name} {} {first} {second}\n",
            token.value
        )?;
    }
    for number in 0..4 {
        match tokens.names.text(NameId(number)) {
            Some(name) => write!(text, "{number}:{name} ")?,
            None => text.push_str("no more")?,
        }
    }
    Ok(text)
}

const CARRIED: &str = "0 1 1 0 1 1
2 3 2 0 3 3
4 5 1 0 5 5
6 8 0 0 7 8
9 12 0 0 10 11
13 16 0 1 14 15
17 24 0 0 18 24
24 24 0 0 24 24
0: 1:a 2:b no more";

#[test]
fn carries_names_places_and_ends(rt: HostRuntime) -> Result<(), Fail> {
    let Ok(tokens) = lex(rt.alloc(), 7, b"a b a >> \"x\" \"y\" >\\u003e") else {
        return Err("no tokens")?;
    };
    let found = carried(&tokens, rt.alloc())?;
    assert!(rt; found.as_str() == CARRIED, "{found}");
    let [x, y] = tokens.texts.as_slice() else {
        return Err("not two texts")?;
    };
    assert!(rt; x.as_slice() == [120].as_slice() && y.as_slice() == [121].as_slice());
    Ok(())
}

#[test]
fn tells_words_and_symbols(rt: HostRuntime) -> Result<(), Fail> {
    let rows: [(&str, &str); 2] = [
        (
            "abstract assert boolean break byte case catch char class const continue default do \
             double else enum extends final finally float for goto if implements import \
             instanceof int interface long native new package private protected public return \
             short static strictfp super switch synchronized this throw throws transient try void \
             volatile while true false null",
            "Abstract Assert Boolean Break Byte Case Catch Char Class Const Continue Default Do \
             Double Else Enum Extends Final Finally Float For Goto If Implements Import \
             InstanceOf Int Interface Long Native New Package Private Protected Public Return \
             Short Static StrictFp Super Switch Synchronized This Throw Throws Transient Try Void \
             Volatile While True False Null End",
        ),
        (
            "( ) { } [ ] ; , . ... @ = > < ! ~ ? : == <= >= != && || ++ -- + - * / & | ^ % << >> \
             >>> += -= *= /= &= |= ^= %= <<= >>= >>>=",
            "OpenParen CloseParen OpenBrace CloseBrace OpenBracket CloseBracket Semicolon Comma \
             Dot Ellipsis At Assign Greater Less Not Tilde Question Colon Equal LessEqual \
             GreaterEqual NotEqual AndAnd OrOr Increment Decrement Plus Minus Star Slash And Or \
             Caret Percent ShiftLeft ShiftRight UnsignedShiftRight PlusAssign MinusAssign \
             StarAssign SlashAssign AndAssign OrAssign CaretAssign PercentAssign ShiftLeftAssign \
             ShiftRightAssign UnsignedShiftRightAssign End",
        ),
    ];
    for (text, expected) in rows {
        assert!(rt; text.len() <= 1_048_576);
        let Ok(tokens) = lex(rt.alloc(), 0, text.as_bytes()) else {
            return Err("no tokens")?;
        };
        let mut found = String::new(rt.alloc());
        for token in &tokens.list {
            match token.kind {
                TokenKind::Keyword(keyword) => write!(found, "{keyword:?} ")?,
                TokenKind::Symbol(symbol) => write!(found, "{symbol:?} ")?,
                kind => write!(found, "{kind:?}")?,
            }
        }
        assert!(rt; found.as_str() == expected, "{found}");
    }
    Ok(())
}
