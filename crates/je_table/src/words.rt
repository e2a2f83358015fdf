//! Words and signs: the keywords and operators of Java 5 (JLS 3.9 to 3.12), and the place of a word in a table.
ghost use Rattle.std.specs.Prelude.{◌≡◌, IsTrue};
ghost use Rattle.je_table.specs.Tables.{is_sorted, text_cmp, texts, place_of};
ghost use Rattle.je_table.specs.way.Boundary.{IsBoundary};
ghost use Rattle.je_table.specs.Words.{keywords};

/// Java's reserved words, with `true`, `false` and `null`, sorted by their bytes.
pub static KEYWORDS: [&str; 53] = [
    "abstract",
    "assert",
    "boolean",
    "break",
    "byte",
    "case",
    "catch",
    "char",
    "class",
    "const",
    "continue",
    "default",
    "do",
    "double",
    "else",
    "enum",
    "extends",
    "false",
    "final",
    "finally",
    "float",
    "for",
    "goto",
    "if",
    "implements",
    "import",
    "instanceof",
    "int",
    "interface",
    "long",
    "native",
    "new",
    "null",
    "package",
    "private",
    "protected",
    "public",
    "return",
    "short",
    "static",
    "strictfp",
    "super",
    "switch",
    "synchronized",
    "this",
    "throw",
    "throws",
    "transient",
    "true",
    "try",
    "void",
    "volatile",
    "while",
];

/// Java's separators and operators, with `@` and `...`, sorted by their bytes.
pub static OPERATORS: [&str; 48] = [
    "!", "!=", "%", "%=", "&", "&&", "&=", "(", ")", "*", "*=", "+", "++", "+=", ",", "-", "--",
    "-=", ".", "...", "/", "/=", ":", ";", "<", "<<", "<<=", "<=", "=", "==", ">", ">=", ">>",
    ">>=", ">>>", ">>>=", "?", "@", "[", "]", "^", "^=", "{", "|", "|=", "||", "}", "~",
];

/// The place of `word` in `KEYWORDS`; none exactly where it is no keyword.
pub fn find_keyword(word: &str) -> Option<usize>
    ensures { result ≡ place_of word.now keywords }
{
    find_word(&KEYWORDS, word)
}

/// The place of the first row that is `word`; none exactly where no row is.
pub fn find_word(rows: &[&str], word: &str) -> Option<usize>
    requires { IsTrue (is_sorted text_cmp (texts rows.now)) }
    ensures { result ≡ place_of word.now (texts rows.now) }
{
    let at = count_before(rows, word);
    if at < rows.len() && rows[at] == word {
        Some(at)
    } else {
        None
    }
}

/// How many rows are before `word`.
fn count_before(rows: &[&str], word: &str) -> usize
    requires { IsTrue (is_sorted text_cmp (texts rows.now)) }
    ensures { IsBoundary (λ row. text_cmp row.now word.now) rows.now result }
{
    rows.partition_point(|row| *row < word)
}
