// The words of the command line.

ghost use Rattle.std.specs.Prelude.{◌≡◌, map, string_bytes, option_map, IfSome};
ghost use Rattle.std.specs.List.{list_all};
ghost use Rattle.je_top.specs.Words.{by_name as the_command_named, command_of as the_command_of, command_view};
ghost use Rattle.je_top.specs.Words.{HasFewSources, is_plain, of_plain as the_command_of_plain, to_check, to_run};

/// The most files that a program may have.
pub const SOURCE_LIMIT: usize = 16;

/// What a command line asks for.
#[derive(Clone, Copy)]
pub enum Command<'a> {
    /// `run FILE`: to run `main` of the first class in a file.
    Run {
        file: &'a String,
    },
    /// `check TAMING FILE...`: to judge a program of 1 to `SOURCE_LIMIT` files under a taming text.
    Check {
        taming: &'a str,
        sources: &'a [String],
    },
}

/// What the words ask for: they are the program's name and a command, and none is empty or begins with `-`. `None`
/// exactly where the words are others.
#[tactic(auto, using(crate::proofs::WordLemmas::all_plain))]
pub fn command_of(words: &[String]) -> Option<Command<'_>>
    ensures few { IfSome result HasFewSources }
    ensures command { option_map command_view result ≡ the_command_of (map string_bytes words.now) }
{
    if are_plain(words) {
        of_plain(words)
    } else {
        None
    }
}

/// Whether no word is empty or an option.
fn are_plain(words: &[String]) -> bool
    ensures { result ≡ list_all (λ word. is_plain (string_bytes word)) words.now }
{
    words.iter().all(|word| is_plain(word))
}

/// Whether a word is neither empty nor an option.
fn is_plain(word: &str) -> bool
    ensures { result ≡ is_plain word.now }
{
    match word.as_bytes() {
        [] => false,
        [first, ..] => *first != b'-',
    }
}

/// What plain words ask for.
fn of_plain(words: &[String]) -> Option<Command<'_>>
    ensures few { IfSome result HasFewSources }
    ensures command { option_map command_view result ≡ the_command_of_plain (map string_bytes words.now) }
{
    match words {
        [_, command, rest @ ..] => named(command, rest),
        _ => None,
    }
}

/// What the words behind the name of a command ask for.
fn named<'a>(command: &str, rest: &'a [String]) -> Option<Command<'a>>
    ensures few { IfSome result HasFewSources }
    ensures command { option_map command_view result ≡
        the_command_named command.now (map string_bytes rest.now) }
{
    if command == "run" {
        to_run(rest)
    } else if command == "check" {
        to_check(rest)
    } else {
        None
    }
}

/// The command to run a file: one word.
fn to_run(rest: &[String]) -> Option<Command<'_>>
    ensures few { IfSome result HasFewSources }
    ensures command { option_map command_view result ≡ to_run (map string_bytes rest.now) }
{
    match rest {
        [file] => Some(Command::Run { file }),
        _ => None,
    }
}

/// The command to judge files under a taming text, where there is a file, and there are not too many.
fn to_check(rest: &[String]) -> Option<Command<'_>>
    ensures few { IfSome result HasFewSources }
    ensures command { option_map command_view result ≡ to_check (map string_bytes rest.now) }
{
    match rest {
        [taming, sources @ ..] => {
            if sources.is_empty() || sources.len() > SOURCE_LIMIT {
                None
            } else {
                Some(Command::Check { taming, sources })
            }
        }
        [] => None,
    }
}
