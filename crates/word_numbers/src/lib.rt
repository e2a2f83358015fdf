//! The numbers of words in the names of a program.
#![tactic(auto)]

ghost use Rattle.std.specs.Prelude.{◌≡◌};
ghost use Rattle.library_classes.specs.Numbers.{number_in};

use je_base::{NameId, Names};

/// The number of a word, that of the first name where it has none.
pub fn number(names: &Names, word: &str) -> NameId
    ensures { result ≡ number_in names.now word.now }
{
    match names.find(word) {
        Some(name) => name,
        None => NameId(0),
    }
}
