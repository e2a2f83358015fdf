// The words of the library.

ghost use Rattle.std.specs.Prelude.{◌≡◌, ◌<◌, ◌≤◌, ◌+◌, ◌^◌, ◌∷◌, [], map, length, codes, OnOk};
ghost use Rattle.je_table.specs.Library.{Class, Member, classes, library};
ghost use Rattle.class_names.specs.Words.{AreNumbered, StayNumbered, all_interned, class_words, member_words, further_words, library_words as the_library_words};

use je_base::{Memory, Names};
use je_table::{class_rows, member_rows};

/// Gives a number to each word that the library's classes bring: the empty text, the full name of each class, the name of
/// each member, and the names of what an enum or an exception has besides. Old numbers stay.
#[tactic(auto, using(crate::proofs::Interning::words_numbered, crate::proofs::Interning::words_in_turn))]
pub fn library_words(names: &mut Names) -> Result<(), Memory>
    requires { length names.old < 2 ^ 30 }
    ensures names { OnOk result (names.new ≡ all_interned names.old the_library_words) }
    ensures words { OnOk result (AreNumbered names.new the_library_words) }
    ensures stay { StayNumbered names.old names.new }
{
    names.intern("")?;
    intern_classes(names)?;
    intern_members(names)?;
    intern_further(names)
}

#[tactic(auto, using(crate::proofs::Interning::one_longer, crate::proofs::Interning::stay_same, crate::proofs::Interning::drop_word, crate::proofs::Interning::drop_none, crate::proofs::Interning::class_rows_few))]
fn intern_classes(names: &mut Names) -> Result<(), Memory>
    requires { length names.old ≤ 2 ^ 30 }
    ensures names { OnOk result (names.new ≡ all_interned names.old class_words) }
    ensures stay { StayNumbered names.old names.new }
{
    for row in class_rows() {
        names.intern(row.name)?;
    }
    Ok(())
}

#[tactic(auto, using(crate::proofs::Interning::one_longer, crate::proofs::Interning::stay_same, crate::proofs::Interning::drop_word, crate::proofs::Interning::drop_none, crate::proofs::Interning::member_rows_few))]
fn intern_members(names: &mut Names) -> Result<(), Memory>
    requires { length names.old ≤ 2 ^ 30 + 100 }
    ensures names { OnOk result (names.new ≡ all_interned names.old member_words) }
    ensures stay { StayNumbered names.old names.new }
{
    for row in member_rows() {
        names.intern(row.name)?;
    }
    Ok(())
}

// What comes besides the tables' words.
static FURTHER: [&str; 6] = ["name", "ordinal", "values", "message", "code", "finalize"];

#[tactic(auto, unfolding(crate::specs::Words::further_words))]
fn intern_further(names: &mut Names) -> Result<(), Memory>
    requires { length names.old ≤ 2 ^ 30 + 1100 }
    ensures names { OnOk result (names.new ≡ all_interned names.old further_words) }
    ensures stay { StayNumbered names.old names.new }
{
    intern_texts(names, &FURTHER)
}

#[tactic(auto, using(crate::proofs::Interning::one_longer, crate::proofs::Interning::stay_same, crate::proofs::Interning::drop_word, crate::proofs::Interning::drop_none))]
fn intern_texts(names: &mut Names, words: &[&str]) -> Result<(), Memory>
    requires { length names.old + length words.now < 2 ^ 31 }
    ensures names { OnOk result (names.new ≡ all_interned names.old (map (λ w. w.now) words.now)) }
    ensures stay { StayNumbered names.old names.new }
{
    for word in words {
        names.intern(word)?;
    }
    Ok(())
}
