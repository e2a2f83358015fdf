// The lines that the program prints.

ghost use Rattle.std.specs.Prelude.{◌≡◌, ◌++◌, codes, IfOk};
ghost use Rattle.je_top.specs.Outcome.{outcome_view};
ghost use Rattle.je_top.specs.Texts.{init_text, reply_text, said_of_taming, taming_text, text_of as the_text_of};

use crate::outcome::Outcome;
use host_text::report;
use itoa::Buffer;
use je_base::Memory;
use std::alloc::Global;
use taming_db::TamingRule;

/// The text that tells of what a call came to.
pub fn text_of(alloc: Global, outcome: &Outcome) -> Result<Vec<u8>, Memory>
    ensures { IfOk result (λ text. text.items ≡ the_text_of (outcome_view outcome.now)) }
{
    match outcome {
        Outcome::Usage => line(
            alloc,
            b"usage: joee check TAMING FILE... | run TAMING SCRIPT FILE... | gen N\n",
        ),
        Outcome::Missing { name } => name_line(alloc, b"missing ", name),
        Outcome::TooLong { name } => name_line(alloc, b"toolong ", name),
        Outcome::Failed { name } => name_line(alloc, b"read ", name),
        Outcome::TamingRefused { table, rule } => taming_line(alloc, *table, *rule),
        Outcome::Accepted => line(alloc, b"accepted\n"),
        Outcome::Refused { sources, found } => report(alloc, sources, found),
        Outcome::Replied { value } => reply_line(alloc, *value),
        Outcome::Thrown => line(alloc, b"thrown\n"),
        Outcome::Spent => line(alloc, b"spent\n"),
        Outcome::InitThrown { class } => init_line(alloc, class, b"thrown"),
        Outcome::InitSpent { class } => init_line(alloc, class, b"spent"),
        Outcome::NotBuilt { name } => name_line(alloc, b"notbuilt ", name),
    }
}

/// A line that is always the same.
fn line(alloc: Global, text: &[u8]) -> Result<Vec<u8>, Memory>
    ensures { IfOk result (λ line. line.items ≡ text.now) }
{
    Ok(Vec::from_slice(alloc, text)?)
}

/// A word that ends in a space, a file's name and LF.
fn name_line(alloc: Global, word: &[u8], name: &str) -> Result<Vec<u8>, Memory>
    ensures { IfOk result (λ line. line.items ≡ word.now ++ name.now ++ codes "\n") }
{
    let mut line = Vec::from_slice(alloc, word)?;
    line.extend_from_slice(name.as_bytes())?;
    line.extend_from_slice(b"\n")?;
    Ok(line)
}

/// The line of a taming text's fault.
fn taming_line(alloc: Global, table: usize, rule: TamingRule) -> Result<Vec<u8>, Memory>
    ensures { IfOk result (λ line. line.items ≡ taming_text table rule) }
{
    let mut digits = Buffer::new();
    let mut line = Vec::from_slice(alloc, b"taming ")?;
    line.extend_from_slice(digits.format(table).as_bytes())?;
    line.extend_from_slice(b" ")?;
    line.extend_from_slice(said_of_taming(rule).as_bytes())?;
    line.extend_from_slice(b"\n")?;
    Ok(line)
}

/// The number and the word of a fault of a taming text.
fn said_of_taming(rule: TamingRule) -> &'static str
    ensures { result.now ≡ said_of_taming rule }
{
    match rule {
        TamingRule::NotToml => "1 NotToml",
        TamingRule::BadShape => "2 BadShape",
        TamingRule::UnknownClass => "3 UnknownClass",
        TamingRule::UnknownMember => "4 UnknownMember",
        TamingRule::Wild => "5 Wild",
        TamingRule::FalseHonorary => "6 FalseHonorary",
        TamingRule::Twice => "7 Twice",
    }
}

/// The line of a reply.
fn reply_line(alloc: Global, value: i32) -> Result<Vec<u8>, Memory>
    ensures { IfOk result (λ line. line.items ≡ reply_text value) }
{
    let mut digits = Buffer::new();
    let mut line = Vec::from_slice(alloc, b"reply i:")?;
    line.extend_from_slice(digits.format(value).as_bytes())?;
    line.extend_from_slice(b"\n")?;
    Ok(line)
}

/// The line of a load that didn't come to its end, with the name of a class and how its initializers ended.
fn init_line(alloc: Global, class: &[u8], end: &[u8]) -> Result<Vec<u8>, Memory>
    ensures { IfOk result (λ line. line.items ≡ init_text class.now end.now) }
{
    let mut line = Vec::from_slice(alloc, b"init ")?;
    line.extend_from_slice(class)?;
    line.extend_from_slice(b" ")?;
    line.extend_from_slice(end)?;
    line.extend_from_slice(b"\n")?;
    Ok(line)
}
