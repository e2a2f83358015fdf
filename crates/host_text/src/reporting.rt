// The report of a program's faults.

ghost use Rattle.std.specs.Prelude.{◌≡◌, ◌++◌, codes, decimal, map, string_bytes, IfOk, OnOk};
ghost use Rattle.host_text.specs.Report.{count_line, file_name, finding_line, place_text, report_text};

use crate::finding::Finding;
use crate::rules::said;
use itoa::Buffer;
use je_base::{Memory, Span};
use std::alloc::Global;

/// A line for each fault, `FILE START..END CODE WORD`, and then `refused COUNT`. `files` are the files' names, by number; a
/// number that no name has is printed without one. Memory is answered where an allocation is refused.
#[tactic(auto, unfolding(crate::specs::Report::report_text))]
pub fn report(alloc: Global, files: &[String], found: &[Finding]) -> Result<Vec<u8>, Memory>
    ensures { IfOk result (λ text. text.items ≡
        report_text (map string_bytes files.now) found.now) }
{
    let mut text = Vec::new(alloc);
    for finding in found {
        add_finding(&mut text, files, finding)?;
    }
    add_count(&mut text, found.len())?;
    Ok(text)
}

fn add_finding(text: &mut Vec<u8>, files: &[String], finding: &Finding) -> Result<(), Memory>
    ensures { OnOk result (text.new.items ≡ text.old.items
        ++ finding_line (map string_bytes files.now) finding.now) }
{
    text.extend_from_slice(name_of(files, finding.span.file).as_bytes())?;
    text.extend_from_slice(b" ")?;
    add_place(text, finding.span)?;
    text.extend_from_slice(b" ")?;
    text.extend_from_slice(said(finding.rule).as_bytes())?;
    text.extend_from_slice(b"\n")?;
    Ok(())
}

fn name_of(files: &[String], file: u16) -> &str
    ensures { result.now ≡ file_name (map string_bytes files.now) file }
{
    match files.get(file as usize) {
        Some(name) => name.as_str(),
        None => "",
    }
}

fn add_place(text: &mut Vec<u8>, span: Span) -> Result<(), Memory>
    ensures { OnOk result (text.new.items ≡ text.old.items ++ place_text span) }
{
    add_number(text, span.start as usize)?;
    text.extend_from_slice(b"..")?;
    add_number(text, span.end as usize)
}

fn add_count(text: &mut Vec<u8>, count: usize) -> Result<(), Memory>
    ensures { OnOk result (text.new.items ≡ text.old.items ++ count_line count) }
{
    text.extend_from_slice(b"refused ")?;
    add_number(text, count)?;
    text.extend_from_slice(b"\n")?;
    Ok(())
}

fn add_number(text: &mut Vec<u8>, number: usize) -> Result<(), Memory>
    ensures { OnOk result (text.new.items ≡ text.old.items ++ decimal number) }
{
    let mut digits = Buffer::new();
    text.extend_from_slice(digits.format(number).as_bytes())?;
    Ok(())
}
