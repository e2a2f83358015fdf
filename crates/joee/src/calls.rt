// Calls of `joee` over files and a sink in memory.

use je_base::Memory;
use je_top::{MemFiles, MemSink, Status, joee};
use std::alloc::Global;
use std::collections::BTreeMap;
use std::test::Fail;

/// Files with these names and texts.
pub fn held(alloc: Global, files: &[(&str, &str)]) -> Result<BTreeMap<String, Vec<u8>>, Memory> {
    let mut held = BTreeMap::new(alloc);
    for (name, text) in files {
        held.insert(
            String::from_str(alloc, name)?,
            Vec::from_slice(alloc, text.as_bytes())?,
        )?;
    }
    Ok(held)
}

/// The status of a call with the words of this line, one blank between two; with none, where the line is empty.
pub fn called(
    alloc: Global,
    line: &str,
    files: &mut MemFiles,
    out: &mut MemSink,
) -> Result<Status, Memory> {
    let mut words = Vec::new(alloc);
    if !line.is_empty() {
        for word in line.split(' ') {
            words.push(String::from_str(alloc, word)?)?;
        }
    }
    Ok(joee(alloc, &words, files, out))
}

/// What such a call puts over these files, and after it the number of its status.
pub fn report(alloc: Global, line: &str, files: &[(&str, &str)]) -> Result<String, Fail> {
    let mut files = MemFiles::new(alloc, held(alloc, files)?, Vec::new(alloc));
    let mut out = MemSink::new(alloc, Vec::new(alloc));
    let status = called(alloc, line, &mut files, &mut out)?.number();
    let text = str::from_utf8(out.taken()).map_err(|_| "no text")?;
    Ok(format!(in alloc; "{text}{status}")?)
}

/// A text of so many blanks.
pub fn blanks(alloc: Global, count: usize) -> Result<String, Memory> {
    let mut text = String::new(alloc);
    for _ in 0..count {
        text.push_str(" ")?;
    }
    Ok(text)
}
