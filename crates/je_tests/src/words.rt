// Each table of texts is sorted by bytes, and has each text once.

use je_token::{Keyword, Symbol};
use std::test::Fail;

#[test]
fn keywords_are_sorted(rt: HostRuntime) -> Result<(), Fail> {
    let mut before = "";
    for keyword in Keyword::ALL {
        assert!(rt; before < keyword.text());
        before = keyword.text();
    }
    assert_eq!(rt; before, "while");
    Ok(())
}

#[test]
fn symbols_are_sorted(rt: HostRuntime) -> Result<(), Fail> {
    let mut before = "";
    for symbol in Symbol::ALL {
        assert!(rt; before < symbol.text());
        before = symbol.text();
    }
    assert_eq!(rt; before, "~");
    Ok(())
}
