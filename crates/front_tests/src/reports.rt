// Reports, by the texts that are due.

use flow_base::FaultKind as FlowRule;
use host_text::{ConfinementRule, Finding, Rule, report};
use je_base::{Memory, Span};
use je_lexer::FaultKind as TokenRule;
use je_typing::TypeRule;
use name_faults::FaultKind as NameRule;
use std::alloc::Global;
use std::test::Fail;

fn owned(alloc: Global, words: &[&str]) -> Result<Vec<String>, Memory> {
    let mut owned = Vec::new(alloc);
    for word in words {
        owned.push(String::from_str(alloc, word)?)?;
    }
    Ok(owned)
}

// The report of faults in two files.
fn report_of(alloc: Global, found: &[Finding]) -> Result<Vec<u8>, Memory> {
    let files = owned(alloc, &["A.java", "src/B.java"])?;
    report(alloc, &files, found)
}

fn at(rule: Rule, file: u16, start: u32, end: u32) -> Finding {
    Finding {
        rule,
        span: Span { file, start, end },
    }
}

#[test]
fn reports_are_lines_and_a_count(rt: HostRuntime) -> Result<(), Fail> {
    let found = [
        at(Rule::Confinement(ConfinementRule::CatchError), 0, 41, 50),
        at(Rule::Confinement(ConfinementRule::Finally), 0, 58, 65),
    ];
    let expected = "A.java 41..50 V13 CatchError
A.java 58..65 V14 Finally
refused 2
";
    let text = report_of(rt.alloc(), &found).ok();
    assert_eq!(rt; text.as_deref(), Some(expected.as_bytes()));
    Ok(())
}

#[test]
fn reports_name_file_place_and_rule(rt: HostRuntime) -> Result<(), Fail> {
    let found = [
        at(Rule::Token(TokenRule::BadEscape), 0, 22, 23),
        at(Rule::Syntax, 1, 0, 1),
        at(Rule::Name(NameRule::OutOfProfile), 0, 7, 8),
        at(Rule::Typing(TypeRule::BadSuperCall), 0, 0, 1_048_576),
        at(Rule::Flow(FlowRule::Unreported), 0, 5, 10),
        at(Rule::Confinement(ConfinementRule::NotExtensible), 1, 3, 4),
    ];
    let expected = "A.java 22..23 L2 BadEscape
src/B.java 0..1 S1 Syntax
A.java 7..8 N5 OutOfProfile
A.java 0..1048576 T40 BadSuperCall
A.java 5..10 F5 Unreported
src/B.java 3..4 V16 NotExtensible
refused 6
";
    let text = report_of(rt.alloc(), &found).ok();
    assert_eq!(rt; text.as_deref(), Some(expected.as_bytes()));
    Ok(())
}
