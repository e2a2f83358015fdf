//! Texts that the host prints: the report of a program's faults.
//!
//! `report` writes a line for each `Finding`, with the file, the place, and the code and word of the `Rule` that is broken,
//! and then how many there are. The text is `report_text` of `specs/Report.antt`; `said` of `specs/Rules.antt` has the code
//! and word of each rule.
#![tactic(auto)]

mod finding;
mod reporting;
mod rules;

pub use finding::Finding;
pub use reporting::report;
pub use rule_breaks::ConfinementRule;
pub use rules::Rule;
