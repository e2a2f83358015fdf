//! Tests of the parser's calls, of reports and of taming texts, each over what these crates export, with ample memory.
#![tactic(auto)]

#[cfg(test)]
mod parsing;
#[cfg(test)]
mod reports;
#[cfg(test)]
mod texts;
