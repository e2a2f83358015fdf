//! What is asked of the headers and signatures of all classes, one after another in reading order: definitions, of the rules
//! of `member_rules`, `header_typing` and `overriding` (JLS 8, 9).
#![tactic(auto)]
