//! What is asked of the headers of classes and of the signatures of their members: definitions, a file for each rule.
//!
//! Each rule comes to nothing where it holds, and to a fault where it doesn't, as the steps of `je_typing` do (`Judged`). They
//! see the headers of all classes (`ClassHead` of `source_types`), and what is written where the fault is to be.
#![tactic(auto)]
