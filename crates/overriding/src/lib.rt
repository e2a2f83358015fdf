//! Which methods a class has, and what is asked of those that override others: definitions (JLS 8.4.2, 8.4.8, 9.4.1).
//!
//! `specs/Methods.antt` says which methods a class declares and inherits, and which override which; `specs/Overrides.antt`
//! what is asked of them. Each rule comes to nothing where it holds, and to a fault where it doesn't (`Judged` of `je_typing`).
#![tactic(auto)]
