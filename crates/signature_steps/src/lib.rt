//! The headers and signatures of all classes, judged one after another in reading order: the code for `signature_typing`.
//!
//! A function answers `Ok` where what it judges comes to nothing, and else the first fault (`IsFault` of `je_typing`), or want
//! of memory.
#![tactic(auto)]

mod classes;
mod headers;
mod members;
mod methods;
mod setting;

pub use classes::judge_signatures;
pub use setting::{ConstantField, Setting};
