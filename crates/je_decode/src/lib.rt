//! A source file's characters: UTF-8, and then Unicode escapes.
//!
//! `decode` gives the characters that `Rattle.je_decode.specs.Decoding.Decodes` says, or the fault that `IsRefused` says.
//! Contracts see the characters as a list, each with its code point and its bytes. The lexer uses `decode`, `Character` and
//! `DecodeFault`. What `specs/way` defines, only proofs and private functions' clauses cite.
#![tactic(auto)]

mod character;
mod decoding;
mod escapes;
mod fault;
mod places;

pub use character::Character;
pub use decoding::decode;
pub use fault::DecodeFault;
