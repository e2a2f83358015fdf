//! Whether types are well written in headers and signatures: each type argument is below its bound, and no
//! type has more than 255 dimensions (JLS 4.5; JVMS 4.3.2).
//!
//! Each call comes to what the definition of its name in `header_typing` says of the type that is written: it
//! answers the same fault, or none (`IsFault` of `je_typing`).
#![tactic(auto)]

mod arguments;
mod walk;

pub use arguments::{bounded, span_of};
pub use walk::{
    Surroundings, is_in_limit, judge_declared, judge_formal, judge_optional_type, judge_type,
    meaning,
};
