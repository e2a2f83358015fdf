//! Java's arithmetic: operators and conversions on values of primitive types.
//!
//! `specs/Operators.antt` has what each operator gives on two values (`binary`) and on one (`unary`), over a file for
//! each subject; `specs/Conversion.antt` has what a value is in another numeric type (`converted`). Constant folding and
//! the machine compute by these functions.
#![tactic(auto)]

mod conversion;
mod numbers;
mod operators;
mod outcome;

pub use conversion::{convert, number, try_convert};
pub use operators::{binary, try_binary, try_unary, unary};
pub use outcome::Outcome;
