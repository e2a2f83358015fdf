// What an operator comes to.

use je_core::Value;

/// What an operator on two values comes to.
#[derive(Clone, Copy, PartialEq, Eq, Debug)]
pub enum Outcome {
    Gives(Value),
    /// The divisor of `/` or `%` is zero.
    ByZero,
    /// The operator takes no two values of these types.
    Unfit,
}
