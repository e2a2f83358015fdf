// Why a program isn't accepted.

use rule_breaks::Break;

/// Why a program isn't accepted.
#[derive(Drop)]
pub enum VerifyFault {
    /// Want of memory.
    Memory,
    /// Rules are broken: all places where one is, in order and each once.
    Refused(Vec<Break>),
}
