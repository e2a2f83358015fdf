// The units of a program.

use je_ast::Unit;
use je_base::Names;

/// The units of a program's files.
#[derive(Drop)]
pub struct SourceUnits {
    /// The unit of each file, in order.
    pub units: Vec<Unit>,
    /// The names, by the numbers that the units have.
    pub names: Names,
}
