// What the productions are read with.

use je_base::{Names, Units};

/// What the numbers in tokens stand for, and how high the trees may be that are read below (JLS has no such limit; a file's
/// trees are of height at most 300).
#[derive(Clone, Copy)]
pub struct Setting<'t> {
    pub names: &'t Names,
    pub texts: &'t [Units],
    pub below: u32,
}
