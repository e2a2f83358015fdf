// A table of a taming text, as it is written.

use crate::marker::Marker;

/// A table of the right shape: what it says of the class that it names.
#[derive(Drop)]
pub(crate) struct Table {
    /// The full name of a class.
    pub(crate) name: String,
    /// The markers that the class is given.
    pub(crate) honorary: Vec<Marker>,
    /// Whether guests may extend or implement it.
    pub(crate) extend: bool,
    /// The signatures of the members that guests may use.
    pub(crate) enable: Vec<String>,
}
