// A taming text in memory: what it says of the library, table by table.

ghost use Rattle.std.specs.Prelude.{◌≡◌, map, true};
ghost use Rattle.taming_db.specs.TableView.{row_view};
ghost use Rattle.taming_db.specs.Tame.{enable_tame};

use crate::marker::Marker;

/// What a taming text says of each class that it names. Places are those in `CLASSES` and `LIBRARY`.
#[derive(Drop)]
pub struct Taming {
    pub(crate) rows: Vec<Row>,
    pub ghost tame: { enable_tame (map row_view rows.items) ≡ true },
}

/// What a table says.
#[derive(Drop)]
pub(crate) struct Row {
    /// The place of its class.
    pub(crate) class: usize,
    /// The markers that the class is given.
    pub(crate) honorary: Vec<Marker>,
    /// Whether guests may extend or implement the class.
    pub(crate) extend: bool,
    /// The places of the members that guests may use.
    pub(crate) enable: Vec<usize>,
}
