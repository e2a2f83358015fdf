// What a call is made on.

use je_core::{ClassId, ObjId};

/// What a call from outside is made on.
#[derive(Clone, Copy, PartialEq, Eq)]
pub enum Receiver {
    /// Nothing: the method is static.
    None,
    /// The object of that number. The method that its class has for the named one runs.
    Object(ObjId),
    /// A new instance of the class, whose constructor the method is. The call answers that object.
    Fresh,
}
