// What a program declares.

use declarations::ClassDecl;
use name_lookup::Headers;
use name_sites::Sites;

/// What a program declares: its classes by number, the library's first, and then those of its units in reading order.
#[derive(Drop)]
pub struct Scopes<'a> {
    /// Where each class is written, and the maps by which names are found among classes.
    pub sites: Sites<'a>,
    /// The classes that each header names.
    pub headers: Headers,
    /// What each class declares, its members in the order in which they are written; nothing, for a class of the library.
    pub classes: Vec<ClassDecl>,
}
