// What a call is judged by.

use crate::table::MethodTable;
use class_heads::AllClasses;
use je_core::ClassId;
use name_sites::Sites;
use source_subtypes::ClassHeads;

/// What a call in a class is judged by: where all classes are written, their headers, what they declare, and the
/// methods that each of them has.
#[derive(Clone, Copy)]
pub struct Caller<'a> {
    pub class: ClassId,
    pub sites: &'a Sites<'a>,
    pub heads: &'a ClassHeads,
    pub classes: AllClasses<'a>,
    pub methods: &'a MethodTable<'a>,
}
