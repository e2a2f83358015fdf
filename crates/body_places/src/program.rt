// What the names in bodies are judged by.

ghost use Rattle.std.specs.Prelude.{◌<◌, ◌^◌, ℕ, length};
ghost use Rattle.class_heads.specs.View.{classes_of};
ghost use Rattle.name_typing.specs.Fields.{fields_of};

use crate::tables::{Captured, Constant};
use class_heads::AllClasses;
use source_subtypes::ClassHeads;
use type_faults::Program as Source;

/// The classes of a program: where they are written, their headers and what they declare. The last three lists are by
/// class.
#[derive(Clone, Copy)]
pub struct Program<'a> {
    pub source: Source<'a>,
    pub heads: &'a ClassHeads,
    pub classes: AllClasses<'a>,
    /// The value of each field that is a constant variable.
    pub constants: &'a [Vec<Option<Constant>>],
    /// The place of the field in which an instance keeps the one round it.
    pub outer: &'a [u32],
    /// The fields in which an instance keeps the values of locals of the bodies round its class.
    pub captured: &'a [Vec<Captured>],
    ghost few: { (c : ℕ) → length (fields_of (classes_of classes) c) < 2 ^ 32 },
}
