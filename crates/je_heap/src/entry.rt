// What is kept of an object beside its slots and its units.

ghost use Rattle.std.specs.Prelude.{◌≡◌};
ghost use Rattle.je_heap.specs.way.Laid.{device_of, has_units as has_units_of, is_of_builders, shape_by};

use crate::shape::{Shape, Tag, builder_class, class_type, string_class};
use je_core::{ClassId, Ty};

/// What an object is, and where its slots and its units stand among those of all objects.
#[derive(Clone, Copy)]
pub struct Entry {
    pub kind: Kind,
    /// The place of its first slot.
    pub first: u128,
    /// How many slots it has.
    pub len: usize,
    /// How many texts and builders were made before it, which is the place of its own units.
    pub text: usize,
}

/// The kind of an object.
#[derive(Clone, Copy)]
pub enum Kind {
    /// An instance of a class.
    Instance(ClassId),
    /// An array, by the type of its elements.
    Array(Ty),
    /// A string.
    Text,
    /// A `StringBuilder`.
    Builder,
    /// A row of one of the library's classes.
    Row(ClassId),
    /// A capability, by its device and its interface.
    Cap(u32, ClassId),
}

impl Kind {
    /// Whether an object of this kind has units.
    pub fn has_units(self) -> bool
        ensures { result ≡ has_units_of self }
    {
        match self {
            Kind::Text | Kind::Builder => true,
            Kind::Instance(_) | Kind::Array(_) | Kind::Row(_) | Kind::Cap(_, _) => false,
        }
    }

    /// Whether it is that of builders.
    pub fn is_builder(self) -> bool
        ensures { result ≡ is_of_builders self }
    {
        matches!(self, Kind::Builder)
    }

    /// The shape of an object of this kind that has so many slots or units.
    pub fn shape(self, len: u64) -> Shape
        ensures { result ≡ shape_by self len }
    {
        let (tag, ty) = match self {
            Kind::Instance(class) => (Tag::Instance, class_type(class)),
            Kind::Array(element) => (Tag::Array, element),
            Kind::Text => (Tag::Text, class_type(string_class())),
            Kind::Builder => (Tag::Builder, class_type(builder_class())),
            Kind::Row(class) => (Tag::Row, class_type(class)),
            Kind::Cap(_, class) => (Tag::Cap, class_type(class)),
        };
        Shape {
            tag,
            ty,
            device: self.device(),
            len,
        }
    }

    // The device of a capability.
    fn device(self) -> u32
        ensures { result ≡ device_of self }
    {
        match self {
            Kind::Cap(device, _) => device,
            _ => 0,
        }
    }
}
