// Of which class and type an object is, by its shape.

ghost use Rattle.std.specs.Prelude.{◌≡◌};
ghost use Rattle.je_java.specs.Steps.{receiving_class as the_receiving_class};
ghost use Rattle.je_java.specs.World.{class_of as the_class_of, type_of as the_type_of, extent_of as the_extent_of, count_of as the_count_of, array_type as the_array_type};
ghost use Rattle.object_parts.specs.way.Shapes.{class_by, type_by, extent_by, count_by_shape};

use je_classes::object_class;
use je_core::{Base, ClassId, ObjId, Ty};
use je_heap::{Heap, Shape, Tag};
use je_java::Extent;

fn class_in(shape: Option<Shape>) -> Option<ClassId>
    ensures { result ≡ class_by shape }
{
    match shape {
        None => None,
        Some(shape) => match shape.tag {
            Tag::Array => None,
            Tag::Instance | Tag::Text | Tag::Builder | Tag::Row | Tag::Cap => {
                match shape.ty.base {
                    Base::Class(class) => Some(class),
                    _ => None,
                }
            }
        },
    }
}

// The type of arrays of a type of elements.
fn array_type(element: Ty) -> Option<Ty>
    ensures { result ≡ the_array_type element }
{
    if element.dims < 255 {
        Some(Ty {
            base: element.base,
            dims: element.dims + 1,
        })
    } else {
        None
    }
}

fn type_in(shape: Option<Shape>) -> Option<Ty>
    ensures { result ≡ type_by shape }
{
    match shape {
        None => None,
        Some(shape) => match shape.tag {
            Tag::Array => array_type(shape.ty),
            Tag::Instance | Tag::Text | Tag::Builder | Tag::Row | Tag::Cap => Some(shape.ty),
        },
    }
}

fn extent_in(shape: Option<Shape>) -> Option<Extent>
    ensures { result ≡ extent_by shape }
{
    match shape {
        None => None,
        Some(shape) => match shape.tag {
            Tag::Array => Some(Extent {
                element: shape.ty,
                count: shape.len,
            }),
            Tag::Instance | Tag::Text | Tag::Builder | Tag::Row | Tag::Cap => None,
        },
    }
}

fn count_in(shape: Option<Shape>) -> Option<u64>
    ensures { result ≡ count_by_shape shape }
{
    match shape {
        None => None,
        Some(shape) => match shape.tag {
            Tag::Row => Some(shape.len),
            Tag::Instance | Tag::Array | Tag::Text | Tag::Builder | Tag::Cap => None,
        },
    }
}

/// The class of an object that is no array.
#[tactic(auto, using(crate::proofs::Shapes::class_seen))]
pub fn class_of(heap: &Heap, object: ObjId) -> Option<ClassId>
    ensures { result ≡ the_class_of heap.now.world.objects object.0 }
{
    class_in(heap.shape(object))
}

/// The type of an object.
#[tactic(auto, using(crate::proofs::Shapes::type_seen))]
pub fn type_of(heap: &Heap, object: ObjId) -> Option<Ty>
    ensures { result ≡ the_type_of heap.now.world.objects object.0 }
{
    type_in(heap.shape(object))
}

/// The class whose methods an object of a type has: of an array that is Object (JLS 10.7).
pub fn receiving_class(own: Ty) -> ClassId
    ensures { result ≡ the_receiving_class own.dims own.base }
{
    if own.dims > 0 {
        return object_class();
    }
    match own.base {
        Base::Class(class) => class,
        _ => object_class(),
    }
}

/// An array but for its elements.
#[tactic(auto, using(crate::proofs::Shapes::extent_seen))]
pub fn extent_of(heap: &Heap, object: ObjId) -> Option<Extent>
    ensures { result ≡ the_extent_of heap.now.world.objects object.0 }
{
    extent_in(heap.shape(object))
}

/// How many values a row has.
#[tactic(auto, using(crate::proofs::Shapes::count_seen))]
pub fn count_of(heap: &Heap, object: ObjId) -> Option<u64>
    ensures { result ≡ the_count_of heap.now.world.objects object.0 }
{
    count_in(heap.shape(object))
}
