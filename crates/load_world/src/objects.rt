// The first objects: a capability for each device, and the constant strings.

ghost use Rattle.std.specs.Prelude.{◌≤◌, ◌≡◌, ◌++◌, ◌^◌, OnOk, length, map};
ghost use Rattle.je_core.specs.declared.object.Obj.TheVariants.{Text};
ghost use Rattle.je_heap.specs.Contents.{with_objects};
ghost use Rattle.je_load.specs.Loading.{capabilities};

use je_core::{ClassId, Memory, Obj, Units};
use je_heap::Heap;
use std::alloc::Global;
use text_members::copied;

/// Adds a capability for each device, with the interface of the device.
pub fn add_capabilities(heap: &mut Heap, interfaces: &[ClassId]) -> Result<(), Memory>
    requires { length interfaces.now ≤ 2 ^ 32 }
    ensures { OnOk result (heap.new ≡ with_objects heap.old
        (heap.old.world.objects ++ capabilities 0 interfaces.now)) }
{
    for (device, interface) in interfaces.iter().enumerate() {
        heap.alloc_obj(Obj::Cap(device as u32, *interface))?;
    }
    Ok(())
}

/// Adds a string for each text.
pub fn add_texts(alloc: Global, heap: &mut Heap, texts: &[Units]) -> Result<(), Memory>
    ensures { OnOk result (heap.new ≡ with_objects heap.old
        (heap.old.world.objects ++ map Text texts.now)) }
{
    for text in texts {
        heap.alloc_obj(Obj::Text(copied(alloc, text.as_slice())?))?;
    }
    Ok(())
}
