// Objects by number, their slots in pages, the units of each text and builder by themselves.

ghost use Rattle.std.specs.Prelude.{◌≡◌, [], ◌∷◌, ◌++◌, IfOk, IsSome, OnOk, OnErr, Some, flat_map, length, option_map, slice_get, take};
ghost use Rattle.je_java.specs.World.{slot_of, slots_of, units_of, with_slot, with_units_at};
ghost use Rattle.je_heap.specs.Growing.{lengthened, shortened};
ghost use Rattle.je_heap.specs.Shape.{IsBuilder, is_builder as is_builder_in, shape_at};
ghost use Rattle.je_heap.specs.way.Laid.{MayHave, object_of, text_count};
ghost use Rattle.je_pages.specs.Paging.{page_of};

use crate::entry::{Entry, Kind};
use crate::shape::Shape;
use crate::text::Text;
use je_core::{Memory, Obj, ObjId, Slots, Units, Value};
use je_pages::Pages;
use std::alloc::Global;
use std::marker::Model;
use std::mem;

/// Objects, an object's number being its place.
#[derive(Drop)]
pub struct Objects {
    alloc: Global,
    entries: Vec<Entry>,
    /// The slots of all objects, one object's behind those of the one before.
    slots: Pages,
    /// The units of each text and builder.
    texts: Vec<Text>,
}

impl Model for Objects {
    ghost use Rattle.std.specs.Prelude.{List, length, map};
    ghost use Rattle.je_core.specs.declared.object.Obj.{Obj as OneObject};
    ghost use Rattle.je_heap.specs.way.Laid.{object_in, AreLaid, AreNumbered};

    ghost Value = { List OneObject };

    ghost view = { λ o. map (object_in o.slots o.texts.items) o.entries.items };

    ghost invariant = { λ o.
        AreLaid 0 o.entries.items (length o.slots) × AreNumbered 0 o.entries.items (length o.texts.items) };
}

impl Objects {
    /// No objects.
    pub fn new(alloc: Global) -> Objects
        ensures { result ≡ [] }
    {
        Objects {
            alloc,
            entries: Vec::new(alloc),
            slots: Pages::new(alloc),
            texts: Vec::new(alloc),
        }
    }

    /// How many there are.
    #[tactic(auto, using(crate::proofs::Laying::as_many))]
    pub fn len(&self) -> usize
        ensures { result ≡ length self.now }
    {
        self.entries.len()
    }

    /// Adds an object.
    pub fn add(&mut self, object: Obj) -> Result<(), Memory>
        ensures ok { OnOk result (self.new ≡ self.old ++ object ∷ []) }
        ensures err { OnErr result (self.new ≡ self.old) }
    {
        match object {
            Obj::Instance(class, slots) => self.add_slots(Kind::Instance(class), &slots),
            Obj::Array(element, slots) => self.add_slots(Kind::Array(element), &slots),
            Obj::Text(units) => self.add_text(Kind::Text, units),
            Obj::Builder(units) => self.add_text(Kind::Builder, units),
            Obj::Row(class, slots) => self.add_slots(Kind::Row(class), &slots),
            Obj::Cap(device, class) => {
                self.add_slots(Kind::Cap(device, class), &Slots::new(self.alloc))
            }
        }
    }

    // Adds an object of a kind without units, with these slots.
    #[tactic(auto, using(crate::proofs::Laying::with_slots_object, crate::proofs::Laying::laid_with, crate::proofs::Texts::numbered_with))]
    fn add_slots(&mut self, kind: Kind, slots: &Slots) -> Result<(), Memory>
        requires bare { text_count kind ≡ 0 }
        requires room { MayHave kind (length slots.now) }
        ensures ok { OnOk result (self.new ≡ self.old ++ object_of kind slots.now [] ∷ []) }
        ensures err { OnErr result (self.new ≡ self.old) }
    {
        let first = self.slots.len();
        let len = slots.len();
        let text = self.texts.len();
        self.entries.reserve(1)?;
        self.slots.extend(slots)?;
        let _ = self.entries.push(Entry {
            kind,
            first,
            len,
            text,
        });
        Ok(())
    }

    // Adds an object of a kind with units.
    #[tactic(auto, using(crate::proofs::Texts::with_text_object, crate::proofs::Texts::laid_with_text, crate::proofs::Texts::numbered_with_text))]
    fn add_text(&mut self, kind: Kind, units: Units) -> Result<(), Memory>
        requires { text_count kind ≡ 1 }
        ensures ok { OnOk result (self.new ≡ self.old ++ object_of kind [] units ∷ []) }
        ensures err { OnErr result (self.new ≡ self.old) }
    {
        let first = self.slots.len();
        let text = self.texts.len();
        let own = Text::of(self.alloc, units.as_slice())?;
        self.entries.reserve(1)?;
        self.texts.push(own)?;
        let _ = self.entries.push(Entry {
            kind,
            first,
            len: 0,
            text,
        });
        Ok(())
    }

    /// An object's shape; None exactly where there is no such object.
    #[tactic(auto, using(crate::proofs::Texts::no_shape, crate::proofs::Texts::text_there, crate::proofs::Texts::shape_by_units, crate::proofs::Texts::shape_by_slots))]
    pub fn shape(&self, id: ObjId) -> Option<Shape>
        ensures { result ≡ shape_at self.now id.0 }
    {
        match self.entries.get(id.0 as usize) {
            None => None,
            Some(entry) => {
                if entry.kind.has_units() {
                    Some(entry.kind.shape(self.texts[entry.text].len() as u64))
                } else {
                    Some(entry.kind.shape(entry.len as u64))
                }
            }
        }
    }

    /// The value in a slot of an object; None exactly where there is no such object or no such slot.
    #[tactic(auto, using(crate::proofs::Laying::no_object, crate::proofs::Laying::no_slot, crate::proofs::Laying::slot_of_entry))]
    pub fn slot(&self, id: ObjId, at: u64) -> Option<Value>
        ensures { result ≡ slot_of self.now id.0 at }
    {
        match self.entries.get(id.0 as usize) {
            None => None,
            Some(entry) => {
                if at < entry.len as u64 {
                    self.slots.get(entry.first, at)
                } else {
                    None
                }
            }
        }
    }

    /// Puts a value into a slot that is there, and changes nothing else.
    #[tactic(auto, using(crate::proofs::Laying::same_length))]
    pub fn put(&mut self, id: ObjId, at: u64, value: Value)
        requires { IsSome (slot_of self.old id.0 at) }
        ensures { self.new ≡ with_slot self.old id.0 at value }
    {
        let entry = self.entries[id.0 as usize];
        self.slots.set(entry.first, at, value);
    }

    /// The units of a text or a builder; None exactly where there is no such object.
    #[tactic(auto, using(crate::proofs::Texts::no_units, crate::proofs::Texts::text_there, crate::proofs::Texts::units_of_entry, crate::proofs::Texts::unit_free))]
    pub fn units(&self, id: ObjId) -> Option<&[u16]>
        ensures { option_map (λ units. units.now) result ≡ units_of self.now id.0 }
    {
        match self.entries.get(id.0 as usize) {
            None => None,
            Some(entry) => {
                if entry.kind.has_units() {
                    Some(self.texts[entry.text].as_slice())
                } else {
                    None
                }
            }
        }
    }

    /// Whether there is an object of a number, and it is a builder.
    #[tactic(auto, using(crate::proofs::Texts::no_builder, crate::proofs::Texts::builder_of_entry))]
    pub fn is_builder(&self, id: ObjId) -> bool
        ensures { result ≡ is_builder_in (slice_get self.now id.0) }
    {
        match self.entries.get(id.0 as usize) {
            None => false,
            Some(entry) => entry.kind.is_builder(),
        }
    }

    /// Puts units into a builder in place of its own, and answers those.
    #[tactic(auto, using(crate::proofs::Texts::same_count))]
    pub fn put_units(&mut self, id: ObjId, units: Text) -> Text
        requires { IsBuilder self.old id.0 }
        ensures old { Some result ≡ units_of self.old id.0 }
        ensures new { self.new ≡ with_units_at self.old id.0 units }
    {
        let entry = self.entries[id.0 as usize];
        mem::replace(&mut self.texts[entry.text], units)
    }

    /// Puts units behind those of a builder, and answers how many it had.
    #[tactic(auto, using(crate::proofs::Texts::same_count))]
    pub fn lengthen(&mut self, id: ObjId, more: &[u16]) -> Result<usize, Memory>
        requires { IsBuilder self.old id.0 }
        ensures old { IfOk result
            (λ count. Some count ≡ option_map length (units_of self.old id.0)) }
        ensures ok { OnOk result (self.new ≡ lengthened self.old id.0 more.now) }
        ensures err { OnErr result (self.new ≡ self.old) }
    {
        let entry = self.entries[id.0 as usize];
        let text = &mut self.texts[entry.text];
        let count = text.len();
        text.lengthen(more)?;
        Ok(count)
    }

    /// Keeps so many units of a builder from the front, or all where there are no more.
    #[tactic(auto, using(crate::proofs::Texts::same_count))]
    pub fn shorten(&mut self, id: ObjId, count: usize)
        requires { IsBuilder self.old id.0 }
        ensures { self.new ≡ shortened self.old id.0 count }
    {
        let entry = self.entries[id.0 as usize];
        self.texts[entry.text].shorten(count);
    }

    /// Keeps so many objects from the front, or all where there are no more.
    #[tactic(auto, using(crate::proofs::Texts::kept_all, crate::proofs::Texts::kept_objects, crate::proofs::Texts::kept_numbered, crate::proofs::Laying::kept_laid, crate::proofs::Laying::first_within))]
    pub fn keep(&mut self, count: usize)
        ensures { self.new ≡ take count self.old }
    {
        if count < self.entries.len() {
            let next = self.entries[count];
            self.slots.cut(next.first);
            self.texts.truncate(next.text);
            self.entries.truncate(count);
        }
    }

    /// The values on a page of the slots of all objects, one object's behind those of the one before.
    #[tactic(auto, using(crate::proofs::Laying::whole_row))]
    pub fn page(&self, at: u64) -> &[Value]
        ensures { result.now ≡ page_of (flat_map slots_of self.now) at }
    {
        self.slots.page(at as usize)
    }
}
