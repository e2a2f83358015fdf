// Values in pages.

ghost use Rattle.std.specs.Prelude.{◌≡◌, ◌+◌, ◌<◌, ◌≤◌, [], ◌∷◌, ◌++◌, OnOk, OnErr, length, take, slice_get, slice_set};
ghost use Rattle.je_pages.specs.Paging.{page_length, page_of};

use crate::page::Page;
use je_core::{Memory, Slots, Value};
use std::alloc::Global;
use std::marker::Model;
use std::mem;

/// How many values a page has.
pub const PAGE: usize = 4096;

/// A row of values.
#[derive(Drop)]
pub struct Pages {
    alloc: Global,
    full: Vec<Page>,
    last: Page,
}

impl Model for Pages {
    ghost use Rattle.std.specs.Prelude.{List, ◌≤◌, ◌++◌, length};
    ghost use Rattle.je_core.specs.declared.value.Value.{Value as OneValue};
    ghost use Rattle.je_pages.specs.Paging.{page_length};
    ghost use Rattle.je_pages.specs.way.Laid.{row_of, AreFull};

    ghost Value = { List OneValue };

    ghost view = { λ p. row_of p.full.items ++ p.last };

    ghost invariant = { λ p. AreFull p.full.items × (length p.last ≤ page_length) };
}

impl Pages {
    /// No values.
    pub fn new(alloc: Global) -> Pages
        ensures { result ≡ [] }
    {
        Pages {
            alloc,
            full: Vec::new(alloc),
            last: Page::new(alloc),
        }
    }

    /// How many values there are. A `u128`, as each place, since it holds how many values any number of pages has.
    #[tactic(auto, using(crate::proofs::Laying::counted))]
    pub fn len(&self) -> u128
        ensures { result ≡ length self.now }
    {
        self.full.len() as u128 * PAGE as u128 + self.last.len() as u128
    }

    /// The value so many places behind a place; None exactly where there is none.
    pub fn get(&self, first: u128, at: u64) -> Option<Value>
        ensures { result ≡ slice_get self.now (first + at) }
    {
        let end = self.len();
        if first < end && (at as u128) < end - first {
            self.value(first + at as u128)
        } else {
            None
        }
    }

    // The value at a place.
    #[tactic(auto, using(crate::proofs::Laying::on_page, crate::proofs::Laying::on_last, crate::proofs::Laying::place_on_last))]
    fn value(&self, at: u128) -> Option<Value>
        requires { at < length self.now }
        ensures { result ≡ slice_get self.now at }
    {
        if at / (PAGE as u128) < self.full.len() as u128 {
            let page = &self.full[(at / PAGE as u128) as usize];
            page.get((at % PAGE as u128) as usize)
        } else {
            self.last
                .get((at - self.full.len() as u128 * PAGE as u128) as usize)
        }
    }

    /// The values on the page of a number, as many as are there.
    #[tactic(auto, using(crate::proofs::Laying::page_there, crate::proofs::Laying::page_last, crate::proofs::Laying::page_past))]
    pub fn page(&self, at: usize) -> &[Value]
        ensures { result.now ≡ page_of self.now at }
    {
        if at < self.full.len() {
            self.full[at].as_slice()
        } else if at == self.full.len() {
            self.last.as_slice()
        } else {
            &[]
        }
    }

    /// Adds a value at the end.
    #[tactic(auto, using(crate::proofs::Laying::full_with, crate::proofs::Laying::turned, crate::proofs::Laying::pushed))]
    pub fn push(&mut self, value: Value) -> Result<(), Memory>
        ensures ok { OnOk result (self.new ≡ self.old ++ value ∷ []) }
        ensures err { OnErr result (self.new ≡ self.old) }
    {
        if self.last.len() < PAGE {
            return self.last.push(value);
        }
        self.full.reserve(1)?;
        let page = mem::replace(&mut self.last, Page::new(self.alloc));
        let _ = self.full.push(page);
        self.last.push(value)
    }

    /// Puts a value in place of the one so many places behind a place, and changes nothing else.
    pub fn set(&mut self, first: u128, at: u64, value: Value)
        requires { first + at < length self.old }
        ensures { self.new ≡ slice_set self.old (first + at) value }
    {
        let end = self.len();
        if first < end && (at as u128) < end - first {
            self.put(first + at as u128, value);
        }
    }

    // Puts a value in place of the one at a place.
    #[tactic(auto, using(crate::proofs::Laying::set_on_page, crate::proofs::Laying::set_on_last, crate::proofs::Laying::place_on_page, crate::proofs::Laying::place_on_last, crate::proofs::Laying::still_full))]
    fn put(&mut self, at: u128, value: Value)
        requires { at < length self.old }
        ensures { self.new ≡ slice_set self.old at value }
    {
        if at / (PAGE as u128) < self.full.len() as u128 {
            self.full[(at / PAGE as u128) as usize].set((at % PAGE as u128) as usize, value);
        } else {
            self.last.set(
                (at - self.full.len() as u128 * PAGE as u128) as usize,
                value,
            );
        }
    }

    /// Keeps so many values from the front.
    #[tactic(auto, using(crate::proofs::Laying::cut_on_page, crate::proofs::Laying::cut_on_last, crate::proofs::Laying::full_front, crate::proofs::Laying::short_front, crate::proofs::Laying::rest_on_last))]
    pub fn cut(&mut self, len: u128)
        requires { len ≤ length self.old }
        ensures { self.new ≡ take len self.old }
    {
        if len / (PAGE as u128) < self.full.len() as u128 {
            let page = (len / PAGE as u128) as usize;
            self.last = mem::replace(&mut self.full[page], Page::new(self.alloc));
            self.full.truncate(page);
            self.last.cut((len % PAGE as u128) as usize);
        } else {
            self.last
                .cut((len - self.full.len() as u128 * PAGE as u128) as usize);
        }
    }

    /// Adds the values of an object at the end. Want of memory leaves all as it was.
    pub fn extend(&mut self, values: &Slots) -> Result<(), Memory>
        ensures ok { OnOk result (self.new ≡ self.old ++ values.now) }
        ensures err { OnErr result (self.new ≡ self.old) }
    {
        let before = self.len();
        match self.add(values) {
            Ok(()) => Ok(()),
            Err(memory) => {
                self.cut(before);
                Err(memory)
            }
        }
    }

    // Adds the values, or some of them where memory lacks.
    #[tactic(auto, using(crate::proofs::Laying::one_more, crate::proofs::Laying::all_taken))]
    fn add(&mut self, values: &Slots) -> Result<(), Memory>
        ensures ok { OnOk result (self.new ≡ self.old ++ values.now) }
        ensures length { OnErr result (length self.old ≤ length self.new) }
        ensures err { OnErr result (take (length self.old) self.new ≡ self.old) }
    {
        for at in 0..values.len() {
            if let Some(value) = values.get(at) {
                self.push(value)?;
            }
        }
        Ok(())
    }
}
