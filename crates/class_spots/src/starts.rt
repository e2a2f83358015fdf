// Classes by where something of them begins.

ghost use Rattle.std.specs.Prelude.{◌≡◌, None, OnOk, Some};
ghost use Rattle.je_base.specs.declared.span.Span.{Span as TheSpan};
ghost use Rattle.name_sites.specs.ByName.{or_else};
ghost use Rattle.class_spots.specs.Starts.{at_start, kept};

use je_base::{Memory, Span};
use std::alloc::Global;
use std::collections::HashMap;

/// The first class that was put at each place where a span begins.
#[derive(Drop)]
pub(crate) struct Starts {
    classes: HashMap<(u16, u32), u32>,
}

impl Starts {
    /// Nothing anywhere.
    #[tactic(auto, unfolding(crate::specs::Starts::kept))]
    pub(crate) fn new(alloc: Global) -> Starts
        ensures { (s : TheSpan) → kept result s ≡ None }
    {
        Starts {
            classes: HashMap::new(alloc),
        }
    }

    /// What stands where a span begins.
    #[tactic(auto, unfolding(crate::specs::Starts::kept))]
    pub(crate) fn get(&self, span: Span) -> Option<u32>
        ensures { result ≡ kept self.now span }
    {
        self.classes.get(&(span.file, span.start)).copied()
    }

    /// Puts a class where a span begins, if there is a span, and nothing stands there.
    pub(crate) fn keep(&mut self, span: Option<Span>, class: u32) -> Result<(), Memory>
        ensures { OnOk result ((s : TheSpan) → kept self.new s ≡
            or_else (kept self.old s) (at_start span class s)) }
    {
        match span {
            Some(span) => self.put(span, class),
            None => Ok(()),
        }
    }

    #[tactic(auto, unfolding(crate::specs::Starts::kept))]
    fn put(&mut self, span: Span, class: u32) -> Result<(), Memory>
        ensures { OnOk result ((s : TheSpan) → kept self.new s ≡
            or_else (kept self.old s) (at_start (Some span) class s)) }
    {
        match self.get(span) {
            Some(_) => Ok(()),
            None => {
                self.classes.insert((span.file, span.start), class)?;
                Ok(())
            }
        }
    }
}
