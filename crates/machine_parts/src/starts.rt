// Which classes have been started, and those whose initializers are still to run.

ghost use Rattle.std.specs.Prelude.{◌≡◌, [], ◌∷◌, IfOk, OnOk, OnErr, MatchOption, None, false, replicate};
ghost use Rattle.je_java.specs.Steps.{is_started, with_started};
ghost use Rattle.machine_parts.specs.Starts.{all_started};

use je_core::{ClassId, Memory};
use std::alloc::Global;
use std::marker::Model;

/// Which classes have been started, and the class whose initializers run, of several the innermost.
#[derive(Drop)]
pub struct Starts {
    started: Vec<bool>,
    starting: Option<ClassId>,
}

impl Model for Starts {
    ghost use Rattle.je_java.specs.Steps.{Outside};

    ghost Value = { Outside };

    ghost view = { λ s. record { started = s.started.items; starting = s.starting } };
}

impl Starts {
    /// All classes count as started, and no initializers run.
    pub fn all(alloc: Global) -> Starts
        ensures { result ≡ all_started }
    {
        Starts {
            started: Vec::new(alloc),
            starting: None,
        }
    }

    /// None of so many classes has been started.
    pub fn none(alloc: Global, count: usize) -> Result<Starts, Memory>
        ensures { IfOk result (λ starts. starts ≡
            record { started = replicate count false; starting = None }) }
    {
        let mut started = Vec::new(alloc);
        for _class in 0..count {
            started.push(false)?;
        }
        Ok(Starts {
            started,
            starting: None,
        })
    }

    /// Whether a class has been started.
    pub fn is_started(&self, class: ClassId) -> bool
        ensures { result ≡ is_started self.now class }
    {
        match self.started.get(class.0 as usize) {
            None => true,
            Some(is_started) => *is_started,
        }
    }

    /// From then on a class has been started.
    pub fn put_started(&mut self, class: ClassId)
        ensures { self.new ≡ with_started self.old class }
    {
        let at = class.0 as usize;
        if at < self.started.len() {
            self.started[at] = true;
        }
    }

    /// The class whose initializers run, of several the innermost.
    pub fn starting(&self) -> Option<ClassId>
        ensures { result ≡ self.now.starting }
    {
        self.starting
    }

    /// The initializers of that class run.
    pub fn put_starting(&mut self, class: Option<ClassId>)
        ensures { self.new ≡ record self.old { starting = class } }
    {
        self.starting = class;
    }
}

/// Classes whose initializers are still to run, the first of them on top.
#[derive(Drop)]
pub struct Path {
    classes: Vec<ClassId>,
}

impl Model for Path {
    ghost use Rattle.std.specs.Prelude.{List, reverse};
    ghost use Rattle.je_core.specs.declared.types.ClassId.{ClassId};

    ghost Value = { List ClassId };

    ghost view = { λ p. reverse p.classes.items };
}

impl Path {
    /// No classes.
    pub fn new(alloc: Global) -> Path
        ensures { result ≡ [] }
    {
        Path {
            classes: Vec::new(alloc),
        }
    }

    /// Puts a class before the others.
    pub fn push(&mut self, class: ClassId) -> Result<(), Memory>
        ensures ok { OnOk result (self.new ≡ class ∷ self.old) }
        ensures err { OnErr result (self.new ≡ self.old) }
    {
        self.classes.push(class)?;
        Ok(())
    }

    /// Takes the first class.
    pub fn pop(&mut self) -> Option<ClassId>
        ensures { MatchOption result ((self.old ≡ []) × (self.new ≡ []))
            (λ class. self.old ≡ class ∷ self.new) }
    {
        self.classes.pop()
    }
}
