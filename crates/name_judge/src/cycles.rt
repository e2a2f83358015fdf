// Which names in headers lead back to their class (JLS 8.1.4, 9.1.3).

ghost use Rattle.std.specs.Prelude.{◌≡◌, ◌||◌, ℕ, IfOk, false, nat_eq};
ghost use Rattle.std.specs.List.{Contains, list_any};
ghost use Rattle.je_scopes.specs.Source.{Source};
ghost use Rattle.je_scopes.specs.Laws.{HasLibrary};
ghost use Rattle.je_scopes.specs.Settled as specs;
ghost use Rattle.name_lookup.specs.View.{numbers};
ghost use Rattle.type_faults.specs.Program.{source_in};
ghost use Rattle.name_judge.specs.Cycles.{AreCyclesOf};

use je_base::Memory;
use je_core::ClassId;
use name_cycles::{Dependences, depends, on_cycles, read_dependences};
use type_faults::Program;

/// Of each class on which classes it depends, and whether it is among them.
#[derive(Drop)]
pub struct Cycles {
    pub(crate) graph: Dependences,
    pub(crate) on_cycle: Vec<bool>,
}

impl Cycles {
    /// Those of a program.
    pub fn of(program: &Program) -> Result<Cycles, Memory>
        requires { HasLibrary (source_in program.now) }
        ensures { IfOk result (AreCyclesOf (source_in program.now)) }
    {
        let graph = read_dependences(program.alloc, program.sites, program.headers)?;
        let on_cycle = on_cycles(program.alloc, program.sites, &graph)?;
        Ok(Cycles { graph, on_cycle })
    }

    /// Whether one of the classes that the header of a class names is that class, or depends on it.
    pub(crate) fn lead_back(
        &self,
        program: &Program,
        class: ClassId,
        named: &[ClassId],
    ) -> Result<bool, Memory>
        requires library { HasLibrary (source_in program.now) }
        requires cycles { AreCyclesOf (source_in program.now) self.now }
        requires named { (d : ℕ) → Contains (numbers named.now) d →
            Contains (specs.dependences (source_in program.now) class.0) d }
        ensures { IfOk result (λ back. back ≡
            list_any (λ d. nat_eq d class.0 || specs.depends (source_in program.now) d class.0)
            (numbers named.now)) }
    {
        for other in named {
            if self.leads_back(program, class, *other)? {
                return Ok(true);
            }
        }
        Ok(false)
    }

    // The same of one. None leads back to a class that doesn't depend on itself.
    fn leads_back(&self, program: &Program, class: ClassId, named: ClassId) -> Result<bool, Memory>
        requires library { HasLibrary (source_in program.now) }
        requires cycles { AreCyclesOf (source_in program.now) self.now }
        requires named { Contains (specs.dependences (source_in program.now) class.0) named.0 }
        ensures { IfOk result (λ back. back ≡
            (nat_eq named.0 class.0 || specs.depends (source_in program.now) named.0 class.0)) }
    {
        if named.0 == class.0 {
            return Ok(true);
        }
        if !self.may_depend_on_itself(class) {
            return Ok(false);
        }
        depends(program.alloc, program.sites, &self.graph, named, class)
    }

    // Whether a class depends on itself, for those of the program.
    fn may_depend_on_itself(&self, class: ClassId) -> bool
        ensures { (p : Source) → AreCyclesOf p self.now → result ≡ false →
            specs.depends p class.0 class.0 ≡ false }
    {
        let at = class.0 as usize;
        at >= self.on_cycle.len() || self.on_cycle[at]
    }
}
