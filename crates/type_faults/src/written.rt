// The faults of names and types as they are written.

ghost use Rattle.std.specs.Prelude.{◌≡◌, OnOk};
ghost use Rattle.je_ast.specs.Types.{name_view, type_view, type_node_view, type_views_of, type_view_of_option};
ghost use Rattle.je_scopes.specs.Faults.{by_meaning, of_name, of_type, of_types, of_optional_type};
ghost use Rattle.name_lookup.specs.View.{look_view, part_view};
ghost use Rattle.type_faults.specs.Program.{source_in};
ghost use Rattle.name_faults.specs.View.{Adds};

use crate::program::Program;
use je_ast::{Name, TyName};
use je_base::{Memory, Span};
use name_faults::{FaultKind, Faults};
use name_lookup::{Look, Place, are_accessible};
use name_types::arity;

impl Program<'_> {
    /// Finds the faults of a name at a place, behind which so many type arguments stand: it means nothing, or no one thing; it
    /// names a class that isn't accessible there; or the class takes another number of arguments (JLS 4.5, 4.8, 6.5.5, 6.6.1).
    pub fn judge_name(
        &self,
        place: Place,
        name: &Name,
        arguments: usize,
        faults: &mut Faults,
    ) -> Result<(), Memory>
        ensures { OnOk result (Adds faults.old faults.new
            (of_name (source_in self.now) place.class.0 (part_view place.part)
            (name_view name.now) arguments)) }
    {
        let parts = name.parts.as_slice();
        let meant = self.headers.meaning(self.alloc, self.sites, place, parts)?;
        let accessible = are_accessible(self.sites, place.class, meant.named.as_slice());
        faults.add_where(!accessible, FaultKind::NotAccessible, name.span);
        self.judge_meaning(meant.look, arguments, name.span, faults);
        Ok(())
    }

    // Finds the fault of a name that means this.
    fn judge_meaning(&self, look: Look, arguments: usize, span: Span, faults: &mut Faults)
        ensures { Adds faults.old faults.new
            (by_meaning (source_in self.now) (look_view look) arguments span) }
    {
        match look {
            Look::Class(class) => {
                let wanted = arity(self.sites, class);
                faults.add_where(arguments != wanted, FaultKind::OutOfProfile, span);
            }
            Look::Variable(_, _) => {
                faults.add_where(arguments != 0, FaultKind::OutOfProfile, span);
            }
            Look::Waits(_) | Look::Nothing | Look::Unclear => {
                faults.add_where(true, FaultKind::Unknown, span);
            }
        }
    }

    /// Finds the faults of a type at a place, and of its arguments.
    #[cycle(types)]
    #[tactic(auto, using(je_ast::proofs::Views::type_is))]
    pub fn judge_type(&self, place: Place, ty: &TyName, faults: &mut Faults) -> Result<(), Memory>
        ensures { OnOk result (Adds faults.old faults.new
            (of_type (source_in self.now) place.class.0 (part_view place.part)
            (type_view ty.now))) }
    {
        self.judge_type_here(place, ty, faults)
    }

    #[cycle(types)]
    fn judge_type_here(&self, place: Place, ty: &TyName, faults: &mut Faults) -> Result<(), Memory>
        ensures { OnOk result (Adds faults.old faults.new
            (of_type (source_in self.now) place.class.0 (part_view place.part)
            (type_node_view ty.now))) }
    {
        match ty {
            TyName::Primitive { .. } => Ok(()),
            TyName::Class { name, args, .. } => {
                self.judge_name(place, name, args.len(), faults)?;
                self.judge_types(place, args, faults)
            }
        }
    }

    #[cycle(types)]
    fn judge_types(&self, place: Place, types: &[TyName], faults: &mut Faults) -> Result<(), Memory>
        ensures { OnOk result (Adds faults.old faults.new
            (of_types (source_in self.now) place.class.0 (part_view place.part)
            (type_views_of types.now))) }
    {
        for ty in types {
            self.judge_type(place, ty, faults)?;
        }
        Ok(())
    }

    /// Finds the faults of a type that may be left out.
    pub fn judge_optional_type(
        &self,
        place: Place,
        ty: &Option<TyName>,
        faults: &mut Faults,
    ) -> Result<(), Memory>
        ensures { OnOk result (Adds faults.old faults.new
            (of_optional_type (source_in self.now) place.class.0 (part_view place.part)
            (type_view_of_option ty.now))) }
    {
        match ty {
            Some(ty) => self.judge_type(place, ty, faults),
            None => Ok(()),
        }
    }
}
