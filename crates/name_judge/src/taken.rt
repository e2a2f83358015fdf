// The faults of a class's own name.

ghost use Rattle.std.specs.Prelude.{◌≡◌, ◌<◌, ℕ, Some, length, slice_get};
ghost use Rattle.std.specs.List.{list_any};
ghost use Rattle.std.specs.Str.{bytes_eq};
ghost use Rattle.je_base.specs.declared.span.NameId.{NameId};
ghost use Rattle.je_scopes.specs.BinaryNames.{binary_name};
ghost use Rattle.je_scopes.specs.Faults.{below, is_imported};
ghost use Rattle.name_sites.specs.View.{source_of};
ghost use Rattle.name_faults.specs.Met.{is_met};

use crate::imported::imported_names;
use crate::naming::{is_inner_of_generic, is_name_round, name_span};
use binary_names::repeated_names;
use je_ast::Unit;
use je_base::{Memory, NameId};
use je_core::ClassId;
use name_faults::{FaultKind, Faults, Met};
use name_sites::Sites;
use std::alloc::Global;

/// The names of a program's classes that are taken: of each class whether an earlier one has its binary name, and the simple
/// names that units import.
#[derive(Drop)]
pub struct TakenNames<'a> {
    pub sites: &'a Sites<'a>,
    repeated: Vec<bool>,
    imported: Met,
    ghost whole: { length repeated.items ≡ length (source_of sites.now).sites },
    ghost repeats: { (c : ℕ) → c < length (source_of sites.now).sites → slice_get repeated.items c ≡
        Some (list_any (λ d. bytes_eq (binary_name (source_of sites.now) d)
        (binary_name (source_of sites.now) c)) (below c)) },
    ghost imports: { (x : NameId) → is_met imported x ≡
        is_imported (source_of sites.now) (Some x) },
}

impl<'a> TakenNames<'a> {
    ghost use Rattle.std.specs.Prelude.{◌≡◌, ◌<◌, IfOk, length, map};
    ghost use Rattle.std.specs.List.{list_any};
    ghost use Rattle.std.specs.Str.{bytes_eq};
    ghost use Rattle.je_ast.specs.View.{unit_view};
    ghost use Rattle.je_scopes.specs.BinaryNames.{binary_name};
    ghost use Rattle.je_scopes.specs.Source.{imports_of};
    ghost use Rattle.je_scopes.specs.Faults.{below, is_imported, of_class_name};
    ghost use Rattle.name_sites.specs.View.{source_of};
    ghost use Rattle.name_faults.specs.View.{Adds};

    /// Those of a program, which has these units.
    pub fn of(alloc: Global, sites: &'a Sites<'a>, units: &[Unit]) -> Result<TakenNames<'a>, Memory>
        requires { (source_of sites.now).imports ≡ map imports_of (map unit_view units.now) }
        ensures { IfOk result (λ taken. source_of taken.sites.now ≡ source_of sites.now) }
    {
        let repeated = repeated_names(alloc, sites)?;
        let imported = imported_names(alloc, sites, units)?;
        Ok(TakenNames {
            sites,
            repeated,
            imported,
        })
    }

    /// Finds the faults of a class's own name: an earlier class has its binary name; it stands at the top and some unit
    /// imports its name; a class round it has its name; or it is a member class of a generic class and not static
    /// (JLS 7.6, 8.1, 8.5, 13.1).
    pub fn judge_class_name(&self, class: ClassId, faults: &mut Faults)
        requires { class.0 < length (source_of self.now.sites.now).sites }
        ensures { Adds faults.old faults.new
            (of_class_name (source_of self.now.sites.now) class.0) }
    {
        let span = name_span(self.sites.written(class));
        faults.add_where(self.is_repeated(class), FaultKind::Twice, span);
        faults.add_where(self.is_import_at_top(class), FaultKind::Twice, span);
        faults.add_where(is_name_round(self.sites, class), FaultKind::Twice, span);
        faults.add_where(
            is_inner_of_generic(self.sites, class),
            FaultKind::OutOfProfile,
            span,
        );
    }

    // Whether an earlier class has its binary name.
    fn is_repeated(&self, class: ClassId) -> bool
        requires { class.0 < length (source_of self.now.sites.now).sites }
        ensures { let p = source_of self.now.sites.now in
            result ≡ list_any (λ d. bytes_eq (binary_name p d) (binary_name p class.0))
            (below class.0) }
    {
        self.repeated[class.0 as usize]
    }

    ghost use Rattle.std.specs.Prelude.{◌&&◌};
    ghost use Rattle.je_scopes.specs.Headers.{name_in, site_at, within};
    ghost use Rattle.je_scopes.specs.Faults.{is_top};

    // Whether it stands at the top, and some unit imports a class of its name.
    fn is_import_at_top(&self, class: ClassId) -> bool
        ensures { let site = site_at (source_of self.now.sites.now).sites class.0 in
            result ≡ (is_top (within site)
            && is_imported (source_of self.now.sites.now) (name_in site.written)) }
    {
        self.sites.outside(class).within.is_none() && self.is_imported(self.sites.name(class))
    }

    ghost use Rattle.std.specs.Prelude.{Option};

    // Whether some unit imports a class of a name.
    fn is_imported(&self, name: Option<NameId>) -> bool
        ensures { result ≡ is_imported (source_of self.now.sites.now) name }
    {
        match name {
            Some(name) => self.imported.has(name),
            None => false,
        }
    }
}
