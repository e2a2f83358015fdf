// All classes.

use declarations::ClassDecl;
use je_core::ClassId;

/// What all classes declare.
#[derive(Clone, Copy)]
pub struct AllClasses<'a> {
    /// What the library's classes declare.
    pub library: &'a [ClassDecl],
    /// What the classes of a program declare, by number. Those of the library come first there too, and aren't
    /// looked at.
    pub program: &'a [ClassDecl],
}

impl<'a> AllClasses<'a> {
    ghost use Rattle.std.specs.Prelude.{◌≡◌, length, map, option_map, slice_get};
    ghost use Rattle.declarations.specs.View.{class_shown};
    ghost use Rattle.class_heads.specs.View.{classes_of};

    /// How many classes there are.
    #[tactic(auto, using(crate::proofs::Behind::count_library, crate::proofs::Behind::count_all), unfolding(crate::specs::View::classes_of))]
    pub fn len(&self) -> usize
        ensures { result ≡ length (classes_of self.now) }
    {
        self.library.len().max(self.program.len())
    }

    /// What the class of a number declares.
    #[tactic(auto, using(crate::proofs::Behind::in_library), unfolding(crate::specs::View::classes_of))]
    pub fn class(&self, class: ClassId) -> Option<&'a ClassDecl>
        ensures { option_map (λ d. class_shown d.now) result ≡
            slice_get (classes_of self.now) class.0 }
    {
        let at = class.0 as usize;
        if at < self.library.len() {
            self.library.get(at)
        } else {
            self.behind_library(at)
        }
    }

    fn behind_library(&self, at: usize) -> Option<&'a ClassDecl>
        ensures { option_map (λ d. class_shown d.now) result ≡
            slice_get (map class_shown self.now.program.now) at }
    {
        self.program.get(at)
    }
}
