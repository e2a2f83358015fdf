// The headers of classes.

ghost use Rattle.std.specs.Prelude.{◌≡◌, ◌<◌, ◌^◌, map};
ghost use Rattle.source_types.specs.Heads.{variable_count as the_variable_count};
ghost use Rattle.source_subtypes.specs.HeadView.{head_shown};

use je_core::{ClassId, Kind};
use name_types::SrcTy;

/// What types see of a class (JLS 8.1.2, 8.1.4, 8.1.5, 9.1.2, 9.1.3).
#[derive(Drop)]
pub struct ClassHead {
    pub kind: Kind,
    /// The bounds of its type parameters, Object where none is written.
    pub bounds: Vec<SrcTy>,
    /// The types directly above it, of a class its superclass first; Object where it names none.
    pub supers: Vec<SrcTy>,
}

/// The headers of all classes, by number.
#[derive(Drop)]
pub struct ClassHeads {
    pub(crate) heads: Vec<ClassHead>,
    pub(crate) variables: u128,
    ghost counted: { variables ≡ the_variable_count (map head_shown heads.items) },
    ghost few: { variables < 2 ^ 127 },
}

impl ClassHeads {
    ghost use Rattle.std.specs.Prelude.{◌≡◌, length, map, option_map, slice_get};
    ghost use Rattle.name_types.specs.View.{shown};
    ghost use Rattle.source_types.specs.Heads.{bounds_in, head_at, supers_of, variable_count as the_variable_count};
    ghost use Rattle.source_types.specs.Supertypes.{most_steps as the_most_steps};
    ghost use Rattle.source_subtypes.specs.HeadView.{head_shown};
    ghost use Rattle.source_subtypes.specs.View.{heads_of};

    /// These headers.
    #[tactic(auto, unfolding(crate::specs::View::heads_of))]
    pub fn new(heads: Vec<ClassHead>) -> ClassHeads
        ensures { heads_of result ≡ map head_shown heads.items }
    {
        let variables = variables_in(&heads);
        ClassHeads { heads, variables }
    }

    /// How many classes there are.
    #[tactic(auto, unfolding(crate::specs::View::heads_of))]
    pub fn len(&self) -> usize
        ensures { result ≡ length (heads_of self.now) }
    {
        self.heads.len()
    }

    /// The header of the class of a number.
    #[tactic(auto, unfolding(crate::specs::View::heads_of))]
    pub fn class(&self, class: ClassId) -> Option<&ClassHead>
        ensures { option_map (λ h. head_shown h.now) result ≡ head_at (heads_of self.now) class.0 }
    {
        self.heads.get(class.0 as usize)
    }

    /// The types directly above a class, as its header has them.
    pub fn supers(&self, class: ClassId) -> &[SrcTy]
        ensures { map shown result.now ≡ supers_of (heads_of self.now) class.0 }
    {
        match self.class(class) {
            Some(head) => &head.supers,
            None => &[],
        }
    }

    // The bounds of a class's type parameters.
    fn bounds(&self, class: ClassId) -> &[SrcTy]
        ensures { map shown result.now ≡ bounds_in (head_at (heads_of self.now) class.0) }
    {
        match self.class(class) {
            Some(head) => &head.bounds,
            None => &[],
        }
    }

    /// The bound of the type parameter at a place of a class.
    pub fn bound(&self, class: ClassId, at: usize) -> Option<&SrcTy>
        ensures { option_map (λ t. shown t.now) result ≡
            slice_get (bounds_in (head_at (heads_of self.now) class.0)) at }
    {
        self.bounds(class).get(at)
    }

    /// How many type variables there are.
    #[tactic(auto, unfolding(crate::specs::View::heads_of))]
    pub fn variable_count(&self) -> u128
        ensures { result ≡ the_variable_count (heads_of self.now) }
    {
        self.variables
    }

    /// How many steps a way upwards has at most.
    #[tactic(auto, unfolding(crate::specs::View::heads_of))]
    pub fn most_steps(&self) -> u128
        ensures { result ≡ the_most_steps (heads_of self.now) }
    {
        self.heads.len() as u128 + self.variables
    }
}

// How many type variables classes have, in all.
fn variables_in(heads: &[ClassHead]) -> u128
    ensures count { result ≡ the_variable_count (map head_shown heads.now) }
    ensures few { result < 2 ^ 127 }
{
    let mut count = 0;
    for head in heads {
        count += head.bounds.len() as u128;
    }
    count
}
