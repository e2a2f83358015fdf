// The second walk, for code.

ghost use Rattle.std.specs.Prelude.{◌≡◌, IfErr, IfOk, length, map};
ghost use Rattle.name_sites.specs.View.{source_of};
ghost use Rattle.body_places.specs.Tables.{constant_at};
ghost use Rattle.member_forms.specs.Bodies.{HasAllMethods, met_seen, program_in};
ghost use Rattle.class_heads.specs.View.{behind, classes_of};
ghost use Rattle.class_typing.specs.ConstantFields.{constants_shifted};
ghost use Rattle.class_typing.specs.Elaboration.{BodiesMet as TheBodiesMet, captured_count};
ghost use Rattle.class_typing.specs.Places.{round_met as the_round_met};
ghost use Rattle.class_typing.specs.Programs.{plain_program as the_plain_program};
ghost use Rattle.type_decl.specs.way.Seen.{ArePlaced, bodies_met_seen};
ghost use Rattle.declarations.specs.View.{class_shown};
ghost use Rattle.field_values.specs.Values.{count_at};
ghost use Rattle.je_core.specs.View.{class_view};
ghost use Rattle.je_typing.specs.Answers.{IsFault};
ghost use Rattle.je_typing.specs.Judged.{gives};
ghost use Rattle.program_tables.specs.Known.{captured_seen, round_seen};
ghost use Rattle.call_steps.specs.TableView.{HasMethods};
ghost use Rattle.source_subtypes.specs.View.{heads_of};
ghost use Rattle.type_faults.specs.Program.{source_in};
ghost use Rattle.type_decl.specs.way.Grounds.{IsGround};
ghost use Rattle.type_decl.specs.way.Halves.{AreClasses, AreFieldsOf, ArePlaces, AreWithHidden, code_with};

use crate::code_walk::{WholeWalk, core_classes};
use crate::first::First;
use crate::ground::{Fields, Ground, fields_in, hierarchy_of, method_table};
use crate::meeting_walk::program_with;
use crate::told::all_rounds;
use crate::walk::{AllMet, BodiesMet, Walk};
use binary_names::numbers;
use body_places::{Captured, Constant, Frame};
use call_steps::{Calls, MethodTable};
use class_heads::AllClasses;
use declarations::ClassDecl;
use field_values::shifted;
use je_base::Memory;
use je_core::Class;
use je_typing::Refusal;
use member_forms::Bodies;
use name_sites::Sites;
use program_tables::{
    CapturedLocal, Known, Layout, add_hidden_fields, captured_fields, plain_program,
};
use std::alloc::Global;

/// What is known behind the first walk, by class: the locals that are captured, the bodies round each class, the
/// constants, and what is written of fields.
#[derive(Clone, Copy)]
pub struct Told<'a> {
    pub captured: &'a [Vec<CapturedLocal>],
    pub rounds: &'a [Vec<Frame>],
    pub constants: &'a [Vec<Option<Constant>>],
    pub fields: &'a Fields<'a>,
}

// How many locals each class captures.
fn captured_counts(alloc: Global, captured: &[Vec<CapturedLocal>]) -> Result<Vec<usize>, Memory>
    ensures { IfOk result (λ counts. count_at counts.items ≡
        (λ c. length (captured_seen captured.now c))) }
{
    let mut counts = Vec::new(alloc);
    for locals in captured {
        counts.push(locals.len())?;
    }
    Ok(counts)
}

// What the second walk goes by.
fn whole_walk<'a>(
    ground: Ground<'a>,
    classes: AllClasses<'a>,
    methods: &'a MethodTable<'a>,
    places: &'a [Vec<Captured>],
    told: Told<'a>,
) -> Result<Walk<'a>, Memory>
    requires ground { IsGround (source_in ground.source) ground }
    requires classes { AreWithHidden (source_in ground.source) (captured_seen told.captured.now)
        (classes_of classes) }
    requires methods { HasMethods (heads_of ground.heads.now) (classes_of classes) methods.now }
    requires places { ArePlaces (source_in ground.source) (captured_seen told.captured.now)
        places.now }
    ensures program { IfOk result (λ w. program_in w.bodies ≡ record (the_plain_program (source_in
        ground.entry.source) (captured_seen told.entry.captured.now)) {
          constants = constant_at
              told.entry.constants.now;
        }) }
    ensures captured { IfOk result (λ w. w.bodies.known.captured.now ≡ told.entry.captured.now) }
    ensures round { IfOk result (λ w. w.bodies.known.round.now ≡ told.entry.rounds.now) }
    ensures blank { IfOk result (λ w. w.bodies.known.blank.now ≡ told.entry.fields.now.blank.items) }
    ensures methods { IfOk result (λ w. HasAllMethods w.bodies) }
    ensures hidden { IfOk result (λ w. w.hidden.now ≡ told.entry.fields.now.hidden.items) }
{
    let layout = Layout {
        source: ground.source,
        names: ground.names,
        heads: ground.heads,
        captured: told.captured,
    };
    let plain = plain_program(layout, classes, places)?;
    let program = program_with(plain, told.constants);
    let bodies = Bodies {
        calls: Calls { program, methods },
        known: Known {
            captured: told.captured,
            round: told.rounds,
            blank: &told.fields.blank,
        },
        spots: ground.spots,
    };
    Ok(Walk {
        bodies,
        names: ground.names,
        hidden: &told.fields.hidden,
    })
}

// The walk itself.
#[tactic(auto, using(je_typing::proofs::Walks::walks), unfolding(class_heads::specs::View::classes_of))]
fn walk_again(
    ground: Ground,
    sites: &Sites,
    all: &AllMet,
    told: Told,
    declared: &[ClassDecl],
) -> Result<Vec<Class>, Refusal>
    requires ground { IsGround (source_in ground.source) ground }
    requires sites { source_of sites.now ≡ source_in ground.source }
    requires classes { AreWithHidden (source_in ground.source) (captured_seen told.captured.now)
        (behind (map class_shown ground.library.now) (map class_shown declared.now)) }
    requires placed { ArePlaced (source_in ground.source).sites all.now }
    requires rounds { round_seen told.rounds.now ≡ the_round_met (source_in ground.source).sites
        (map met_seen all.now.met.items) }
    requires fields { AreFieldsOf (source_in ground.source) (captured_seen told.captured.now)
        told.fields.now }
    ensures ok { IfOk result (λ ks. (first : TheBodiesMet) → first.met ≡ map met_seen
        all.now.met.items → constants_shifted (captured_count (source_in ground.entry.source)
        (captured_seen told.entry.captured.now)) first.constants ≡ constant_at
        told.entry.constants.now → code_with (source_in ground.entry.source) (captured_seen
        told.entry.captured.now) first ≡ gives (map class_view ks.items)) }
    ensures err { (first : TheBodiesMet) → first.met ≡ map met_seen all.now.met.items →
        constants_shifted (captured_count (source_in ground.entry.source) (captured_seen
        told.entry.captured.now)) first.constants ≡ constant_at told.entry.constants.now → IfErr
        result (IsFault (code_with (source_in ground.entry.source) (captured_seen
        told.entry.captured.now) first)) }
{
    let classes = AllClasses {
        library: ground.library,
        program: declared,
    };
    let methods = method_table(ground, classes)?;
    let hierarchy = hierarchy_of(ground, classes)?;
    let numbers = numbers(ground.source.alloc, sites)?;
    let layout = Layout {
        source: ground.source,
        names: ground.names,
        heads: ground.heads,
        captured: told.captured,
    };
    let places = captured_fields(layout)?;
    let walk = whole_walk(ground, classes, &methods, &places, told)?;
    let whole = WholeWalk {
        walk,
        hierarchy: &hierarchy,
        numbers: &numbers,
    };
    let classes = core_classes(&whole, sites, all, ground.library.len())?;
    Ok(classes)
}

/// The classes of the core program that are written, behind the first walk.
#[tactic(auto, using(je_typing::proofs::Walks::walks))]
pub fn second_half(
    ground: &Ground,
    sites: &Sites,
    first: First,
    declared: &mut [ClassDecl],
) -> Result<Vec<Class>, Refusal>
    requires ground { IsGround (source_in ground.now.source) ground.now }
    requires sites { source_of sites.now ≡ source_in ground.now.source }
    requires classes { AreClasses (source_in ground.now.source) (behind (map class_shown
        ground.now.library.now) (map class_shown declared.old)) }
    requires placed { ArePlaced (source_in ground.now.source).sites first.bodies.all }
    ensures ok { IfOk result (λ ks. code_with (source_in ground.now.source) (captured_seen
        first.entry.captured.items) (bodies_met_seen first.entry.bodies) ≡ gives (map class_view
        ks.items)) }
    ensures err { IfErr result (IsFault (code_with (source_in ground.now.source) (captured_seen
        first.entry.captured.items) (bodies_met_seen first.entry.bodies))) }
{
    let First { bodies, captured } = first;
    let BodiesMet { all, constants } = bodies;
    let alloc = ground.source.alloc;
    let layout = Layout {
        source: ground.source,
        names: ground.names,
        heads: ground.heads,
        captured: &captured,
    };
    add_hidden_fields(layout, declared)?;
    let fields = fields_in(layout, sites)?;
    let rounds = all_rounds(alloc, sites, &all)?;
    let constants = shifted(&captured_counts(alloc, &captured)?, constants)?;
    let told = Told {
        captured: &captured,
        rounds: &rounds,
        constants: &constants,
        fields: &fields,
    };
    let classes = walk_again(*ground, sites, &all, told, declared)?;
    Ok(classes)
}
