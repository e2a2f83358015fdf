// Headers and signatures, and the first walk.

ghost use Rattle.std.specs.Prelude.{◌≡◌, IfErr, IfOk, OnOk, map};
ghost use Rattle.name_sites.specs.View.{source_of};
ghost use Rattle.body_places.specs.Tables.{constant_at};
ghost use Rattle.class_heads.specs.View.{behind, classes_of};
ghost use Rattle.class_typing.specs.Elaboration.{constants_first, first_bodies as the_first_bodies, first_world};
ghost use Rattle.class_typing.specs.Elaboration.{is_constant, nothing_captured};
ghost use Rattle.type_decl.specs.way.Seen.{ArePlaced, IsFirst, bodies_met_seen};
ghost use Rattle.declarations.specs.View.{class_shown};
ghost use Rattle.je_core.specs.View.{class_view};
ghost use Rattle.je_typing.specs.Answers.{IsFault};
ghost use Rattle.je_typing.specs.Judged.{gives};
ghost use Rattle.program_tables.specs.Known.{captured_seen};
ghost use Rattle.library_classes.specs.Library.{all_due};
ghost use Rattle.library_classes.specs.Numbers.{number_in};
ghost use Rattle.member_forms.specs.Bodies.{met_seen};
ghost use Rattle.call_steps.specs.TableView.{HasMethods};
ghost use Rattle.signature_steps.specs.View.{is_among};
ghost use Rattle.source_subtypes.specs.View.{heads_of};
ghost use Rattle.type_faults.specs.Program.{source_in};
ghost use Rattle.type_decl.specs.way.Grounds.{IsGround};
ghost use Rattle.type_decl.specs.way.Halves.{AreClasses, AreFieldsOf, ArePlaces, AreWithHidden, begun};
ghost use Rattle.type_decl.specs.way.Halves.{captured_behind, judged_first};

use crate::ground::{Fields, Ground, fields_in, hierarchy_of, method_table};
use crate::meeting_walk::first_bodies;
use crate::told::{FirstWalk, all_rounds, constants_before};
use crate::walk::{BodiesMet, Walk};
use body_places::{Captured, Constant};
use call_steps::{Calls, MethodTable};
use class_heads::AllClasses;
use class_places::captured_locals;
use declarations::ClassDecl;
use je_base::Memory;
use je_core::Class;
use je_typing::Refusal;
use member_forms::Bodies;
use name_sites::Sites;
use program_tables::{
    CapturedLocal, Known, Layout, add_hidden_fields, captured_fields, constant_names,
    plain_program, remove_hidden_fields,
};
use signature_steps::{ConstantField, Setting, judge_signatures};
use written_types::Surroundings;

/// What the first walk comes to: what was met, the constants that are told behind it, and the locals that each class
/// captures.
#[derive(Drop)]
pub struct First<'a> {
    pub bodies: BodiesMet<'a>,
    pub captured: Vec<Vec<CapturedLocal>>,
}

// The constants as far as they are told without bodies, and the fields that are, by name.
#[derive(Drop)]
struct Begun {
    constants: Vec<Vec<Option<Constant>>>,
    named: Vec<ConstantField>,
}

// What the first walk goes by.
fn first_walk<'a>(
    ground: Ground<'a>,
    classes: AllClasses<'a>,
    methods: &'a MethodTable<'a>,
    places: &'a [Vec<Captured>],
    fields: &'a Fields<'a>,
) -> Result<FirstWalk<'a>, Memory>
    requires ground { IsGround (source_in ground.source) ground }
    requires classes { AreWithHidden (source_in ground.source) (nothing_captured (source_in
        ground.source)) (classes_of classes) }
    requires methods { HasMethods (heads_of ground.heads.now) (classes_of classes) methods.now }
    requires places { ArePlaces (source_in ground.source) (nothing_captured (source_in
        ground.source)) places.now }
    requires fields { AreFieldsOf (source_in ground.source) (nothing_captured (source_in
        ground.source)) fields.now }
    ensures { IfOk result (IsFirst (source_in ground.entry.source)) }
{
    let layout = Layout {
        source: ground.source,
        names: ground.names,
        heads: ground.heads,
        captured: &[],
    };
    let program = plain_program(layout, classes, places)?;
    let bodies = Bodies {
        calls: Calls { program, methods },
        known: Known {
            captured: &[],
            round: &[],
            blank: &fields.blank,
        },
        spots: ground.spots,
    };
    let walk = Walk {
        bodies,
        names: ground.names,
        hidden: &fields.hidden,
    };
    Ok(FirstWalk {
        walk,
        values: &fields.values,
    })
}

// The constants before bodies are walked.
#[tactic(auto, unfolding(class_heads::specs::View::classes_of))]
fn begin(
    ground: Ground,
    sites: &Sites,
    declared: &[ClassDecl],
    fields: &Fields,
    core: &[Class],
) -> Result<Begun, Memory>
    requires ground { IsGround (source_in ground.source) ground }
    requires sites { source_of sites.now ≡ source_in ground.source }
    requires classes { AreWithHidden (source_in ground.source) (nothing_captured (source_in
        ground.source)) (behind (map class_shown ground.library.now) (map class_shown declared.now)) }
    requires fields { AreFieldsOf (source_in ground.source) (nothing_captured (source_in
        ground.source)) fields.now }
    requires core { map class_view core.now ≡ all_due (number_in (source_in ground.source).texts) }
    ensures constants { IfOk result (λ b. constant_at b.constants.items ≡ constants_first (source_in
        ground.entry.source)) }
    ensures named { IfOk result (λ b. is_among b.named.items ≡ is_constant (source_in
        ground.entry.source) (first_world (source_in ground.entry.source) (constants_first
        (source_in ground.entry.source))).program) }
{
    let classes = AllClasses {
        library: ground.library,
        program: declared,
    };
    let methods = method_table(ground, classes)?;
    let layout = Layout {
        source: ground.source,
        names: ground.names,
        heads: ground.heads,
        captured: &[],
    };
    let places = captured_fields(layout)?;
    let first = first_walk(ground, classes, &methods, &places, fields)?;
    let constants = constants_before(&first, sites, core)?;
    let named = constant_names(ground.source.alloc, classes, &constants)?;
    Ok(Begun { constants, named })
}

// Headers and signatures of all classes.
#[tactic(auto, using(je_typing::proofs::Walks::walks), unfolding(class_heads::specs::View::classes_of))]
fn judge(ground: &Ground, declared: &[ClassDecl], named: &[ConstantField]) -> Result<(), Refusal>
    requires ground { IsGround (source_in ground.now.source) ground.now }
    requires classes { AreClasses (source_in ground.now.source) (behind (map class_shown
        ground.now.library.now) (map class_shown declared.now)) }
    requires named { is_among named.now ≡ is_constant (source_in ground.now.source) (first_world
        (source_in ground.now.source) (constants_first (source_in ground.now.source))).program }
    ensures ok { IfOk result (λ done. judged_first (source_in ground.now.source) ≡ gives done) }
    ensures err { IfErr result (IsFault (judged_first (source_in ground.now.source))) }
{
    let classes = AllClasses {
        library: ground.library,
        program: declared,
    };
    let hierarchy = hierarchy_of(*ground, classes)?;
    let setting = Setting {
        around: Surroundings {
            program: &ground.source,
            heads: ground.heads,
        },
        classes,
        constants: named,
    };
    judge_signatures(setting, &hierarchy)?;
    Ok(())
}

// The first walk, and what each class captures.
#[tactic(auto, using(je_typing::proofs::Walks::walks), unfolding(class_heads::specs::View::classes_of))]
fn walk<'a>(
    ground: &Ground,
    sites: &Sites<'a>,
    declared: &[ClassDecl],
    fields: &Fields,
    constants: Vec<Vec<Option<Constant>>>,
) -> Result<First<'a>, Refusal>
    requires ground { IsGround (source_in ground.now.source) ground.now }
    requires sites { source_of sites.now ≡ source_in ground.now.source }
    requires classes { AreWithHidden (source_in ground.now.source) (nothing_captured (source_in
        ground.now.source)) (behind (map class_shown ground.now.library.now) (map class_shown declared.now)) }
    requires fields { AreFieldsOf (source_in ground.now.source) (nothing_captured (source_in
        ground.now.source)) fields.now }
    requires constants { constant_at constants.items ≡ constants_first (source_in ground.now.source) }
    ensures ok { IfOk result (λ f. the_first_bodies (source_in ground.now.source) ≡ gives
        (bodies_met_seen f.bodies)) }
    ensures placed { IfOk result (λ f. ArePlaced (source_in ground.now.source).sites f.bodies.all) }
    ensures captured { IfOk result (λ f. captured_seen f.captured.items ≡ captured_behind (source_in
        ground.now.source) (map met_seen f.bodies.all.met.items)) }
    ensures err { IfErr result (IsFault (the_first_bodies (source_in ground.now.source))) }
{
    let alloc = ground.source.alloc;
    let classes = AllClasses {
        library: ground.library,
        program: declared,
    };
    let methods = method_table(*ground, classes)?;
    let layout = Layout {
        source: ground.source,
        names: ground.names,
        heads: ground.heads,
        captured: &[],
    };
    let places = captured_fields(layout)?;
    let first = first_walk(*ground, classes, &methods, &places, fields)?;
    let bodies = first_bodies(&first, sites, ground.library.len(), constants)?;
    let rounds = all_rounds(alloc, sites, &bodies.all)?;
    let captured = captured_locals(&first.walk.bodies.calls.program, &bodies.all.met, &rounds)?;
    Ok(First { bodies, captured })
}

/// Headers and signatures of all classes, and then the first walk over their bodies. The classes are left as they were.
#[tactic(auto, using(je_typing::proofs::Walks::walks))]
pub fn first_half<'a>(
    ground: &Ground,
    sites: &Sites<'a>,
    core: &[Class],
    declared: &mut [ClassDecl],
) -> Result<First<'a>, Refusal>
    requires ground { IsGround (source_in ground.now.source) ground.now }
    requires sites { source_of sites.now ≡ source_in ground.now.source }
    requires core { map class_view core.now ≡ all_due (number_in (source_in ground.now.source).texts) }
    requires classes { AreClasses (source_in ground.now.source) (behind (map class_shown
        ground.now.library.now) (map class_shown declared.old)) }
    ensures ok { IfOk result (λ f. begun (source_in ground.now.source) ≡ gives (bodies_met_seen
        f.bodies)) }
    ensures placed { IfOk result (λ f. ArePlaced (source_in ground.now.source).sites f.bodies.all) }
    ensures captured { IfOk result (λ f. captured_seen f.captured.items ≡ captured_behind (source_in
        ground.now.source) (map met_seen f.bodies.all.met.items)) }
    ensures same { OnOk result (map class_shown declared.new ≡ map class_shown declared.old) }
    ensures err { IfErr result (IsFault (begun (source_in ground.now.source))) }
{
    let layout = Layout {
        source: ground.source,
        names: ground.names,
        heads: ground.heads,
        captured: &[],
    };
    let fields = fields_in(layout, sites)?;
    add_hidden_fields(layout, declared)?;
    let Begun { constants, named } = begin(*ground, sites, declared, &fields, core)?;
    remove_hidden_fields(&fields.hidden, declared);
    judge(ground, declared, &named)?;
    add_hidden_fields(layout, declared)?;
    let first = walk(ground, sites, declared, &fields, constants)?;
    remove_hidden_fields(&fields.hidden, declared);
    Ok(first)
}
