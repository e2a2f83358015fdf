// The core program of all units.

ghost use Rattle.std.specs.Prelude.{◌≡◌, ◌<◌, ◌^◌, IfErr, IfOk, length, map};
ghost use Rattle.class_heads.specs.Headers.{class_heads as the_class_heads};
ghost use Rattle.class_heads.specs.View.{behind};
ghost use Rattle.class_typing.specs.Elaboration.{core_program, elaborated};
ghost use Rattle.class_typing.specs.Programs.{number as the_number};
ghost use Rattle.declarations.specs.View.{class_shown};
ghost use Rattle.je_ast.specs.View.{unit_view};
ghost use Rattle.je_core.specs.View.{class_view, program_view};
ghost use Rattle.je_names.specs.Scopes.{AreScopesOf, declared_classes};
ghost use Rattle.je_scopes.specs.Settled.{settled};
ghost use Rattle.je_scopes.specs.Source.{Source as TheSource, source as the_source};
ghost use Rattle.je_typing.specs.Answers.{IsFault};
ghost use Rattle.je_typing.specs.Judged.{gives};
ghost use Rattle.library_classes.specs.Library.{all_due};
ghost use Rattle.library_classes.specs.Numbers.{number_in};
ghost use Rattle.name_lookup.specs.Table.{AreHeadersOf};
ghost use Rattle.name_lookup.specs.View.{known_of};
ghost use Rattle.name_sites.specs.View.{source_of};
ghost use Rattle.program_tables.specs.Library.{IsLibraryFirst};
ghost use Rattle.source_subtypes.specs.View.{heads_of};
ghost use Rattle.type_faults.specs.Program.{source_in};
ghost use Rattle.type_decl.specs.way.Grounds.{IsGround};
ghost use Rattle.type_decl.specs.way.Halves.{AreClasses, code};

use crate::first::first_half;
use crate::ground::Ground;
use crate::whole::second_half;
use class_heads::{AllClasses, class_heads};
use class_spots::spots;
use declarations::ClassDecl;
use je_ast::Unit;
use je_base::{Memory, Names};
use je_core::{Class, Program};
use je_names::Scopes;
use je_typing::Refusal;
use library_classes::library_classes;
use library_declarations::library_declarations;
use name_lookup::Headers;
use name_sites::Sites;
use program_tables::{add_enum_methods, library_comes_first, texts};
use source_subtypes::ClassHeads;
use std::alloc::Global;
use type_faults::Program as Source;

// The headers of all classes.
#[tactic(auto, unfolding(class_heads::specs::View::classes_of))]
fn heads_in(
    alloc: Global,
    library: &[ClassDecl],
    declared: &[ClassDecl],
) -> Result<ClassHeads, Memory>
    ensures { IfOk result (λ heads. heads_of heads ≡
        the_class_heads (behind (map class_shown library.now) (map class_shown declared.now))) }
{
    let all = AllClasses {
        library,
        program: declared,
    };
    if all.len() > 4_294_967_295 {
        return Err(Memory);
    }
    class_heads(alloc, all)
}

// The core program of these classes behind the library's.
#[tactic(auto, unfolding(je_core::specs::View::program_view))]
fn whole_program(
    alloc: Global,
    mut library: Vec<Class>,
    mut guests: Vec<Class>,
) -> Result<Program, Memory>
    ensures { IfOk result (λ p. (source : TheSource) →
        map class_view library.items ≡ all_due (the_number source) →
        program_view p ≡ core_program source (map class_view guests.items)) }
{
    let texts = texts(alloc, &guests)?;
    library.append(&mut guests)?;
    Ok(Program {
        classes: library,
        texts,
    })
}

// The classes of the core program that are written.
#[tactic(auto, using(je_typing::proofs::Walks::walks))]
fn guests(
    ground: &Ground,
    sites: &Sites,
    core: &[Class],
    declared: &mut [ClassDecl],
) -> Result<Vec<Class>, Refusal>
    requires ground { IsGround (source_in ground.now.source) ground.now }
    requires sites { source_of sites.now ≡ source_in ground.now.source }
    requires core { map class_view core.now ≡ all_due (number_in (source_in ground.now.source).texts) }
    requires classes { AreClasses (source_in ground.now.source)
        (behind (map class_shown ground.now.library.now) (map class_shown declared.old)) }
    ensures ok { IfOk result (λ ks. code (source_in ground.now.source) ≡
        gives (map class_view ks.items)) }
    ensures err { IfErr result (IsFault (code (source_in ground.now.source))) }
{
    let first = first_half(ground, sites, core, declared)?;
    let classes = second_half(ground, sites, first, declared)?;
    Ok(classes)
}

// The core program of what these classes declare.
#[tactic(auto, using(je_typing::proofs::Walks::walks))]
fn elaborate(
    alloc: Global,
    names: &Names,
    sites: &Sites,
    headers: &Headers,
    declared: &mut [ClassDecl],
) -> Result<Program, Refusal>
    requires fits { AreHeadersOf (source_of sites.now) headers.now }
    requires settled { settled (source_of sites.now) ≡ known_of headers.now }
    requires first { IsLibraryFirst (source_of sites.now) }
    requires names { names.now ≡ (source_of sites.now).texts }
    requires classes { map class_shown declared.old ≡ declared_classes (source_of sites.now) }
    ensures ok { IfOk result (λ p. elaborated (source_of sites.now) ≡ gives (program_view p)) }
    ensures err { IfErr result (IsFault (elaborated (source_of sites.now))) }
{
    let library = library_declarations(alloc, names)?;
    add_enum_methods(alloc, names, library.len(), declared)?;
    let heads = heads_in(alloc, &library, declared)?;
    let spots = spots(alloc, sites)?;
    let core = library_classes(alloc, names)?;
    let ground = Ground {
        source: Source::new(alloc, sites, headers),
        names,
        heads: &heads,
        library: &library,
        spots: &spots,
    };
    let guests = guests(&ground, sites, &core, declared)?;
    let program = whole_program(alloc, core, guests)?;
    Ok(program)
}

/// The core program of units, of which these are the scopes, or the first fault of a type in reading order (JLS 8, 9).
#[tactic(auto, using(je_typing::proofs::Walks::walks))]
pub fn elab(
    alloc: Global,
    names: &Names,
    units: &[Unit],
    scopes: Scopes,
) -> Result<Program, Refusal>
    requires { AreScopesOf (the_source names.now (map unit_view units.now)) scopes }
    ensures ok { IfOk result (λ p. elaborated (the_source names.now (map unit_view units.now)) ≡
        gives (program_view p)) }
    ensures err { IfErr result (IsFault (elaborated (the_source names.now
        (map unit_view units.now)))) }
{
    library_comes_first();
    let Scopes {
        sites,
        headers,
        classes: mut declared,
    } = scopes;
    let program = elaborate(alloc, names, &sites, &headers, &mut declared)?;
    Ok(program)
}
