// The constructors of a class.

ghost use Rattle.std.specs.Prelude.{◌≡◌, ◌++◌, ◌∷◌, IfOk, List, OnOk, map, slice_get, if◌then◌else◌};
ghost use Rattle.call_typing.specs.Constructors as words;
ghost use Rattle.call_typing.specs.Methods.{candidate_of};
ghost use Rattle.class_heads.specs.View.{classes_of};
ghost use Rattle.class_methods.specs.View.{arguments_seen};
ghost use Rattle.class_methods.specs.way.Parts.{put_arguments};
ghost use Rattle.declarations.specs.View.{method_shown};
ghost use Rattle.je_scopes.specs.Headers.{is_guest as the_is_guest, site_at};
ghost use Rattle.je_scopes.specs.SourceTypes.{of_class, plain};
ghost use Rattle.name_sites.specs.View.{source_of};
ghost use Rattle.name_types.specs.View.{all_shown, shown};
ghost use Rattle.overloads.specs.View.{candidate_seen};
ghost use Rattle.overriding.specs.Methods.{Method, own_method as the_own_method};

use crate::seeking::candidate;
use class_heads::AllClasses;
use class_methods::{own_method, unbounded};
use declarations::MethodDecl;
use je_base::Memory;
use je_core::{Access, Base, ClassId, Flags, Ty};
use name_sites::Sites;
use name_types::SrcTy;
use name_walk::Written;
use overloads::Candidate;
use source_subtypes::Arguments;
use std::alloc::Global;

// A constructor more, if it is one.
fn push_constructor(
    alloc: Global,
    candidates: &mut Vec<Candidate>,
    arguments: Arguments,
    place: usize,
    declared: &MethodDecl,
) -> Result<(), Memory>
    ensures { OnOk result ((rest : List Method) → map candidate_seen candidates.new.items
        ++ map candidate_of (map (put_arguments (arguments_seen arguments.entry)) rest) ≡
        map candidate_seen candidates.old.items
        ++ map candidate_of (map (put_arguments (arguments_seen arguments.entry))
        (if declared.now.is_constructor
        then the_own_method arguments.entry.class.0 place (method_shown declared.now) ∷ rest
        else rest))) }
{
    if declared.is_constructor {
        let own = own_method(alloc, arguments.class, place, declared)?;
        candidates.push(candidate(alloc, arguments, &own)?)?;
    }
    Ok(())
}

fn constructors_among(
    alloc: Global,
    arguments: Arguments,
    methods: &[MethodDecl],
) -> Result<Vec<Candidate>, Memory>
    ensures { IfOk result (λ cs. map candidate_seen cs.items ≡
        map candidate_of (map (put_arguments (arguments_seen arguments.entry))
        (words.constructors_from arguments.entry.class.0 0 (map method_shown methods.now)))) }
{
    let mut candidates = Vec::new(alloc);
    for place in 0..methods.len() {
        push_constructor(alloc, &mut candidates, arguments, place, &methods[place])?;
    }
    Ok(candidates)
}

/// The constructors that a class declares, with type arguments put in.
pub fn declared_constructors(
    alloc: Global,
    classes: AllClasses,
    arguments: Arguments,
) -> Result<Vec<Candidate>, Memory>
    ensures { IfOk result (λ cs. map candidate_seen cs.items ≡ words.declared_in
        (classes_of classes.entry) arguments.entry.class.0
        (of_class arguments.entry.class.0 (all_shown arguments.entry.types.now) 0)) }
{
    match classes.class(arguments.class) {
        Some(declared) => constructors_among(alloc, arguments, &declared.methods),
        None => Ok(Vec::new(alloc)),
    }
}

fn void() -> SrcTy
    ensures { shown result ≡ plain Base.Void 0 }
{
    unbounded(Ty {
        base: Base::Void,
        dims: 0,
    })
}

fn default_flags(access: Access) -> Flags
    ensures { result ≡ words.default_flags access }
{
    Flags {
        is_static: false,
        is_final: false,
        is_abstract: false,
        is_native: false,
        is_finalizer: false,
        access,
    }
}

/// The place of a class's default constructor: behind the methods that it declares.
pub fn default_place(classes: AllClasses, class: ClassId) -> usize
    ensures { result ≡ words.default_place (classes_of classes.entry) class.0 }
{
    match classes.class(class) {
        Some(declared) => declared.methods.len(),
        None => 0,
    }
}

fn access_of(classes: AllClasses, class: ClassId) -> Access
    ensures { result ≡ words.access_in (slice_get (classes_of classes.entry) class.0) }
{
    match classes.class(class) {
        Some(declared) => declared.access,
        None => Access::Package,
    }
}

/// The default constructor of a class (JLS 8.8.9).
pub fn default_constructor(alloc: Global, classes: AllClasses, class: ClassId) -> Candidate
    ensures { candidate_seen result ≡ words.default_constructor (classes_of classes.entry) class.0 }
{
    Candidate {
        class,
        place: default_place(classes, class),
        flags: default_flags(access_of(classes, class)),
        parameters: Vec::new(alloc),
        result: void(),
        declared: void(),
        is_abstract: false,
    }
}

// Whether it is a class of a program.
fn is_guest(sites: &Sites, class: ClassId) -> bool
    ensures { result ≡ the_is_guest (site_at (source_of sites.now).sites class.0).written }
{
    match sites.written(class) {
        Written::Library => false,
        Written::Declared { .. } | Written::Anonymous { .. } => true,
    }
}

/// The constructors of a class that a creation may choose, with type arguments put in; the default one where a class of
/// a program declares none (JLS 8.8.9).
#[tactic(auto, unfolding(call_typing::specs::Constructors::constructors_in))]
pub fn constructors_in(
    alloc: Global,
    sites: &Sites,
    classes: AllClasses,
    arguments: Arguments,
) -> Result<Vec<Candidate>, Memory>
    ensures { IfOk result (λ cs. map candidate_seen cs.items ≡ words.constructors_in
        (source_of sites.now).sites (classes_of classes.entry)
        (of_class arguments.entry.class.0 (all_shown arguments.entry.types.now) 0)) }
{
    let mut candidates = declared_constructors(alloc, classes, arguments)?;
    if candidates.is_empty() && is_guest(sites, arguments.class) {
        candidates.push(default_constructor(alloc, classes, arguments.class))?;
    }
    Ok(candidates)
}
