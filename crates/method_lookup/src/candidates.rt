// The methods of a name that a class has and that accept arguments.

ghost use Rattle.std.specs.Prelude.{◌≡◌, ◌++◌, IfOk, OnOk, length, map, filter};
ghost use Rattle.je_core.specs.View.{method_view, program_view};
ghost use Rattle.je_classes.specs.Hierarchy.{object_class as the_object_class};
ghost use Rattle.je_classes.specs.Methods.{named_from, accepts as the_accepts};
ghost use Rattle.class_members.specs.Places.{member_of};
ghost use Rattle.method_lookup.specs.way.Ways.{is_candidate as the_is_candidate, candidates_of, candidates_in};

use crate::passing::{all_pass, params};
use crate::ways::has_way;
use class_members::same_name;
use je_classes::object_class;
use je_core::{ClassId, Memory, Method, NameId, Program, Ty};
use std::alloc::Global;

/// What is looked for: in which class, under which name, and with which types of arguments.
#[derive(Drop)]
pub struct Call<'a> {
    pub own: ClassId,
    pub name: NameId,
    pub types: &'a [Ty],
}

// Whether a method is a candidate.
fn is_candidate(
    alloc: Global,
    program: &Program,
    call: &Call<'_>,
    class: ClassId,
    at: usize,
) -> Result<bool, Memory>
    ensures { IfOk result (λ candidate. candidate ≡
        the_is_candidate (program_view program.now) call.now.own call.now.name
        call.now.types.now (record { class = class; at = at })) }
{
    if !all_pass(alloc, program, call.types, params(program, class, at))? {
        return Ok(false);
    }
    has_way(alloc, program, call.own, call.name, class, at)
}

// The candidates among the methods of a class are added.
fn add_among(
    alloc: Global,
    found: &mut Vec<(ClassId, usize)>,
    program: &Program,
    call: &Call<'_>,
    class: ClassId,
    methods: &[Method],
) -> Result<(), Memory>
    ensures { OnOk result (map member_of found.new.items ≡ map member_of found.old.items ++
        filter (the_is_candidate
        (program_view program.now) call.now.own call.now.name call.now.types.now)
        (named_from class 0 (map method_view methods.now) call.now.name)) }
{
    for (at, method) in methods.iter().enumerate() {
        if same_name(method.name, call.name) && is_candidate(alloc, program, call, class, at)? {
            found.push((class, at))?;
        }
    }
    Ok(())
}

// The candidates that a class declares are added.
fn add_of(
    alloc: Global,
    found: &mut Vec<(ClassId, usize)>,
    program: &Program,
    call: &Call<'_>,
    class: ClassId,
) -> Result<(), Memory>
    ensures { OnOk result (map member_of found.new.items ≡ map member_of found.old.items ++
        candidates_of (program_view program.now) call.now.own call.now.name call.now.types.now
        class) }
{
    match program.class(class) {
        None => Ok(()),
        Some(declaring) => add_among(alloc, found, program, call, class, &declaring.methods),
    }
}

/// The candidates that some classes and Object declare.
pub fn candidates(
    alloc: Global,
    program: &Program,
    call: &Call<'_>,
    classes: &[ClassId],
) -> Result<Vec<(ClassId, usize)>, Memory>
    ensures { IfOk result (λ found. map member_of found.items ≡
        candidates_in (program_view program.now) call.now.own call.now.name call.now.types.now
        classes.now ++
        candidates_of (program_view program.now) call.now.own call.now.name call.now.types.now
        the_object_class) }
{
    let mut found = Vec::new(alloc);
    for class in classes {
        add_of(alloc, &mut found, program, call, *class)?;
    }
    add_of(alloc, &mut found, program, call, object_class())?;
    Ok(found)
}
