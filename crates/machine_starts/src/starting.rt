// Which class a node starts, and the classes that start with one.

ghost use Rattle.std.specs.Prelude.{◌≡◌, ◌<◌, IfOk, IfSome, length};
ghost use Rattle.je_core.specs.Core.{form_of};
ghost use Rattle.je_core.specs.View.{form_view, program_view, view};
ghost use Rattle.je_classes.specs.Hierarchy.{class_at};
ghost use Rattle.je_java.specs.Classes.{method_at};
ghost use Rattle.je_java.specs.Constructors.{initializers_in};
ghost use Rattle.je_java.specs.Meaning.{of_field as the_of_field, of_place as the_of_place, of_method as the_of_method, started_by as the_started_by};
ghost use Rattle.machine_starts.specs.way.Starting.{unless_started, LoadsNext, Marks, NextClass};

use class_members::field_at;
use je_classes::class_count;
use je_core::{ClassId, Expr, Form, Memory, Program};
use machine_parts::class::{initializers, method, next_initializer, superclass};
use machine_parts::frame::ClassesLeft;
use machine_parts::starts::{Path, Starts};
use std::alloc::Global;
use std::rc::Rc;

// The class of a static field, unless it is a constant one.
fn of_field(program: &Program, class: ClassId, field: u32) -> Option<ClassId>
    ensures { result ≡ the_of_field (program_view program.now) class field }
{
    match field_at(program, class, field as usize) {
        None => None,
        Some(found) => {
            if found.constant.is_none() {
                Some(class)
            } else {
                None
            }
        }
    }
}

// That of a place that is assigned to.
fn of_place(program: &Program, place: &Form) -> Option<ClassId>
    ensures { result ≡ the_of_place (program_view program.now) (form_view place.now) }
{
    match place {
        Form::Static { class, field, .. } => of_field(program, *class, *field),
        _ => None,
    }
}

// That of a place that is a node.
#[tactic(auto, using(je_core::proofs::Views::form_of_view))]
fn of_place_node(program: &Program, place: &Rc<Expr>) -> Option<ClassId>
    ensures { result ≡
        the_of_place (program_view program.now) (form_of (view place.now.value)) }
{
    of_place(program, &place.form)
}

// That of a static method.
fn of_method(program: &Program, class: ClassId, at: u32) -> Option<ClassId>
    ensures { result ≡ the_of_method class (method_at (program_view program.now) class at) }
{
    match method(program, class, at) {
        None => None,
        Some(found) => {
            if found.flags.is_static {
                Some(class)
            } else {
                None
            }
        }
    }
}

// The class that a node starts.
fn started_by(program: &Program, form: &Form) -> Option<ClassId>
    ensures { result ≡ the_started_by (program_view program.now) (form_view form.now) }
{
    match form {
        Form::Static { class, field, .. } => of_field(program, *class, *field),
        Form::Assign { place, .. } => of_place_node(program, place),
        Form::Update { place, .. } => of_place_node(program, place),
        Form::CallExact { class, method, .. } => of_method(program, *class, *method),
        Form::New { class, .. } => Some(*class),
        _ => None,
    }
}

/// The class that a node starts, unless it has been started.
pub fn class_to_start(starts: &Starts, program: &Program, form: &Form) -> Option<ClassId>
    ensures { result ≡ unless_started starts.now
        (the_started_by (program_view program.now) (form_view form.now)) }
{
    match started_by(program, form) {
        None => None,
        Some(class) => {
            if starts.is_started(class) {
                None
            } else {
                Some(class)
            }
        }
    }
}

/// The classes that start with a class, of those above it and it, each before the one below it. They count as started.
pub fn mark(
    alloc: Global,
    starts: &mut Starts,
    program: &Program,
    class: ClassId,
) -> Result<Path, Memory>
    ensures { IfOk result (Marks (program_view program.now) class starts.old starts.new) }
{
    let mut path = Path::new(alloc);
    let mut above = Some(class);
    let mut left = class_count(program);
    while left > 0 {
        let Some(at) = above else {
            return Ok(path);
        };
        if starts.is_started(at) {
            return Ok(path);
        }
        starts.put_started(at);
        path.push(at)?;
        above = superclass(program, at);
        left -= 1;
    }
    Ok(path)
}

/// The first class on a path that has an initializer of its own, and the place of that; the others before it go.
pub fn next_class(program: &Program, path: &mut Path) -> Option<(ClassId, usize)>
    ensures goes { NextClass (program_view program.now) path.old path.new result }
    ensures within { IfSome result (λ found. found.1 <
        length (initializers_in (class_at (program_view program.now) found.0))) }
{
    while let Some(class) = path.pop() {
        if let Some(place) = next_initializer(initializers(program, class), true, 0) {
            return Some((class, place));
        }
    }
    None
}

/// In a load, the next class with an initializer of its own: the place of that, the classes whose initializers run behind
/// its own, and those that are left to start.
#[derive(Drop)]
pub struct NextLoad {
    pub class: ClassId,
    pub place: usize,
    pub path: Path,
    pub left: ClassesLeft,
}

/// The classes up to the next one with an initializer of its own count as started; none where there is no such class.
pub fn next_to_load(
    alloc: Global,
    starts: &mut Starts,
    program: &Program,
    left: ClassesLeft,
) -> Result<Option<NextLoad>, Memory>
    ensures goes { IfOk result (LoadsNext (program_view program.now) left
        starts.old starts.new) }
    ensures within { IfOk result (λ next. IfSome next (λ found. found.place <
        length (initializers_in (class_at (program_view program.now) found.class)))) }
{
    let mut next = left.next;
    let mut count = left.count;
    while count > 0 {
        let mut path = mark(alloc, starts, program, ClassId(next))?;
        next += 1;
        count -= 1;
        if let Some(found) = next_class(program, &mut path) {
            return Ok(Some(NextLoad {
                class: found.0,
                place: found.1,
                path,
                left: ClassesLeft { next, count },
            }));
        }
    }
    Ok(None)
}
