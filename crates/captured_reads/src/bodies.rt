// What a walk over a body, and over the bodies of a class, comes to.

ghost use Rattle.std.specs.Prelude.{◌≡◌, ◌++◌, IfOk, OnOk, flat_map, map};
ghost use Rattle.je_core.specs.View.{class_view, initializer_view, method_view, program_view, stmt_view, stmt_view_if};
ghost use Rattle.captured_reads.specs.Walks as the;
ghost use Rattle.captured_reads.specs.Standing.{met_in_body as the_met_in_body, met_in_class as the_met_in_class, met_in_initializer as the_met_in_initializer, met_in_method as the_met_in_method};
ghost use Rattle.captured_reads.specs.View.{met_view, walk_view};
ghost use Rattle.captured_reads.specs.NestingView.{program_of};

use crate::nesting::{LocalClass, Nesting};
use crate::scopes::first_locals;
use crate::statements::past_statement;
use crate::walks::{Around, Met, Walk};
use je_core::{Class, ClassId, Initializer, Local, Memory, Method, Stmt};
use std::alloc::Global;
use std::rc::Rc;

#[tactic(auto, using(je_core::proofs::Views::stmt_view_is))]
fn start_of(body: &Stmt) -> u32
    ensures { result ≡ the.start_of (stmt_view body.now) }
{
    body.span.start
}

// The local classes whose names stand behind a place.
fn classes_behind(start: u32, classes: &[LocalClass]) -> &[LocalClass]
    ensures { result.now ≡ the.classes_behind start classes.now }
{
    let mut rest = classes;
    while let Some((class, further)) = rest.split_first() {
        if start < class.span.start {
            return rest;
        }
        rest = further;
    }
    rest
}

// What a walk over a body of a class comes to.
#[tactic(auto, unfolding(crate::specs::Walks::met_in))]
pub(crate) fn met_in(
    alloc: Global,
    nesting: &Nesting,
    class: ClassId,
    locals: &[Local],
    params: usize,
    body: &Stmt,
) -> Result<Vec<Met>, Memory>
    ensures { IfOk result (λ v. map met_view v.items ≡
        the.met_in (program_of nesting.now) locals.now class params (stmt_view body.now)) }
{
    let classes = nesting.local_classes(alloc, class)?;
    let start = Walk {
        met: Vec::new(alloc),
        ahead: classes_behind(start_of(body), &classes),
        scope: first_locals(alloc, params)?,
    };
    let around = Around {
        program: nesting.program(),
        locals,
    };
    let end = past_statement(alloc, &around, start, body)?;
    Ok(end.met)
}

fn met_in_initializer(
    alloc: Global,
    nesting: &Nesting,
    class: ClassId,
    initializer: &Initializer,
) -> Result<Vec<Met>, Memory>
    ensures { IfOk result (λ v. map met_view v.items ≡
        the_met_in_initializer (program_of nesting.now) class (initializer_view initializer.now)) }
{
    met_in(
        alloc,
        nesting,
        class,
        &initializer.locals,
        0,
        &initializer.body,
    )
}

fn met_in_body(
    alloc: Global,
    nesting: &Nesting,
    class: ClassId,
    locals: &[Local],
    params: usize,
    body: &Option<Rc<Stmt>>,
) -> Result<Vec<Met>, Memory>
    ensures { IfOk result (λ v. map met_view v.items ≡
        the_met_in_body (program_of nesting.now) class locals.now params (stmt_view_if body.now)) }
{
    match body {
        None => Ok(Vec::new(alloc)),
        Some(body) => met_in(alloc, nesting, class, locals, params, body),
    }
}

fn met_in_method(
    alloc: Global,
    nesting: &Nesting,
    class: ClassId,
    method: &Method,
) -> Result<Vec<Met>, Memory>
    ensures { IfOk result (λ v. map met_view v.items ≡
        the_met_in_method (program_of nesting.now) class (method_view method.now)) }
{
    met_in_body(
        alloc,
        nesting,
        class,
        &method.locals,
        method.params.len(),
        &method.body,
    )
}

fn add_initializers(
    alloc: Global,
    nesting: &Nesting,
    class: ClassId,
    initializers: &[Initializer],
    met: &mut Vec<Met>,
) -> Result<(), Memory>
    ensures { OnOk result (map met_view met.new.items ≡ map met_view met.old.items
        ++ flat_map (the_met_in_initializer (program_of nesting.now) class)
        (map initializer_view initializers.now)) }
{
    for initializer in initializers {
        let mut more = met_in_initializer(alloc, nesting, class, initializer)?;
        met.append(&mut more)?;
    }
    Ok(())
}

fn add_methods(
    alloc: Global,
    nesting: &Nesting,
    class: ClassId,
    methods: &[Method],
    met: &mut Vec<Met>,
) -> Result<(), Memory>
    ensures { OnOk result (map met_view met.new.items ≡ map met_view met.old.items
        ++ flat_map (the_met_in_method (program_of nesting.now) class)
        (map method_view methods.now)) }
{
    for method in methods {
        let mut more = met_in_method(alloc, nesting, class, method)?;
        met.append(&mut more)?;
    }
    Ok(())
}

// What walks over the bodies of a class come to.
pub(crate) fn met_in_class(
    alloc: Global,
    nesting: &Nesting,
    id: ClassId,
    class: &Class,
) -> Result<Vec<Met>, Memory>
    ensures { IfOk result (λ v. map met_view v.items ≡
        the_met_in_class (program_of nesting.now) id (class_view class.now)) }
{
    let mut met = Vec::new(alloc);
    add_initializers(alloc, nesting, id, &class.initializers, &mut met)?;
    add_methods(alloc, nesting, id, &class.methods, &mut met)?;
    Ok(met)
}
