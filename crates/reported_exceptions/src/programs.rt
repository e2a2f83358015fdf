// The faults of exceptions of a whole program (JLS 11.2.3, 8.6, 8.7, 15.9.5.1).

ghost use Rattle.std.specs.Prelude.{◌≡◌, ◌++◌, ◌∷◌, [], IfOk, OnOk, map};
ghost use Rattle.je_core.specs.View.{stmt_view, initializer_view, method_view, class_view, program_view};
ghost use Rattle.constructor_calls.specs.Calls.{implicitly_called as the_implicitly_called};
ghost use Rattle.flow_base.specs.FaultSets.{of_each};
ghost use Rattle.flow_base.specs.way.Kept.{first_of};
ghost use Rattle.reported_exceptions.specs.Programs.{is_anonymous as the_is_anonymous, is_anonymous_sort as the_is_anonymous_sort, class_of, initializer_throws, initializers_throw, initializer_faults, constructor_throws, constructors_throw, making as the_making, static_faults, declaring_faults, instance_faults, body_faults, method_faults, implicit_throws, implicit_faults, class_faults, classes_faults, program_faults};
ghost use Rattle.reported_exceptions.specs.Throws.{out_behind};
ghost use Rattle.reported_exceptions.specs.View.{row, rows};

use crate::handled::report;
use crate::making::Making;
use crate::statements::walk_statement;
use crate::throws::{Throw, throw_member};
use class_members::names_constructors;
use constructor_calls::implicitly_called;
use flow_base::FirstFault;
use je_core::{Class, ClassId, Initializer, Memory, Method, Program, Sort, Stmt};
use std::alloc::Global;

/// Adds the faults of exceptions of a program to those found: each checked exception that is neither caught nor
/// declared, and each catch that takes nothing.
#[tactic(auto, unfolding(crate::specs::Programs::program_faults, je_core::specs::View::program_view))]
pub fn judge_program(alloc: Global, program: &Program, found: &mut FirstFault) -> Result<(), Memory>
    ensures { OnOk result (found.new ≡
        first_of found.old (program_faults (program_view program.now))) }
{
    judge_classes(alloc, program, &program.classes, found)
}

// From the last class on.
fn judge_classes(
    alloc: Global,
    program: &Program,
    classes: &[Class],
    found: &mut FirstFault,
) -> Result<(), Memory>
    ensures { OnOk result (found.new ≡ first_of found.old
        (classes_faults (program_view program.now) (map class_view classes.now))) }
{
    let mut makings = Vec::new(alloc);
    let mut at = classes.len();
    while at > 0 {
        at -= 1;
        judge_next(alloc, program, &classes[at], &mut makings, found)?;
    }
    Ok(())
}

// Adds the faults of a class, and what the making of an object of it throws.
fn judge_next(
    alloc: Global,
    program: &Program,
    class: &Class,
    makings: &mut Vec<Making>,
    found: &mut FirstFault,
) -> Result<(), Memory>
    ensures makings { OnOk result (rows makings.new.items ≡ rows makings.old.items ++
        the_making (program_view program.now) (rows makings.old.items) (class_view class.now) ∷ []) }
    ensures faults { OnOk result (found.new ≡ first_of found.old (class_faults
        (program_view program.now) (rows makings.old.items) (class_view class.now))) }
{
    judge_class(alloc, program, makings, class, found)?;
    let next = making(alloc, program, makings, class)?;
    makings.push(next)?;
    Ok(())
}

#[tactic(auto, unfolding(crate::specs::Programs::class_faults))]
fn judge_class(
    alloc: Global,
    program: &Program,
    makings: &[Making],
    class: &Class,
    found: &mut FirstFault,
) -> Result<(), Memory>
    ensures { OnOk result (found.new ≡ first_of found.old
        (class_faults (program_view program.now) (rows makings.now) (class_view class.now))) }
{
    let anonymous = is_anonymous(class);
    judge_static(alloc, program, makings, &class.initializers, found)?;
    judge_instance(alloc, program, makings, anonymous, class, found)?;
    judge_methods(alloc, program, makings, anonymous, &class.methods, found)?;
    judge_implicit(alloc, program, class, &class.methods, found)
}

fn is_anonymous(class: &Class) -> bool
    ensures { result ≡ the_is_anonymous (class_view class.now) }
{
    is_anonymous_sort(class.kind.sort)
}

fn is_anonymous_sort(sort: Sort) -> bool
    ensures { result ≡ the_is_anonymous_sort sort }
{
    match sort {
        Sort::Anonymous => true,
        _ => false,
    }
}

// ---- the superclass's constructor that one calls by no word of its own

fn judge_implicit(
    alloc: Global,
    program: &Program,
    class: &Class,
    methods: &[Method],
    found: &mut FirstFault,
) -> Result<(), Memory>
    ensures { OnOk result (found.new ≡ first_of found.old (of_each
        (implicit_faults (program_view program.now) (class_view class.now))
        (map method_view methods.now))) }
{
    for method in methods {
        report_implicit(alloc, program, class, method, found)?;
    }
    Ok(())
}

// Adds a fault for each class that it declares and the constructor doesn't.
fn report_implicit(
    alloc: Global,
    program: &Program,
    class: &Class,
    method: &Method,
    found: &mut FirstFault,
) -> Result<(), Memory>
    ensures { OnOk result (found.new ≡ first_of found.old (implicit_faults
        (program_view program.now) (class_view class.now) (method_view method.now))) }
{
    let mut thrown = Vec::new(alloc);
    throw_implicit(alloc, program, class, method, &mut thrown)?;
    report(alloc, program, &method.throws, &thrown, found)
}

// Adds what it throws, at the class.
fn throw_implicit(
    alloc: Global,
    program: &Program,
    class: &Class,
    method: &Method,
    thrown: &mut Vec<Throw>,
) -> Result<(), Memory>
    ensures { OnOk result (thrown.new.items ≡ out_behind (program_view program.now)
        thrown.old.items (implicit_throws (program_view program.now) (class_view class.now)
        (the_implicitly_called (program_view program.now) class.now.superclass
        (method_view method.now)))) }
{
    match implicitly_called(program, class.superclass, method) {
        None => Ok(()),
        Some((above, place)) => { throw_member(alloc, program, above, place, class.span, thrown) }
    }
}

// ---- what the making of an object throws

// Of a class: what its instance initializers and its constructor throw, where it is anonymous.
#[tactic(auto, unfolding(crate::specs::Programs::making))]
fn making(
    alloc: Global,
    program: &Program,
    makings: &[Making],
    class: &Class,
) -> Result<Making, Memory>
    ensures { IfOk result (λ m. row m ≡
        the_making (program_view program.now) (rows makings.now) (class_view class.now)) }
{
    if !is_anonymous(class) {
        return Ok(Making {
            classes: Vec::new(alloc),
        });
    }
    let mut thrown = Vec::new(alloc);
    let mut found = FirstFault::none();
    walk_initializers(
        alloc,
        program,
        makings,
        false,
        &class.initializers,
        &mut thrown,
        &mut found,
    )?;
    walk_constructors(alloc, program, makings, &class.methods, &mut thrown)?;
    let classes = classes_of(alloc, &thrown)?;
    Ok(Making { classes })
}

// The classes that are thrown.
fn classes_of(alloc: Global, thrown: &[Throw]) -> Result<Vec<ClassId>, Memory>
    ensures { IfOk result (λ classes. classes.items ≡ map class_of thrown.now) }
{
    let mut classes = Vec::new(alloc);
    for one in thrown {
        classes.push(one.class)?;
    }
    Ok(classes)
}

// Adds what the bodies of the constructors throw.
fn walk_constructors(
    alloc: Global,
    program: &Program,
    makings: &[Making],
    methods: &[Method],
    thrown: &mut Vec<Throw>,
) -> Result<(), Memory>
    ensures { OnOk result (thrown.new.items ≡
        out_behind (program_view program.now) thrown.old.items
        (constructors_throw (program_view program.now) (rows makings.now)
        (map method_view methods.now))) }
{
    for method in methods {
        walk_constructor(alloc, program, makings, method, thrown)?;
    }
    Ok(())
}

fn walk_constructor(
    alloc: Global,
    program: &Program,
    makings: &[Making],
    method: &Method,
    thrown: &mut Vec<Throw>,
) -> Result<(), Memory>
    ensures { OnOk result (thrown.new.items ≡
        out_behind (program_view program.now) thrown.old.items
        (constructor_throws (program_view program.now) (rows makings.now)
        (method_view method.now))) }
{
    if !names_constructors(program, method.name) {
        return Ok(());
    }
    let mut found = FirstFault::none();
    match &method.body {
        None => Ok(()),
        Some(body) => walk_statement(alloc, program, makings, body, thrown, &mut found),
    }
}

// ---- initializers

// Adds what the initializers, static or not, throw, and the faults of catches in them.
fn walk_initializers(
    alloc: Global,
    program: &Program,
    makings: &[Making],
    is_static: bool,
    initializers: &[Initializer],
    thrown: &mut Vec<Throw>,
    found: &mut FirstFault,
) -> Result<(), Memory>
    ensures throws { OnOk result (thrown.new.items ≡
        out_behind (program_view program.now) thrown.old.items
        (initializers_throw (program_view program.now) (rows makings.now) is_static
        (map initializer_view initializers.now))) }
    ensures faults { OnOk result (found.new ≡ first_of found.old
        (of_each (initializer_faults (program_view program.now) (rows makings.now) is_static)
        (map initializer_view initializers.now))) }
{
    for initializer in initializers {
        walk_initializer(
            alloc,
            program,
            makings,
            is_static,
            initializer,
            thrown,
            found,
        )?;
    }
    Ok(())
}

fn walk_initializer(
    alloc: Global,
    program: &Program,
    makings: &[Making],
    is_static: bool,
    initializer: &Initializer,
    thrown: &mut Vec<Throw>,
    found: &mut FirstFault,
) -> Result<(), Memory>
    ensures throws { OnOk result (thrown.new.items ≡
        out_behind (program_view program.now) thrown.old.items
        (initializer_throws (program_view program.now) (rows makings.now) is_static
        (initializer_view initializer.now))) }
    ensures faults { OnOk result (found.new ≡ first_of found.old
        (initializer_faults (program_view program.now) (rows makings.now) is_static
        (initializer_view initializer.now))) }
{
    if is_static != initializer.is_static {
        return Ok(());
    }
    walk_statement(alloc, program, makings, &initializer.body, thrown, found)
}

// Adds the faults of static initializers, which can't declare what they throw.
fn judge_static(
    alloc: Global,
    program: &Program,
    makings: &[Making],
    initializers: &[Initializer],
    found: &mut FirstFault,
) -> Result<(), Memory>
    ensures { OnOk result (found.new ≡ first_of found.old (static_faults
        (program_view program.now) (rows makings.now) (map initializer_view initializers.now))) }
{
    let mut thrown = Vec::new(alloc);
    walk_initializers(
        alloc,
        program,
        makings,
        true,
        initializers,
        &mut thrown,
        found,
    )?;
    report(alloc, program, &[], &thrown, found)
}

// Adds the faults of instance initializers.
fn judge_instance(
    alloc: Global,
    program: &Program,
    makings: &[Making],
    anonymous: bool,
    class: &Class,
    found: &mut FirstFault,
) -> Result<(), Memory>
    ensures { OnOk result (found.new ≡ first_of found.old (instance_faults
        (program_view program.now) (rows makings.now) anonymous (class_view class.now))) }
{
    let mut thrown = Vec::new(alloc);
    walk_initializers(
        alloc,
        program,
        makings,
        false,
        &class.initializers,
        &mut thrown,
        found,
    )?;
    if anonymous {
        return Ok(());
    }
    report_declaring(alloc, program, &class.methods, &thrown, found)
}

// Adds a fault for each that is thrown and that a constructor doesn't declare.
fn report_declaring(
    alloc: Global,
    program: &Program,
    methods: &[Method],
    thrown: &[Throw],
    found: &mut FirstFault,
) -> Result<(), Memory>
    ensures { OnOk result (found.new ≡ first_of found.old (of_each
        (declaring_faults (program_view program.now) thrown.now) (map method_view methods.now))) }
{
    for method in methods {
        report_by(alloc, program, method, thrown, found)?;
    }
    Ok(())
}

fn report_by(
    alloc: Global,
    program: &Program,
    method: &Method,
    thrown: &[Throw],
    found: &mut FirstFault,
) -> Result<(), Memory>
    ensures { OnOk result (found.new ≡ first_of found.old
        (declaring_faults (program_view program.now) thrown.now (method_view method.now))) }
{
    if !names_constructors(program, method.name) {
        return Ok(());
    }
    report(alloc, program, &method.throws, thrown, found)
}

// ---- methods and constructors

fn judge_methods(
    alloc: Global,
    program: &Program,
    makings: &[Making],
    anonymous: bool,
    methods: &[Method],
    found: &mut FirstFault,
) -> Result<(), Memory>
    ensures { OnOk result (found.new ≡ first_of found.old (of_each
        (method_faults (program_view program.now) (rows makings.now) anonymous)
        (map method_view methods.now))) }
{
    for method in methods {
        judge_method(alloc, program, makings, anonymous, method, found)?;
    }
    Ok(())
}

fn judge_method(
    alloc: Global,
    program: &Program,
    makings: &[Making],
    anonymous: bool,
    method: &Method,
    found: &mut FirstFault,
) -> Result<(), Memory>
    ensures { OnOk result (found.new ≡ first_of found.old (method_faults
        (program_view program.now) (rows makings.now) anonymous (method_view method.now))) }
{
    let may_throw = anonymous && names_constructors(program, method.name);
    match &method.body {
        None => Ok(()),
        Some(body) => judge_body(
            alloc,
            program,
            makings,
            may_throw,
            &method.throws,
            body,
            found,
        ),
    }
}

// Adds the faults of a body, which may throw anything or these.
fn judge_body(
    alloc: Global,
    program: &Program,
    makings: &[Making],
    may_throw: bool,
    throws: &[ClassId],
    body: &Stmt,
    found: &mut FirstFault,
) -> Result<(), Memory>
    ensures { OnOk result (found.new ≡ first_of found.old (body_faults
        (program_view program.now) (rows makings.now) may_throw throws.now (stmt_view body.now))) }
{
    let mut thrown = Vec::new(alloc);
    walk_statement(alloc, program, makings, body, &mut thrown, found)?;
    if may_throw {
        return Ok(());
    }
    report(alloc, program, throws, &thrown, found)
}
