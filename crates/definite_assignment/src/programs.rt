// The faults of definite assignment and unassignment of a whole program.

ghost use Rattle.std.specs.Prelude.{◌≡◌, ◌<◌, ◌^◌, length, IfOk, OnOk, map, if◌then◌else◌};
ghost use Rattle.je_core.specs.Core.{form_of, stmt_form_of, core_stmts, maybe_core};
ghost use Rattle.je_core.specs.View.{view, view_if, form_view, stmt_view, stmt_form_view, stmt_views, field_view, initializer_view, method_view, class_view, program_view};
ghost use Rattle.captured_reads.specs.NestingView.{program_of};
ghost use Rattle.captured_reads.specs.View.{standing_view};
ghost use Rattle.flow_base.specs.way.Kept.{first_of};
ghost use Rattle.je_classes.specs.Members.{names_constructors as names_constructors_of};
ghost use Rattle.variable_sets.specs.Numbers.{field_number as the_field_number};
ghost use Rattle.variable_sets.specs.SetView.{set_view};
ghost use Rattle.assignment_rules.specs.Rules.{marking};
ghost use Rattle.definite_assignment.specs.Programs.{is_of_kind as the_is_of_kind, may_be_blank as the_may_be_blank, other_fields as the_other_fields, assigned_in as the_assigned_in, assigned_by as the_assigned_by, with_initialized as the_with_initialized, at_start as the_at_start, left_faults, end_faults, final_locals as the_final_locals, once_assigned as the_once_assigned, home_of as the_home_of, judged_classes as the_judged_classes, following as the_following, ends_of, faults_of, initializer_past, initializer_faults, initializers_past, initializers_faults, with_parameters as the_with_parameters, is_this as the_is_this, is_this_form as the_is_this_form, is_this_there as the_is_this_there, builds_own as the_builds_own, is_own_call as the_is_own_call, is_own as the_is_own, first_is_own as the_first_is_own, calls_own as the_calls_own, constructor_start as the_constructor_start, constructor_faults, plain_faults, body_faults, method_faults, methods_faults, static_faults, instance_faults, class_faults, classes_faults, program_faults};
ghost use Rattle.assigned_expressions.specs.Expressions.{assigning};
ghost use Rattle.assignment_rules.specs.View.{ends_view, follow_view};

use assigned_expressions::{is_home, variable_of};
use assigned_statements::walk_statement;
use assignment_rules::{Ends, Follow, Rule, all_marked, marked, none_marked};
use captured_reads::{Nesting, Standing, standing};
use class_members::{is_hidden, method_at, names_constructors};
use flow_base::{FaultKind, FirstFault, Way};
use je_core::{
    Class, ClassId, Expr, Field, Form, Initializer, Local, Memory, Method, Program, Stmt, StmtForm,
};
use std::alloc::Global;
use std::rc::Rc;
use variable_sets::{Variables, field_number, local_number};

/// Adds the faults of a program by a rule to those found. By `Assigned` each variable that is read before it is definitely
/// assigned, each blank final field that a constructor leaves so, and each static one that its class's initializers leave so.
/// By `Unassigned` each blank final variable that is assigned where it isn't definitely unassigned.
#[tactic(auto, unfolding(je_core::specs::View::program_view, crate::specs::Programs::program_faults))]
pub fn judge_program(
    alloc: Global,
    rule: Rule,
    program: &Program,
    found: &mut FirstFault,
) -> Result<(), Memory>
    requires { length (program_view program.now).classes < 2 ^ 31 }
    ensures { OnOk result (found.new ≡
        first_of found.old (program_faults rule (program_view program.now))) }
{
    let nesting = Nesting::of(alloc, program)?;
    judge_classes(alloc, rule, &nesting, &program.classes, found)
}

fn judge_classes(
    alloc: Global,
    rule: Rule,
    nesting: &Nesting,
    classes: &[Class],
    found: &mut FirstFault,
) -> Result<(), Memory>
    requires { length classes.now < 2 ^ 31 }
    ensures { OnOk result (found.new ≡ first_of found.old
        (classes_faults rule (program_of nesting.now) 0 (map class_view classes.now))) }
{
    let mut at: u32 = 0;
    for class in classes {
        judge_class(alloc, rule, nesting, ClassId(at), class, found)?;
        at += 1;
    }
    Ok(())
}

fn judge_class(
    alloc: Global,
    rule: Rule,
    nesting: &Nesting,
    id: ClassId,
    class: &Class,
    found: &mut FirstFault,
) -> Result<(), Memory>
    ensures { OnOk result (found.new ≡ first_of found.old
        (class_faults rule (program_of nesting.now) id (class_view class.now))) }
{
    judge_static(alloc, rule, nesting, id, class, found)?;
    judge_instance(alloc, rule, nesting, id, class, found)
}

// Adds the faults of the static initializers of a class.
fn judge_static(
    alloc: Global,
    rule: Rule,
    nesting: &Nesting,
    id: ClassId,
    class: &Class,
    found: &mut FirstFault,
) -> Result<(), Memory>
    ensures { OnOk result (found.new ≡
        first_of found.old (static_faults rule (program_of nesting.now) id (class_view class.now))) }
{
    let start = at_start(alloc, rule, id, true, class)?;
    let before = start.copy()?;
    let past = walk_initializers(
        alloc,
        rule,
        nesting,
        id,
        true,
        &start,
        &class.initializers,
        before,
        found,
    )?;
    add_left(rule, true, &past, &class.fields, found);
    Ok(())
}

// Adds the faults of the instance initializers of a class, its constructors and its methods.
fn judge_instance(
    alloc: Global,
    rule: Rule,
    nesting: &Nesting,
    id: ClassId,
    class: &Class,
    found: &mut FirstFault,
) -> Result<(), Memory>
    ensures { OnOk result (found.new ≡ first_of found.old
        (instance_faults rule (program_of nesting.now) id (class_view class.now))) }
{
    let start = at_start(alloc, rule, id, false, class)?;
    let before = start.copy()?;
    let past = walk_initializers(
        alloc,
        rule,
        nesting,
        id,
        false,
        &start,
        &class.initializers,
        before,
        found,
    )?;
    let around = Around { id, start, past };
    judge_methods(alloc, rule, nesting, class, &around, &class.methods, found)
}

// A class round a method: its number, the set when its instance initializers begin, and that when they end.
#[derive(Drop)]
struct Around {
    id: ClassId,
    start: Variables,
    past: Variables,
}

fn judge_methods(
    alloc: Global,
    rule: Rule,
    nesting: &Nesting,
    class: &Class,
    around: &Around,
    methods: &[Method],
    found: &mut FirstFault,
) -> Result<(), Memory>
    ensures { OnOk result (found.new ≡ first_of found.old
        (methods_faults rule (program_of nesting.now) around.now.id (class_view class.now)
        (set_view around.now.start) (set_view around.now.past) (map method_view methods.now))) }
{
    for method in methods {
        judge_method(alloc, rule, nesting, class, around, method, found)?;
    }
    Ok(())
}

fn judge_method(
    alloc: Global,
    rule: Rule,
    nesting: &Nesting,
    class: &Class,
    around: &Around,
    method: &Method,
    found: &mut FirstFault,
) -> Result<(), Memory>
    ensures { OnOk result (found.new ≡ first_of found.old
        (method_faults rule (program_of nesting.now) around.now.id (class_view class.now)
        (set_view around.now.start) (set_view around.now.past) (method_view method.now))) }
{
    match &method.body {
        None => Ok(()),
        Some(body) => judge_body(alloc, rule, nesting, class, around, method, body, found),
    }
}

// Adds the faults of a body of a method, which may be a constructor.
fn judge_body(
    alloc: Global,
    rule: Rule,
    nesting: &Nesting,
    class: &Class,
    around: &Around,
    method: &Method,
    body: &Stmt,
    found: &mut FirstFault,
) -> Result<(), Memory>
    ensures { OnOk result (found.new ≡ first_of found.old
        (body_faults rule (program_of nesting.now) around.now.id (class_view class.now)
        (set_view around.now.start) (set_view around.now.past)
        (names_constructors_of (program_of nesting.now) method.now.name)
        (method_view method.now) (stmt_view body.now))) }
{
    if names_constructors(nesting.program(), method.name) {
        return judge_constructor(alloc, rule, nesting, class, around, method, body, found);
    }
    judge_plain(alloc, rule, nesting, around.id, method, body, found)
}

// Adds the faults of a body of a method that is no constructor.
fn judge_plain(
    alloc: Global,
    rule: Rule,
    nesting: &Nesting,
    id: ClassId,
    method: &Method,
    body: &Stmt,
    found: &mut FirstFault,
) -> Result<(), Memory>
    ensures { OnOk result (found.new ≡ first_of found.old (plain_faults rule
        (program_of nesting.now) id (method_view method.now) (stmt_view body.now))) }
{
    let start = none_marked(alloc, rule);
    let params = method.params.len();
    let before = with_parameters(rule, params, none_marked(alloc, rule))?;
    let owner = Owner {
        class: id,
        is_home: false,
        params,
    };
    let _ = walk_body(
        alloc,
        rule,
        nesting,
        owner,
        &method.locals,
        &start,
        body,
        before,
        found,
    )?;
    Ok(())
}

fn judge_constructor(
    alloc: Global,
    rule: Rule,
    nesting: &Nesting,
    class: &Class,
    around: &Around,
    method: &Method,
    body: &Stmt,
    found: &mut FirstFault,
) -> Result<(), Memory>
    ensures { OnOk result (found.new ≡ first_of found.old
        (constructor_faults rule (program_of nesting.now) around.now.id (class_view class.now)
        (set_view around.now.start) (set_view around.now.past)
        (method_view method.now) (stmt_view body.now))) }
{
    let before = constructor_start(
        alloc,
        rule,
        nesting.program(),
        around.id,
        &around.past,
        body,
    )?;
    let params = method.params.len();
    let before = with_parameters(rule, params, before)?;
    let owner = Owner {
        class: around.id,
        is_home: true,
        params,
    };
    let ends = walk_body(
        alloc,
        rule,
        nesting,
        owner,
        &method.locals,
        &around.start,
        body,
        before,
        found,
    )?;
    let left = ends.after.meet(&ends.exits.by(Way::Returns)?)?;
    add_left(rule, false, &left, &class.fields, found);
    Ok(())
}

// Whose body it is: its class, whether the fields of that are followed in it, and how many of its locals are
// parameters.
#[derive(Clone, Copy)]
struct Owner {
    class: ClassId,
    is_home: bool,
    params: usize,
}

// How a body of these locals ends, by the set when the initializers of its class begin. Adds its faults.
fn walk_body(
    alloc: Global,
    rule: Rule,
    nesting: &Nesting,
    owner: Owner,
    locals: &[Local],
    start: &Variables,
    body: &Stmt,
    before: Variables,
    found: &mut FirstFault,
) -> Result<Ends, Memory>
    ensures ends { IfOk result (λ e. ends_view e ≡
        ends_of (the_following rule (program_of nesting.now) owner locals.now (set_view start.now)
        (stmt_view body.now)) (set_view before) (stmt_view body.now)) }
    ensures faults { OnOk result (found.new ≡ first_of found.old
        (faults_of (the_following rule (program_of nesting.now) owner locals.now
        (set_view start.now) (stmt_view body.now)) (set_view before) (stmt_view body.now))) }
{
    let follow = following(alloc, rule, nesting, owner, locals, start, body)?;
    walk_statement(alloc, &follow, body, None, before, found)
}

// What is followed in a body of these locals, by the set when the initializers of its class begin.
#[tactic(auto, unfolding(crate::specs::Programs::following))]
fn following(
    alloc: Global,
    rule: Rule,
    nesting: &Nesting,
    owner: Owner,
    locals: &[Local],
    start: &Variables,
    body: &Stmt,
) -> Result<Follow, Memory>
    ensures { IfOk result (λ f. follow_view f ≡ the_following rule (program_of nesting.now) owner
        locals.now (set_view start.now) (stmt_view body.now)) }
{
    let finals = once_assigned(alloc, rule, locals, start)?;
    let standing = judged_classes(alloc, rule, nesting, owner, locals, body)?;
    Ok(Follow {
        rule,
        home: home_of(owner),
        finals,
        standing,
    })
}

// The class whose fields are followed in a body.
fn home_of(owner: Owner) -> Option<ClassId>
    ensures { result ≡ the_home_of owner }
{
    if owner.is_home {
        return Some(owner.class);
    }
    None
}

// The classes that stand in a body, where reads are judged.
fn judged_classes(
    alloc: Global,
    rule: Rule,
    nesting: &Nesting,
    owner: Owner,
    locals: &[Local],
    body: &Stmt,
) -> Result<Vec<Standing>, Memory>
    ensures { IfOk result (λ s. map standing_view s.items ≡ the_judged_classes rule
        (program_of nesting.now) owner locals.now (stmt_view body.now)) }
{
    match rule {
        Rule::Assigned => standing(alloc, nesting, owner.class, locals, owner.params, body),
        Rule::Unassigned => Ok(Vec::new(alloc)),
    }
}

// The variables that may be assigned only once, where that is followed.
fn once_assigned(
    alloc: Global,
    rule: Rule,
    locals: &[Local],
    start: &Variables,
) -> Result<Variables, Memory>
    ensures { IfOk result (λ v. set_view v ≡
        the_once_assigned rule locals.now (set_view start.now)) }
{
    match rule {
        Rule::Assigned => Ok(Variables::nothing(alloc)),
        Rule::Unassigned => final_locals(locals, start.copy()?),
    }
}

// The set but for the locals that aren't final.
fn final_locals(locals: &[Local], set: Variables) -> Result<Variables, Memory>
    ensures { IfOk result (λ v. set_view v ≡ the_final_locals locals.now 0 (set_view set)) }
{
    let mut rest = set;
    let mut at: usize = 0;
    for local in locals {
        if !local.is_final {
            rest.remove(local_number(at))?;
        }
        at += 1;
    }
    Ok(rest)
}

// What is assigned before the body of a constructor.
fn constructor_start(
    alloc: Global,
    rule: Rule,
    program: &Program,
    id: ClassId,
    past: &Variables,
    body: &Stmt,
) -> Result<Variables, Memory>
    ensures { IfOk result (λ v. set_view v ≡ the_constructor_start rule
        (program_view program.now) id (set_view past.now) (stmt_view body.now)) }
{
    if calls_own(program, id, body) {
        return Ok(all_marked(alloc, rule));
    }
    past.copy()
}

// Whether a constructor's body begins with a call of another constructor of its class.
#[tactic(auto, using(je_core::proofs::Views::stmt_form_of_view))]
fn calls_own(program: &Program, id: ClassId, body: &Stmt) -> bool
    ensures { result ≡ the_calls_own (program_view program.now) id
        (stmt_form_of (stmt_view body.now)) }
{
    begins_with_own(program, id, &body.form)
}

fn begins_with_own(program: &Program, id: ClassId, form: &StmtForm) -> bool
    ensures { result ≡ the_calls_own (program_view program.now) id (stmt_form_view form.now) }
{
    match form {
        StmtForm::Block { parts, .. } => first_is_own(program, id, parts),
        _ => false,
    }
}

fn first_is_own(program: &Program, id: ClassId, parts: &[Rc<Stmt>]) -> bool
    ensures { result ≡ the_first_is_own (program_view program.now) id
        (core_stmts (stmt_views parts.now)) }
{
    match parts {
        [] => false,
        [first, ..] => is_own(program, id, first),
    }
}

#[tactic(auto, using(je_core::proofs::Views::stmt_form_of_view))]
fn is_own(program: &Program, id: ClassId, statement: &Stmt) -> bool
    ensures { result ≡ the_is_own (program_view program.now) id
        (stmt_form_of (stmt_view statement.now)) }
{
    is_own_form(program, id, &statement.form)
}

fn is_own_form(program: &Program, id: ClassId, form: &StmtForm) -> bool
    ensures { result ≡ the_is_own (program_view program.now) id (stmt_form_view form.now) }
{
    match form {
        StmtForm::Do { expr } => is_own_call(program, id, expr),
        _ => false,
    }
}

#[tactic(auto, using(je_core::proofs::Views::form_of_view))]
fn is_own_call(program: &Program, id: ClassId, e: &Expr) -> bool
    ensures { result ≡ the_is_own_call (program_view program.now) id (form_of (view e.now)) }
{
    is_own_call_form(program, id, &e.form)
}

fn is_own_call_form(program: &Program, id: ClassId, form: &Form) -> bool
    ensures { result ≡ the_is_own_call (program_view program.now) id (form_view form.now) }
{
    match form {
        Form::CallExact {
            receiver,
            class,
            method,
            ..
        } => is_this_there(receiver) && builds_own(program, id, *class, *method),
        _ => false,
    }
}

// Whether a method is a constructor of the class at home.
fn builds_own(program: &Program, id: ClassId, class: ClassId, method: u32) -> bool
    ensures { result ≡ the_builds_own (program_view program.now) id class method }
{
    if !is_home(Some(id), class) {
        return false;
    }
    match method_at(program, class, method as usize) {
        None => false,
        Some(method) => names_constructors(program, method.name),
    }
}

fn is_this_there(receiver: &Option<Rc<Expr>>) -> bool
    ensures { result ≡ the_is_this_there (maybe_core (view_if receiver.now)) }
{
    match receiver {
        None => false,
        Some(receiver) => is_this(receiver),
    }
}

#[tactic(auto, using(je_core::proofs::Views::view_is))]
fn is_this(e: &Expr) -> bool
    ensures { result ≡ the_is_this (view e.now) }
{
    is_this_form(&e.form)
}

fn is_this_form(form: &Form) -> bool
    ensures { result ≡ the_is_this_form (form_view form.now) }
{
    match form {
        Form::This => true,
        _ => false,
    }
}

// What is assigned before the first initializer, static or not.
fn at_start(
    alloc: Global,
    rule: Rule,
    id: ClassId,
    is_static: bool,
    class: &Class,
) -> Result<Variables, Memory>
    ensures { IfOk result (λ v. set_view v ≡
        the_at_start rule id is_static (class_view class.now)) }
{
    let others = other_fields(rule, is_static, &class.fields, none_marked(alloc, rule))?;
    with_initialized(rule, id, &class.initializers, others)
}

// The set with all fields that can't be blank.
fn other_fields(
    rule: Rule,
    is_static: bool,
    fields: &[Field],
    set: Variables,
) -> Result<Variables, Memory>
    ensures { IfOk result (λ v. set_view v ≡
        the_other_fields rule is_static (map field_view fields.now) 0 (set_view set)) }
{
    let mut all = set;
    let mut at: usize = 0;
    for field in fields {
        all = with_other(rule, is_static, field, at, all)?;
        at += 1;
    }
    Ok(all)
}

fn with_other(
    rule: Rule,
    is_static: bool,
    field: &Field,
    at: usize,
    set: Variables,
) -> Result<Variables, Memory>
    requires { at < 2 ^ 63 }
    ensures { IfOk result (λ v. set_view v ≡ (if the_may_be_blank is_static (field_view field.now)
        then set_view set else marking rule (the_field_number at) (set_view set))) }
{
    if may_be_blank(is_static, field) {
        return Ok(set);
    }
    marked(rule, field_number(at), set)
}

// Whether a field is blank unless it has an initializer.
fn may_be_blank(is_static: bool, field: &Field) -> bool
    ensures { result ≡ the_may_be_blank is_static (field_view field.now) }
{
    field.is_final
        && is_of_kind(is_static, field.is_static)
        && field.constant.is_none()
        && !is_hidden(field)
}

fn is_of_kind(is_static: bool, member: bool) -> bool
    ensures { result ≡ the_is_of_kind is_static member }
{
    if is_static { member } else { !member }
}

// The set with all fields that have initializers.
fn with_initialized(
    rule: Rule,
    id: ClassId,
    initializers: &[Initializer],
    set: Variables,
) -> Result<Variables, Memory>
    ensures { IfOk result (λ v. set_view v ≡
        the_with_initialized rule id (map initializer_view initializers.now) (set_view set)) }
{
    let mut all = set;
    for initializer in initializers {
        all = with_assigned(rule, initialized(id, &initializer.body), all)?;
    }
    Ok(all)
}

fn with_assigned(rule: Rule, variable: Option<usize>, set: Variables) -> Result<Variables, Memory>
    ensures { IfOk result (λ v. set_view v ≡ assigning rule variable (set_view set)) }
{
    match variable {
        None => Ok(set),
        Some(variable) => marked(rule, variable, set),
    }
}

// The field whose initializer it is.
#[tactic(auto, using(je_core::proofs::Views::stmt_form_of_view))]
fn initialized(id: ClassId, body: &Stmt) -> Option<usize>
    ensures { result ≡ the_assigned_by id (stmt_form_of (stmt_view body.now)) }
{
    assigned_by(id, &body.form)
}

fn assigned_by(id: ClassId, form: &StmtForm) -> Option<usize>
    ensures { result ≡ the_assigned_by id (stmt_form_view form.now) }
{
    match form {
        StmtForm::Do { expr } => assigned_in(id, expr),
        _ => None,
    }
}

#[tactic(auto, using(je_core::proofs::Views::form_of_view))]
fn assigned_in(id: ClassId, e: &Expr) -> Option<usize>
    ensures { result ≡ the_assigned_in id (form_of (view e.now)) }
{
    assigned_in_form(id, &e.form)
}

fn assigned_in_form(id: ClassId, form: &Form) -> Option<usize>
    ensures { result ≡ the_assigned_in id (form_view form.now) }
{
    match form {
        Form::Assign { place, .. } => variable_of(Some(id), place),
        _ => None,
    }
}

// Adds a fault for each field that may be blank and isn't assigned at the end.
fn add_left(rule: Rule, is_static: bool, set: &Variables, fields: &[Field], found: &mut FirstFault)
    ensures { found.new ≡ first_of found.old
        (end_faults rule is_static (set_view set.now) (map field_view fields.now)) }
{
    match rule {
        Rule::Assigned => add_unassigned(is_static, set, fields, found),
        Rule::Unassigned => {}
    }
}

fn add_unassigned(is_static: bool, set: &Variables, fields: &[Field], found: &mut FirstFault)
    ensures { found.new ≡ first_of found.old
        (left_faults is_static (set_view set.now) 0 (map field_view fields.now)) }
{
    let mut at: usize = 0;
    for field in fields {
        let is_left = may_be_blank(is_static, field) && !set.has(field_number(at));
        found.add_where(is_left, FaultKind::NotAssigned, field.span);
        at += 1;
    }
}

// What is assigned past the initializers of a class, static or not, one after another.
fn walk_initializers(
    alloc: Global,
    rule: Rule,
    nesting: &Nesting,
    id: ClassId,
    is_static: bool,
    start: &Variables,
    initializers: &[Initializer],
    before: Variables,
    found: &mut FirstFault,
) -> Result<Variables, Memory>
    ensures past { IfOk result (λ v. set_view v ≡ initializers_past rule (program_of nesting.now) id is_static
        (set_view start.now) (set_view before) (map initializer_view initializers.now)) }
    ensures faults { OnOk result (found.new ≡ first_of found.old
        (initializers_faults rule (program_of nesting.now) id is_static
        (set_view start.now) (set_view before) (map initializer_view initializers.now))) }
{
    let mut past = before;
    for initializer in initializers {
        past = walk_initializer(
            alloc,
            rule,
            nesting,
            id,
            is_static,
            start,
            initializer,
            past,
            found,
        )?;
    }
    Ok(past)
}

fn walk_initializer(
    alloc: Global,
    rule: Rule,
    nesting: &Nesting,
    id: ClassId,
    is_static: bool,
    start: &Variables,
    initializer: &Initializer,
    before: Variables,
    found: &mut FirstFault,
) -> Result<Variables, Memory>
    ensures past { IfOk result (λ v. set_view v ≡ initializer_past rule (program_of nesting.now) id is_static
        (set_view start.now) (set_view before) (initializer_view initializer.now)) }
    ensures faults { OnOk result (found.new ≡ first_of found.old
        (initializer_faults rule (program_of nesting.now) id is_static
        (set_view start.now) (set_view before) (initializer_view initializer.now))) }
{
    if !is_of_kind(is_static, initializer.is_static) {
        return Ok(before);
    }
    let owner = Owner {
        class: id,
        is_home: true,
        params: 0,
    };
    let ends = walk_body(
        alloc,
        rule,
        nesting,
        owner,
        &initializer.locals,
        start,
        &initializer.body,
        before,
        found,
    )?;
    Ok(ends.after)
}

// The set with so many parameters.
fn with_parameters(rule: Rule, count: usize, set: Variables) -> Result<Variables, Memory>
    requires { count < 2 ^ 63 }
    ensures { IfOk result (λ v. set_view v ≡ the_with_parameters rule count (set_view set)) }
{
    let mut all = set;
    for at in 0..count {
        all = marked(rule, local_number(at), all)?;
    }
    Ok(all)
}
