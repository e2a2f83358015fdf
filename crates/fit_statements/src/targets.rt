// Where a jump can go (JLS 14.7, 14.15, 14.16), and what a return gives.

ghost use Rattle.std.specs.Prelude.{◌≡◌, ◌∷◌, IfOk, length, map};
ghost use Rattle.je_core.specs.Core.{stmt_form_of};
ghost use Rattle.je_core.specs.View.{stmt_view};
ghost use Rattle.je_fitting.specs.Statements.{no_targets as the_no_targets, in_loop as the_in_loop, in_switch as the_in_switch, is_loop_form, label_of as the_label_of, is_selector as the_is_selector};
ghost use Rattle.je_fitting.specs.way.DecidingStatements.{is_loop_label as the_is_loop_label, can_jump as the_can_jump, locals_there as the_locals_there};
ghost use Rattle.fit_statements.specs.Labels.{label_seen};

use class_members::{same_name, same_type};
use fit_parts::{Body, is_int, of};
use je_core::{Base, Memory, NameId, Stmt, StmtForm, Ty};
use std::alloc::Global;
use std::marker::Model;

/// A label in scope, and whether it stands before a loop.
#[derive(Clone, Copy, PartialEq, Eq)]
pub struct Label {
    pub name: NameId,
    pub is_loop: bool,
}

/// The labels round a place, the innermost first, and whether a loop or a switch, and a loop, stand round it.
#[derive(Drop)]
pub struct Targets<'a> {
    pub labels: &'a [Label],
    pub has_break: bool,
    pub has_continue: bool,
}

impl<'a> Model for Targets<'a> {
    ghost use Rattle.std.specs.Prelude.{map};
    ghost use Rattle.je_fitting.specs.Statements.{Targets as TargetsOf};
    ghost use Rattle.fit_statements.specs.Labels.{label_seen};

    ghost Value = { TargetsOf };

    ghost view = { λ t. record {
      labels = map label_seen t.labels.now;
      has_break = t.has_break;
      has_continue = t.has_continue;
    } };
}

/// None, as at the head of a body.
pub fn no_targets<'a>() -> Targets<'a>
    ensures { result ≡ the_no_targets }
{
    Targets {
        labels: &[],
        has_break: false,
        has_continue: false,
    }
}

impl<'a> Targets<'a> {
    /// Those inside a loop.
    pub fn in_loop(&self) -> Targets<'a>
        ensures { result ≡ the_in_loop self.now }
    {
        Targets {
            labels: self.labels,
            has_break: true,
            has_continue: true,
        }
    }

    /// Those inside a switch.
    pub fn in_switch(&self) -> Targets<'a>
        ensures { result ≡ the_in_switch self.now }
    {
        Targets {
            labels: self.labels,
            has_break: true,
            has_continue: self.has_continue,
        }
    }
}

/// Labels, and one inside them.
pub fn with_label(
    alloc: Global,
    labels: &[Label],
    name: NameId,
    is_loop: bool,
) -> Result<Vec<Label>, Memory>
    ensures { IfOk result (λ all. map label_seen all.items ≡
        record { name = name; is_loop = is_loop } ∷ map label_seen labels.now) }
{
    let mut all = Vec::new(alloc);
    all.push(Label { name, is_loop })?;
    for label in labels {
        all.push(*label)?;
    }
    Ok(all)
}

/// Whether a statement is a loop.
#[tactic(auto, using(je_core::proofs::Views::stmt_form_of_view))]
pub fn is_loop(statement: &Stmt) -> bool
    ensures { result ≡ is_loop_form (stmt_form_of (stmt_view statement.now)) }
{
    match statement.form {
        StmtForm::Loop { .. } => true,
        StmtForm::DoLoop { .. } => true,
        _ => false,
    }
}

/// Whether the label of a name, the innermost one, stands before a loop; None where there is no such label.
pub fn label_of(labels: &[Label], name: NameId) -> Option<bool>
    ensures { result ≡ the_label_of (map label_seen labels.now) name }
{
    for label in labels {
        if same_name(label.name, name) {
            return Some(label.is_loop);
        }
    }
    None
}

fn is_loop_label(found: Option<bool>) -> bool
    ensures { result ≡ the_is_loop_label found }
{
    match found {
        None => false,
        Some(is_loop) => is_loop,
    }
}

/// Whether a jump has a target: of `continue` where `again` is true, else of `break`.
pub fn can_jump(targets: &Targets<'_>, again: bool, label: Option<NameId>) -> bool
    ensures { result ≡ the_can_jump targets.now again label }
{
    match label {
        None => {
            if again {
                targets.has_continue
            } else {
                targets.has_break
            }
        }
        Some(name) => {
            let found = label_of(targets.labels, name);
            if again {
                is_loop_label(found)
            } else {
                found.is_some()
            }
        }
    }
}

/// Whether each of these locals is there.
pub fn locals_there(body: &Body<'_>, locals: &[u32]) -> bool
    ensures { result ≡ the_locals_there body.now locals.now }
{
    let count = local_count(body);
    for local in locals {
        if *local as usize >= count {
            return false;
        }
    }
    true
}

fn local_count(body: &Body<'_>) -> usize
    ensures { result ≡ length body.now.locals }
{
    body.locals.len()
}

/// Whether a switch selects by values of a type (JLS 14.11).
pub fn is_selector(ty: Ty) -> bool
    ensures { result ≡ the_is_selector ty }
{
    is_int(ty)
        || same_type(ty, of(Base::Char))
        || same_type(ty, of(Base::Short))
        || same_type(ty, of(Base::Byte))
}
