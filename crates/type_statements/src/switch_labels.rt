// The labels before a group of a `switch` (JLS 14.11).

ghost use Rattle.std.specs.Prelude.{◌≡◌, ◌<◌, ◌^◌, IfErr, IfOk, IfSome, OnOk, map, option_map};
ghost use Rattle.je_ast.specs.View.{label_view, label_views_of, view};
ghost use Rattle.je_core.specs.declared.types.ClassId.{ClassId as ClassNumber};
ghost use Rattle.je_typing.specs.Answers.{IsFault};
ghost use Rattle.je_typing.specs.Judged.{gives};
ghost use Rattle.body_typing.specs.Switches.{behind_label as the_behind_label, constants_of as the_constants_of, label_value as the_label_value, labels as the_labels};
ghost use Rattle.typed_nodes.specs.Seen.{seen};
ghost use Rattle.value_statements.specs.Labels.{label_seen};
ghost use Rattle.body_places.specs.View.{program_seen};
ghost use Rattle.body_scopes.specs.View.{scope_seen};
ghost use Rattle.statement_forms.specs.Bodies.{HasAllMethods};
ghost use Rattle.statement_forms.specs.Seen.{known_of, program_of, progress_seen};
ghost use Rattle.type_statements.specs.way.Labelled.{behind_one, one_label};

use crate::expressing::valued;
use body_places::Program;
use body_scopes::Scope;
use je_ast::{Expr, Identifier, Label};
use je_base::Memory;
use je_core::ClassId;
use je_typing::Refusal;
use member_faults::constants_of;
use statement_forms::{Progress, Walk, alloc, constant_place, place_node};
use tree_spans::span;
use typed_nodes::TypedExpr;
use value_statements::WrittenLabel;

fn constants<'a>(program: &Program<'a>, class: ClassId) -> &'a [Identifier]
    ensures { result.now ≡ the_constants_of (program_seen program.now) class.0 }
{
    constants_of(program.source.sites.written(class))
}

// No memory holds as many constants as a number can't name.
fn few(place: Option<usize>) -> Result<Option<usize>, Memory>
    ensures is { IfOk result (λ p. p ≡ place) }
    ensures few { IfOk result (λ p. IfSome p (λ n. n < 2 ^ 31)) }
{
    match place {
        Some(place) if place >= 2_147_483_648 => Err(Memory),
        _ => Ok(place),
    }
}

// The value of a label, and what it mentions.
#[tactic(auto, using(je_typing::proofs::Walks::walks))]
fn label_value<'a>(
    walk: Walk,
    of_enum: Option<ClassId>,
    scope: &Scope,
    progress: &mut Progress<'a>,
    label: &'a Expr,
) -> Result<TypedExpr, Refusal>
    requires { HasAllMethods walk.bodies.now }
    ensures ok { IfOk result (λ t. the_label_value (program_of walk.entry) (known_of walk.entry)
        (option_map (λ (c : ClassNumber). c.0) of_enum) (scope_seen scope.now)
        (option_map (λ (c : ClassNumber). c.0) of_enum) (view label.now) ≡ gives (seen t)) }
    ensures met { OnOk result (progress_seen progress.new ≡ the_behind_label (program_of walk.entry)
        (known_of walk.entry) (option_map (λ (c : ClassNumber). c.0) of_enum)
        (scope_seen scope.now) (option_map (λ (c : ClassNumber). c.0) of_enum) (view label.now)
        (progress_seen progress.old)) }
    ensures err { IfErr result (IsFault (the_label_value (program_of walk.entry)
        (known_of walk.entry) (option_map (λ (c : ClassNumber). c.0) of_enum)
        (scope_seen scope.now) (option_map (λ (c : ClassNumber). c.0) of_enum) (view label.now))) }
{
    let Some(class) = of_enum else {
        return valued(walk, scope, progress, label);
    };
    let bodies = walk.bodies;
    let constants = constants(&bodies.calls.program, class);
    let place = few(constant_place(constants, label))?;
    Ok(place_node(alloc(walk), span(label), place))
}

// One label, and what it mentions.
#[tactic(auto, using(je_typing::proofs::Walks::walks))]
fn label<'a>(
    walk: Walk,
    of_enum: Option<ClassId>,
    scope: &Scope,
    progress: &mut Progress<'a>,
    label: &'a Label,
) -> Result<WrittenLabel, Refusal>
    requires { HasAllMethods walk.bodies.now }
    ensures ok { IfOk result (λ l. one_label walk.entry
        (option_map (λ (c : ClassNumber). c.0) of_enum) (scope_seen scope.now)
        (label_view label.now) ≡ gives (label_seen l)) }
    ensures met { OnOk result (progress_seen progress.new ≡ behind_one walk.entry
        (option_map (λ (c : ClassNumber). c.0) of_enum) (scope_seen scope.now)
        (label_view label.now) (progress_seen progress.old)) }
    ensures err { IfErr result (IsFault (one_label walk.entry
        (option_map (λ (c : ClassNumber). c.0) of_enum) (scope_seen scope.now)
        (label_view label.now))) }
{
    match label {
        Label::Case { value: written } => {
            let value = label_value(walk, of_enum, scope, progress, written)?;
            let span = span(written);
            Ok(WrittenLabel::Case { span, value })
        }
        Label::Default { word } => Ok(WrittenLabel::Default { span: *word }),
    }
}

/// The labels before a group, and what they mention.
#[tactic(auto, using(je_typing::proofs::Walks::walks, crate::proofs::LabelLists::label_lists))]
pub fn labels<'a>(
    walk: Walk,
    of_enum: Option<ClassId>,
    scope: &Scope,
    progress: &mut Progress<'a>,
    list: &'a [Label],
) -> Result<Vec<WrittenLabel>, Refusal>
    requires { HasAllMethods walk.bodies.now }
    ensures ok { IfOk result (λ ls. the_labels (program_of walk.entry) (known_of walk.entry)
        (option_map (λ (c : ClassNumber). c.0) of_enum) (scope_seen scope.now)
        (progress_seen progress.old) (label_views_of list.now) ≡ gives (record {
          labels = map label_seen ls.items;
          progress = progress_seen progress.new;
        })) }
    ensures err { IfErr result (IsFault (the_labels (program_of walk.entry) (known_of walk.entry)
        (option_map (λ (c : ClassNumber). c.0) of_enum) (scope_seen scope.now)
        (progress_seen progress.old) (label_views_of list.now))) }
{
    let mut made = Vec::new(alloc(walk));
    for written in list {
        let next = label(walk, of_enum, scope, progress, written)?;
        made.push(next)?;
    }
    Ok(made)
}
