// The rules of which an expression is judged by itself.

ghost use Rattle.std.specs.Prelude.{◌≡◌, OnOk};
ghost use Rattle.je_core.specs.View.{form_view};
ghost use Rattle.je_types.specs.Views.{program_of};
ghost use Rattle.rule_breaks.specs.way.Found.{followed_by};
ghost use Rattle.taming_db.specs.View.{rows};
ghost use Rattle.node_rules.specs.Nodes.{node_breaks};

use crate::comparisons::judge_comparison;
use crate::texts::judge_texts;
use crate::uses::judge_member;
use je_core::{Form, Memory, Span};
use je_types::Typed;
use rule_breaks::Found;
use std::alloc::Global;
use taming_db::Taming;

/// Adds the breaks of an expression of a form by itself; `at` is its name or operator.
pub fn judge_node(
    alloc: Global,
    typed: &Typed,
    taming: &Taming,
    at: Span,
    form: &Form,
    found: &mut Found,
) -> Result<(), Memory>
    ensures { OnOk result (found.new ≡
        followed_by found.old
        (node_breaks (program_of typed.now) (rows taming.now) at (form_view form.now))) }
{
    judge_comparison(typed, taming, at, form, found)?;
    judge_texts(alloc, typed, taming, form, found)?;
    judge_member(taming, at, form, found)
}
