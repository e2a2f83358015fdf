// What constructors call by no word of their own.

ghost use Rattle.std.specs.Prelude.{◌≡◌, OnOk, map, option_map};
ghost use Rattle.je_core.specs.View.{class_view, method_view};
ghost use Rattle.class_members.specs.Places.{member_of};
ghost use Rattle.je_types.specs.Views.{program_of};
ghost use Rattle.rule_breaks.specs.Breaks.{of_each};
ghost use Rattle.rule_breaks.specs.way.Found.{followed_by};
ghost use Rattle.taming_db.specs.View.{rows};
ghost use Rattle.class_uses.specs.Constructed.{call_breaks, constructing_breaks, implicit_breaks};

use constructor_calls::implicitly_called;
use je_core::{Class, ClassId, Memory, Method, Span};
use je_types::Typed;
use node_rules::may_call;
use rule_breaks::{ConfinementRule, Found};
use taming_db::Taming;

fn judge_call(
    taming: &Taming,
    span: Span,
    called: Option<(ClassId, usize)>,
    found: &mut Found,
) -> Result<(), Memory>
    ensures { OnOk result (found.new ≡
        followed_by found.old (call_breaks (rows taming.now) span (option_map member_of called))) }
{
    match called {
        None => Ok(()),
        Some((class, at)) => {
            let allowed = may_call(taming, class, at);
            found.add_where(!allowed, ConfinementRule::NotEnabled, span)
        }
    }
}

fn judge_constructor(
    typed: &Typed,
    taming: &Taming,
    class: &Class,
    method: &Method,
    found: &mut Found,
) -> Result<(), Memory>
    ensures { OnOk result (found.new ≡
        followed_by found.old
        (implicit_breaks (program_of typed.now) (rows taming.now) (class_view class.now).superclass
        (class_view class.now).span (method_view method.now))) }
{
    let called = implicitly_called(typed.program(), class.superclass, method);
    judge_call(taming, class.span, called, found)
}

/// Adds the break of a class whose constructors call one of the superclass's that isn't enabled, by no word of their own: at its
/// span.
pub fn judge_constructing(
    typed: &Typed,
    taming: &Taming,
    class: &Class,
    found: &mut Found,
) -> Result<(), Memory>
    ensures { OnOk result (found.new ≡
        followed_by found.old
        (constructing_breaks (program_of typed.now) (rows taming.now) (class_view class.now))) }
{
    for method in &class.methods {
        judge_constructor(typed, taming, class, method, found)?;
    }
    Ok(())
}
