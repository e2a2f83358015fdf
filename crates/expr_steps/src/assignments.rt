// `++` and `--` (JLS 15.14, 15.15.1, 15.15.2).

ghost use Rattle.std.specs.Prelude.{◌≡◌, IfOk, IfErr};
ghost use Rattle.je_core.specs.View.{form_view, view};
ghost use Rattle.je_core.specs.Core.{form_of};
ghost use Rattle.je_typing.specs.Answers.{IsFault};
ghost use Rattle.je_typing.specs.Assignments.{is_place as the_is_place, stepped as the_stepped};
ghost use Rattle.je_typing.specs.Judged.{gives};
ghost use Rattle.typed_nodes.specs.Seen.{seen};

use je_base::Span;
use je_core::{BinOp, Expr, Form, Mark, make_update};
use je_typing::{Refusal, TypeRule, check};
use std::alloc::Global;
use typed_nodes::{TypedExpr, is_numeric};

fn is_place_form(form: &Form) -> bool
    ensures { result ≡ the_is_place (form_view form.now) }
{
    match form {
        Form::Local { .. } | Form::Field { .. } | Form::Static { .. } | Form::Index { .. } => true,
        _ => false,
    }
}

/// Whether a node is a variable.
#[tactic(auto, using(je_core::proofs::Views::view_is))]
pub fn is_place(node: &Expr) -> bool
    ensures { result ≡ the_is_place (form_of (view node.now)) }
{
    is_place_form(&node.form)
}

/// `++` is Add, `--` is Sub; the postfix ones give the old value.
#[tactic(auto, unfolding(je_typing::specs::Assignments::stepped, je_typing::specs::Assignments::place), using(je_typing::proofs::Walks::walks, je_core::proofs::Views::view_is))]
pub fn stepped(
    alloc: Global,
    op: BinOp,
    gives_old: bool,
    at: Span,
    operand_span: Span,
    span: Span,
    operand: TypedExpr,
) -> Result<TypedExpr, Refusal>
    ensures ok { IfOk result (λ t. the_stepped op gives_old at operand_span span (seen operand)
        ≡ gives (seen t)) }
    ensures err { IfErr result (IsFault
        (the_stepped op gives_old at operand_span span (seen operand))) }
{
    let TypedExpr { node, ty } = operand;
    check(TypeRule::BadOperand, at, is_numeric(&ty))?;
    check(TypeRule::BadTarget, operand_span, is_place(&node))?;
    let mark = Mark {
        ty: node.ty,
        span,
        at,
    };
    let node = make_update(alloc, mark, node, op, None, gives_old)?;
    Ok(TypedExpr { node, ty })
}
