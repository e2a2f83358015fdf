// Local variables (JLS 14.4).

ghost use Rattle.std.specs.Prelude.{◌≡◌, IfErr, IfOk};
ghost use Rattle.je_ast.specs.Spans.{join};
ghost use Rattle.je_core.specs.View.{view};
ghost use Rattle.je_typing.specs.Answers.{IsFault};
ghost use Rattle.je_typing.specs.Assignments.{assign_node};
ghost use Rattle.je_typing.specs.Judged.{gives};
ghost use Rattle.name_typing.specs.Variables.{typed_local as the_typed_local};
ghost use Rattle.source_subtypes.specs.View.{heads_of};
ghost use Rattle.body_typing.specs.LocalVariables.{new_name as the_new_name};
ghost use Rattle.body_places.specs.Places.{local_seen};
ghost use Rattle.body_places.specs.View.{program_seen};
ghost use Rattle.body_walks.specs.Scopes.{scope_seen};

use body_places::{LocalVariable, Program};
use body_walks::{Scope, typed_local};
use je_ast::Identifier;
use je_base::{Memory, Span};
use je_core::Expr;
use je_typing::{Refusal, TypeRule, check};
use operator_steps::typed_assignment;

/// Nothing where no other local of the name is in scope in its body, else LocalTwice, at the name.
pub fn new_name(scope: &Scope, name: Identifier) -> Result<(), Refusal>
    ensures ok { IfOk result (λ done. the_new_name (scope_seen scope.now) name ≡ gives done) }
    ensures err { IfErr result (IsFault (the_new_name (scope_seen scope.now) name)) }
{
    check(TypeRule::LocalTwice, name.span, !scope.has_local(name.name))
}

/// The assignment of an initializer of the local's type, at the local's name; `value_span` is that of the initializer,
/// brackets included.
pub fn assigned_to(
    program: &Program,
    local: &LocalVariable,
    name: Identifier,
    value_span: Span,
    value: Expr,
) -> Result<Expr, Memory>
    ensures { IfOk result (λ e. view e ≡ (assign_node (heads_of program.now.heads.now) name.span
        (join name.span value_span)
        (the_typed_local (program_seen program.now) (local_seen local.now) name.span)
        (view value)).node) }
{
    let place = typed_local(program, local, name.span)?;
    let span = Span {
        file: name.span.file,
        start: name.span.start,
        end: value_span.end,
    };
    let alloc = program.source.alloc;
    let whole = typed_assignment(alloc, program.heads, name.span, span, place, value)?;
    Ok(whole.node)
}
