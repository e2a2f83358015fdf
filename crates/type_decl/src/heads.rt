// The call of another constructor at the head of one (JLS 8.8.7.1).

ghost use Rattle.std.specs.Prelude.{◌≡◌, IfErr, IfOk, OnOk, flat_map, map, option_map};
ghost use Rattle.je_ast.specs.Trees.{explicit};
ghost use Rattle.je_ast.specs.View.{constructor_invocation_node_view, constructor_invocation_view, views_of};
ghost use Rattle.je_typing.specs.Answers.{IsFault};
ghost use Rattle.je_typing.specs.Judged.{gives};
ghost use Rattle.typed_nodes.specs.Seen.{seen};
ghost use Rattle.body_typing.specs.Expressions.{values as the_values};
ghost use Rattle.body_typing.specs.Mentions.{all_mentions};
ghost use Rattle.body_typing.specs.Bodies.{met_by, with_met};
ghost use Rattle.class_typing.specs.Captures.{listed};
ghost use Rattle.class_typing.specs.Constructors.{head_call as the_head_call, in_arguments, met_in_head};
ghost use Rattle.body_scopes.specs.View.{scope_seen};
ghost use Rattle.member_forms.specs.Bodies.{HasAllMethods};
ghost use Rattle.member_forms.specs.Statements.{progress_seen};
ghost use Rattle.member_forms.specs.Seen.{known_of, program_of};
ghost use Rattle.member_forms.specs.Walks.{class_span as the_class_span};

use body_scopes::Scope;
use je_ast::{ConstructorCall, Expr};
use je_base::Span;
use je_typing::Refusal;
use member_forms::{
    ClassWalk, Progress, add_all_met, class_span, constructor_call, implicit_constructor_call,
};
use name_walk::Context;
use type_statements::values;
use typed_nodes::TypedExpr;

// The arguments of such a call, where there is no object yet.
#[tactic(auto, using(je_typing::proofs::Walks::walks))]
fn arguments<'a>(
    walk: ClassWalk,
    scope: &mut Scope,
    progress: &mut Progress<'a>,
    exprs: &'a [Expr],
) -> Result<Vec<TypedExpr>, Refusal>
    requires { HasAllMethods walk.bodies.now }
    ensures ok { IfOk result (λ ts. the_values (program_of walk.entry) (known_of walk.entry)
        (in_arguments (scope_seen scope.old)) (views_of exprs.now) ≡ gives (map seen ts.items)) }
    ensures met { OnOk result (progress_seen progress.new ≡ with_met
        (flat_map (met_by (program_of walk.entry) (in_arguments (scope_seen scope.old)))
        (all_mentions (views_of exprs.now))) (progress_seen progress.old)) }
    ensures stays { OnOk result (scope_seen scope.new ≡ scope_seen scope.old) }
    ensures err { IfErr result (IsFault (the_values (program_of walk.entry) (known_of walk.entry)
        (in_arguments (scope_seen scope.old)) (views_of exprs.now))) }
{
    let context = scope.here.context;
    scope.here.context = Context::ConstructorArguments;
    let args = values(walk.bodies, scope, exprs)?;
    add_all_met(walk.bodies, scope, exprs, &mut progress.met)?;
    scope.here.context = context;
    Ok(args)
}

// The call at a head that a word says.
#[tactic(auto, using(je_typing::proofs::Walks::walks))]
fn explicit_call<'a>(
    walk: ClassWalk,
    scope: &mut Scope,
    progress: &mut Progress<'a>,
    is_super: bool,
    word: Span,
    exprs: &'a [Expr],
) -> Result<Option<TypedExpr>, Refusal>
    requires { HasAllMethods walk.bodies.now }
    ensures ok { IfOk result (λ t. the_head_call (program_of walk.entry) (known_of walk.entry)
        (scope_seen scope.old) (the_class_span walk.entry)
        (explicit is_super word (views_of exprs.now)) ≡ gives (listed (option_map seen t))) }
    ensures met { OnOk result (progress_seen progress.new ≡ with_met (met_in_head
        (program_of walk.entry) (scope_seen scope.old)
        (explicit is_super word (views_of exprs.now))) (progress_seen progress.old)) }
    ensures stays { OnOk result (scope_seen scope.new ≡ scope_seen scope.old) }
    ensures err { IfErr result (IsFault (the_head_call (program_of walk.entry)
        (known_of walk.entry) (scope_seen scope.old) (the_class_span walk.entry)
        (explicit is_super word (views_of exprs.now)))) }
{
    let args = arguments(walk, scope, progress, exprs)?;
    let call = constructor_call(walk, scope.place(), is_super, word, args)?;
    Ok(Some(call))
}

/// The call at the head of a constructor that a word says, if one does. The call of the superclass's constructor that
/// no word says is judged, and leaves nothing.
#[tactic(auto, using(je_ast::proofs::Views::constructor_invocation_is))]
pub fn head_call<'a>(
    walk: ClassWalk,
    scope: &mut Scope,
    progress: &mut Progress<'a>,
    call: &'a ConstructorCall,
) -> Result<Option<TypedExpr>, Refusal>
    requires { HasAllMethods walk.bodies.now }
    ensures ok { IfOk result (λ t. the_head_call (program_of walk.entry) (known_of walk.entry)
        (scope_seen scope.old) (the_class_span walk.entry) (constructor_invocation_view call.now)
        ≡ gives (listed (option_map seen t))) }
    ensures met { OnOk result (progress_seen progress.new ≡ with_met (met_in_head
        (program_of walk.entry) (scope_seen scope.old) (constructor_invocation_view call.now))
        (progress_seen progress.old)) }
    ensures stays { OnOk result (scope_seen scope.new ≡ scope_seen scope.old) }
    ensures err { IfErr result (IsFault (the_head_call (program_of walk.entry)
        (known_of walk.entry) (scope_seen scope.old) (the_class_span walk.entry)
        (constructor_invocation_view call.now))) }
{
    head_call_here(walk, scope, progress, call)
}

#[tactic(auto, using(je_typing::proofs::Walks::walks))]
fn head_call_here<'a>(
    walk: ClassWalk,
    scope: &mut Scope,
    progress: &mut Progress<'a>,
    call: &'a ConstructorCall,
) -> Result<Option<TypedExpr>, Refusal>
    requires { HasAllMethods walk.bodies.now }
    ensures ok { IfOk result (λ t. the_head_call (program_of walk.entry) (known_of walk.entry)
        (scope_seen scope.old) (the_class_span walk.entry)
        (constructor_invocation_node_view call.now) ≡ gives (listed (option_map seen t))) }
    ensures met { OnOk result (progress_seen progress.new ≡ with_met (met_in_head
        (program_of walk.entry) (scope_seen scope.old)
        (constructor_invocation_node_view call.now)) (progress_seen progress.old)) }
    ensures stays { OnOk result (scope_seen scope.new ≡ scope_seen scope.old) }
    ensures err { IfErr result (IsFault (the_head_call (program_of walk.entry)
        (known_of walk.entry) (scope_seen scope.old) (the_class_span walk.entry)
        (constructor_invocation_node_view call.now))) }
{
    let bodies = walk.bodies;
    match call {
        ConstructorCall::Implicit => {
            implicit_constructor_call(bodies.calls, scope.place(), class_span(walk))?;
            Ok(None)
        }
        ConstructorCall::Explicit {
            is_super,
            word,
            args,
        } => explicit_call(walk, scope, progress, *is_super, *word, args),
    }
}
