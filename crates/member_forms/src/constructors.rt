// Constructors, and the call of another one at the head of one (JLS 8.8, 8.8.7.1).

ghost use Rattle.std.specs.Prelude.{◌≡◌, IfErr, IfOk, map, option_map};
ghost use Rattle.je_ast.specs.View.{constructor_invocation_node_view, constructor_invocation_view};
ghost use Rattle.je_core.specs.Core.{form_of};
ghost use Rattle.je_core.specs.View.{form_view, stmt_view, view};
ghost use Rattle.declarations.specs.View.{method_shown};
ghost use Rattle.je_typing.specs.Answers.{IsFault};
ghost use Rattle.je_typing.specs.Judged.{gives};
ghost use Rattle.typed_nodes.specs.Seen.{seen};
ghost use Rattle.body_typing.specs.FinalVariables.{Scope as Seen};
ghost use Rattle.body_typing.specs.Bodies.{Progress as Progressed};
ghost use Rattle.class_typing.specs.Captures.{listed};
ghost use Rattle.class_typing.specs.Constructors.{constructor_call as the_constructor_call, head_code as the_head_code, own_calls as the_own_calls, place_called as the_place_called, word_of as the_word_of};
ghost use Rattle.member_forms.specs.Calls.{own_call_seen};
ghost use Rattle.body_places.specs.Places.{place_seen};
ghost use Rattle.statement_forms.specs.Seen.{done_in, progress_seen};
ghost use Rattle.member_forms.specs.Seen.{members_seen, program_of};
ghost use Rattle.member_forms.specs.Walks.{constructor_code as the_constructor_code, with_head as the_with_head};
ghost use Rattle.member_forms.specs.way.Heads.{own_calls_at};

use crate::cycles::OwnCall;
use crate::done::{MembersDone, of_method};
use crate::methods::code_of;
use crate::scopes::number;
use crate::walk::{ClassWalk, alloc};
use body_places::Place;
use creation_steps::{own_constructor_call, superclass_constructor_call};
use declarations::MethodDecl;
use je_ast::{Block, ConstructorCall, Identifier};
use je_base::{Memory, Span};
use je_core::{Expr, Form, Stmt};
use je_typing::Refusal;
use statement_forms::{Done, Progress, block_of, performed};
use std::alloc::Global;
use typed_nodes::TypedExpr;

/// The head of the constructor at a place: what is written there, and the call that it came to, if a word says one.
#[derive(Drop)]
pub struct ConstructorHead<'a> {
    pub at: usize,
    pub written: &'a ConstructorCall,
    pub call: Option<TypedExpr>,
}

/// The call of another constructor by `this`, or by `super`, of arguments that are judged.
pub fn constructor_call(
    walk: ClassWalk,
    place: Place,
    is_super: bool,
    word: Span,
    args: Vec<TypedExpr>,
) -> Result<TypedExpr, Refusal>
    ensures ok { IfOk result (λ t. the_constructor_call (program_of walk.entry) is_super
        (place_seen place.entry) word (map seen args.items) ≡ gives (seen t)) }
    ensures err { IfErr result (IsFault (the_constructor_call (program_of walk.entry) is_super
        (place_seen place.entry) word (map seen args.items))) }
{
    let bodies = walk.bodies;
    let calls = bodies.calls;
    if is_super {
        superclass_constructor_call(calls, place, word, word, args)
    } else {
        own_constructor_call(calls, place, word, word, args)
    }
}

fn place_in(form: &Form) -> usize
    ensures { result ≡ the_place_called (form_view form.now) }
{
    match form {
        Form::CallExact { method, .. } => *method as usize,
        _ => 0,
    }
}

// The place of the constructor that is called.
#[tactic(auto, using(je_core::proofs::Views::form_of_view))]
fn place_called(node: &Expr) -> usize
    ensures { result ≡ the_place_called (form_of (view node.now)) }
{
    place_in(&node.form)
}

// The word of a call at a head, or another place of the text.
#[tactic(auto, using(je_ast::proofs::Views::constructor_invocation_is))]
fn word_of(written: &ConstructorCall, otherwise: Span) -> Span
    ensures { result ≡ the_word_of (constructor_invocation_view written.now) otherwise }
{
    word_of_here(written, otherwise)
}

fn word_of_here(written: &ConstructorCall, otherwise: Span) -> Span
    ensures { result ≡ the_word_of (constructor_invocation_node_view written.now) otherwise }
{
    match written {
        ConstructorCall::Implicit => otherwise,
        ConstructorCall::Explicit { word, .. } => *word,
    }
}

// A call of another constructor of the class, if there is one.
fn own_call(
    alloc: Global,
    at: usize,
    word: Span,
    call: &Option<TypedExpr>,
) -> Result<Vec<OwnCall>, Memory>
    ensures { IfOk result (λ cs. map own_call_seen cs.items ≡
        own_calls_at at word (listed (option_map seen call.now))) }
{
    let mut calls = Vec::new(alloc);
    if let Some(call) = call {
        let to = place_called(&call.node);
        calls.push(OwnCall {
            place: at,
            word,
            to,
        })?;
    }
    Ok(calls)
}

// The calls of another constructor of the class that stand at a head.
#[tactic(auto, using(je_ast::proofs::Views::constructor_invocation_is))]
fn own_calls(
    alloc: Global,
    at: usize,
    written: &ConstructorCall,
    call: &Option<TypedExpr>,
) -> Result<Vec<OwnCall>, Memory>
    ensures { IfOk result (λ cs. map own_call_seen cs.items ≡ the_own_calls at
        (constructor_invocation_view written.now) (listed (option_map seen call.now))) }
{
    own_calls_here(alloc, at, written, call)
}

fn own_calls_here(
    alloc: Global,
    at: usize,
    written: &ConstructorCall,
    call: &Option<TypedExpr>,
) -> Result<Vec<OwnCall>, Memory>
    ensures { IfOk result (λ cs. map own_call_seen cs.items ≡ the_own_calls at
        (constructor_invocation_node_view written.now) (listed (option_map seen call.now))) }
{
    match written {
        ConstructorCall::Explicit {
            is_super: false,
            word,
            ..
        } => own_call(alloc, at, *word, call),
        _ => Ok(Vec::new(alloc)),
    }
}

// The call at a head, as a statement at its word.
fn head_code(alloc: Global, word: Span, call: Option<TypedExpr>) -> Result<Vec<Stmt>, Memory>
    ensures { IfOk result (λ ss. map stmt_view ss.items ≡
        the_head_code word (listed (option_map seen call))) }
{
    let mut code = Vec::new(alloc);
    if let Some(call) = call {
        code.push(performed(alloc, word, call.node)?)?;
    }
    Ok(code)
}

// What the statements behind a head came to, with the call at it.
fn with_head(
    walk: ClassWalk,
    opening: Span,
    written: &ConstructorCall,
    call: Option<TypedExpr>,
    done: Done,
) -> Result<Done, Memory>
    ensures { IfOk result (λ d. (s : Seen) (pr : Progressed) → done_in d s pr ≡
        the_with_head walk.entry opening (constructor_invocation_view written.now)
        (listed (option_map seen call)) (done_in done s pr)) }
{
    let Done {
        code: mut behind,
        numbers,
    } = done;
    let mut code = head_code(alloc(walk), word_of(written, opening), call)?;
    code.append(&mut behind)?;
    Ok(Done { code, numbers })
}

/// A constructor, of what its head and its statements came to.
pub fn constructor_code<'a>(
    walk: ClassWalk,
    name: Identifier,
    declared: &MethodDecl,
    head: ConstructorHead,
    block: &Block,
    progress: Progress<'a>,
    done: Done,
) -> Result<MembersDone<'a>, Memory>
    ensures { (s : Seen) → IfOk result (λ d. members_seen d ≡ the_constructor_code walk.entry
        head.entry.at name (method_shown declared.now)
        (constructor_invocation_view head.entry.written.now)
        (listed (option_map seen head.entry.call)) block.now.opening block.now.closing
        (done_in done s (progress_seen progress.entry))) }
{
    let Progress { locals, met } = progress;
    let ConstructorHead { at, written, call } = head;
    let calls = own_calls(alloc(walk), at, written, &call)?;
    let whole = with_head(walk, block.opening, written, call, done)?;
    let body = block_of(alloc(walk), block.opening, block.closing, whole)?;
    let word = number(walk, "new");
    let method = code_of(walk, word, name.span, declared, locals, Some(body))?;
    let members = of_method(alloc(walk), method, calls, met)?;
    Ok(members)
}
