// What no source writes: default constructors, and those of anonymous classes (JLS 8.8.9, 15.9.5.1).

ghost use Rattle.std.specs.Prelude.{◌≡◌, ◌∷◌, [], IfErr, IfOk, map, slice_get};
ghost use Rattle.std.specs.List.{list_any};
ghost use Rattle.je_ast.specs.Types.{type_view};
ghost use Rattle.je_core.specs.Core.{Block, core_stmts, stmt};
ghost use Rattle.je_core.specs.View.{method_view, stmt_view, view, views};
ghost use Rattle.je_typing.specs.Answers.{IsFault};
ghost use Rattle.je_typing.specs.Judged.{gives};
ghost use Rattle.declarations.specs.View.{method_shown};
ghost use Rattle.name_types.specs.View.{shown};
ghost use Rattle.typed_nodes.specs.Seen.{seen};
ghost use Rattle.call_typing.specs.Constructors.{access_in, default_flags};
ghost use Rattle.call_typing.specs.Creations.{made_of as the_made_of};
ghost use Rattle.body_typing.specs.Expressions.{anonymous_type as the_anonymous_type};
ghost use Rattle.overloads.specs.View.{candidate_seen};
ghost use Rattle.class_typing.specs.Constructors.{declared_parameters as the_declared_parameters, locals_from as the_locals_from, unnamed_local, unwritten_constructor as constructor_named};
ghost use Rattle.class_typing.specs.Members.{nothing as the_nothing};
ghost use Rattle.body_scopes.specs.View.{scope_seen};
ghost use Rattle.statement_forms.specs.Bodies.{standing_seen};
ghost use Rattle.member_forms.specs.Seen.{members_seen, program_of};
ghost use Rattle.member_forms.specs.Walks.{anonymous_code as the_anonymous_code, chosen_by, default_code as the_default_code, default_constructor as the_default_constructor, is_without_constructor as the_is_without_constructor};
ghost use Rattle.member_forms.specs.way.Unwritten.{handed_to, is_constructor, unwritten_constructor as the_unwritten_constructor};

use crate::counting::numbered;
use crate::done::{MembersDone, of_method};
use crate::methods::{all_erased, kept};
use crate::scopes::{class_span, number, scope_in};
use crate::walk::{ClassWalk, alloc};
use body_places::this_node;
use body_scopes::Scope;
use creation_steps::{
    chosen_constructor, default_constructor as default_candidate, implicit_constructor_call,
    made_of,
};
use declarations::MethodDecl;
use fit_parts::of;
use je_ast::TyName;
use je_base::{Memory, NameId, Span};
use je_core::{
    Base, Expr as Node, Flags, Local, Mark, Method, Stmt, Ty, make_block, make_call_exact,
    make_local,
};
use je_typing::Refusal;
use name_types::SrcTy;
use name_walk::Context;
use overloads::Candidate;
use statement_forms::{Standing, anonymous_type, copied_frame, parts, performed};
use std::alloc::Global;
use std::rc::Rc;
use typed_nodes::TypedExpr;

// The parameters of a constructor without names, as its locals.
fn unnamed_locals(
    alloc: Global,
    no_name: NameId,
    span: Span,
    params: &[Ty],
) -> Result<Vec<Local>, Memory>
    ensures { IfOk result (λ ls. ls.items ≡ map (unnamed_local no_name span) params.now) }
{
    let mut locals = Vec::new(alloc);
    for ty in params {
        locals.push(Local {
            name: no_name,
            ty: *ty,
            is_final: false,
            span,
        })?;
    }
    Ok(locals)
}

// What a default constructor of the class may do.
fn unwritten_flags(walk: ClassWalk) -> Flags
    ensures { result ≡ default_flags
        (access_in (slice_get (program_of walk.entry).classes walk.entry.class.0)) }
{
    let bodies = walk.bodies;
    default_candidate(alloc(walk), bodies.calls.program.classes, walk.class).flags
}

// A block with that span alone, which declares nothing.
fn block_at(alloc: Global, span: Span, code: Vec<Stmt>) -> Result<Stmt, Memory>
    ensures { IfOk result (λ s. stmt_view s ≡
        stmt (Block [] (core_stmts (map stmt_view code.items))) span span) }
{
    let parts = parts(alloc, code)?;
    Ok(make_block(span, span, Vec::new(alloc), parts))
}

// A constructor with that span alone, whose parameters have no names.
fn constructor_at(
    alloc: Global,
    name: NameId,
    no_name: NameId,
    span: Span,
    flags: Flags,
    params: Vec<Ty>,
    code: Vec<Stmt>,
) -> Result<Method, Memory>
    ensures { IfOk result (λ m. method_view m ≡ constructor_named name no_name span flags
        params.items (map stmt_view code.items)) }
{
    let locals = unnamed_locals(alloc, no_name, span, &params)?;
    let code = block_at(alloc, span, code)?;
    let body = kept(alloc, Some(code))?;
    Ok(Method {
        name,
        span,
        params,
        returns: of(Base::Void),
        flags,
        throws: Vec::new(alloc),
        locals,
        body,
    })
}

// A constructor that no source writes, of the access of its class.
fn unwritten_constructor(
    walk: ClassWalk,
    params: Vec<Ty>,
    code: Vec<Stmt>,
) -> Result<Method, Memory>
    ensures { IfOk result (λ m. method_view m ≡ the_unwritten_constructor walk.entry params.items
        (map stmt_view code.items)) }
{
    let word = number(walk, "new");
    let no_name = number(walk, "");
    let span = class_span(walk);
    let flags = unwritten_flags(walk);
    constructor_at(alloc(walk), word, no_name, span, flags, params, code)
}

fn one_method<'a>(alloc: Global, method: Method) -> Result<MembersDone<'a>, Memory>
    ensures { IfOk result (λ d. members_seen d ≡
        record the_nothing { methods = method_view method ∷ [] }) }
{
    of_method(alloc, method, Vec::new(alloc), Vec::new(alloc))
}

fn default_code<'a>(walk: ClassWalk) -> Result<MembersDone<'a>, Memory>
    ensures { IfOk result (λ d. members_seen d ≡ the_default_code walk.entry) }
{
    let params = Vec::new(alloc(walk));
    let method = unwritten_constructor(walk, params, Vec::new(alloc(walk)))?;
    one_method(alloc(walk), method)
}

/// The default constructor (JLS 8.8.9).
#[tactic(auto, using(je_typing::proofs::Walks::walks))]
pub fn default_constructor<'a>(walk: ClassWalk) -> Result<MembersDone<'a>, Refusal>
    ensures ok { IfOk result (λ d. the_default_constructor walk.entry ≡ gives (members_seen d)) }
    ensures err { IfErr result (IsFault (the_default_constructor walk.entry)) }
{
    let bodies = walk.bodies;
    let scope = scope_in(walk, Context::Instance, None, true);
    implicit_constructor_call(bodies.calls, scope.place(), class_span(walk))?;
    let done = default_code(walk)?;
    Ok(done)
}

fn has_constructor(methods: &[MethodDecl]) -> bool
    ensures { result ≡ list_any is_constructor (map method_shown methods.now) }
{
    for method in methods {
        if method.is_constructor {
            return true;
        }
    }
    false
}

/// Whether the class declares no constructor.
#[tactic(auto, using(crate::proofs::Among::without))]
pub fn is_without_constructor(walk: ClassWalk) -> bool
    ensures { result ≡ the_is_without_constructor walk.entry }
{
    let bodies = walk.bodies;
    match bodies.calls.program.classes.class(walk.class) {
        Some(declared) => !has_constructor(&declared.methods),
        None => true,
    }
}

/// A scope that was kept.
pub fn scope_at<'a>(alloc: Global, standing: &'a Standing) -> Result<Scope<'a>, Memory>
    ensures { IfOk result (λ s. scope_seen s ≡ standing_seen standing.now) }
{
    let here = copied_frame(alloc, &standing.here)?;
    let given = standing.given.to_vec(alloc)?;
    Ok(Scope {
        here,
        round: &standing.round,
        is_constructor: standing.is_constructor,
        given,
    })
}

// The type whose constructor the class behind a word `new` calls.
fn made_by(walk: ClassWalk, word: Span, ty: &TyName) -> Result<SrcTy, Memory>
    ensures { IfOk result (λ t. shown t ≡ the_made_of (program_of walk.entry)
        (the_anonymous_type (program_of walk.entry) word (type_view ty.now))) }
{
    let bodies = walk.bodies;
    let program = &bodies.calls.program;
    let class = bodies.spots.anonymous(program.source.sites, word);
    let named = anonymous_type(program, class, ty)?;
    made_of(alloc(walk), program.heads, &named)
}

/// The constructor that an anonymous class calls, which stands in a scope behind a word `new` with that type, by
/// arguments that are judged.
#[tactic(auto, using(je_typing::proofs::Walks::walks))]
pub fn chosen_for(
    walk: ClassWalk,
    scope: &Scope,
    word: Span,
    ty: &TyName,
    args: &[TypedExpr],
) -> Result<Candidate, Refusal>
    ensures ok { IfOk result (λ m. chosen_by walk.entry (scope_seen scope.now) word
        (type_view ty.now) (map seen args.now) ≡ gives (candidate_seen m)) }
    ensures err { IfErr result (IsFault (chosen_by walk.entry (scope_seen scope.now) word
        (type_view ty.now) (map seen args.now))) }
{
    let made = made_by(walk, word, ty)?;
    let bodies = walk.bodies;
    let method = chosen_constructor(bodies.calls, scope.place(), &made, word, args)?;
    Ok(method)
}

// The types of a constructor's parameters, as its class declares them, erased.
fn declared_parameters(walk: ClassWalk, method: &Candidate) -> Result<Vec<Ty>, Memory>
    ensures { IfOk result (λ ts. ts.items ≡
        the_declared_parameters (program_of walk.entry) (candidate_seen method.now)) }
{
    let bodies = walk.bodies;
    let program = &bodies.calls.program;
    let Some(class) = program.classes.class(method.class) else {
        return Ok(Vec::new(alloc(walk)));
    };
    match class.methods.get(method.place) {
        Some(declared) => all_erased(alloc(walk), program.heads, &declared.parameters),
        None => Ok(Vec::new(alloc(walk))),
    }
}

// The first locals, as arguments.
fn locals_from(alloc: Global, span: Span, types: &[Ty]) -> Result<Vec<Rc<Node>>, Memory>
    ensures { IfOk result (λ ns. views ns.items ≡ the_locals_from span 0 types.now) }
{
    let mut locals = Vec::new(alloc);
    for (at, ty) in types.iter().enumerate() {
        let mark = Mark {
            ty: *ty,
            span,
            at: span,
        };
        let local = make_local(mark, numbered(at)?);
        locals.push(Rc::new(alloc, local)?)?;
    }
    Ok(locals)
}

// The call of a constructor on an object, to which parameters of these types are handed on.
fn handed_on(
    alloc: Global,
    object: Node,
    span: Span,
    method: &Candidate,
    params: &[Ty],
) -> Result<Stmt, Memory>
    ensures { IfOk result (λ s. stmt_view s ≡
        handed_to (view object) span (candidate_seen method.now) params.now) }
{
    let mark = Mark {
        ty: of(Base::Void),
        span,
        at: span,
    };
    let args = locals_from(alloc, span, params)?;
    let place = numbered(method.place)?;
    let call = make_call_exact(alloc, mark, Some(object), method.class, place, args)?;
    performed(alloc, span, call)
}

/// The constructor of an anonymous class, which hands its parameters on to that one.
pub fn anonymous_code<'a>(walk: ClassWalk, method: &Candidate) -> Result<MembersDone<'a>, Memory>
    ensures { IfOk result (λ d. members_seen d ≡
        the_anonymous_code walk.entry (candidate_seen method.now)) }
{
    let params = declared_parameters(walk, method)?;
    let scope = scope_in(walk, Context::Instance, None, true);
    let span = class_span(walk);
    let object = this_node(scope.place(), span);
    let call = handed_on(alloc(walk), object, span, method, &params)?;
    let mut code = Vec::new(alloc(walk));
    code.push(call)?;
    let constructor = unwritten_constructor(walk, params, code)?;
    one_method(alloc(walk), constructor)
}
