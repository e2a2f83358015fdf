// The walk: the parts of an expression from left to right, and then the step of its form.

ghost use Rattle.std.specs.Prelude.{◌≡◌, IfErr, IfOk, map};
ghost use Rattle.je_ast.specs.Spans.{span_of};
ghost use Rattle.je_ast.specs.Trees as tree;
ghost use Rattle.je_ast.specs.Types.{type_view};
ghost use Rattle.je_ast.specs.View.{node_view, view, views_of};
ghost use Rattle.je_typing.specs.Answers.{IsFault};
ghost use Rattle.je_typing.specs.Judged.{gives};
ghost use Rattle.name_types.specs.View.{shown};
ghost use Rattle.body_typing.specs.Expressions.{element_or as the_element_or, initial, read};
ghost use Rattle.operator_steps.specs.Parts.{part_seen};
ghost use Rattle.body_scopes.specs.View.{scope_seen};
ghost use Rattle.body_walks.specs.Walks.{HasAllMethods, known_in, program_in};
ghost use Rattle.name_steps.specs.Qualifiers.{qualifier_seen};
ghost use Rattle.typed_nodes.specs.Seen.{seen};
ghost use Rattle.type_expr.specs.Seen.{purpose_seen};
ghost use Rattle.type_expr.specs.Walk.{before_in, expression_in, prefixed_in, value_in};
ghost use Rattle.type_expr.specs.Walk.{elements_behind, elements_for_in, lengths_in, values_in};
ghost use Rattle.type_expr.specs.way.Calls.{called_on};
ghost use Rattle.type_expr.specs.way.Lists.{parts_in};

use crate::arrays::{array_over, element_or, made_with_elements, made_with_lengths};
use crate::assignments::{assigned_to, counted};
use crate::creations::{created, created_with_body, name_span};
use crate::names::{named_before, outer_of, selected, simple, super_selected};
use crate::operators::{
    is_variable, negative_literal, prefix_purpose, prefix_step, step_of, target_purpose,
};
use crate::purpose::Purpose;
use body_places::this;
use body_scopes::Scope;
use body_walks::{Bodies, bare_type, body_type};
use creation_steps::{CreationSpans, call_on, receiver_of, simple_call, super_call, used};
use expr_steps::literal;
use je_ast::{BinaryOp, Expr, Identifier, PostfixOp, PrefixOp, TyName};
use je_base::Span;
use je_typing::{Refusal, TypeFault, TypeRule};
use name_steps::Qualifier;
use name_types::SrcTy;
use operator_steps::{Part, array_of, binary, cast, choice, element, instance_of};
use source_subtypes::copied;
use tree_spans::span as span_of_tree;
use typed_nodes::TypedExpr;
use written_types::span_of as span_of_type;

/// An expression at a place of a body, by what it is for.
#[cycle(expression)]
#[tactic(auto, using(je_ast::proofs::Views::view_is))]
pub fn elab_expr(
    bodies: &Bodies,
    scope: &Scope,
    purpose: Purpose,
    expr: &Expr,
) -> Result<TypedExpr, Refusal>
    requires { HasAllMethods bodies.now }
    ensures ok { IfOk result (λ t. expression_in bodies.now scope.now (purpose_seen purpose.entry)
        (view expr.now) ≡ gives (seen t)) }
    ensures err { IfErr result (IsFault (expression_in bodies.now scope.now (purpose_seen
        purpose.entry) (view expr.now))) }
{
    elab_here(bodies, scope, purpose, expr)
}

#[cycle(expression)]
#[tactic(auto, using(je_typing::proofs::Walks::walks))]
fn elab_here(
    bodies: &Bodies,
    scope: &Scope,
    purpose: Purpose,
    expr: &Expr,
) -> Result<TypedExpr, Refusal>
    requires { HasAllMethods bodies.now }
    ensures ok { IfOk result (λ t. expression_in bodies.now scope.now (purpose_seen purpose.entry)
        (node_view expr.now) ≡ gives (seen t)) }
    ensures err { IfErr result (IsFault (expression_in bodies.now scope.now (purpose_seen
        purpose.entry) (node_view expr.now))) }
{
    let program = &bodies.calls.program;
    let place = scope.place();
    match expr {
        Expr::Literal { literal: of, span } => literal(program.source.alloc, of, *span),
        Expr::This { span } => this(program, place, *span),
        Expr::OuterThis {
            class,
            this: word,
            ..
        } => outer_of(bodies, scope, class, *word),
        Expr::Parens { inner, .. } => value(bodies, scope, purpose, inner),
        Expr::Name { name } => simple(bodies, scope, purpose, *name),
        Expr::Select {
            object,
            field,
            span,
        } => select(bodies, scope, purpose, object, *field, *span),
        Expr::SuperSelect { word, field, span } => super_selected(
            bodies, scope, purpose, *word, *field, *span,
        ),
        Expr::Call { method, args, span } => call(bodies, scope, *method, args, *span),
        Expr::CallOn {
            object,
            method,
            args,
            span,
        } => call_of(bodies, scope, object, *method, args, *span),
        Expr::SuperCall {
            word,
            method,
            args,
            span,
        } => call_of_super(bodies, scope, *word, *method, args, *span),
        Expr::Index {
            array,
            index: at,
            span,
        } => index(bodies, scope, array, at, *span),
        Expr::New {
            word,
            class,
            args,
            span,
        } => new_object(bodies, scope, *word, args, class, *span),
        Expr::NewAnonymous {
            word,
            class,
            args,
            span,
            ..
        } => new_with_body(bodies, scope, *word, args, class, *span),
        Expr::NewArray {
            element: of,
            lengths,
            dims,
            span,
        } => new_array(bodies, scope, lengths, of, *dims, *span),
        Expr::NewArrayOf {
            element: of,
            dims,
            init,
            span,
        } => new_array_with(bodies, scope, init, *dims, of, *span),
        Expr::ArrayInit { values, span } => initialized(bodies, scope, purpose, values, *span),
        Expr::Prefix {
            op,
            at,
            operand,
            span,
        } => prefix(bodies, scope, *op, *at, operand, *span),
        Expr::Postfix {
            op,
            at,
            operand,
            span,
        } => postfix(bodies, scope, *op, *at, operand, *span),
        Expr::Cast { ty, operand, span } => cast_to(bodies, scope, operand, ty, *span),
        Expr::InstanceOf {
            at,
            operand,
            ty,
            span,
        } => tested(bodies, scope, *at, operand, ty, *span),
        Expr::Binary {
            op,
            at,
            left,
            right,
            span,
        } => operation(bodies, scope, *op, *at, left, right, *span),
        Expr::Conditional {
            at,
            condition,
            yes,
            no,
            span,
        } => conditional(bodies, scope, *at, condition, yes, no, *span),
        Expr::Assign {
            op,
            at,
            place,
            value,
            span,
        } => assign(bodies, scope, *op, *at, place, value, *span),
    }
}

// `e.x`
#[cycle(expression)]
#[tactic(auto, using(je_typing::proofs::Walks::walks))]
fn select(
    bodies: &Bodies,
    scope: &Scope,
    purpose: Purpose,
    object: &Expr,
    id: Identifier,
    span: Span,
) -> Result<TypedExpr, Refusal>
    requires { HasAllMethods bodies.now }
    ensures ok { IfOk result (λ t. expression_in bodies.now scope.now (purpose_seen purpose.entry)
        (tree.select (view object.now) id span) ≡ gives (seen t)) }
    ensures err { IfErr result (IsFault (expression_in bodies.now scope.now (purpose_seen
        purpose.entry) (tree.select (view object.now) id span))) }
{
    let on = before(bodies, scope, object)?;
    selected(bodies, scope, purpose, id, span, on)
}

// `f(e, ..)`
#[cycle(expression)]
#[tactic(auto, using(je_typing::proofs::Walks::walks))]
fn call(
    bodies: &Bodies,
    scope: &Scope,
    id: Identifier,
    args: &[Expr],
    span: Span,
) -> Result<TypedExpr, Refusal>
    requires { HasAllMethods bodies.now }
    ensures ok { IfOk result (λ t. expression_in bodies.now scope.now read (tree.call id (views_of
        args.now) span) ≡ gives (seen t)) }
    ensures err { IfErr result (IsFault (expression_in bodies.now scope.now read (tree.call id
        (views_of args.now) span))) }
{
    let args = values(bodies, scope, args)?;
    simple_call(bodies.calls, scope.place(), id, span, args)
}

// `e.f(e, ..)`
#[cycle(expression)]
#[tactic(auto, unfolding(crate::specs::way::Calls::called_on), using(je_typing::proofs::Walks::walks))]
fn call_of(
    bodies: &Bodies,
    scope: &Scope,
    object: &Expr,
    id: Identifier,
    args: &[Expr],
    span: Span,
) -> Result<TypedExpr, Refusal>
    requires { HasAllMethods bodies.now }
    ensures ok { IfOk result (λ t. called_on bodies.now scope.now (view object.now) id
        (views_of args.now) span ≡ gives (seen t)) }
    ensures err { IfErr result (IsFault (called_on bodies.now scope.now (view object.now) id
        (views_of args.now) span)) }
{
    let on = before(bodies, scope, object)?;
    let receiver = receiver_of(on)?;
    let args = values(bodies, scope, args)?;
    call_on(bodies.calls, scope.place(), id, span, args, receiver)
}

// `super.f(e, ..)`
#[cycle(expression)]
#[tactic(auto, using(je_typing::proofs::Walks::walks))]
fn call_of_super(
    bodies: &Bodies,
    scope: &Scope,
    word: Span,
    id: Identifier,
    args: &[Expr],
    span: Span,
) -> Result<TypedExpr, Refusal>
    requires { HasAllMethods bodies.now }
    ensures ok { IfOk result (λ t. expression_in bodies.now scope.now read (tree.super_call word
        id (views_of args.now) span) ≡ gives (seen t)) }
    ensures err { IfErr result (IsFault (expression_in bodies.now scope.now read (tree.super_call
        word id (views_of args.now) span))) }
{
    let args = values(bodies, scope, args)?;
    super_call(bodies.calls, scope.place(), word, id, span, args)
}

// `e[e]`
#[cycle(expression)]
#[tactic(auto, using(je_typing::proofs::Walks::walks))]
fn index(
    bodies: &Bodies,
    scope: &Scope,
    array: &Expr,
    at: &Expr,
    span: Span,
) -> Result<TypedExpr, Refusal>
    requires { HasAllMethods bodies.now }
    ensures ok { IfOk result (λ t. expression_in bodies.now scope.now read (tree.index (view
        array.now) (view at.now) span) ≡ gives (seen t)) }
    ensures err { IfErr result (IsFault (expression_in bodies.now scope.now read (tree.index (view
        array.now) (view at.now) span))) }
{
    let program = &bodies.calls.program;
    let array = part(bodies, scope, Purpose::Read, array)?;
    let at = part(bodies, scope, Purpose::Read, at)?;
    element(
        program.source.alloc,
        program.heads,
        array.span,
        at.span,
        span,
        array.value,
        at.value,
    )
}

// `new A(e, ..)`
#[cycle(expression)]
#[tactic(auto, using(je_typing::proofs::Walks::walks))]
fn new_object(
    bodies: &Bodies,
    scope: &Scope,
    word: Span,
    args: &[Expr],
    class: &TyName,
    span: Span,
) -> Result<TypedExpr, Refusal>
    requires { HasAllMethods bodies.now }
    ensures ok { IfOk result (λ t. expression_in bodies.now scope.now read (tree.new_object word
        (type_view class.now) (views_of args.now) span) ≡ gives (seen t)) }
    ensures err { IfErr result (IsFault (expression_in bodies.now scope.now read (tree.new_object
        word (type_view class.now) (views_of args.now) span))) }
{
    let made = body_type(&bodies.calls.program, &scope.here, class)?;
    let args = values(bodies, scope, args)?;
    let spans = CreationSpans {
        word,
        name: name_span(class),
        whole: span,
    };
    created(bodies, scope, made, spans, args)
}

// `new A[e]..[]..`
#[cycle(expression)]
#[tactic(auto, using(je_typing::proofs::Walks::walks))]
fn new_array(
    bodies: &Bodies,
    scope: &Scope,
    lengths: &[Expr],
    of: &TyName,
    dims: usize,
    span: Span,
) -> Result<TypedExpr, Refusal>
    requires { HasAllMethods bodies.now }
    ensures ok { IfOk result (λ t. expression_in bodies.now scope.now read (tree.new_array
        (type_view of.now) (views_of lengths.now) dims span) ≡ gives (seen t)) }
    ensures err { IfErr result (IsFault (expression_in bodies.now scope.now read (tree.new_array
        (type_view of.now) (views_of lengths.now) dims span))) }
{
    let program = &bodies.calls.program;
    let alloc = program.source.alloc;
    let name = name_span(of);
    let of = bare_type(program, &scope.here, of)?;
    let lengths = lengths_of(bodies, scope, lengths)?;
    made_with_lengths(alloc, program.heads, of, dims, name, span, lengths)
}

// `new A[].. { .. }`
#[cycle(expression)]
#[tactic(auto, using(je_typing::proofs::Walks::walks))]
fn new_array_with(
    bodies: &Bodies,
    scope: &Scope,
    init: &Expr,
    dims: usize,
    of: &TyName,
    span: Span,
) -> Result<TypedExpr, Refusal>
    requires { HasAllMethods bodies.now }
    ensures ok { IfOk result (λ t. expression_in bodies.now scope.now read (tree.new_array_of
        (type_view of.now) dims (view init.now) span) ≡ gives (seen t)) }
    ensures err { IfErr result (IsFault (expression_in bodies.now scope.now read
        (tree.new_array_of (type_view of.now) dims (view init.now) span))) }
{
    let program = &bodies.calls.program;
    let alloc = program.source.alloc;
    let name = name_span(of);
    let of = bare_type(program, &scope.here, of)?;
    let ty = array_over(alloc, &of, dims)?;
    let elements = elements_in(bodies, scope, init, &ty)?;
    made_with_elements(alloc, program.heads, of, dims, name, span, elements)
}

// `e++`, `e--`
#[cycle(expression)]
#[tactic(auto, using(je_typing::proofs::Walks::walks))]
fn postfix(
    bodies: &Bodies,
    scope: &Scope,
    op: PostfixOp,
    at: Span,
    operand: &Expr,
    span: Span,
) -> Result<TypedExpr, Refusal>
    requires { HasAllMethods bodies.now }
    ensures ok { IfOk result (λ t. expression_in bodies.now scope.now read (tree.postfix op at
        (view operand.now) span) ≡ gives (seen t)) }
    ensures err { IfErr result (IsFault (expression_in bodies.now scope.now read (tree.postfix op
        at (view operand.now) span))) }
{
    let target = part(bodies, scope, Purpose::Updated, operand)?;
    let (step, written) = (step_of(op), is_variable(operand));
    counted(bodies, scope, step, true, at, span, target, written)
}

// `(A) e`
#[cycle(expression)]
#[tactic(auto, using(je_typing::proofs::Walks::walks))]
fn cast_to(
    bodies: &Bodies,
    scope: &Scope,
    operand: &Expr,
    ty: &TyName,
    span: Span,
) -> Result<TypedExpr, Refusal>
    requires { HasAllMethods bodies.now }
    ensures ok { IfOk result (λ t. expression_in bodies.now scope.now read (tree.cast (type_view
        ty.now) (view operand.now) span) ≡ gives (seen t)) }
    ensures err { IfErr result (IsFault (expression_in bodies.now scope.now read (tree.cast
        (type_view ty.now) (view operand.now) span))) }
{
    let program = &bodies.calls.program;
    let alloc = program.source.alloc;
    let to = bare_type(program, &scope.here, ty)?;
    let operand = value(bodies, scope, Purpose::Read, operand)?;
    cast(alloc, program.heads, to, span_of_type(ty), span, operand)
}

// `e instanceof A`
#[cycle(expression)]
#[tactic(auto, using(je_typing::proofs::Walks::walks))]
fn tested(
    bodies: &Bodies,
    scope: &Scope,
    at: Span,
    operand: &Expr,
    ty: &TyName,
    span: Span,
) -> Result<TypedExpr, Refusal>
    requires { HasAllMethods bodies.now }
    ensures ok { IfOk result (λ t. expression_in bodies.now scope.now read (tree.instance_of at
        (view operand.now) (type_view ty.now) span) ≡ gives (seen t)) }
    ensures err { IfErr result (IsFault (expression_in bodies.now scope.now read (tree.instance_of
        at (view operand.now) (type_view ty.now) span))) }
{
    let program = &bodies.calls.program;
    let operand = value(bodies, scope, Purpose::Read, operand)?;
    let of = bare_type(program, &scope.here, ty)?;
    instance_of(
        program.source.alloc,
        program.heads,
        &of,
        span_of_type(ty),
        at,
        span,
        operand,
    )
}

// `e op e`
#[cycle(expression)]
#[tactic(auto, using(je_typing::proofs::Walks::walks))]
fn operation(
    bodies: &Bodies,
    scope: &Scope,
    op: BinaryOp,
    at: Span,
    left: &Expr,
    right: &Expr,
    span: Span,
) -> Result<TypedExpr, Refusal>
    requires { HasAllMethods bodies.now }
    ensures ok { IfOk result (λ t. expression_in bodies.now scope.now read (tree.binary op at
        (view left.now) (view right.now) span) ≡ gives (seen t)) }
    ensures err { IfErr result (IsFault (expression_in bodies.now scope.now read (tree.binary op
        at (view left.now) (view right.now) span))) }
{
    let program = &bodies.calls.program;
    let alloc = program.source.alloc;
    let left = value(bodies, scope, Purpose::Read, left)?;
    let right = value(bodies, scope, Purpose::Read, right)?;
    binary(alloc, program.heads, op, at, span, left, right)
}

// `e ? e : e`
#[cycle(expression)]
#[tactic(auto, using(je_typing::proofs::Walks::walks))]
fn conditional(
    bodies: &Bodies,
    scope: &Scope,
    at: Span,
    condition: &Expr,
    yes: &Expr,
    no: &Expr,
    span: Span,
) -> Result<TypedExpr, Refusal>
    requires { HasAllMethods bodies.now }
    ensures ok { IfOk result (λ t. expression_in bodies.now scope.now read (tree.conditional at
        (view condition.now) (view yes.now) (view no.now) span) ≡ gives (seen t)) }
    ensures err { IfErr result (IsFault (expression_in bodies.now scope.now read (tree.conditional
        at (view condition.now) (view yes.now) (view no.now) span))) }
{
    let program = &bodies.calls.program;
    let condition = part(bodies, scope, Purpose::Read, condition)?;
    let yes = value(bodies, scope, Purpose::Read, yes)?;
    let no = value(bodies, scope, Purpose::Read, no)?;
    choice(
        program.source.alloc,
        program.heads,
        at,
        condition.span,
        span,
        condition.value,
        yes,
        no,
    )
}

// `e = e`, and `e += e` and its like
#[cycle(expression)]
#[tactic(auto, using(je_typing::proofs::Walks::walks))]
fn assign(
    bodies: &Bodies,
    scope: &Scope,
    op: Option<BinaryOp>,
    at: Span,
    place: &Expr,
    value: &Expr,
    span: Span,
) -> Result<TypedExpr, Refusal>
    requires { HasAllMethods bodies.now }
    ensures ok { IfOk result (λ t. expression_in bodies.now scope.now read (tree.assign op at
        (view place.now) (view value.now) span) ≡ gives (seen t)) }
    ensures err { IfErr result (IsFault (expression_in bodies.now scope.now read (tree.assign op
        at (view place.now) (view value.now) span))) }
{
    let target = part(bodies, scope, target_purpose(op), place)?;
    let value = part(bodies, scope, Purpose::Read, value)?;
    let written = is_variable(place);
    assigned_to(bodies, scope, op, at, span, target, written, value)
}

// `new A(e, ..) { .. }`, which members make no difference to
#[cycle(expression)]
#[tactic(auto, using(je_typing::proofs::Walks::walks))]
fn new_with_body(
    bodies: &Bodies,
    scope: &Scope,
    word: Span,
    args: &[Expr],
    class: &TyName,
    span: Span,
) -> Result<TypedExpr, Refusal>
    requires { HasAllMethods bodies.now }
    ensures ok { IfOk result (λ t. expression_in bodies.now scope.now read (tree.new_anonymous
        word (type_view class.now) (views_of args.now) tree.no_members span) ≡ gives (seen t)) }
    ensures err { IfErr result (IsFault (expression_in bodies.now scope.now read
        (tree.new_anonymous word (type_view class.now) (views_of args.now) tree.no_members span))) }
{
    let args = values(bodies, scope, args)?;
    let spans = CreationSpans {
        word,
        name: name_span(class),
        whole: span,
    };
    created_with_body(bodies, scope, class, spans, args)
}

// An array initializer, which stands only where a type is known.
#[cycle(expression)]
fn initialized(
    bodies: &Bodies,
    scope: &Scope,
    purpose: Purpose,
    exprs: &[Expr],
    span: Span,
) -> Result<TypedExpr, Refusal>
    requires { HasAllMethods bodies.now }
    ensures ok { IfOk result (λ t. expression_in bodies.now scope.now (purpose_seen purpose.entry)
        (tree.array_init (views_of exprs.now) span) ≡ gives (seen t)) }
    ensures err { IfErr result (IsFault (expression_in bodies.now scope.now (purpose_seen
        purpose.entry) (tree.array_init (views_of exprs.now) span))) }
{
    match purpose {
        Purpose::Initial(ty) => initializer(bodies, scope, exprs, ty, span),
        Purpose::Read | Purpose::Assigned | Purpose::Updated => Err(Refusal::Fault(TypeFault {
            rule: TypeRule::BadArray,
            span,
        })),
    }
}

#[cycle(expression)]
#[tactic(auto, using(crate::proofs::Lists::lengths_are))]
fn lengths_of(bodies: &Bodies, scope: &Scope, exprs: &[Expr]) -> Result<Vec<Part>, Refusal>
    requires { HasAllMethods bodies.now }
    ensures ok { IfOk result (λ ps. lengths_in bodies.now scope.now (views_of exprs.now) ≡ gives
        (map part_seen ps.items)) }
    ensures err { IfErr result (IsFault (lengths_in bodies.now scope.now (views_of exprs.now))) }
{
    parts(bodies, scope, Purpose::Read, exprs)
}

/// The same of a value, which no call of a `void` method is.
#[cycle(expression)]
#[tactic(auto, using(je_typing::proofs::Walks::walks))]
pub fn value(
    bodies: &Bodies,
    scope: &Scope,
    purpose: Purpose,
    expr: &Expr,
) -> Result<TypedExpr, Refusal>
    requires { HasAllMethods bodies.now }
    ensures ok { IfOk result (λ t. value_in bodies.now scope.now (purpose_seen purpose.entry)
        (view expr.now) ≡ gives (seen t)) }
    ensures err { IfErr result (IsFault (value_in bodies.now scope.now (purpose_seen
        purpose.entry) (view expr.now))) }
{
    let judged = elab_expr(bodies, scope, purpose, expr)?;
    used(judged)
}

// The same, with where it is written.
#[cycle(expression)]
fn part(bodies: &Bodies, scope: &Scope, purpose: Purpose, expr: &Expr) -> Result<Part, Refusal>
    requires { HasAllMethods bodies.now }
    ensures ok { IfOk result (λ p. value_in bodies.now scope.now (purpose_seen purpose.entry)
        (view expr.now) ≡ gives (seen p.value)) }
    ensures span { IfOk result (λ p. p.span ≡ span_of (view expr.now)) }
    ensures err { IfErr result (IsFault (value_in bodies.now scope.now (purpose_seen
        purpose.entry) (view expr.now))) }
{
    let value = value(bodies, scope, purpose, expr)?;
    let span = span_of_tree(expr);
    Ok(Part { value, span })
}

/// The values of expressions that are read.
#[cycle(expression)]
#[tactic(auto, using(crate::proofs::Lists::value_lists, je_typing::proofs::Walks::walks))]
pub fn values(bodies: &Bodies, scope: &Scope, exprs: &[Expr]) -> Result<Vec<TypedExpr>, Refusal>
    requires { HasAllMethods bodies.now }
    ensures ok { IfOk result (λ ts. values_in bodies.now scope.now (views_of exprs.now) ≡ gives
        (map seen ts.items)) }
    ensures err { IfErr result (IsFault (values_in bodies.now scope.now (views_of exprs.now))) }
{
    let mut values = Vec::new(bodies.calls.program.source.alloc);
    for expr in exprs {
        let value = value(bodies, scope, Purpose::Read, expr)?;
        values.push(value)?;
    }
    Ok(values)
}

// Expressions of one purpose, with where each is written.
#[cycle(expression)]
#[tactic(auto, using(crate::proofs::Lists::part_lists, je_typing::proofs::Walks::walks))]
fn parts(
    bodies: &Bodies,
    scope: &Scope,
    purpose: Purpose,
    exprs: &[Expr],
) -> Result<Vec<Part>, Refusal>
    requires { HasAllMethods bodies.now }
    ensures ok { IfOk result (λ ps. parts_in bodies.now scope.now (purpose_seen purpose.entry)
        (views_of exprs.now) ≡ gives (map part_seen ps.items)) }
    ensures err { IfErr result (IsFault (parts_in bodies.now scope.now (purpose_seen
        purpose.entry) (views_of exprs.now))) }
{
    let mut parts = Vec::new(bodies.calls.program.source.alloc);
    for expr in exprs {
        let part = part(bodies, scope, purpose, expr)?;
        parts.push(part)?;
    }
    Ok(parts)
}

#[cycle(expression)]
#[tactic(auto, using(crate::proofs::Lists::elements_are, je_typing::proofs::Walks::walks))]
fn elements_of(
    bodies: &Bodies,
    scope: &Scope,
    exprs: &[Expr],
    ty: &SrcTy,
) -> Result<Vec<Part>, Refusal>
    requires { HasAllMethods bodies.now }
    ensures ok { IfOk result (λ ps. elements_for_in bodies.now scope.now (the_element_or (shown
        ty.now)) (views_of exprs.now) ≡ gives (map part_seen ps.items)) }
    ensures err { IfErr result (IsFault (elements_for_in bodies.now scope.now (the_element_or
        (shown ty.now)) (views_of exprs.now))) }
{
    let element = element_or(bodies.calls.program.source.alloc, ty)?;
    parts(bodies, scope, Purpose::Initial(&element), exprs)
}

// The same of what stands behind the brackets of a new array.
#[cycle(expression)]
#[tactic(auto, using(je_ast::proofs::Views::view_is))]
fn elements_in(
    bodies: &Bodies,
    scope: &Scope,
    expr: &Expr,
    ty: &SrcTy,
) -> Result<Vec<Part>, Refusal>
    requires { HasAllMethods bodies.now }
    ensures ok { IfOk result (λ ps. elements_behind bodies.now scope.now (shown ty.now) (view
        expr.now) ≡ gives (map part_seen ps.items)) }
    ensures err { IfErr result (IsFault (elements_behind bodies.now scope.now (shown ty.now) (view
        expr.now))) }
{
    elements_here(bodies, scope, expr, ty)
}

#[cycle(expression)]
fn elements_here(
    bodies: &Bodies,
    scope: &Scope,
    expr: &Expr,
    ty: &SrcTy,
) -> Result<Vec<Part>, Refusal>
    requires { HasAllMethods bodies.now }
    ensures ok { IfOk result (λ ps. elements_behind bodies.now scope.now (shown ty.now) (node_view
        expr.now) ≡ gives (map part_seen ps.items)) }
    ensures err { IfErr result (IsFault (elements_behind bodies.now scope.now (shown ty.now)
        (node_view expr.now))) }
{
    match expr {
        Expr::ArrayInit { values, .. } => elements_of(bodies, scope, values, ty),
        _ => Ok(Vec::new(bodies.calls.program.source.alloc)),
    }
}

#[cycle(expression)]
#[tactic(auto, using(je_typing::proofs::Walks::walks))]
fn initializer(
    bodies: &Bodies,
    scope: &Scope,
    exprs: &[Expr],
    ty: &SrcTy,
    span: Span,
) -> Result<TypedExpr, Refusal>
    requires { HasAllMethods bodies.now }
    ensures ok { IfOk result (λ t. expression_in bodies.now scope.now (initial (shown ty.now))
        (tree.array_init (views_of exprs.now) span) ≡ gives (seen t)) }
    ensures err { IfErr result (IsFault (expression_in bodies.now scope.now (initial (shown
        ty.now)) (tree.array_init (views_of exprs.now) span))) }
{
    let program = &bodies.calls.program;
    let alloc = program.source.alloc;
    let elements = elements_of(bodies, scope, exprs, ty)?;
    let ty = copied(alloc, ty)?;
    array_of(alloc, program.heads, ty, span, elements)
}

#[cycle(expression)]
#[tactic(auto, using(crate::proofs::Before::before_points))]
fn before(bodies: &Bodies, scope: &Scope, expr: &Expr) -> Result<Qualifier, Refusal>
    requires { HasAllMethods bodies.now }
    ensures ok { IfOk result (λ q. before_in bodies.now scope.now (view expr.now) ≡ gives
        (qualifier_seen q)) }
    ensures err { IfErr result (IsFault (before_in bodies.now scope.now (view expr.now))) }
{
    let named = named_before(bodies, scope, expr)?;
    match named {
        Some(on) => Ok(on),
        None => {
            let on = value(bodies, scope, Purpose::Read, expr)?;
            Ok(Qualifier::Value(on))
        }
    }
}

#[cycle(expression)]
#[tactic(auto, using(je_typing::proofs::Walks::walks, crate::proofs::Before::literals))]
fn prefix(
    bodies: &Bodies,
    scope: &Scope,
    op: PrefixOp,
    at: Span,
    operand: &Expr,
    span: Span,
) -> Result<TypedExpr, Refusal>
    requires { HasAllMethods bodies.now }
    ensures ok { IfOk result (λ t. prefixed_in bodies.now scope.now op at (view operand.now) span
        ≡ gives (seen t)) }
    ensures err { IfErr result (IsFault (prefixed_in bodies.now scope.now op at (view operand.now)
        span)) }
{
    if let Some(literal) = negative_literal(bodies.calls.program.source.alloc, op, operand, span)? {
        return Ok(literal);
    }
    let judged = part(bodies, scope, prefix_purpose(op), operand)?;
    prefix_step(bodies, scope, op, at, span, judged, is_variable(operand))
}
