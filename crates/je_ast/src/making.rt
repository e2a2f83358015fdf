// What a parser makes trees by. Each function gives its node as it is, and says what contracts see of it.

ghost use Rattle.std.specs.Prelude.{◌≡◌, map};
ghost use Rattle.je_ast.specs.Types.{type_node_view, class_type, name_view, type_view, type_views_of, type_view_of_option, parameter_view, formal_view};
ghost use Rattle.je_ast.specs.Trees as tree;
ghost use Rattle.je_ast.specs.View.{node_view, statement_node_view, for_initializer_node_view, constructor_invocation_node_view, member_node_view, declaration_node_view, view, views_of, view_of_option, statement_view, statement_views_of, variable_views_of, group_views_of, catch_views_of, for_initializer_view, constructor_invocation_view, member_view, member_views_of, block_view_of_option, declaration_view};

use crate::decl::{ConstructorCall, Decl, Formal, Member, Modifier, TypeParam};
use crate::expr::Expr;
use crate::name::{Identifier, Name};
use crate::stmt::{Block, Catch, ForInit, Group, Stmt, Var};
use crate::ty_name::TyName;
use je_base::Span;

/// A written type, seen by its parts.
#[tactic(auto, using(crate::proofs::Views::type_is))]
pub fn make_ty_name(node: TyName) -> TyName
    ensures { type_view result ≡ type_node_view node }
{
    node
}

/// An expression, seen by its parts.
#[tactic(auto, using(crate::proofs::Views::view_is))]
pub fn make_expr(node: Expr) -> Expr
    ensures { view result ≡ node_view node }
{
    node
}

/// A statement, seen by its parts.
#[tactic(auto, using(crate::proofs::Views::statement_is))]
pub fn make_stmt(node: Stmt) -> Stmt
    ensures { statement_view result ≡ statement_node_view node }
{
    node
}

/// What a `for` begins with, seen by its parts.
#[tactic(auto, using(crate::proofs::Views::for_initializer_is))]
pub fn make_for_init(node: ForInit) -> ForInit
    ensures { for_initializer_view result ≡ for_initializer_node_view node }
{
    node
}

/// What a constructor's body begins with, seen by its parts.
#[tactic(auto, using(crate::proofs::Views::constructor_invocation_is))]
pub fn make_constructor_call(node: ConstructorCall) -> ConstructorCall
    ensures { constructor_invocation_view result ≡ constructor_invocation_node_view node }
{
    node
}

/// A member, seen by its parts.
#[tactic(auto, using(crate::proofs::Views::member_is))]
pub fn make_member(node: Member) -> Member
    ensures { member_view result ≡ member_node_view node }
{
    node
}

/// A declaration, seen by its parts.
#[tactic(auto, using(crate::proofs::Views::declaration_is))]
pub fn make_decl(node: Decl) -> Decl
    ensures { declaration_view result ≡ declaration_node_view node }
{
    node
}

/// A class type.
pub fn make_class_type(name: Name, args: Vec<TyName>, dims: usize, span: Span) -> TyName
    ensures { type_view result ≡ class_type (name_view name) (type_views_of args.items) dims span }
{
    make_ty_name(TyName::Class {
        name,
        args,
        dims,
        span,
    })
}

/// `f(e, ..)`
pub fn make_call(method: Identifier, args: Vec<Expr>, span: Span) -> Expr
    ensures { view result ≡ tree.call method (views_of args.items) span }
{
    make_expr(Expr::Call { method, args, span })
}

/// `e.f(e, ..)`
pub fn make_call_on(object: Box<Expr>, method: Identifier, args: Vec<Expr>, span: Span) -> Expr
    ensures { view result ≡ tree.call_on (view object.value) method (views_of args.items) span }
{
    make_expr(Expr::CallOn {
        object,
        method,
        args,
        span,
    })
}

/// `super.f(e, ..)`
pub fn make_super_call(word: Span, method: Identifier, args: Vec<Expr>, span: Span) -> Expr
    ensures { view result ≡ tree.super_call word method (views_of args.items) span }
{
    make_expr(Expr::SuperCall {
        word,
        method,
        args,
        span,
    })
}

/// `new A(e, ..)`
pub fn make_new(word: Span, class: TyName, args: Vec<Expr>, span: Span) -> Expr
    ensures { view result ≡ tree.new_object word (type_view class) (views_of args.items) span }
{
    make_expr(Expr::New {
        word,
        class,
        args,
        span,
    })
}

/// `new A(e, ..) { .. }`
pub fn make_new_anonymous(
    word: Span,
    class: TyName,
    args: Vec<Expr>,
    body: Vec<Member>,
    span: Span,
) -> Expr
    ensures { view result
        ≡ tree.new_anonymous word (type_view class) (views_of args.items)
        (member_views_of body.items) span }
{
    make_expr(Expr::NewAnonymous {
        word,
        class,
        args,
        body,
        span,
    })
}

/// `new A[e]..[]..`
pub fn make_new_array(element: TyName, lengths: Vec<Expr>, dims: usize, span: Span) -> Expr
    ensures { view result ≡ tree.new_array (type_view element) (views_of lengths.items) dims span }
{
    make_expr(Expr::NewArray {
        element,
        lengths,
        dims,
        span,
    })
}

/// `{ e, .. }`
pub fn make_array_init(values: Vec<Expr>, span: Span) -> Expr
    ensures { view result ≡ tree.array_init (views_of values.items) span }
{
    make_expr(Expr::ArrayInit { values, span })
}

// A block that is there.
fn block(block: Block) -> Stmt
    ensures { statement_view result
        ≡ tree.block block.opening (statement_views_of block.stmts.items) block.closing }
{
    make_stmt(Stmt::Block { block })
}

/// A block.
pub fn make_block(opening: Span, stmts: Vec<Stmt>, closing: Span) -> Stmt
    ensures { statement_view result ≡ tree.block opening (statement_views_of stmts.items) closing }
{
    block(Block {
        opening,
        stmts,
        closing,
    })
}

/// Local variables.
pub fn make_local(first: Span, is_final: bool, ty: TyName, vars: Vec<Var>, span: Span) -> Stmt
    ensures { statement_view result
        ≡ tree.local first is_final (type_view ty) (variable_views_of vars.items) span }
{
    make_stmt(Stmt::Local {
        first,
        is_final,
        ty,
        vars,
        span,
    })
}

/// A `for`.
pub fn make_for(
    first: Span,
    init: ForInit,
    condition: Option<Expr>,
    steps: Vec<Expr>,
    body: Box<Stmt>,
    span: Span,
) -> Stmt
    ensures { statement_view result
        ≡ tree.for first (for_initializer_view init) (view_of_option condition)
        (views_of steps.items) (statement_view body.value) span }
{
    make_stmt(Stmt::For {
        first,
        init,
        condition,
        steps,
        body,
        span,
    })
}

/// A `switch`.
pub fn make_switch(first: Span, selector: Expr, groups: Vec<Group>, span: Span) -> Stmt
    ensures { statement_view result
        ≡ tree.switch first (view selector) (group_views_of groups.items) span }
{
    make_stmt(Stmt::Switch {
        first,
        selector,
        groups,
        span,
    })
}

/// A `return`.
pub fn make_return(first: Span, value: Option<Expr>, span: Span) -> Stmt
    ensures { statement_view result ≡ tree.return first (view_of_option value) span }
{
    make_stmt(Stmt::Return { first, value, span })
}

/// A `try` without `finally`.
pub fn make_try(first: Span, block: Block, catches: Vec<Catch>, span: Span) -> Stmt
    ensures { statement_view result
        ≡ tree.try first block.opening (statement_views_of block.stmts.items) block.closing
        (catch_views_of catches.items) span }
{
    make_stmt(Stmt::Try {
        first,
        block,
        catches,
        span,
    })
}

/// A `try` with `finally`.
pub fn make_try_finally(
    first: Span,
    block: Block,
    catches: Vec<Catch>,
    word: Span,
    last: Block,
    span: Span,
) -> Stmt
    ensures { statement_view result
        ≡ tree.try_finally first block.opening (statement_views_of block.stmts.items)
        block.closing (catch_views_of catches.items) word last.opening
        (statement_views_of last.stmts.items) last.closing span }
{
    make_stmt(Stmt::TryFinally {
        first,
        block,
        catches,
        word,
        last,
        span,
    })
}

/// What declares local variables at the head of a `for`.
pub fn make_locals(is_final: bool, ty: TyName, vars: Vec<Var>) -> ForInit
    ensures { for_initializer_view result
        ≡ tree.locals is_final (type_view ty) (variable_views_of vars.items) }
{
    make_for_init(ForInit::Locals { is_final, ty, vars })
}

/// Steps at the head of a `for`.
pub fn make_steps(steps: Vec<Expr>) -> ForInit
    ensures { for_initializer_view result ≡ tree.steps (views_of steps.items) }
{
    make_for_init(ForInit::Steps { steps })
}

/// `this(..);` or `super(..);`
pub fn make_explicit_call(is_super: bool, word: Span, args: Vec<Expr>) -> ConstructorCall
    ensures { constructor_invocation_view result
        ≡ tree.explicit is_super word (views_of args.items) }
{
    make_constructor_call(ConstructorCall::Explicit {
        is_super,
        word,
        args,
    })
}

/// A field.
pub fn make_field(modifiers: Vec<Modifier>, ty: TyName, vars: Vec<Var>, span: Span) -> Member
    ensures { member_view result
        ≡ tree.field modifiers.items (type_view ty) (variable_views_of vars.items) span }
{
    make_member(Member::Field {
        modifiers,
        ty,
        vars,
        span,
    })
}

/// A method.
pub fn make_method(
    modifiers: Vec<Modifier>,
    returns: Option<TyName>,
    name: Identifier,
    formals: Vec<Formal>,
    throws: Vec<Name>,
    body: Option<Block>,
    span: Span,
) -> Member
    ensures { member_view result
        ≡ tree.method modifiers.items (type_view_of_option returns) name
        (map formal_view formals.items) (map name_view throws.items)
        (block_view_of_option body) span }
{
    make_member(Member::Method {
        modifiers,
        result: returns,
        name,
        formals,
        throws,
        body,
        span,
    })
}

/// A constructor.
pub fn make_constructor(
    modifiers: Vec<Modifier>,
    name: Identifier,
    formals: Vec<Formal>,
    throws: Vec<Name>,
    call: ConstructorCall,
    body: Block,
    span: Span,
) -> Member
    ensures { member_view result
        ≡ tree.constructor modifiers.items name (map formal_view formals.items)
        (map name_view throws.items) (constructor_invocation_view call) body.opening
        (statement_views_of body.stmts.items) body.closing span }
{
    make_member(Member::Constructor {
        modifiers,
        name,
        formals,
        throws,
        call,
        body,
        span,
    })
}

/// An initializer.
pub fn make_initializer(word: Option<Span>, body: Block, span: Span) -> Member
    ensures { member_view result
        ≡ tree.initializer word body.opening (statement_views_of body.stmts.items) body.closing
        span }
{
    make_member(Member::Initializer { word, body, span })
}

/// An expression as a statement.
pub fn make_expression_statement(first: Span, expr: Expr, span: Span) -> Stmt
    ensures { statement_view result ≡ tree.expression_statement first (view expr) span }
{
    make_stmt(Stmt::ExpressionStatement { first, expr, span })
}

/// A class.
pub fn make_class(
    modifiers: Vec<Modifier>,
    name: Identifier,
    params: Vec<TypeParam>,
    extends: Option<TyName>,
    implements: Vec<TyName>,
    body: Vec<Member>,
    span: Span,
) -> Decl
    ensures { declaration_view result
        ≡ tree.class_declaration modifiers.items name (map parameter_view params.items)
        (type_view_of_option extends) (type_views_of implements.items)
        (member_views_of body.items) span }
{
    make_decl(Decl::Class {
        modifiers,
        name,
        params,
        extends,
        implements,
        body,
        span,
    })
}

/// An interface.
pub fn make_interface(
    modifiers: Vec<Modifier>,
    name: Identifier,
    params: Vec<TypeParam>,
    extends: Vec<TyName>,
    body: Vec<Member>,
    span: Span,
) -> Decl
    ensures { declaration_view result
        ≡ tree.interface_declaration modifiers.items name (map parameter_view params.items)
        (type_views_of extends.items) (member_views_of body.items) span }
{
    make_decl(Decl::Interface {
        modifiers,
        name,
        params,
        extends,
        body,
        span,
    })
}
