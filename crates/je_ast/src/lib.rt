//! Java's source trees: what the parser gives and what typing reads, one variant for each production of the grammar.
//!
//! Contracts never look at a tree in memory itself, since it has boxes and vectors. They see it through a view without
//! them: `view` of an expression, `statement_view`, `member_view`, `declaration_view`, `unit_view` (`specs/View.antt`),
//! which give the types of `specs/Trees.antt`. Over these stand `height`, `size` and `span_of` with their kin.
//!
//! A view is the fold of one layer: what a node is seen as, with the views of its parts. Views stay shut in proofs, and
//! `node_view` and its kin are the layer, which computes. So a parser makes a node by `make_expr(Expr::Binary { .. })` and its
//! kin, whose clause says that the view of the result is the layer of the node, or by one of the functions for nodes with
//! lists. A walk over a tree is two functions: one on the view, by `view_is` of `proofs/Views.antt`, which calls the
//! other on the layer. `renumber` gives the names of a unit the numbers that they have among the names of all files.
#![tactic(auto)]

mod decl;
mod expr;
mod making;
mod name;
mod operator;
mod renumbering;
mod stmt;
mod ty_name;

pub use decl::{ConstructorCall, Decl, Formal, Member, Modifier, ModifierKind, TypeParam, Unit};
pub use expr::{Expr, Literal};
pub use making::{
    make_array_init, make_block, make_call, make_call_on, make_class, make_class_type,
    make_constructor, make_constructor_call, make_decl, make_explicit_call, make_expr,
    make_expression_statement, make_field, make_for, make_for_init, make_initializer,
    make_interface, make_local, make_locals, make_member, make_method, make_new,
    make_new_anonymous, make_new_array, make_return, make_steps, make_stmt, make_super_call,
    make_switch, make_try, make_try_finally, make_ty_name,
};
pub use name::{Identifier, Name};
pub use operator::{BinaryOp, PostfixOp, PrefixOp};
pub use renumbering::renumber;
pub use stmt::{Block, Catch, ForInit, Group, Label, Stmt, Var};
pub use ty_name::{Primitive, TyName};
