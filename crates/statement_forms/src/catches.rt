// The clauses of a `try` that catch (JLS 14.20), judged behind all blocks of their statement.

ghost use Rattle.std.specs.Prelude.{◌≡◌, IfErr, IfOk, map};
ghost use Rattle.je_core.specs.Core.{core_catches};
ghost use Rattle.je_core.specs.View.{catch_view};
ghost use Rattle.je_typing.specs.Answers.{IsFault};
ghost use Rattle.je_typing.specs.Judged.{gives};
ghost use Rattle.source_subtypes.specs.View.{heads_of};
ghost use Rattle.body_typing.specs.Catches.{clauses as the_clauses};
ghost use Rattle.body_walks.specs.Scopes.{scope_seen};
ghost use Rattle.statement_forms.specs.View.{clause_seen};
ghost use Rattle.statement_forms.specs.way.Clauses.{clause as the_clause};

use crate::local_variables::new_name;
use body_walks::Scope;
use je_ast::Identifier;
use je_base::Span;
use je_core::{Catch, Stmt, make_catch};
use je_typing::Refusal;
use name_types::SrcTy;
use source_subtypes::ClassHeads;
use statement_steps::caught_class;
use std::alloc::Global;

/// A clause whose block is walked.
#[derive(Drop)]
pub struct Clause {
    pub name: Identifier,
    /// The number of its local.
    pub number: u32,
    /// The type that is written, and where.
    pub ty: SrcTy,
    pub name_span: Span,
    pub body: Stmt,
}

// One clause.
#[tactic(auto, unfolding(crate::specs::way::Clauses::clause), using(je_typing::proofs::Walks::walks))]
fn caught(
    alloc: Global,
    heads: &ClassHeads,
    scope: &Scope,
    clause: Clause,
) -> Result<Catch, Refusal>
    ensures ok { IfOk result (λ made. the_clause (heads_of heads.now) (scope_seen scope.now)
        (clause_seen clause) ≡ gives (catch_view made)) }
    ensures err { IfErr result (IsFault (the_clause (heads_of heads.now) (scope_seen scope.now)
        (clause_seen clause))) }
{
    let Clause {
        name,
        number,
        ty,
        name_span,
        body,
    } = clause;
    new_name(scope, name)?;
    let class = caught_class(alloc, heads, name_span, &ty)?;
    let made = make_catch(alloc, number, class, name_span, body)?;
    Ok(made)
}

/// The clauses of a `try` in a scope. A fault is LocalTwice, at the name of a local, or BadCatch, at the name of a
/// class.
#[tactic(auto, using(je_typing::proofs::Walks::walks))]
pub fn clauses(
    alloc: Global,
    heads: &ClassHeads,
    scope: &Scope,
    written: Vec<Clause>,
) -> Result<Vec<Catch>, Refusal>
    ensures ok { IfOk result (λ made. the_clauses (heads_of heads.now) (scope_seen scope.now)
        (map clause_seen written.items) ≡ gives (core_catches (map catch_view made.items))) }
    ensures err { IfErr result (IsFault (the_clauses (heads_of heads.now) (scope_seen scope.now)
        (map clause_seen written.items))) }
{
    let mut made = Vec::new(alloc);
    for one in written {
        let catch = caught(alloc, heads, scope, one)?;
        made.push(catch)?;
    }
    Ok(made)
}
