// Initializers (JLS 8.6, 8.7).

ghost use Rattle.std.specs.Prelude.{◌≡◌, IfErr, IfOk};
ghost use Rattle.je_ast.specs.View.{statement_views_of};
ghost use Rattle.je_typing.specs.Answers.{IsFault};
ghost use Rattle.je_typing.specs.Judged.{gives};
ghost use Rattle.member_forms.specs.Bodies.{HasAllMethods};
ghost use Rattle.member_forms.specs.Seen.{members_seen};
ghost use Rattle.type_decl.specs.way.Walks.{initializer as the_initializer};

use crate::bodies::body_statements;
use je_ast::Block;
use je_base::Span;
use je_typing::Refusal;
use member_forms::{
    ClassWalk, MembersDone, alloc, initializer_code, initializer_scope, nothing_met,
};
use statement_steps::Returning;

/// An initializer, before which so many fields stand.
#[tactic(auto, using(je_typing::proofs::Walks::walks))]
pub fn initializer<'a>(
    walk: ClassWalk,
    fields: usize,
    word: &Option<Span>,
    block: &'a Block,
) -> Result<MembersDone<'a>, Refusal>
    requires { HasAllMethods walk.bodies.now }
    ensures ok { IfOk result (λ d. the_initializer walk.entry fields word.now
        block.now.opening (statement_views_of block.now.stmts.items) block.now.closing
        ≡ gives (members_seen d)) }
    ensures err { IfErr result (IsFault (the_initializer walk.entry fields word.now
        block.now.opening (statement_views_of block.now.stmts.items) block.now.closing)) }
{
    let mut scope = initializer_scope(walk, word, fields);
    let mut progress = nothing_met(alloc(walk));
    let returning = Returning::Never;
    let done = body_statements(walk, returning, &mut scope, &mut progress, &block.stmts)?;
    let members = initializer_code(walk, word, block, progress, done)?;
    Ok(members)
}
