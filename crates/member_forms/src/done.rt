// What members come to.

ghost use Rattle.std.specs.Prelude.{◌≡◌, ◌∷◌, [], IfOk, OnOk, map};
ghost use Rattle.je_core.specs.View.{initializer_view, method_view};
ghost use Rattle.class_typing.specs.Members.{followed_by, nothing as the_nothing};
ghost use Rattle.member_forms.specs.Calls.{own_call_seen};
ghost use Rattle.statement_forms.specs.Bodies.{met_seen};
ghost use Rattle.member_forms.specs.Seen.{members_seen};

use crate::cycles::OwnCall;
use je_base::Memory;
use je_core::{Expr, Initializer, Method};
use statement_forms::Met;
use std::alloc::Global;

/// What members come to, in their order.
#[derive(Drop)]
pub struct MembersDone<'a> {
    /// Of each variable of a field the constant that it is, if it is one.
    pub constants: Vec<Option<Expr>>,
    pub initializers: Vec<Initializer>,
    pub methods: Vec<Method>,
    /// The calls between constructors.
    pub calls: Vec<OwnCall>,
    /// What was met in bodies.
    pub met: Vec<Met<'a>>,
}

/// Nothing.
pub fn nothing<'a>(alloc: Global) -> MembersDone<'a>
    ensures { members_seen result ≡ the_nothing }
{
    MembersDone {
        constants: Vec::new(alloc),
        initializers: Vec::new(alloc),
        methods: Vec::new(alloc),
        calls: Vec::new(alloc),
        met: Vec::new(alloc),
    }
}

/// A method or a constructor, with its calls of other constructors, and with what was met in its body.
pub fn of_method<'a>(
    alloc: Global,
    method: Method,
    calls: Vec<OwnCall>,
    met: Vec<Met<'a>>,
) -> Result<MembersDone<'a>, Memory>
    ensures { IfOk result (λ d. members_seen d ≡ record the_nothing {
      methods = method_view method ∷ [];
      calls = map own_call_seen calls.items;
      met = map met_seen met.entry.items;
    }) }
{
    let mut done = nothing(alloc);
    done.methods.push(method)?;
    done.calls = calls;
    done.met = met;
    Ok(done)
}

/// An initializer, with what was met in it.
pub fn of_initializer<'a>(
    alloc: Global,
    initializer: Initializer,
    met: Vec<Met<'a>>,
) -> Result<MembersDone<'a>, Memory>
    ensures { IfOk result (λ d. members_seen d ≡ record the_nothing {
      initializers = initializer_view initializer ∷ [];
      met = map met_seen met.entry.items;
    }) }
{
    let mut done = nothing(alloc);
    done.initializers.push(initializer)?;
    done.met = met;
    Ok(done)
}

/// What members come to, and what those behind them do.
pub fn follow<'a>(done: &mut MembersDone<'a>, more: MembersDone<'a>) -> Result<(), Memory>
    ensures { OnOk result (members_seen done.new ≡
        followed_by (members_seen done.old) (members_seen more.entry)) }
{
    let MembersDone {
        mut constants,
        mut initializers,
        mut methods,
        mut calls,
        mut met,
    } = more;
    done.constants.append(&mut constants)?;
    done.initializers.append(&mut initializers)?;
    done.methods.append(&mut methods)?;
    done.calls.append(&mut calls)?;
    done.met.append(&mut met)?;
    Ok(())
}
