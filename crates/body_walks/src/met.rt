// What is met in a body.

use body_places::Frame;
use je_ast::{Expr, TyName};
use je_base::Span;
use je_core::ClassId;

/// A scope that is kept.
#[derive(Drop)]
pub struct Standing {
    pub here: Frame,
    /// The bodies that the class stands in, the innermost first.
    pub round: Vec<Frame>,
    pub is_constructor: bool,
    /// The numbers of the final locals that have their value from where they are declared.
    pub given: Vec<u32>,
}

/// What is met in a body: that by which it is told what classes capture (JLS 8.1.3), and where classes stand.
#[derive(Drop)]
pub enum Met<'a> {
    /// A name means a local of a body of another class, by that class and the local's number; it is no constant.
    Captures {
        within: ClassId,
        owner: ClassId,
        local: u32,
    },
    /// Objects of another class are made.
    Makes {
        within: ClassId,
        made: ClassId,
    },
    /// A local class stands in a scope, which has the class itself.
    Stands {
        class: ClassId,
        scope: Standing,
    },
    /// A class whose body is behind `new` stands in a scope, with that word, the type, and the arguments.
    StandsBehindNew {
        class: ClassId,
        scope: Standing,
        word: Span,
        ty: &'a TyName,
        arguments: &'a [Expr],
    },
}
