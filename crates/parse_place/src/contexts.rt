// What items stand in.

ghost use Rattle.std.specs.Prelude.{◌≡◌};
ghost use Rattle.parse_laws.specs.way.Place.{has_bracket as has_bracket_at};
ghost use Rattle.parse_place.specs.way.Views.{context_view};

use je_token::Token;

/// What items stand in: a file before its first declaration or `;`, and behind it; the body of a
/// class or interface; the body of a constructor before its first statement; a block.
#[derive(Clone, Copy, PartialEq, Eq, Debug)]
pub enum Context {
    Imports,
    Declarations,
    Members,
    ConstructorBody,
    Statements,
}

impl Context {
    /// Whether a `}` ends the items.
    pub fn has_bracket(self) -> bool
        ensures { result ≡ has_bracket_at (context_view self) }
    {
        match self {
            Context::Imports | Context::Declarations => false,
            Context::Members | Context::ConstructorBody | Context::Statements => true,
        }
    }
}

/// What the items behind one that was read, or inside one that was opened, stand in, and the tokens
/// there.
#[derive(Clone, Copy)]
pub struct Step<'a> {
    pub context: Context,
    pub rest: &'a [Token],
}
