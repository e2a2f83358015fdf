// How deep braces nest.

ghost use Rattle.std.specs.Prelude.{◌≡◌, ◌+◌, ◌<◌, ◌^◌, nat_le};
ghost use Rattle.parse_laws.specs.way.Place.{nest};
ghost use Rattle.parse_place.specs.way.Nests.{open_behind_at};

use je_token::{Symbol, Token, TokenKind};

/// Whether braces nest at least so deep up to the `}` that closes what is open before these tokens.
/// Looks no further than to where they do.
#[tactic(auto, using(crate::proofs::Depths::deep_at_first, crate::proofs::Depths::deep_here, crate::proofs::Depths::deep_behind, crate::proofs::Depths::deep_at_end))]
pub fn nests_deep(tokens: &[Token], most: u32) -> bool
    ensures { result ≡ nat_le most (nest tokens.now).0 }
{
    let mut opened = 0;
    let mut rest = tokens;
    while let Some((token, others)) = rest.split_first() {
        if opened >= most {
            return true;
        }
        let Some(more) = open_behind(opened, token.kind) else {
            return false;
        };
        opened = more;
        rest = others;
    }
    opened >= most
}

// How many braces are open behind a token of this kind, or None where it closes what was open
// before.
fn open_behind(opened: u32, kind: TokenKind) -> Option<u32>
    requires { opened + 1 < 2 ^ 32 }
    ensures { result ≡ open_behind_at opened kind }
{
    match kind {
        TokenKind::Symbol(Symbol::OpenBrace) => Some(opened + 1),
        TokenKind::Symbol(Symbol::CloseBrace) => opened.checked_sub(1),
        _ => Some(opened),
    }
}
