// The members of an enum (JLS 8.9).

ghost use Rattle.std.specs.Prelude.{◌≡◌, IfOk, map, option_map};
ghost use Rattle.je_core.specs.View.{view};
ghost use Rattle.member_forms.specs.Seen.{members_seen};
ghost use Rattle.type_decl.specs.way.Walks.{enum_members as the_enum_members, no_constant};

use je_ast::Identifier;
use je_base::Memory;
use je_core::Expr;
use member_forms::{ClassWalk, MembersDone, alloc, class_span, nothing};
use program_tables::{EnumClass, constants_made, enum_code};

// Enum constants are no constants of an expression.
fn no_constants(walk: ClassWalk, constants: &[Identifier]) -> Result<Vec<Option<Expr>>, Memory>
    ensures { IfOk result (λ cs. map (option_map view) cs.items ≡
        map (no_constant walk.entry) constants.now) }
{
    let mut all = Vec::new(alloc(walk));
    for constant in constants {
        all.push(None)?;
    }
    Ok(all)
}

/// The members of an enum of these constants.
pub fn enum_members<'a>(
    walk: ClassWalk,
    constants: &[Identifier],
) -> Result<MembersDone<'a>, Memory>
    ensures { IfOk result (λ d. members_seen d ≡ the_enum_members walk.entry constants.now) }
{
    let span = class_span(walk);
    let mut done = nothing(alloc(walk));
    done.constants = no_constants(walk, constants)?;
    let of = EnumClass {
        names: walk.names,
        class: walk.class,
        span,
        constants,
    };
    done.initializers = constants_made(alloc(walk), of)?;
    done.methods = enum_code(alloc(walk), of)?;
    Ok(done)
}
