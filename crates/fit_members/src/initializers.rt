// Initializers (JLS 8.6, 8.7).

ghost use Rattle.std.specs.Prelude.{◌≡◌, IfOk};
ghost use Rattle.je_core.specs.View.{initializer_view, program_view};
ghost use Rattle.je_fitting.specs.Members.{initializer_body as the_initializer_body};
ghost use Rattle.je_fitting.specs.Statements.{no_targets as the_no_targets};
ghost use Rattle.je_fitting.specs.way.DecidingMembers.{is_initializer_fit};
ghost use Rattle.je_fitting.specs.way.DecidingStatements.{is_statement_fit};

use crate::variables::locals_fit;
use fit_parts::{Body, Code};
use fit_statements::{no_targets, statement_fits};
use je_core::{ClassId, Initializer, Memory, Program};
use std::alloc::Global;

// What an initializer is of.
fn initializer_body<'a>(class: ClassId, initializer: &'a Initializer) -> Body<'a>
    ensures { result ≡ the_initializer_body class (initializer_view initializer.now) }
{
    let code = if initializer.is_static {
        Code::StaticInitializer
    } else {
        Code::InstanceInitializer
    };
    Body {
        class,
        code,
        is_static: initializer.is_static,
        locals: &initializer.locals,
        returns: None,
    }
}

// Whether the block of an initializer fits.
fn block_fits(
    alloc: Global,
    program: &Program,
    class: ClassId,
    initializer: &Initializer,
) -> Result<bool, Memory>
    ensures { IfOk result (λ fits. fits ≡ is_statement_fit (program_view program.now)
        (the_initializer_body class (initializer_view initializer.now)) the_no_targets
        (initializer_view initializer.now).body) }
{
    let body = initializer_body(class, initializer);
    statement_fits(alloc, program, &body, &no_targets(), &initializer.body)
}

/// Whether an initializer of a class fits.
pub fn initializer_fits(
    alloc: Global,
    program: &Program,
    class: ClassId,
    initializer: &Initializer,
) -> Result<bool, Memory>
    ensures { IfOk result (λ fits. fits ≡
        is_initializer_fit (program_view program.now) class (initializer_view initializer.now)) }
{
    if !locals_fit(program, &initializer.locals) {
        return Ok(false);
    }
    block_fits(alloc, program, class, initializer)
}
