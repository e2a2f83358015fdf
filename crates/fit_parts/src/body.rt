// Where a node stands.

ghost use Rattle.std.specs.Prelude.{◌≡◌, slice_get};
ghost use Rattle.je_fitting.specs.Expressions.{builds as the_builds, starts as the_starts};
ghost use Rattle.je_fitting.specs.way.Deciding.{begins_as as the_begins_as};
ghost use Rattle.fit_parts.specs.Codes.{code_seen};

use crate::types::class_type;
use je_core::{ClassId, Local, Ty};
use std::marker::Model;

/// What a body is of.
#[derive(Clone, Copy, PartialEq, Eq)]
pub enum Code {
    Method,
    Constructor,
    InstanceInitializer,
    StaticInitializer,
}

/// Where a node stands: its class, what its body is of, whether `this` is missing there, the locals, and the type of what
/// a return has to give, if one may stand there.
#[derive(Drop)]
pub struct Body<'a> {
    pub class: ClassId,
    pub code: Code,
    pub is_static: bool,
    pub locals: &'a [Local],
    pub returns: Option<Ty>,
}

impl<'a> Model for Body<'a> {
    ghost use Rattle.je_fitting.specs.Expressions.{Body as BodyOf};
    ghost use Rattle.je_fitting.specs.Members.{local_types};
    ghost use Rattle.fit_parts.specs.Codes.{code_seen};

    ghost Value = { BodyOf };

    ghost view = { λ b. record {
      class = b.class;
      code = code_seen b.code;
      is_static = b.is_static;
      locals = local_types b.locals.now;
      returns = b.returns;
    } };
}

/// Whether instances are built there.
pub fn builds(code: Code) -> bool
    ensures { result ≡ the_builds (code_seen code) }
{
    match code {
        Code::Constructor | Code::InstanceInitializer => true,
        _ => false,
    }
}

/// Whether a class is started there.
pub fn starts(code: Code) -> bool
    ensures { result ≡ the_starts (code_seen code) }
{
    match code {
        Code::StaticInitializer => true,
        _ => false,
    }
}

/// The type of the local of a number.
pub fn local_type(body: &Body<'_>, local: u32) -> Option<Ty>
    ensures { result ≡ slice_get body.now.locals local }
{
    match body.locals.get(local as usize) {
        None => None,
        Some(local) => Some(local.ty),
    }
}

/// The type of the value with which a hidden field's begins: a local's, or that of `this`.
pub fn begins_as(body: &Body<'_>, local: Option<u32>) -> Option<Ty>
    ensures { result ≡ the_begins_as body.now local }
{
    match local {
        Some(local) => local_type(body, local),
        None => {
            if body.is_static {
                None
            } else {
                Some(class_type(body.class))
            }
        }
    }
}
