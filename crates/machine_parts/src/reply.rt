// What the caller of a whole call has, and what it is handed back.

ghost use Rattle.std.specs.Prelude.{◌≡◌, []};
ghost use Rattle.je_core.specs.declared.value.Value.TheVariants.{Null};
ghost use Rattle.je_java.specs.Meaning.{reply as the_reply};
ghost use Rattle.machine_parts.specs.Outermost.{replied, at_end};

use crate::frame::{Env, Reply};
use je_core::{Base, Slots, Ty, Value};
use std::alloc::Global;

// A method that answers nothing has no reply.
fn reply(ty: Ty, value: Value) -> Option<Value>
    ensures { result ≡ the_reply ty value }
{
    if ty.dims > 0 {
        return Some(value);
    }
    match ty.base {
        Base::Void => None,
        _ => Some(value),
    }
}

impl Reply {
    /// The reply where the first body comes to a value.
    pub fn replied(self, value: Value) -> Option<Value>
        ensures { result ≡ replied self value }
    {
        match self {
            Reply::Result(ty) => reply(ty, value),
            Reply::Built(object) => Some(Value::Ref(object)),
        }
    }

    /// The value of the first body where it ends without a return.
    pub fn at_end(self) -> Value
        ensures { result ≡ at_end self }
    {
        match self {
            Reply::Result(ty) => ty.default_value(),
            Reply::Built(_) => Value::Null,
        }
    }
}

/// The variables of the caller of the whole call, who has none.
pub fn nobody(alloc: Global) -> Env
    ensures this { result.this ≡ Null }
    ensures locals { result.locals ≡ [] }
{
    Env {
        this: Value::Null,
        locals: Slots::new(alloc),
    }
}
