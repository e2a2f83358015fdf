// Members of Object and Token.

ghost use Rattle.je_java.specs.library.Objects.{identity as the_identity, object_member as the_object_member};
ghost use Rattle.tamed_lib.specs.Outcomes.{Answers};

use crate::arguments::{choose, is};
use crate::outcome::Rest;
use je_core::{Slots, Value};
use object_parts::values::same_reference;

// Whether the receiver is the argument.
fn identity(this: Value, given: &Slots) -> Rest
    ensures { Answers (λ p. the_identity this given.now) result }
{
    match given.get(0) {
        Some(other) => match same_reference(this, other) {
            Some(same) => Rest::Gives(Value::Bool(same)),
            None => Rest::Wrong,
        },
        None => Rest::Wrong,
    }
}

/// The member of Object or Token that has a signature.
#[tactic(auto, unfolding(je_java::specs::library::Objects::object_member))]
pub fn object_member(signature: &str, this: Value, given: &Slots) -> Rest
    ensures { Answers (λ p. the_object_member signature.now this given.now) result }
{
    choose!(signature;
        "equals(Object)" => identity(this, given),
        "new()" => Rest::Gives(Value::Null),
        else => Rest::Wrong)
}
