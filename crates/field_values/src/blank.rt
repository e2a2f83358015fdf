// Fields without a value.

ghost use Rattle.std.specs.Prelude.{◌≡◌, IfOk, map, ℕ};
ghost use Rattle.body_scopes.specs.View.{blank_seen};
ghost use Rattle.class_typing.specs.ConstantFields.{field_value, is_blank as the_is_blank};
ghost use Rattle.name_typing.specs.Program.{Program};
ghost use Rattle.field_values.specs.Values.{value_at, value_seen};
ghost use Rattle.field_values.specs.way.Blank.{has_none};

use crate::values::FieldValue;
use je_base::Memory;
use std::alloc::Global;

fn is_blank(value: &FieldValue) -> bool
    ensures { result ≡ has_none (value_seen value.now) }
{
    matches!(value, FieldValue::NoValue)
}

// Of each field of a class.
fn blank_of(alloc: Global, values: &[FieldValue]) -> Result<Vec<bool>, Memory>
    ensures { IfOk result (λ blank. blank.items ≡ map has_none (map value_seen values.now)) }
{
    let mut blank = Vec::new(alloc);
    for value in values {
        blank.push(is_blank(value))?;
    }
    Ok(blank)
}

/// Which fields a source declares without an initializer, by what it writes of the fields of each class.
pub fn blank_fields(alloc: Global, values: &[Vec<FieldValue>]) -> Result<Vec<Vec<bool>>, Memory>
    ensures { IfOk result (λ blank. (p : Program) (hidden : ℕ → ℕ) →
        value_at values.now ≡ field_value p hidden →
        blank_seen blank.items ≡ the_is_blank p hidden) }
{
    let mut all = Vec::new(alloc);
    for of_class in values {
        all.push(blank_of(alloc, of_class)?)?;
    }
    Ok(all)
}
