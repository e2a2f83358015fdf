// The numbers of variables.

ghost use Rattle.std.specs.Prelude.{◌≡◌, ◌<◌, ◌^◌};
ghost use Rattle.variable_sets.specs.Numbers.{local_number as the_local_number, field_number as the_field_number};

/// The number of a local of a body.
pub fn local_number(local: usize) -> usize
    requires { local < 2 ^ 63 }
    ensures { result ≡ the_local_number local }
{
    local * 2
}

/// The number of a field of a class.
pub fn field_number(field: usize) -> usize
    requires { field < 2 ^ 63 }
    ensures { result ≡ the_field_number field }
{
    field * 2 + 1
}
