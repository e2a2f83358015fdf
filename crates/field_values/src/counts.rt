// Counts by class.

ghost use Rattle.std.specs.Prelude.{◌≡◌};
ghost use Rattle.field_values.specs.Values.{count_at};

/// That of the class of a number; 0 past the last.
pub fn count_of(counts: &[usize], class: usize) -> usize
    ensures { result ≡ count_at counts.now class }
{
    match counts.get(class) {
        Some(count) => *count,
        None => 0,
    }
}
