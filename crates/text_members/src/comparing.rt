// Texts compared.

ghost use Rattle.std.specs.Prelude.{◌≡◌, ◌↔◌, pos, ◌-ℤ◌, length, IsTrue};
ghost use Rattle.std.specs.Int.{w32, int_wrap};
ghost use Rattle.text_members.specs.Comparing.{compared as the_compared, count_as_int as the_count_as_int, first_difference as the_first_difference, hash_code as the_hash_code, is_same_text as the_is_same_text};

/// `equals`, of two texts. It costs at most the shorter length.
pub fn is_same_text(left: &[u16], right: &[u16]) -> bool
    ensures value { result ≡ the_is_same_text left.now right.now }
    ensures same { IsTrue result ↔ (left.now ≡ right.now) }
{
    left == right
}

// The difference of the first units that differ.
#[tactic(auto, using(crate::proofs::Comparison::differences))]
fn first_difference(left: &[u16], right: &[u16]) -> Option<i32>
    ensures { result ≡ the_first_difference left.now right.now }
{
    for at in 0..left.len().min(right.len()) {
        if left[at] != right[at] {
            return Some(left[at] as i32 - right[at] as i32);
        }
    }
    None
}

/// `compareTo`: the difference of the first units that differ, else of the lengths, as an int. It costs at most
/// the shorter length.
#[tactic(auto, using(std::proofs::lemmas::Int::int_wrap_fits))]
pub fn compared(left: &[u16], right: &[u16]) -> i32
    ensures { result ≡ the_compared left.now right.now }
{
    match first_difference(left, right) {
        Some(difference) => difference,
        None => length_difference(left, right),
    }
}

fn length_difference(left: &[u16], right: &[u16]) -> i32
    ensures { result ≡ int_wrap w32 (pos (length left.now) -ℤ pos (length right.now)) }
{
    count_as_int(left.len()).wrapping_sub(count_as_int(right.len()))
}

/// A count, a length or a place, as an int.
#[tactic(auto, using(crate::proofs::Comparison::natural_wrapped))]
pub fn count_as_int(count: usize) -> i32
    ensures { result ≡ the_count_as_int count }
{
    ((count % (1 << 32)) as u32).cast_signed()
}

/// `hashCode`: s[0] * 31^(n-1) + s[1] * 31^(n-2) + .. + s[n-1], as an int. It costs the length.
#[tactic(auto, using(crate::proofs::Comparison::hashes))]
pub fn hash_code(units: &[u16]) -> i32
    ensures { result ≡ the_hash_code units.now }
{
    let mut hash: u32 = 0;
    for unit in units {
        hash = hash.wrapping_mul(31).wrapping_add(*unit as u32);
    }
    hash.cast_signed()
}
