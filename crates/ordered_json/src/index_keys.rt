ghost use Rattle.std.specs.Prelude.{◌≡◌, false, true, MatchOption};
ghost use Rattle.json_spec.specs.PropertyOrder.{is_array_index, number_of, has_no_leading_zero};

/// The greatest array index (ECMA-262, object type).
const GREATEST_INDEX: u64 = 4_294_967_294;

/// The number of a text that is an array index; None for any other text.
pub fn array_index(text: &[u8]) -> Option<u32>
    ensures { MatchOption result (is_array_index text.now ≡ false)
        (λ number. (is_array_index text.now ≡ true) × (number ≡ number_of text.now)) }
{
    if !has_no_leading_zero(text) {
        return None;
    }
    let mut number: u64 = 0;
    for byte in text {
        if !byte.is_ascii_digit() {
            return None;
        }
        number = number * 10 + (*byte - b'0') as u64;
        if number > GREATEST_INDEX {
            return None;
        }
    }
    Some(number as u32)
}

fn has_no_leading_zero(text: &[u8]) -> bool
    ensures { result ≡ has_no_leading_zero text.now }
{
    match text.split_first() {
        None => false,
        Some((first, rest)) => rest.is_empty() || *first != b'0',
    }
}
