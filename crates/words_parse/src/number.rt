ghost use Rattle.std.specs.Prelude.{◌≡◌, ◌≤◌};
ghost use Rattle.words_spec.specs.PlainWords.{most_packages};
ghost use Rattle.words_spec.specs.Reading as reading;

const MOST: u64 = 2000;

/// The number that a text writes in decimal, from 1 to 2,000 and without leading zeros.
pub(crate) fn number_in(text: &str) -> Option<u64>
    ensures { result ≡ reading.number_in text.now 0 }
{
    let mut rest = text.as_bytes();
    let mut number = 0_u64;
    while let Some((digit, more)) = rest.split_first() {
        let next = next_number(number, *digit)?;
        number = next;
        rest = more;
    }
    if number == 0 { None } else { Some(number) }
}

// A number that is 0 or passes the most ends the reading, so a leading zero does, and nothing can overflow.
fn next_number(number: u64, digit: u8) -> Option<u64>
    requires { number ≤ most_packages }
    ensures { result ≡ reading.next_number number digit }
{
    if digit < b'0' || b'9' < digit {
        return None;
    }
    let next = number * 10 + (digit - b'0') as u64;
    if next == 0 || MOST < next {
        return None;
    }
    Some(next)
}
