ghost use Rattle.std.specs.Prelude.{◌≡◌, ◌≢◌, [], ◌∷◌, ◌++◌, ◌<◌, ◌≤◌, List, ℕ, length, MatchOption, Some, None};
ghost use Rattle.json_spec.specs.Grammar.{after_space, is_space};
ghost use Rattle.json_spec.specs.Strings.{behind};

/// The first byte, and the bytes behind it.
pub fn cut_first(bytes: &[u8]) -> Option<(u8, &[u8])>
    ensures { MatchOption result (bytes.now ≡ []) (λ x. bytes.now ≡ x.0 ∷ x.1.now) }
{
    let (first, rest) = bytes.split_first()?;
    Some((*first, rest))
}

/// The bytes behind the first one, where it is this one.
pub fn after_byte(bytes: &[u8], byte: u8) -> Option<&[u8]>
    ensures { MatchOption result ((rest : List ℕ) → bytes.now ≢ byte ∷ rest) (λ rest. bytes.now ≡ byte ∷ rest.now) }
{
    match cut_first(bytes) {
        None => None,
        Some((first, rest)) => { if first == byte { Some(rest) } else { None } }
    }
}

/// The bytes behind a word, where they begin with it.
pub fn after_word<'a>(bytes: &'a [u8], word: &[u8]) -> Option<&'a [u8]>
    ensures { MatchOption result (behind word.now bytes.now ≡ None) (λ r. behind word.now bytes.now ≡ Some r.now) }
{
    let mut rest = bytes;
    for letter in word {
        match after_byte(rest, *letter) {
            None => return None,
            Some(more) => rest = more,
        }
    }
    Some(rest)
}

/// The bytes before those that are left.
pub fn piece_before<'a>(bytes: &'a [u8], rest: &[u8]) -> &'a [u8]
    requires { length rest.now ≤ length bytes.now }
    ensures { (piece : List ℕ) → bytes.now ≡ piece ++ rest.now → result.now ≡ piece }
{
    &bytes[..bytes.len() - rest.len()]
}

/// The bytes behind the white space at the front (RFC 8259, 2).
pub fn skip_space(bytes: &[u8]) -> &[u8]
    ensures { result.now ≡ after_space bytes.now }
{
    let mut rest = bytes;
    while let Some((first, more)) = cut_first(rest) {
        if !is_white(first) {
            return rest;
        }
        rest = more;
    }
    rest
}

fn is_white(byte: u8) -> bool
    ensures { result ≡ is_space byte }
{
    byte == b' ' || byte == b'\t' || byte == b'\n' || byte == b'\r'
}
