ghost use Rattle.std.specs.List.{list_all};
ghost use Rattle.std.specs.Prelude.{◌≡◌, map, string_bytes};
ghost use Rattle.words_spec.specs.Reading as reading;

/// Each word can be an entry.
pub(crate) fn are_values(words: &[String]) -> bool
    ensures { result ≡ list_all reading.is_value (map string_bytes words.now) }
{
    let mut rest = words;
    while let Some((word, more)) = rest.split_first() {
        if !is_value(word.as_str()) {
            return false;
        }
        rest = more;
    }
    true
}

/// The text can be an entry, or the value of an option.
pub(crate) fn is_value(text: &str) -> bool
    ensures { result ≡ reading.is_value text.now }
{
    match text.as_bytes().split_first() {
        None => false,
        Some((first, _)) => *first != b'-',
    }
}
