ghost use Rattle.std.specs.Prelude.{◌≡◌, ◌≢◌, ◌<◌, ◌≤◌, ℕ, length, get_or, MatchOption};
ghost use Rattle.html_resolve.specs.Fronts.{IsNextFront, HasNoFront};

/// A front of a text that ends in `/`.
#[derive(Clone, Copy)]
pub struct Front<'a> {
    pub text: &'a str,
    /// What follows it.
    pub rest: &'a str,
    /// What stands before its `/`.
    pub before: &'a str,
}

/// Of the fronts of a text that end in `/`, the longest one of at most this many bytes.
pub fn next_front(text: &str, limit: usize) -> Option<Front<'_>>
    requires { limit ≤ length text.now }
    ensures { MatchOption result (HasNoFront text.now limit)
        (λ front. IsNextFront text.now limit front.text.now front.rest.now front.before.now) }
{
    match last_slash(&text.as_bytes()[..limit]) {
        None => None,
        Some(at) => Some(Front {
            text: &text[..at + 1],
            rest: &text[at + 1..],
            before: &text[..at],
        }),
    }
}

fn last_slash(bytes: &[u8]) -> Option<usize>
    ensures { MatchOption result ((i : ℕ) → i < length bytes.now → get_or bytes.now i 0 ≢ 47)
        (λ at. (at < length bytes.now) × (get_or bytes.now at 0 ≡ 47)
        × ((i : ℕ) → at < i → i < length bytes.now → get_or bytes.now i 0 ≢ 47)) }
{
    bytes.iter().rposition(|&byte| byte == b'/')
}
