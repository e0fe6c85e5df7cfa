//! How texts begin and end.
ghost use Rattle.std.specs.Prelude.{◌≡◌, bytes_eq};
ghost use Rattle.url_spec.specs.Specifiers.{begins};

pub use web_url::ends_in_slash;

/// Whether a text begins with another.
#[tactic(auto, using(std::proofs::lemmas::Str::Pattern::starts_text))]
pub fn begins(text: &str, front: &str) -> bool
    ensures { result ≡ begins text.now front.now }
{
    text.starts_with(front)
}

/// Whether two texts are equal.
pub fn same(text: &str, other: &str) -> bool
    ensures { result ≡ bytes_eq text.now other.now }
{
    text == other
}
