//! Texts that are cut at a character.
ghost use Rattle.std.specs.Prelude.{◌≡◌, ◌≢◌, ◌<◌, ◌++◌, ◌∷◌, ℕ, get_or, length, MatchOption};

/// What stands before the first such character and behind it; None where there is none.
pub(crate) fn cut_once(text: &str, mark: char) -> Option<(&str, &str)>
    requires { mark < 128 }
    ensures { MatchOption result ((i : ℕ) → i < length text.now → get_or text.now i 0 ≢ mark)
        (λ x. (text.now ≡ x.0.now ++ mark ∷ x.1.now) × ((i : ℕ) → i < length x.0.now → get_or x.0.now i 0 ≢ mark)) }
{
    text.split_once(mark)
}
