//! Parts of texts.
ghost use Rattle.std.specs.Prelude.{◌≡◌, ◌++◌, ◌∷◌, ◌↔◌, IfOk, IsTrue, MatchOption, reverse};
ghost use Rattle.node_spec.specs.PatternKeys.{HasNoStar, StartsWith};

use shared_types::{Bytes, Memory};
use std::alloc::Global;

/// What stands before the first star and after it.
pub fn at_star(text: &str) -> Option<(&str, &str)>
    ensures { MatchOption result (HasNoStar text.now)
        (λ parts. (text.now ≡ parts.0.now ++ 42 ∷ parts.1.now) × HasNoStar parts.0.now) }
{
    text.split_once('*')
}

/// Whether a text begins with another one.
pub fn begins(text: &[u8], front: &[u8]) -> bool
    ensures { IsTrue result ↔ StartsWith text.now front.now }
{
    text.strip_prefix(front).is_some()
}

/// The bytes of a text, the last one first.
pub fn reversed(alloc: Global, text: &str) -> Result<Bytes, Memory>
    ensures { IfOk result (λ back. back ≡ reverse text.now) }
{
    let mut back = Vec::from_slice(alloc, text.as_bytes())?;
    back.reverse();
    Ok(Bytes::from_vec(back))
}
