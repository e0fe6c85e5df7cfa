//! The choice among the keys of an object of subpaths, as `exports` and `imports` have it.
#![tactic(auto)]

ghost use Rattle.exports_patterns.specs.OneFound.{OneFound};

mod few;
mod fronts;
mod keys;
mod parts;
mod pattern_keys;

pub use few::best_match;
pub use keys::{Keys, keys_in};
pub use pattern_keys::{Match, indexed_match, place_of};

/// Among the keys of an object, which are distinct, one match is found at most.
pub fn one_found()
    ensures { OneFound }
{}
