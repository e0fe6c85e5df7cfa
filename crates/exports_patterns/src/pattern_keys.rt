//! The choice among the keys of an object by their index.
ghost use Rattle.std.specs.Prelude.{◌≡◌, ◌≤◌, List, ℕ, length, take, reverse, slice_get, Some};
ghost use Rattle.std.specs.Prelude.{IfOk, IfSome, MatchOption};
ghost use Rattle.node_spec.specs.PatternKeys.{HasNoStar, StartsWith};
ghost use Rattle.exports_patterns.specs.Fitting.{NoneFits, IsFitting, IsBestFitting, IsTried};
ghost use Rattle.exports_patterns.specs.Found.{keys_of, Finds, HasSpan};
ghost use Rattle.exports_patterns.specs.Fronts.{StandsAt};
ghost use Rattle.exports_patterns.specs.Indexes.{Group, IsIndex, IsKeyIndex};

use crate::few::{best_match, place_of_few};
use crate::fronts::Fronts;
use crate::keys::{KeyIndex, Keys};
use crate::parts::reversed;
use ordered_json::Members;
use shared_types::Memory;
use std::alloc::Global;

/// How a key matches.
#[derive(Clone, Copy, Debug, PartialEq, Eq)]
pub struct Match {
    /// The place of the key's member, counted from 0.
    pub index: usize,
    /// Whether the key is the asked text itself, and no pattern.
    pub exact: bool,
    /// Where the pattern match begins in the asked text, in bytes, and 0 for an exact key.
    pub from: usize,
    /// Where it ends, and 0 for an exact key.
    pub to: usize,
}

/// What `best_match` gives, by an index of the keys where there is one.
pub fn indexed_match(
    alloc: Global,
    keys: &Keys,
    members: &Members,
    asked: &str,
) -> Result<Option<Match>, Memory>
    requires { IsIndex (keys_of members.now) keys.now }
    ensures choice { IfOk result (Finds (keys_of members.now) asked.now) }
    ensures span { IfOk result (λ found. IfSome found (HasSpan asked.now)) }
{
    match &keys.index {
        None => Ok(best_match(members, asked)),
        Some(index) => best_indexed(alloc, index, asked),
    }
}

/// The place of the key that is this text and no pattern.
pub fn place_of(keys: &Keys, members: &Members, asked: &str) -> Option<usize>
    requires { IsIndex (keys_of members.now) keys.now }
    ensures { MatchOption result
        ((place : ℕ) → HasNoStar asked.now → slice_get (keys_of members.now) place ≡ Some asked.now → ⊥)
        (λ place. slice_get (keys_of members.now) place ≡ Some asked.now) }
{
    match &keys.index {
        None => place_of_few(members, asked),
        Some(index) => place_in(index, asked),
    }
}

fn best_indexed(alloc: Global, keys: &KeyIndex, asked: &str) -> Result<Option<Match>, Memory>
    ensures choice { IfOk result (λ found. (names : List (List ℕ)) → IsKeyIndex names keys.now
        → Finds names asked.now found) }
    ensures span { IfOk result (λ found. (names : List (List ℕ)) → IsKeyIndex names keys.now
        → IfSome found (HasSpan asked.now)) }
{
    if let Some(index) = place_in(keys, asked) {
        return Ok(Some(Match {
            index,
            exact: true,
            from: 0,
            to: 0,
        }));
    }
    let back = reversed(alloc, asked)?;
    Ok(best_pattern(&keys.patterns, asked, back.as_bytes()))
}

fn place_in(keys: &KeyIndex, asked: &str) -> Option<usize>
    ensures { (names : List (List ℕ)) → IsKeyIndex names keys.now → MatchOption result
        ((place : ℕ) → HasNoStar asked.now → slice_get names place ≡ Some asked.now → ⊥)
        (λ place. (slice_get names place ≡ Some asked.now) × HasNoStar asked.now) }
{
    let at = keys.exact.top(asked.as_bytes());
    if at == 0 {
        return None;
    }
    match keys.exact.at(at - 1) {
        None => None,
        Some((key, place)) => {
            if key.len() == asked.len() {
                Some(*place)
            } else {
                None
            }
        }
    }
}

// The pattern with the longest base that fits, and of those with that base the longest.
fn best_pattern(patterns: &Fronts<Fronts<usize>>, asked: &str, back: &[u8]) -> Option<Match>
    requires { back.now ≡ reverse asked.now }
    ensures { MatchOption result (IsTried asked.now patterns.now 0) (IsBestFitting asked.now patterns.now) }
{
    let mut at = patterns.top(asked.as_bytes());
    while at > 0 {
        match pattern_at(patterns, at - 1, asked, back) {
            None => {}
            Some(found) => return Some(found),
        }
        at = patterns.next(at, asked.as_bytes());
    }
    None
}

// The longest pattern of the group at a place that fits, if its base begins the text.
fn pattern_at(
    patterns: &Fronts<Fronts<usize>>,
    place: usize,
    asked: &str,
    back: &[u8],
) -> Option<Match>
    requires { back.now ≡ reverse asked.now }
    ensures { (base : List ℕ) (group : Group) → StandsAt patterns.now place (base, group) → StartsWith asked.now base
        → MatchOption result (NoneFits asked.now base group) (IsFitting asked.now base group) }
{
    match patterns.at(place) {
        None => None,
        Some((base, group)) => fitting(base, group, asked, back),
    }
}

fn fitting(base: &[u8], group: &Fronts<usize>, asked: &str, back: &[u8]) -> Option<Match>
    requires { back.now ≡ reverse asked.now }
    ensures { StartsWith asked.now base.now
        → MatchOption result (NoneFits asked.now base.now group.now) (IsFitting asked.now base.now group.now) }
{
    if asked.len() <= base.len() {
        return None;
    }
    // At least one byte stands for the star.
    let room = asked.len() - base.len() - 1;
    let at = group.top(front(back, room));
    if at == 0 {
        return None;
    }
    match group.at(at - 1) {
        None => None,
        Some((trailer, place)) => Some(Match {
            index: *place,
            exact: false,
            from: base.len(),
            to: asked.len() - trailer.len(),
        }),
    }
}

fn front(text: &[u8], count: usize) -> &[u8]
    requires { count ≤ length text.now }
    ensures { result.now ≡ take count text.now }
{
    &text[..count]
}
