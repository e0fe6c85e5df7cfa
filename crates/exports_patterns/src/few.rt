//! The choice among the keys of an object, one after another.
ghost use Rattle.std.specs.Prelude.{◌≡◌, ◌≢◌, ◌↔◌, ◌+◌, ◌++◌, ◌∷◌, [], List, ℕ, length, slice_get, Some};
ghost use Rattle.std.specs.Prelude.{MatchOption, IfSome, IsTrue};
ghost use Rattle.node_spec.specs.PatternKeys.{HasNoStar, IsPattern, KeyMatch, Matches, GoesBefore};
ghost use Rattle.exports_patterns.specs.Found.{keys_of, match_shown, Finds, HasSpan, IsMatch};

use crate::keys::key_at;
use crate::parts::at_star;
use crate::pattern_keys::Match;
use ordered_json::Members;

/// The key that matches a text and that no other matching key precedes (Node.js, ECMAScript modules:
/// PACKAGE_IMPORTS_EXPORTS_RESOLVE). None where no key matches. Each key is looked at, and no memory is taken.
pub fn best_match(keys: &Members, key: &str) -> Option<Match>
    ensures choice { Finds (keys_of keys.now) key.now result }
    ensures span { IfSome result (HasSpan key.now) }
{
    let mut best = None;
    for index in 0..keys.len() {
        let Some(name) = key_at(keys, index) else {
            break;
        };
        best = with_key(best, index, name, key);
    }
    best
}

/// The place of the key that is this text.
pub(crate) fn place_of_few(keys: &Members, asked: &str) -> Option<usize>
    ensures { MatchOption result ((place : ℕ) → slice_get (keys_of keys.now) place ≡ Some asked.now → ⊥)
        (λ place. slice_get (keys_of keys.now) place ≡ Some asked.now) }
{
    for index in 0..keys.len() {
        let Some(name) = key_at(keys, index) else {
            return None;
        };
        if name == asked {
            return Some(index);
        }
    }
    None
}

// What is found, where one more key stands behind those that were looked at.
fn with_key(best: Option<Match>, index: usize, name: &str, asked: &str) -> Option<Match>
    ensures span { IfSome best (HasSpan asked.now) → IfSome result (HasSpan asked.now) }
    ensures found { (done : List (List ℕ)) → length done ≡ index → Finds done asked.now best
        → Finds (done ++ name.now ∷ []) asked.now result }
{
    match matched(index, name, asked) {
        None => best,
        Some(found) => match best {
            None => Some(found),
            Some(held) => {
                if precedes(found, held) {
                    Some(found)
                } else {
                    Some(held)
                }
            }
        },
    }
}

// Of two keys that match one text, whether the first goes before the second: of two patterns the one with the longer
// base, and of two with one base the longer key, whose pattern match ends earlier.
fn precedes(found: Match, other: Match) -> bool
    ensures { IsTrue result ↔ GoesBefore (match_shown found) (match_shown other) }
{
    if found.exact || other.exact {
        return found.exact && !other.exact;
    }
    other.from < found.from || other.from == found.from && found.to < other.to
}

fn matched(index: usize, name: &str, asked: &str) -> Option<Match>
    ensures matches { MatchOption result ((found : KeyMatch) → Matches asked.now name.now found → ⊥)
        (λ found. (found.index ≡ index) × IsMatch asked.now name.now found) }
    ensures span { IfSome result (HasSpan asked.now) }
{
    match at_star(name) {
        None => exact_match(index, name, asked),
        Some((base, trailer)) => match at_star(trailer) {
            None => pattern_match(index, base, trailer, asked),
            Some(_) => None,
        },
    }
}

fn exact_match(index: usize, name: &str, asked: &str) -> Option<Match>
    requires { HasNoStar name.now }
    ensures matches { MatchOption result ((found : KeyMatch) → Matches asked.now name.now found → ⊥)
        (λ found. (found.index ≡ index) × IsMatch asked.now name.now found) }
    ensures span { IfSome result (HasSpan asked.now) }
{
    if name != asked {
        return None;
    }
    Some(Match {
        index,
        exact: true,
        from: 0,
        to: 0,
    })
}

fn pattern_match(index: usize, base: &str, trailer: &str, asked: &str) -> Option<Match>
    ensures span { IfSome result (HasSpan asked.now) }
    ensures matches { (name : List ℕ) → IsPattern name base.now trailer.now
        → MatchOption result ((found : KeyMatch) → Matches asked.now name found → ⊥)
        (λ found. (found.index ≡ index) × IsMatch asked.now name found) }
{
    match pattern_end(asked, base, trailer) {
        None => None,
        Some(to) => Some(Match {
            index,
            exact: false,
            from: base.len(),
            to,
        }),
    }
}

// Where the pattern match ends, which stands between the base and the trailer and isn't empty.
fn pattern_end(asked: &str, base: &str, trailer: &str) -> Option<usize>
    ensures { MatchOption result ((part : List ℕ) → asked.now ≡ base.now ++ (part ++ trailer.now) → part ≡ [])
        (λ to. (part : List ℕ) × (asked.now ≡ base.now ++ (part ++ trailer.now)) × (part ≢ [])
        × (to ≡ length base.now + length part)) }
{
    let Some(rest) = behind(asked.as_bytes(), base.as_bytes()) else {
        return None;
    };
    let Some(part) = ahead_of(rest, trailer.as_bytes()) else {
        return None;
    };
    if part.is_empty() {
        return None;
    }
    Some(base.len() + part.len())
}

fn behind<'a>(text: &'a [u8], front: &[u8]) -> Option<&'a [u8]>
    ensures { MatchOption result ((rest : List ℕ) → text.now ≢ front.now ++ rest)
        (λ rest. text.now ≡ front.now ++ rest.now) }
{
    text.strip_prefix(front)
}

fn ahead_of<'a>(text: &'a [u8], end: &[u8]) -> Option<&'a [u8]>
    ensures { MatchOption result ((front : List ℕ) → text.now ≢ front ++ end.now)
        (λ front. text.now ≡ front.now ++ end.now) }
{
    text.strip_suffix(end)
}
