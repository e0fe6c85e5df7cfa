//! The target of a key in an object of subpaths (Node.js, ECMAScript modules: PACKAGE_IMPORTS_EXPORTS_RESOLVE).
ghost use Rattle.std.specs.Prelude.{◌≡◌, None, Bool, IfOk, MatchOption, option_map};
ghost use Rattle.json_spec.specs.Value.{AreDistinct, names_of};
ghost use Rattle.exports_patterns.specs.Found.{HasSpan, keys_of, match_shown};
ghost use Rattle.exports_patterns.specs.Indexes.{IsIndex};
ghost use Rattle.node_spec.specs.PatternKeyCompare.{first_key, pattern_match};
ghost use Rattle.ordered_json.specs.Lists.{pairs_of};
ghost use Rattle.ordered_json.specs.Shown.{json_of, members_of};
ghost use Rattle.package_record.specs.Indexed.{IsSubpaths};
ghost use Rattle.node_resolve.specs.Members.{IsLeftTarget};

use condition_match::Conditions;
use exports_patterns::{Match, indexed_match};
use ordered_json::{Members, Value};
use package_record::Subpaths;
use shared_types::Memory;
use std::alloc::Global;

/// The target of the key that is taken for a text, or what is left of it under these conditions, with what stands for
/// each `*` of the target, if the key has one.
pub fn target_of<'a, 'b>(
    alloc: Global,
    subpaths: &'a Subpaths,
    members: &'a Members,
    asked: &'b str,
    conditions: &Conditions,
) -> Result<Option<(&'a Value, Option<&'b str>)>, Memory>
    requires object { subpaths.now.value ≡ Value.Object members.now }
    requires distinct { AreDistinct (members_of (pairs_of members.now)) }
    requires indexed { IsIndex (keys_of members.now) subpaths.now.index.keys }
    ensures { (imports : Bool) → IsSubpaths imports subpaths.now → IfOk result (λ target. MatchOption target
        (first_key asked.now (names_of (members_of (pairs_of members.now))) ≡ None)
        (λ found. IsLeftTarget conditions.now imports (members_of (pairs_of members.now)) asked.now
        (json_of found.0.now) (option_map (λ part. part.now) found.1))) }
{
    match indexed_match(alloc, &subpaths.index.keys, members, asked) {
        Err(fault) => Err(fault),
        Ok(None) => Ok(None),
        Ok(Some(found)) => match members.at(found.index) {
            None => Ok(None),
            Some((_, target)) => {
                let target = subpaths.target_at(found.index, target, conditions);
                Ok(Some((target, part_of(asked, found))))
            }
        },
    }
}

/// What stands for `*`, where the key that matches has one.
fn part_of(asked: &str, found: Match) -> Option<&str>
    requires { HasSpan asked.now found }
    ensures { pattern_match asked.now (match_shown found) ≡ option_map (λ part. part.now) result }
{
    if found.exact {
        None
    } else {
        Some(&asked[found.from..found.to])
    }
}
