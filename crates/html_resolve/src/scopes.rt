ghost use Rattle.std.specs.Prelude.{◌≡◌, List, ℕ, Option, length};
ghost use Rattle.import_map_spec.specs.Resolving.{takes_prefixes};
ghost use Rattle.import_map_spec.specs.LookUps.{longest_front, prefix_scope, resolve_scopes_match, scope_match};
ghost use Rattle.import_map_spec.specs.LookUps.{scope_addresses};
ghost use Rattle.html_resolve.specs.Outcomes.{Finds};

use crate::HtmlFault;
use crate::fronts::next_front;
use crate::imports::match_imports;
use map_parse::ParsedMap;
use std::alloc::Global;
use web_url::WebUrl;

/// What the scopes of a map answer for a normalized specifier of the referrer.
#[tactic(auto, using(crate::proofs::OutcomeLemmas::outcomes))]
pub fn match_scopes(
    alloc: Global,
    map: &ParsedMap,
    referrer: &str,
    text: &str,
    prefixes: bool,
) -> Result<Option<WebUrl>, HtmlFault>
    ensures { (url : Option (List ℕ)) → takes_prefixes url ≡ prefixes
        → Finds result (resolve_scopes_match url text.now referrer.now (scope_addresses map.now.scopes)) }
{
    match match_scope(alloc, map, referrer, text, prefixes)? {
        Some(found) => Ok(Some(found)),
        None => match_folders(alloc, map, referrer, text, prefixes),
    }
}

// The scopes whose keys are fronts of the referrer, from the longest to the shortest. Behind a front that is no key,
// those that are longer than what keys have in common with it are passed over.
#[tactic(auto, using(crate::proofs::OutcomeLemmas::outcomes))]
fn match_folders(
    alloc: Global,
    map: &ParsedMap,
    referrer: &str,
    text: &str,
    prefixes: bool,
) -> Result<Option<WebUrl>, HtmlFault>
    ensures { (url : Option (List ℕ)) → takes_prefixes url ≡ prefixes
        → Finds result (longest_front (prefix_scope url text.now (scope_addresses map.now.scopes)) referrer.now
        (length referrer.now)) }
{
    let mut limit = map.scope_reach(referrer);
    let mut near = 0;
    while let Some(front) = next_front(referrer, limit) {
        let (scope, place) = map.scope_near(front.text, near);
        near = place.saturating_sub(1);
        match scope {
            None => limit = map.scope_reach(front.before),
            Some(addresses) => {
                match match_imports(alloc, addresses, text, prefixes) {
                    Err(fault) => return Err(fault),
                    Ok(Some(found)) => return Ok(Some(found)),
                    Ok(None) => {}
                }
                limit = front.before.len();
            }
        }
    }
    Ok(None)
}

// The scope with this key, if there is one.
#[tactic(auto, using(crate::proofs::OutcomeLemmas::outcomes))]
fn match_scope(
    alloc: Global,
    map: &ParsedMap,
    key: &str,
    text: &str,
    prefixes: bool,
) -> Result<Option<WebUrl>, HtmlFault>
    ensures { (url : Option (List ℕ)) → takes_prefixes url ≡ prefixes
        → Finds result (scope_match url text.now (scope_addresses map.now.scopes key.now)) }
{
    match map.scope(key) {
        None => Ok(None),
        Some(addresses) => match_imports(alloc, addresses, text, prefixes),
    }
}
