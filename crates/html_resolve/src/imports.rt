ghost use Rattle.std.specs.Prelude.{◌≡◌, List, ℕ, Option, length};
ghost use Rattle.std.specs.FinMap.{get};
ghost use Rattle.url_spec.specs.Parsing.{parse_against};
ghost use Rattle.url_spec.specs.Specifiers.{begins};
ghost use Rattle.import_map_spec.specs.Resolving.{takes_prefixes};
ghost use Rattle.import_map_spec.specs.LookUps.{exact_match, prefix_match, below_address, longest_front, prefix_key};
ghost use Rattle.import_map_spec.specs.LookUps.{resolve_imports_match};
ghost use Rattle.html_resolve.specs.Outcomes.{Finds, ComesTo};

use crate::HtmlFault;
use crate::fronts::next_front;
use map_parse::Addresses;
use std::alloc::Global;
use web_url::WebUrl;

/// What one module specifier map answers for a normalized specifier. Prefixes are tried where the last argument says
/// so.
#[tactic(auto, using(crate::proofs::OutcomeLemmas::outcomes))]
pub fn match_imports(
    alloc: Global,
    addresses: &Addresses,
    text: &str,
    prefixes: bool,
) -> Result<Option<WebUrl>, HtmlFault>
    ensures { (url : Option (List ℕ)) → takes_prefixes url ≡ prefixes
        → Finds result (resolve_imports_match url text.now (get addresses.now)) }
{
    match match_key(alloc, addresses, text)? {
        Some(found) => Ok(Some(found)),
        None => {
            if prefixes {
                match_prefixes(alloc, addresses, text)
            } else {
                Ok(None)
            }
        }
    }
}

// The key that is the specifier.
#[tactic(auto, using(crate::proofs::OutcomeLemmas::outcomes))]
fn match_key(alloc: Global, addresses: &Addresses, text: &str) -> Result<Option<WebUrl>, HtmlFault>
    ensures { Finds result (exact_match (get addresses.now text.now)) }
{
    match addresses.address(text) {
        None => Ok(None),
        Some(None) => Err(HtmlFault::Blocked),
        Some(Some(url)) => Ok(Some(url.to_url(alloc)?)),
    }
}

// The keys that are fronts of the specifier, from the longest to the shortest. Fronts that are longer than what keys
// have in common with the specifier are passed over.
#[tactic(auto, using(crate::proofs::OutcomeLemmas::outcomes))]
fn match_prefixes(
    alloc: Global,
    addresses: &Addresses,
    text: &str,
) -> Result<Option<WebUrl>, HtmlFault>
    ensures { Finds result (longest_front (prefix_key (get addresses.now)) text.now (length text.now)) }
{
    let mut limit = addresses.reach(text);
    while let Some(front) = next_front(text, limit) {
        match match_prefix(alloc, addresses, front.text, front.rest) {
            Err(fault) => return Err(fault),
            Ok(Some(found)) => return Ok(Some(found)),
            Ok(None) => {}
        }
        limit = addresses.reach(front.before);
    }
    Ok(None)
}

#[tactic(auto, using(crate::proofs::OutcomeLemmas::outcomes))]
fn match_prefix(
    alloc: Global,
    addresses: &Addresses,
    key: &str,
    rest: &str,
) -> Result<Option<WebUrl>, HtmlFault>
    ensures { Finds result (prefix_match (get addresses.now key.now) rest.now) }
{
    match addresses.address(key) {
        None => Ok(None),
        Some(None) => Err(HtmlFault::Blocked),
        Some(Some(address)) => {
            let address = address.to_url(alloc)?;
            Ok(Some(below(alloc, &address, rest)?))
        }
    }
}

// The URL of what follows a key, against the key's address.
#[tactic(auto, using(crate::proofs::OutcomeLemmas::below))]
fn below(alloc: Global, address: &WebUrl, rest: &str) -> Result<WebUrl, HtmlFault>
    ensures { ComesTo result (below_address address.now (parse_against address.now rest.now)) }
{
    match address.join(alloc, rest)? {
        None => Err(HtmlFault::BadRest),
        Some(url) => {
            if begins(url.as_str(), address.as_str()) {
                Ok(url)
            } else {
                Err(HtmlFault::Backtrack)
            }
        }
    }
}

#[tactic(auto, using(std::proofs::lemmas::Str::Pattern::starts_text))]
fn begins(text: &str, front: &str) -> bool
    ensures { result ≡ begins text.now front.now }
{
    text.starts_with(front)
}
