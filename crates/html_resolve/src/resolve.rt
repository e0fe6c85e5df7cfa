ghost use Rattle.std.specs.Prelude.{◌≡◌, List, ℕ, Option, None};
ghost use Rattle.std.specs.FinMap.{get};
ghost use Rattle.url_spec.specs.Parsing.{parse_alone};
ghost use Rattle.url_spec.specs.Specifiers.{normalized};
ghost use Rattle.import_map_spec.specs.Resolving.{takes_prefixes};
ghost use Rattle.import_map_spec.specs.LookUps as html;
ghost use Rattle.std.specs.Option.{option_or};
ghost use Rattle.import_map_spec.specs.LookUps.{resolve_normalized, resolve_imports_match, resolve_scopes_match};
ghost use Rattle.import_map_spec.specs.LookUps.{scope_addresses};
ghost use Rattle.html_resolve.specs.Outcomes.{Finds, ComesTo};

use crate::HtmlFault;
use crate::imports::match_imports;
use crate::scopes::match_scopes;
use map_parse::ParsedMap;
use std::alloc::Global;
use web_url::{WebUrl, as_url};

/// The URL of a specifier in the module or page at the referrer (HTML, import maps: resolve a module specifier).
pub fn resolve_in(
    alloc: Global,
    map: &ParsedMap,
    referrer: &WebUrl,
    specifier: &str,
) -> Result<WebUrl, HtmlFault>
    ensures answer { ComesTo result (html.resolve_in map.now referrer.now specifier.now) }
    ensures alike { (other : List ℕ) → parse_alone specifier.now ≡ None → parse_alone other ≡ None
        → normalized referrer.now specifier.now ≡ normalized referrer.now other
        → ComesTo result (html.resolve_in map.now referrer.now other) }
{
    answer_in(alloc, map, referrer, specifier)
}

fn answer_in(
    alloc: Global,
    map: &ParsedMap,
    referrer: &WebUrl,
    specifier: &str,
) -> Result<WebUrl, HtmlFault>
    ensures { ComesTo result (html.resolve_in map.now referrer.now specifier.now) }
{
    match as_url(alloc, specifier, referrer)? {
        Some(url) => {
            match match_in(
                alloc,
                map,
                referrer.as_str(),
                url.as_str(),
                url.is_special(),
            ) {
                Err(fault) => Err(fault),
                Ok(Some(found)) => Ok(found),
                Ok(None) => Ok(url),
            }
        }
        None => match match_in(alloc, map, referrer.as_str(), specifier, true) {
            Err(fault) => Err(fault),
            Ok(Some(found)) => Ok(found),
            Ok(None) => Err(HtmlFault::Bare),
        },
    }
}

/// The same from a normalized specifier on: where it is a URL, that is the URL of the specifier.
pub fn resolve_normalized(
    alloc: Global,
    map: &ParsedMap,
    referrer: &str,
    text: &str,
) -> Result<WebUrl, HtmlFault>
    ensures { ComesTo result (resolve_normalized (get map.now.imports) (scope_addresses map.now.scopes) referrer.now
        (parse_alone text.now) text.now) }
{
    match WebUrl::parse(alloc, text)? {
        Some(url) => match match_in(alloc, map, referrer, text, url.is_special()) {
            Err(fault) => Err(fault),
            Ok(Some(found)) => Ok(found),
            Ok(None) => Ok(url),
        },
        None => match match_in(alloc, map, referrer, text, true) {
            Err(fault) => Err(fault),
            Ok(Some(found)) => Ok(found),
            Ok(None) => Err(HtmlFault::Bare),
        },
    }
}

// What the scopes and then the imports answer.
#[tactic(auto, using(crate::proofs::OutcomeLemmas::outcomes))]
fn match_in(
    alloc: Global,
    map: &ParsedMap,
    referrer: &str,
    text: &str,
    prefixes: bool,
) -> Result<Option<WebUrl>, HtmlFault>
    ensures { (url : Option (List ℕ)) → takes_prefixes url ≡ prefixes
        → Finds result (option_or (resolve_scopes_match url text.now referrer.now (scope_addresses map.now.scopes))
        (resolve_imports_match url text.now (get map.now.imports))) }
{
    match match_scopes(alloc, map, referrer, text, prefixes)? {
        Some(found) => Ok(Some(found)),
        None => match_imports(alloc, map.imports(), text, prefixes),
    }
}
