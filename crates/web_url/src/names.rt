//! Web names of paths, and the paths that are served at URLs.
ghost use Rattle.std.specs.Prelude.{◌≡◌, ◌≢◌, ◌<◌, ◌↔◌, ◌++◌, ◌∷◌, [], List, ℕ, All, nat_eq, false, drop, flat_map};
ghost use Rattle.std.specs.Prelude.{codes, string_bytes, IfOk, IfErr, IsTrue, MatchOption, Some, None, IsAscii, true};
ghost use Rattle.std.specs.List.{ends_with};
ghost use Rattle.url_spec.specs.WebNames.{escaped, web};
ghost use Rattle.url_spec.specs.Suffixes.{before_suffix};
ghost use Rattle.url_spec.specs.ServedPaths.{holds_escape, read_segment, segments, IsServed};
ghost use Rattle.web_url.specs.Serving.{SpellsBelow, IsUnservable};

use crate::base::Base;
use crate::escapes::{holds_escape, holds_percent, push_escaped, split_suffix, unescape_segments};
use crate::paths::path_of;
use crate::suffix::Suffix;
use crate::web_url::WebUrl;
use shared_types::Memory;
use std::alloc::{AllocError, Global};
use tree_model::Path;

/// Why a module has no web name that serves it.
#[derive(Debug, Drop)]
pub enum WebFault {
    /// The name is no URL, or the path isn't what is served at it: the URL, where there is one.
    Unservable { url: Option<WebUrl> },
    /// Want of memory.
    Memory,
}

impl From<AllocError> for WebFault {
    ghost use Rattle.std.specs.Prelude.{◌≡◌};
    ghost use Rattle.web_url.specs.declared.names.WebFault.TheVariants.{Memory};

    ghost from_gives = { λ _ e. e ≡ Memory };

    fn from(_: AllocError) -> WebFault {
        WebFault::Memory
    }
}

/// The web name of a module: its path and its suffix.
pub fn web_of(alloc: Global, base: &Base, path: &Path, suffix: &Suffix) -> Result<WebUrl, WebFault>
    ensures url { IfOk result (λ url. (web base.now path.now suffix.now ≡ Some url) × IsServed base.now url path.now
        × (suffix.now ≡ [] → path.now ≢ codes "/" → ends_with nat_eq url (codes "/") ≡ false)) }
    ensures fault { IfErr result (IsUnservable base.now path.now suffix.now) }
{
    let text = web_text(alloc, base, path, suffix)?;
    match WebUrl::parse(alloc, text.as_str())? {
        None => Err(WebFault::Unservable { url: None }),
        Some(url) => {
            if serves(alloc, base, &url, path)? {
                Ok(url)
            } else {
                Err(WebFault::Unservable { url: Some(url) })
            }
        }
    }
}

/// The path that a base serves at a URL, or none.
pub fn served(alloc: Global, base: &Base, url: &WebUrl) -> Result<Option<Path>, Memory>
    ensures { IfOk result (λ found. MatchOption found ((path : List ℕ) → IsServed base.now url.now path → ⊥)
        (IsServed base.now url.now)) }
{
    match spelled_below(alloc, base, url)? {
        None => Ok(None),
        Some(bytes) => path_of(alloc, bytes.as_slice()),
    }
}

fn web_text(alloc: Global, base: &Base, path: &Path, suffix: &Suffix) -> Result<String, Memory>
    ensures text { IfOk result (λ text. string_bytes text ≡ base.now ++ (drop 1 (escaped path.now) ++ suffix.now)) }
    ensures bytes { IfOk result (λ _. All (λ b. b < 256) path.now) }
{
    let mut text = String::from_str(alloc, base.as_str())?;
    push_escaped(&mut text, below_root(path))?;
    text.push_str(suffix.as_str())?;
    Ok(text)
}

#[tactic(auto, using(crate::proofs::NameLemmas::roots))]
fn below_root(path: &Path) -> &str
    ensures { path.now ≡ 47 ∷ result.now }
{
    match path.as_str().strip_prefix('/') {
        Some(rest) => rest,
        None => "",
    }
}

fn serves(alloc: Global, base: &Base, url: &WebUrl, path: &Path) -> Result<bool, Memory>
    ensures { IfOk result (λ yes. IsTrue yes ↔ IsServed base.now url.now path.now) }
{
    let text = path.as_str();
    if spells_itself(base, url, path) {
        return Ok(true);
    }
    match spelled_below(alloc, base, url)? {
        None => Ok(false),
        Some(bytes) => Ok(bytes.as_slice() == text.as_bytes()),
    }
}

// Whether a URL has the path itself below a base, without an escape.
fn spells_itself(base: &Base, url: &WebUrl, path: &Path) -> bool
    ensures { IsTrue result → SpellsBelow base.now url.now path.now }
{
    match below(base, url) {
        None => false,
        Some(rest) => !holds_percent(rest) && rest == below_root(path),
    }
}

/// The bytes that a URL spells below a base, which needn't be a path.
fn spelled_below(alloc: Global, base: &Base, url: &WebUrl) -> Result<Option<Vec<u8>>, Memory>
    ensures { IfOk result (λ found. MatchOption found ((bytes : List ℕ) → SpellsBelow base.now url.now bytes → ⊥)
        (λ bytes. SpellsBelow base.now url.now bytes.items)) }
{
    let Some(rest) = below(base, url) else {
        return Ok(None);
    };
    if holds_escape(rest.as_bytes(), b"%2f") {
        return Ok(None);
    }
    Ok(Some(unescape_segments(alloc, rest)?))
}

// What a URL has behind a base and before its suffix.
fn below<'a>(base: &Base, url: &'a WebUrl) -> Option<&'a str>
    ensures { MatchOption result ((rest : List ℕ) → before_suffix url.now ≡ base.now ++ rest → ⊥)
        (λ rest. before_suffix url.now ≡ base.now ++ rest.now) }
{
    after_front(split_suffix(url.as_str()).0, base.as_str())
}

/// What an ASCII text has behind this front, where it begins with it.
#[tactic(auto, using(crate::proofs::NameLemmas::fronts))]
pub fn after_front<'a>(text: &'a str, front: &str) -> Option<&'a str>
    requires { IsAscii text.now }
    ensures { MatchOption result ((rest : List ℕ) → text.now ≡ front.now ++ rest → ⊥)
        (λ rest. text.now ≡ front.now ++ rest.now) }
{
    if text.starts_with(front) {
        Some(&text[front.len()..])
    } else {
        None
    }
}
