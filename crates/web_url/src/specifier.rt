//! Specifiers as URLs.
ghost use Rattle.std.specs.Prelude.{◌≡◌, IfOk, IfErr, true};
ghost use Rattle.url_spec.specs.Schemes.{scheme_of};
ghost use Rattle.url_spec.specs.Specifiers.{is_relative, as_url, ends_in_slash, normalized};
ghost use Rattle.web_url.specs.Asking.{IsAsked, IsAskFault, scheme_named};

use crate::web_url::WebUrl;
use shared_types::{Memory, Text};
use std::alloc::{AllocError, Global};

/// What a specifier asks for.
#[derive(Debug, Drop)]
pub enum Asked {
    /// A URL.
    Url(WebUrl),
    /// No URL: a bare specifier.
    Bare,
}

/// Why a specifier can't be asked for.
#[derive(Clone, Copy, Debug, PartialEq, Eq)]
pub enum AskFault {
    /// It is relative, and no URL against the referrer.
    Unaskable,
    /// It is relative, and its URL ends in `/`.
    TrailingSlash,
    /// Want of memory.
    Memory,
}

/// What a specifier is by its scheme.
#[derive(Clone, Copy, Debug, PartialEq, Eq)]
pub enum Scheme {
    /// It is no URL without a base.
    NotUrl,
    /// A URL of scheme `node`.
    Node,
    /// A URL of another scheme.
    Other,
}

impl From<AllocError> for AskFault {
    ghost use Rattle.std.specs.Prelude.{◌≡◌};
    ghost use Rattle.web_url.specs.declared.specifier.AskFault.TheVariants.{Memory};

    ghost from_gives = { λ _ e. e ≡ Memory };

    fn from(_: AllocError) -> AskFault {
        AskFault::Memory
    }
}

/// Whether a specifier begins with `/`, `./` or `../`.
#[tactic(auto, using(std::proofs::lemmas::Str::Pattern::starts_text))]
pub fn is_relative(text: &str) -> bool
    ensures { result ≡ is_relative text.now }
{
    text.starts_with("/") || text.starts_with("./") || text.starts_with("../")
}

/// What a specifier is by its scheme, parsed without a base.
#[tactic(auto, using(crate::proofs::AskLemmas::relatives), unfolding(url_spec::specs::Schemes::scheme_of))]
pub fn scheme_of(alloc: Global, specifier: &str) -> Result<Scheme, Memory>
    ensures { IfOk result (λ scheme. scheme ≡ scheme_named (scheme_of specifier.now)) }
{
    if is_relative(specifier) {
        return Ok(Scheme::NotUrl);
    }
    match WebUrl::parse(alloc, specifier)? {
        None => Ok(Scheme::NotUrl),
        Some(url) => {
            if url.scheme() == "node" {
                Ok(Scheme::Node)
            } else {
                Ok(Scheme::Other)
            }
        }
    }
}

/// The URL of a specifier: a relative one against the base, any other without one.
#[tactic(auto, using(crate::proofs::AskLemmas::asking))]
pub fn as_url(alloc: Global, specifier: &str, base: &WebUrl) -> Result<Option<WebUrl>, Memory>
    ensures { IfOk result (λ found. found ≡ as_url base.now specifier.now) }
{
    if is_relative(specifier) {
        base.join(alloc, specifier)
    } else {
        WebUrl::parse(alloc, specifier)
    }
}

/// The normalized specifier: the text of its URL, or the specifier itself where it has none.
#[tactic(auto, unfolding(url_spec::specs::Specifiers::normalized))]
pub fn normalized(alloc: Global, specifier: &str, base: &WebUrl) -> Result<Text, Memory>
    ensures { IfOk result (λ text. text ≡ normalized base.now specifier.now) }
{
    match as_url(alloc, specifier, base)? {
        Some(url) => url.into_text(alloc),
        None => Text::of(alloc, specifier),
    }
}

/// Whether a text ends in `/`, as the URL of a folder does.
#[tactic(auto, using(std::proofs::lemmas::Str::Pattern::ends_text))]
pub fn ends_in_slash(text: &str) -> bool
    ensures { result ≡ ends_in_slash text.now }
{
    text.ends_with("/")
}

/// What a specifier of a referrer asks for. A relative one is refused where a map couldn't have its
/// URL as a key for one module.
#[tactic(auto, using(crate::proofs::AskLemmas::asking))]
pub fn ask(alloc: Global, specifier: &str, referrer: &WebUrl) -> Result<Asked, AskFault>
    ensures asked { IfOk result (IsAsked referrer.now specifier.now) }
    ensures fault { IfErr result (IsAskFault referrer.now specifier.now) }
{
    if is_relative(specifier) {
        return ask_relative(alloc, specifier, referrer);
    }
    match WebUrl::parse(alloc, specifier)? {
        Some(url) => Ok(Asked::Url(url)),
        None => Ok(Asked::Bare),
    }
}

#[tactic(auto, using(crate::proofs::AskLemmas::asking))]
fn ask_relative(alloc: Global, specifier: &str, referrer: &WebUrl) -> Result<Asked, AskFault>
    requires { is_relative specifier.now ≡ true }
    ensures asked { IfOk result (IsAsked referrer.now specifier.now) }
    ensures fault { IfErr result (IsAskFault referrer.now specifier.now) }
{
    match referrer.join(alloc, specifier)? {
        None => Err(AskFault::Unaskable),
        Some(url) => {
            if url.as_str().ends_with("/") {
                Err(AskFault::TrailingSlash)
            } else {
                Ok(Asked::Url(url))
            }
        }
    }
}
