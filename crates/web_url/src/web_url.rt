ghost use Rattle.std.specs.Prelude.{◌≡◌, IfOk, IfSome};
ghost use Rattle.url_spec.specs.Parsing.{parse_alone, parse_against};
ghost use Rattle.url_spec.specs.Schemes.{has_special_scheme, url_scheme};
ghost use Rattle.web_url.specs.Written.{IsParsedAs, IsTextOf};

use crate::url_text;
use shared_types::{Memory, Text};
use std::alloc::Global;
use std::cmp::Ordering;
use std::hash::{Hash, Hasher};
use std::marker::Model;
use url::Url;

/// A URL, seen as its text. It is kept parsed, so that specifiers can be joined to it.
#[derive(Debug, Drop)]
pub struct WebUrl {
    url: Url,
}

impl Model for WebUrl {
    ghost use Rattle.std.specs.Prelude.{List, ℕ};
    ghost use Rattle.url_spec.specs.Parsing.{text_of};
    ghost use Rattle.web_url.specs.Written.{IsWritten};

    ghost Value = { List ℕ };

    ghost view = { λ w. text_of w.url };

    ghost invariant = { λ w. IsWritten w.url };
}

impl WebUrl {
    /// The URL of a text without a base.
    pub fn parse(alloc: Global, text: &str) -> Result<Option<WebUrl>, Memory>
        ensures url { IfOk result (λ found. found ≡ parse_alone text.now) }
        ensures valid { IfOk result (λ found. IfSome found (IsParsedAs text.now)) }
    {
        match url_text::parse(alloc, text)? {
            Some(url) => Ok(Some(WebUrl { url })),
            None => Ok(None),
        }
    }

    /// The URL of a text against this one, or none.
    pub fn join(&self, _alloc: Global, text: &str) -> Result<Option<WebUrl>, Memory>
        ensures { IfOk result (λ found. found ≡ parse_against self.now text.now) }
    {
        match url_text::join(&self.url, text)? {
            Some(url) => Ok(Some(WebUrl { url })),
            None => Ok(None),
        }
    }

    /// Lends the text.
    #[tactic(auto, using(crate::proofs::UrlTexts::texts))]
    pub fn as_str(&self) -> &str
        ensures { IsTextOf self.now result.now }
    {
        self.url.as_str()
    }

    /// Whether the scheme is one of those that the URL Standard calls special.
    #[tactic(auto, using(crate::proofs::UrlTexts::texts))]
    pub fn is_special(&self) -> bool
        ensures { result ≡ has_special_scheme self.now }
    {
        self.url.is_special()
    }

    /// Lends the scheme (URL Standard, URL representation).
    #[tactic(auto, using(crate::proofs::UrlTexts::texts))]
    pub fn scheme(&self) -> &str
        ensures { result.now ≡ url_scheme self.now }
    {
        self.url.scheme()
    }

    /// An equal URL.
    pub fn copy(&self, _alloc: Global) -> Result<WebUrl, Memory>
        ensures { IfOk result (λ copy. copy ≡ self.now) }
    {
        Ok(WebUrl {
            url: self.url.clone()?,
        })
    }

    /// The text, which is moved out.
    #[tactic(auto, using(crate::proofs::UrlTexts::texts))]
    pub fn into_text(self, alloc: Global) -> Result<Text, Memory>
        ensures { IfOk result (λ text. text ≡ self) }
    {
        let WebUrl { url } = self;
        Text::from_string(alloc, String::from(url))
    }
}

impl PartialEq for WebUrl {
    ghost use Rattle.std.specs.Prelude.{bytes_eq};
    ghost use Rattle.std.proofs.Common.{rules};
    ghost use Rattle.std.specs.Cmp.Rules.{comparing};

    ghost eq = { bytes_eq };

    ghost laws = { Prim.search (comparing, rules) };

    fn eq(&self, other: &WebUrl) -> bool {
        self.as_str() == other.as_str()
    }
}

impl Eq for WebUrl {
    ghost use Rattle.std.proofs.Common.{rules};
    ghost use Rattle.std.specs.Cmp.Rules.{comparing};

    ghost laws = { Prim.search (comparing, rules) };
}

impl Hash for WebUrl {
    ghost use Rattle.std.proofs.Common.{rules};
    ghost use Rattle.std.specs.Cmp.Rules.{hashing};
    ghost use Rattle.std.specs.Hash as fed;

    ghost hash_input = { fed.str };

    ghost respects_eq = { Prim.search (hashing, rules) };

    fn hash<H: Hasher>(&self, state: &mut H) {
        self.as_str().hash(state);
    }
}

impl Ord for WebUrl {
    ghost use Rattle.std.specs.Ordering.{nat_cmp};
    ghost use Rattle.std.specs.Cmp.Lexicographic.{slice_cmp};
    ghost use Rattle.std.proofs.Common.{rules};
    ghost use Rattle.std.specs.Cmp.Rules.{comparing};

    ghost cmp = { slice_cmp nat_cmp };

    ghost total = { Prim.search (comparing, rules) };

    ghost matches_partial_cmp = { Prim.search (comparing, rules) };

    ghost matches_eq = { Prim.search (comparing, rules) };

    fn cmp(&self, other: &WebUrl) -> Ordering {
        self.as_str().cmp(other.as_str())
    }
}

impl PartialOrd for WebUrl {
    ghost use Rattle.std.specs.Ordering.{nat_cmp, as_partial_cmp};
    ghost use Rattle.std.specs.Cmp.Lexicographic.{slice_cmp};
    ghost use Rattle.std.proofs.Common.{rules};
    ghost use Rattle.std.specs.Cmp.Rules.{comparing};
    ghost use Rattle.std.specs.Cmp.{partial_order_from_own_ties};

    ghost partial_cmp = { as_partial_cmp (slice_cmp nat_cmp) };

    ghost laws = { partial_order_from_own_ties (Prim.search (comparing, rules)) (Prim.search (comparing, rules)) };

    fn partial_cmp(&self, other: &WebUrl) -> Option<Ordering> {
        Some(self.cmp(other))
    }
}
