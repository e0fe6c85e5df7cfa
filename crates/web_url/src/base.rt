ghost use Rattle.std.specs.Prelude.{◌≡◌, ◌||◌, None, Some, IfOk, IsErrOf, bytes_eq, codes, is_some, nat_eq};
ghost use Rattle.std.specs.List.{ends_with};
ghost use Rattle.url.specs.Parts.{has_credentials};
ghost use Rattle.url_spec.specs.Bases.{base_of, names_web_folder, IsBase};

use crate::url_text;
use shared_types::{Memory, Text};
use std::alloc::Global;
use std::marker::Model;
use url::Url;

/// The URL of the root folder on the web: http or https, with a path that ends in `/`.
#[derive(Debug, Drop)]
pub struct Base {
    text: Text,
}

/// Why a text gives no base.
#[derive(Clone, Copy, Debug, PartialEq, Eq)]
pub enum BaseFault {
    /// The text isn't the URL of a folder on the web.
    BadBase,
    /// Want of memory.
    Memory,
}

impl Model for Base {
    ghost use Rattle.std.specs.Prelude.{List, ℕ};
    ghost use Rattle.url_spec.specs.Bases.{IsBase};

    ghost Value = { List ℕ };

    ghost view = { λ b. b.text };

    ghost invariant = { λ b. IsBase b.text };
}

impl Base {
    /// The base that a text gives, which is the text of its URL.
    #[tactic(auto, using(crate::proofs::BaseLemmas::bases))]
    pub fn parse(alloc: Global, text: &str) -> Result<Base, BaseFault>
        ensures base { IfOk result (λ base. base_of text.now ≡ Some base) }
        ensures bad { IsErrOf result BaseFault.BadBase → base_of text.now ≡ None }
    {
        match url_text::parse(alloc, text) {
            Ok(Some(url)) => {
                if !is_web_folder(&url) {
                    return Err(BaseFault::BadBase);
                }
                match Text::from_string(alloc, String::from(url)) {
                    Ok(text) => Ok(Base { text }),
                    Err(_) => Err(BaseFault::Memory),
                }
            }
            Ok(None) => Err(BaseFault::BadBase),
            Err(_) => Err(BaseFault::Memory),
        }
    }

    /// Lends the text.
    pub fn as_str(&self) -> &str
        ensures text { result.now ≡ self.now }
        ensures is_base { IsBase self.now }
    {
        self.text.as_str()
    }

    /// An equal base.
    pub fn copy(&self, alloc: Global) -> Result<Base, Memory>
        ensures { IfOk result (λ copy. copy ≡ self.now) }
    {
        Ok(Base {
            text: self.text.copy(alloc)?,
        })
    }
}

fn is_web_folder(url: &Url) -> bool
    ensures { result ≡ names_web_folder url.now }
{
    has_web_scheme(url) && is_folder(url) && !has_credentials(url) && !has_suffix(url)
}

fn has_web_scheme(url: &Url) -> bool
    ensures { result ≡ (bytes_eq url.now.scheme (codes "http") || bytes_eq url.now.scheme (codes "https")) }
{
    url.scheme() == "http" || url.scheme() == "https"
}

#[tactic(auto, using(std::proofs::lemmas::Str::Pattern::ends_text))]
fn is_folder(url: &Url) -> bool
    ensures { result ≡ ends_with nat_eq url.now.path (codes "/") }
{
    url.path().ends_with("/")
}

fn has_credentials(url: &Url) -> bool
    ensures { result ≡ has_credentials url.now }
{
    !url.username().is_empty() || url.password().is_some()
}

fn has_suffix(url: &Url) -> bool
    ensures { result ≡ (is_some url.now.query || is_some url.now.fragment) }
{
    url.query().is_some() || url.fragment().is_some()
}
