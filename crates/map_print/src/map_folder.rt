ghost use Rattle.std.specs.Prelude.{◌≡◌, ◌≤◌, ◌++◌, length, take, drop, codes, Some, IfOk, IsTrue, MatchOption, ◌↔◌};
ghost use Rattle.std.specs.Prelude.{false, string_bytes, IsAscii};
ghost use Rattle.url_spec.specs.Parsing.{parse_against};
ghost use Rattle.url_spec.specs.Specifiers.{begins};
ghost use Rattle.layout_spec.specs.ShortForms.{folder_text, short};
ghost use Rattle.map_print.specs.PlainRests.{IsPlainShort};

use crate::plain::{is_plain_page, is_plain_rest};
use shared_types::{Memory, Text};
use std::alloc::Global;
use std::marker::Model;
use web_url::WebUrl;

/// The folder of a map base, beside which addresses are written short. A contract sees it as the map base.
#[derive(Drop)]
pub(crate) struct MapFolder {
    base: WebUrl,
    folder: Text,
    is_plain: bool,
}

impl Model for MapFolder {
    ghost use Rattle.std.specs.Prelude.{◌≡◌, List, ℕ};
    ghost use Rattle.map_print.specs.PlainRests.{IsFolderOf};

    ghost Value = { List ℕ };

    ghost view = { λ f. f.base };

    ghost invariant = { λ f. IsFolderOf f.base f.folder f.is_plain };
}

impl MapFolder {
    /// The folder of a map base.
    pub fn of(alloc: Global, map_base: &WebUrl) -> Result<MapFolder, Memory>
        ensures { IfOk result (λ folder. folder ≡ map_base.now) }
    {
        let text = map_base.as_str();
        let (folder, name) = split_folder(text);
        Ok(MapFolder {
            base: map_base.copy(alloc)?,
            folder: Text::of(alloc, folder)?,
            is_plain: is_plain_page(folder.as_bytes(), name.as_bytes()),
        })
    }

    /// How many bytes the folder has.
    pub fn size(&self) -> usize
        ensures { result ≡ length (folder_text self.now) }
    {
        self.folder.as_str().len()
    }

    /// What a URL has behind the folder; None where it doesn't begin with that.
    pub fn behind<'a>(&self, url: &'a str) -> Option<&'a str>
        ensures { MatchOption result (begins url.now (folder_text self.now) ≡ false)
            (λ rest. url.now ≡ folder_text self.now ++ rest.now) }
    {
        behind(self.folder.as_str(), url)
    }

    /// Whether what a URL has behind the folder is known to be short, and nothing to be escaped in it.
    pub fn is_plain(&self, rest: &str) -> bool
        ensures { IsTrue result → IsPlainShort self.now rest.now }
    {
        self.is_plain && is_plain_rest(rest.as_bytes())
    }

    /// `./` and what a URL has behind the folder, where that is its short form.
    pub fn short(&self, alloc: Global, url: &str, rest: &str) -> Result<Option<String>, Memory>
        requires { url.now ≡ folder_text self.now ++ rest.now }
        ensures { IfOk result (λ found. MatchOption found (short self.now url.now ≡ url.now)
            (λ text. string_bytes text ≡ short self.now url.now)) }
    {
        let text = beside(alloc, rest)?;
        if self.leads_to(alloc, text.as_str(), url)? {
            Ok(Some(text))
        } else {
            Ok(None)
        }
    }

    // Whether a text, parsed against the map base, is this URL.
    fn leads_to(&self, alloc: Global, text: &str, url: &str) -> Result<bool, Memory>
        ensures { IfOk result (λ yes. IsTrue yes ↔ (parse_against self.now text.now ≡ Some url.now)) }
    {
        match self.base.join(alloc, text)? {
            None => Ok(false),
            Some(found) => Ok(found.as_str() == url),
        }
    }
}

fn beside(alloc: Global, rest: &str) -> Result<String, Memory>
    ensures { IfOk result (λ text. string_bytes text ≡ codes "./" ++ rest.now) }
{
    let mut text = String::from_str(alloc, "./")?;
    text.push_str(rest)?;
    Ok(text)
}

#[tactic(auto, using(crate::proofs::FolderLemmas::stripped))]
fn behind<'a>(front: &str, text: &'a str) -> Option<&'a str>
    ensures { MatchOption result (begins text.now front.now ≡ false) (λ rest. text.now ≡ front.now ++ rest.now) }
{
    text.strip_prefix(front)
}

/// The longest front of a map base that ends in `/`, and what stands behind it.
fn split_folder(base: &str) -> (&str, &str)
    requires { IsAscii base.now }
    ensures folder { result.0.now ≡ folder_text base.now }
    ensures split { base.now ≡ result.0.now ++ result.1.now }
{
    let size = folder_size(base.as_bytes());
    (&base[..size], &base[size..])
}

fn folder_size(base: &[u8]) -> usize
    ensures front { take result base.now ≡ folder_text base.now }
    ensures inside { result ≤ length base.now }
{
    let mut front = base;
    while let Some((last, shorter)) = front.split_last() {
        if *last == b'/' {
            return front.len();
        }
        front = shorter;
    }
    0
}
