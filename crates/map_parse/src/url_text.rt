ghost use Rattle.std.specs.Prelude.{◌≡◌, IfOk};
ghost use Rattle.url_spec.specs.Parsing.{IsUrl};

use shared_types::{Memory, Text};
use std::alloc::Global;
use std::marker::Model;
use web_url::WebUrl;

/// The text of a URL, without the URL's parts: a map holds many of them, and an answer wants one.
#[derive(Drop)]
pub struct UrlText {
    text: Text,
}

impl Model for UrlText {
    ghost use Rattle.std.specs.Prelude.{List, ℕ};
    ghost use Rattle.url_spec.specs.Parsing.{IsUrl};

    ghost Value = { List ℕ };

    ghost view = { λ u. u.text };

    ghost invariant = { λ u. IsUrl u.text };
}

impl UrlText {
    /// The text of a URL. Where it is as it was written, it shares the memory of what was written.
    pub fn of(alloc: Global, url: &WebUrl, written: &Text) -> Result<UrlText, Memory>
        ensures { IfOk result (λ text. text ≡ url.now) }
    {
        Ok(UrlText {
            text: text_of(alloc, url, written)?,
        })
    }

    /// Lends the text.
    pub fn as_str(&self) -> &str
        ensures text { result.now ≡ self.now }
        ensures is_url { IsUrl self.now }
    {
        self.text.as_str()
    }

    /// The URL.
    pub fn to_url(&self, alloc: Global) -> Result<WebUrl, Memory>
        ensures { IfOk result (λ url. url ≡ self.now) }
    {
        match WebUrl::parse(alloc, self.text.as_str())? {
            Some(url) => Ok(url),
            None => unreachable!(),
        }
    }
}

fn text_of(alloc: Global, url: &WebUrl, written: &Text) -> Result<Text, Memory>
    ensures text { IfOk result (λ text. text ≡ url.now) }
    ensures is_url { IsUrl url.now }
{
    if url.as_str() == written.as_str() {
        written.copy(alloc)
    } else {
        Text::of(alloc, url.as_str())
    }
}
