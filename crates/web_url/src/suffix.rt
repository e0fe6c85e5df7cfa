ghost use Rattle.std.specs.Prelude.{◌≡◌, ◌↔◌, [], IfOk, IsAscii, IsTrue, MatchOption};
ghost use Rattle.url_spec.specs.Suffixes.{suffix_of};
ghost use Rattle.web_url.specs.Suffixes.{IsSuffix};

use crate::escapes::{is_suffix_mark, split_suffix};
use shared_types::{Memory, Text};
use std::alloc::Global;
use std::marker::Model;

/// The query and fragment of a URL with their marks, or nothing.
#[derive(Debug, Drop, PartialEq, Eq, PartialOrd, Ord, Hash)]
pub struct Suffix {
    text: Text,
}

impl Model for Suffix {
    ghost use Rattle.std.specs.Prelude.{List, ℕ};
    ghost use Rattle.web_url.specs.Suffixes.{IsSuffix};

    ghost Value = { List ℕ };

    ghost view = { λ s. s.text };

    ghost invariant = { λ s. IsSuffix s.text };

    ghost inverse = { λ t. record { text = t } };
}

impl Suffix {
    /// The empty suffix.
    pub fn none(alloc: Global) -> Suffix
        ensures { result ≡ [] }
    {
        Suffix {
            text: Text::new(alloc),
        }
    }

    /// A copy of a text, where that is empty or begins with `?` or `#`.
    pub fn of(alloc: Global, text: &str) -> Result<Option<Suffix>, Memory>
        ensures { IfOk result (λ found. MatchOption found (¬ IsSuffix text.now) (λ suffix. suffix ≡ text.now)) }
    {
        if is_suffix(text) {
            return Ok(Some(Suffix {
                text: Text::of(alloc, text)?,
            }));
        }
        Ok(None)
    }

    /// The suffix of a URL with this text.
    pub(crate) fn behind(alloc: Global, url: &str) -> Result<Suffix, Memory>
        requires { IsAscii url.now }
        ensures { IfOk result (λ suffix. suffix ≡ suffix_of url.now) }
    {
        Ok(Suffix {
            text: Text::of(alloc, split_suffix(url).1)?,
        })
    }

    /// Lends the text.
    pub fn as_str(&self) -> &str
        ensures text { result.now ≡ self.now }
        ensures is_suffix { IsSuffix self.now }
    {
        self.text.as_str()
    }

    /// An equal suffix.
    pub fn copy(&self, alloc: Global) -> Result<Suffix, Memory>
        ensures { IfOk result (λ copy. copy ≡ self.now) }
    {
        Ok(Suffix {
            text: self.text.copy(alloc)?,
        })
    }
}

fn is_suffix(text: &str) -> bool
    ensures { IsTrue result ↔ IsSuffix text.now }
{
    match text.as_bytes().first() {
        None => true,
        Some(byte) => is_suffix_mark(*byte),
    }
}
