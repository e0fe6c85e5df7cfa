//! Parsing and joining, with the kit's errors sorted: no URL, or want of memory.
ghost use Rattle.std.specs.Prelude.{◌≡◌, None, Some, IfOk, IfSome, MatchOption};
ghost use Rattle.url_spec.specs.Parsing.{text_of, parse_alone, parse_against};
ghost use Rattle.web_url.specs.Written.{IsWritten, IsParsed};

use shared_types::Memory;
use std::alloc::{AllocError, Global};
use url::{ParseError, Url};

/// The URL of a text without a base, or none.
#[tactic(auto, using(crate::proofs::UrlTexts::parsing))]
pub fn parse(alloc: Global, text: &str) -> Result<Option<Url>, Memory>
    ensures written { IfOk result (λ found. MatchOption found (parse_alone text.now ≡ None)
        (λ url. (parse_alone text.now ≡ Some (text_of url)) × IsWritten url)) }
    ensures valid { IfOk result (λ found. IfSome found (IsParsed text.now)) }
{
    match Url::parse(alloc, text) {
        Ok(url) => {
            let _valid = url.as_str();
            Ok(Some(url))
        }
        Err(ParseError::Overflow) => Err(AllocError),
        Err(ParseError::OutOfMemory) => Err(AllocError),
        Err(_) => Ok(None),
    }
}

/// The URL of a text against a base, or none.
#[tactic(auto, using(crate::proofs::UrlTexts::parsing))]
pub fn join(base: &Url, text: &str) -> Result<Option<Url>, Memory>
    requires { IsWritten base.now }
    ensures written { IfOk result (λ found. MatchOption found (parse_against (text_of base.now) text.now ≡ None)
        (λ url. (parse_against (text_of base.now) text.now ≡ Some (text_of url)) × IsWritten url)) }
{
    let _valid = base.as_str();
    match base.join(text) {
        Ok(url) => {
            let _valid_too = url.as_str();
            Ok(Some(url))
        }
        Err(ParseError::Overflow) => Err(AllocError),
        Err(ParseError::OutOfMemory) => Err(AllocError),
        Err(_) => Ok(None),
    }
}
