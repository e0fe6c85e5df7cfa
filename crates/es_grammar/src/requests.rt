ghost use Rattle.std.specs.Prelude.{◌≡◌, [], ◌++◌, IfOk, map, slice_get};
ghost use Rattle.std.specs.Bool.{Decides};
ghost use Rattle.grammar_spec.specs.Verdicts.{request_of, and_request, requests_at, or_nothing};
ghost use Rattle.grammar_tokens.specs.Spots.{sight_of, IsSpot};
ghost use Rattle.grammar_spots.specs.Texts.{IsCut};
ghost use Rattle.es_grammar.specs.Saying.{AreKept};

use es_module_parser::{Requests, string_value};
use grammar_tokens::Spot;
use module_spec::Request;
use shared_types::{Listed, Memory, Text};
use std::alloc::Global;

fn or_nothing(alloc: Global, value: Option<Text>) -> Text
    ensures { result ≡ or_nothing value }
{
    match value {
        Some(text) => text,
        None => Text::new(alloc),
    }
}

// The request of a token, a string literal.
#[tactic(auto, using(crate::proofs::Sayings::request_is))]
fn request_of(alloc: Global, text: &str, spot: Spot) -> Result<Request, Memory>
    requires within { IsSpot text.now spot }
    requires cut { IsCut text.now spot }
    ensures { IfOk result (λ request. request ≡ request_of (sight_of text.now spot)) }
{
    let value = string_value(alloc, &text[spot.from as usize..spot.to as usize])?;
    Ok(Request {
        from: spot.from as usize,
        to: spot.to as usize,
        text: or_nothing(alloc, value),
    })
}

// Puts the request of the token with this number, where there is one.
fn put_request(
    alloc: Global,
    text: &str,
    spots: &[Spot],
    at: usize,
    found: &mut Listed<Request>,
) -> Result<(), Memory>
    requires { AreKept text.now spots.now }
    ensures { IfOk result (λ _. found.new
        ≡ found.old ++ and_request (slice_get (map (sight_of text.now) spots.now) at) []) }
{
    match spots.get(at) {
        None => Ok(()),
        Some(spot) => found.push(request_of(alloc, text, *spot)?),
    }
}

/// The requests of the tokens with these numbers.
#[tactic(auto, using(crate::proofs::Sayings::one_more))]
pub(crate) fn requests_at(
    alloc: Global,
    text: &str,
    spots: &[Spot],
    asked: &[usize],
) -> Result<Listed<Request>, Memory>
    requires { AreKept text.now spots.now }
    ensures { IfOk result (λ found. found ≡ requests_at (map (sight_of text.now) spots.now) asked.now) }
{
    let mut found = Listed::new(alloc);
    let mut rest = asked;
    'put: while let Some((at, more)) = rest.split_first() {
        put_request(alloc, text, spots, *at, &mut found)?;
        rest = more;
    }
    Ok(found)
}

/// The requests are those of the outline.
pub(crate) fn are_same(found: &Listed<Request>, outline: &Requests) -> bool
    ensures { Decides result (found.now ≡ outline.now) }
{
    found.as_slice() == outline.as_slice()
}
