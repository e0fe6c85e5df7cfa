ghost use Rattle.std.specs.Prelude.{◌≡◌, Ok, IfOk, map};
ghost use Rattle.module_spec.specs.Outlines.{Outline as ModuleOutline, ReadsOutline};
ghost use Rattle.grammar_spec.specs.Sights.{place_of};
ghost use Rattle.grammar_spec.specs.Verdicts.{matches, IsStrict};
ghost use Rattle.grammar_tokens.specs.Spots.{sight_of};
ghost use Rattle.grammar_spots.specs.Texts.{SpotsOf};
ghost use Rattle.es_module_parser.specs.Outlines.{as_outline};
ghost use Rattle.es_grammar.specs.Saying.{AreKept, AnswersTo, SaysOf};

use crate::reader::{End, read};
use crate::requests::{are_same, requests_at};
use es_lexer::TokensFault;
use es_module_parser::Outline;
use grammar_spec::Strict;
use grammar_spots::spots_of;
use grammar_tokens::{Spot, Tokens};
use module_spec::Request;
use shared_types::{Listed, Memory};
use std::alloc::{AllocError, Global};

// The tokens of a text that has an outline, and so has no fault among them.
fn tokens_of(alloc: Global, text: &str) -> Result<Listed<Spot>, Memory>
    requires { (outline : ModuleOutline) × ReadsOutline text.now (Ok outline) }
    ensures { IfOk result (λ spots. SpotsOf text.now spots) }
{
    match spots_of(alloc, text) {
        Ok(spots) => Ok(spots),
        Err(TokensFault::Memory) => Err(AllocError),
        Err(TokensFault::Lexical(_)) => unreachable!(),
    }
}

// Where the token with this number begins, or the text's length.
fn place_of(text: &str, spots: &[Spot], at: usize) -> usize
    ensures { result ≡ place_of text.now (map (sight_of text.now) spots.now) at }
{
    match spots.get(at) {
        None => text.len(),
        Some(spot) => spot.from as usize,
    }
}

// A text that matches and has these requests, beside its outline.
#[tactic(auto, using(crate::proofs::Sayings::agrees_as, crate::proofs::Sayings::differs_as))]
fn compared(alloc: Global, found: Listed<Request>, outline: &Outline) -> Result<Strict, Memory>
    ensures { IfOk result (λ answer. IsStrict (as_outline outline.now) (matches found) answer) }
{
    if are_same(&found, &outline.requests) {
        return Ok(Strict::Agrees);
    }
    let listed = outline.requests.listed(alloc)?;
    Ok(Strict::Differs {
        strict: found,
        outline: listed,
    })
}

// What is said of the text by how its reading ended.
fn answer(
    alloc: Global,
    text: &str,
    spots: &[Spot],
    told: End,
    asked: &[usize],
    outline: &Outline,
) -> Result<Strict, Memory>
    requires { AreKept text.now spots.now }
    ensures { IfOk result (λ answer. AnswersTo text.now spots.now (as_outline outline.now) asked.now told answer) }
{
    match told {
        End::Nothing => compared(alloc, Listed::new(alloc), outline),
        End::Matches => compared(alloc, requests_at(alloc, text, spots, asked)?, outline),
        End::Misses => Ok(Strict::Syntax {
            at: place_of(text, spots, 0),
        }),
        End::Faults(at) => Ok(Strict::Syntax {
            at: place_of(text, spots, at),
        }),
        End::TooDeep => Ok(Strict::TooDeep),
    }
}

/// What the statement grammar says of a module text, beside the text's outline. Targets of assignments and early
/// errors aren't checked.
#[tactic(auto, using(crate::proofs::Sayings::saying))]
pub fn strict(alloc: Global, text: &str, outline: &Outline) -> Result<Strict, Memory>
    requires { ReadsOutline text.now (Ok (as_outline outline.now)) }
    ensures { IfOk result (λ answer. SaysOf text.now (as_outline outline.now) answer) }
{
    let kept = tokens_of(alloc, text)?;
    let spots = kept.as_slice();
    let tokens = Tokens::of(alloc, text.as_bytes(), spots)?;
    let (told, asked) = read(alloc, &tokens)?;
    answer(alloc, text, spots, told, asked.as_slice(), outline)
}
