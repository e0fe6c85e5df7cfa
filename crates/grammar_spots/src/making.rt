ghost use Rattle.std.specs.Prelude.{◌≡◌, ◌≤◌, ◌==◌, ◌^◌, ◌&&◌, ◌||◌, not, length, MatchResult};
ghost use Rattle.module_spec.specs.declared.token.Kind.TheVariants as kinds;
ghost use Rattle.grammar_spec.specs.Sights.{code_of, reserved, assignment_operators, operators};
ghost use Rattle.grammar_tokens.specs.Spots.{key_ends, short_ends};
ghost use Rattle.grammar_spots.specs.Words.{closing, is_one_of};
ghost use Rattle.grammar_spots.specs.Making.{IsSpotOf, HasNoRoom};

use crate::words::{is_assignment, is_closing, is_key_end, is_operator, is_reserved, is_short_end};
use grammar_tokens::Spot;
use module_spec::{Kind, Token};
use shared_types::Memory;
use std::alloc::AllocError;

fn is_name(kind: Kind) -> bool
    ensures { result ≡ (code_of kind == code_of kinds.Name) }
{
    match kind {
        Kind::Name => true,
        Kind::Private => false,
        Kind::Number => false,
        Kind::Text => false,
        Kind::TemplateWhole => false,
        Kind::TemplateHead => false,
        Kind::TemplateMiddle => false,
        Kind::TemplateTail => false,
        Kind::Regex => false,
        Kind::Punctuator => false,
    }
}

fn is_mark(kind: Kind) -> bool
    ensures { result ≡ (code_of kind == code_of kinds.Punctuator) }
{
    match kind {
        Kind::Name => false,
        Kind::Private => false,
        Kind::Number => false,
        Kind::Text => false,
        Kind::TemplateWhole => false,
        Kind::TemplateHead => false,
        Kind::TemplateMiddle => false,
        Kind::TemplateTail => false,
        Kind::Regex => false,
        Kind::Punctuator => true,
    }
}

fn is_ident(name: bool, spelled: &[u8]) -> bool
    ensures { result ≡ (name && not (is_one_of spelled.now reserved)) }
{
    name && !is_reserved(spelled)
}

fn assigns(word: bool, spelled: &[u8]) -> bool
    ensures { result ≡ (word && is_one_of spelled.now assignment_operators) }
{
    word && is_assignment(spelled)
}

fn operates(word: bool, spelled: &[u8]) -> bool
    ensures { result ≡ (word && is_one_of spelled.now operators) }
{
    word && is_operator(spelled)
}

fn closes(word: bool, spelled: &[u8]) -> bool
    ensures { result ≡ (word && is_one_of spelled.now closing) }
{
    word && is_closing(spelled)
}

fn ends_key(word: bool, spelled: &[u8]) -> bool
    ensures { result ≡ (word && is_one_of spelled.now key_ends) }
{
    word && is_key_end(spelled)
}

fn ends_short(word: bool, spelled: &[u8]) -> bool
    ensures { result ≡ (word && is_one_of spelled.now short_ends) }
{
    word && is_short_end(spelled)
}

fn is_word(kind: Kind) -> bool
    ensures { result ≡ (code_of kind == code_of kinds.Name || code_of kind == code_of kinds.Punctuator) }
{
    is_name(kind) || is_mark(kind)
}

// A place, where four bytes have room for it.
fn short_place(place: usize) -> Result<u32, Memory>
    ensures { MatchResult result (λ short. short ≡ place) (λ _. 2 ^ 32 ≤ place) }
{
    if place > u32::MAX as usize {
        return Err(AllocError);
    }
    Ok(place as u32)
}

// A depth, where two bytes have room for it.
fn short_depth(depth: usize) -> Result<u16, Memory>
    ensures { MatchResult result (λ short. short ≡ depth) (λ _. 2 ^ 16 ≤ depth) }
{
    if depth > u16::MAX as usize {
        return Err(AllocError);
    }
    Ok(depth as u16)
}

/// What is kept of a token of the text: whether a line end stands before it, and how many brackets are open before it
/// and behind it. A text whose file may be read is shorter, and has fewer brackets open, than a spot has room for.
#[tactic(auto, using(crate::proofs::Agreeing::agreeing))]
pub fn spot_of(
    text: &[u8],
    token: Token,
    line: bool,
    depth: usize,
    behind: usize,
) -> Result<Spot, Memory>
    requires begins { token.from ≤ token.to }
    requires ends { token.to ≤ length text.now }
    ensures { MatchResult result (λ spot. IsSpotOf text.now token line depth behind spot)
        (λ _. HasNoRoom token depth behind) }
{
    let spelled = &text[token.from..token.to];
    let word = is_word(token.kind);
    Ok(Spot {
        from: short_place(token.from)?,
        to: short_place(token.to)?,
        depth: short_depth(depth)?,
        behind: short_depth(behind)?,
        kind: token.kind,
        line,
        ident: is_ident(is_name(token.kind), spelled),
        assigns: assigns(word, spelled),
        operates: operates(word, spelled),
        closes: closes(word, spelled),
        ends_key: ends_key(word, spelled),
        ends_short: ends_short(word, spelled),
    })
}
