ghost use Rattle.std.specs.Prelude.{◌≡◌, ◌<◌, ◌≤◌, ◌+◌, ◌^◌, All, IfOk, MatchOption, length, map, not, suc, true};
ghost use Rattle.std.specs.Bool.{OnTrue};
ghost use Rattle.module_spec.specs.declared.token.Kind.TheVariants as kind;
ghost use Rattle.grammar_spec.specs.Sights.{is_quoted, at_place, is_kind, depth_at, code_of, is_ident};
ghost use Rattle.grammar_spec.specs.Sights.{is_any_of, assignment_operators, is_closing, operators, outside};
ghost use Rattle.grammar_tokens.specs.Spots.{IsSpot, arrow_at, sight_of, key_ends, short_ends};

use crate::arrows::{arrows_of, is_word};
use crate::spot::Spot;
use module_spec::Kind;
use shared_types::Memory;
use std::alloc::Global;
use std::marker::Model;

/// The tokens of a text. A contract sees them as the grammar does.
#[derive(Drop)]
pub struct Tokens<'t> {
    text: &'t [u8],
    spots: &'t [Spot],
    arrows: Vec<bool>,
}

impl<'t> Model for Tokens<'t> {
    ghost use Rattle.std.specs.Prelude.{List, map};
    ghost use Rattle.grammar_spec.specs.Sights.{Sight};
    ghost use Rattle.grammar_tokens.specs.Spots.{sight_of, AreTokens};

    ghost Value = { List Sight };

    ghost view = { λ t. map (sight_of t.text.now) t.spots.now };

    ghost invariant = { λ t. AreTokens t.text.now t.spots.now t.arrows.items };
}

pub(crate) fn code_of(kind: Kind) -> u8
    ensures { result ≡ code_of kind }
{
    match kind {
        Kind::Name => 0,
        Kind::Private => 1,
        Kind::Number => 2,
        Kind::Text => 3,
        Kind::TemplateWhole => 4,
        Kind::TemplateHead => 5,
        Kind::TemplateMiddle => 6,
        Kind::TemplateTail => 7,
        Kind::Regex => 8,
        Kind::Punctuator => 9,
    }
}

impl<'t> Tokens<'t> {
    /// The tokens that are kept so, of this text.
    pub fn of(alloc: Global, text: &'t [u8], spots: &'t [Spot]) -> Result<Tokens<'t>, Memory>
        requires { All (IsSpot text.now) spots.now }
        ensures { IfOk result (λ tokens. tokens ≡ map (sight_of text.now) spots.now) }
    {
        let arrows = arrows_of(alloc, text, spots)?;
        Ok(Tokens {
            text,
            spots,
            arrows,
        })
    }

    /// The number of brackets that are open before the token.
    pub fn depth(&self, at: usize) -> Option<usize>
        ensures { result ≡ depth_at self.now at }
    {
        match self.spots.get(at) {
            None => None,
            Some(spot) => Some(spot.depth as usize),
        }
    }

    /// The token has this kind.
    pub fn is_kind(&self, kind: Kind, at: usize) -> bool
        ensures is { result ≡ at_place (is_kind kind) self.now at }
        ensures within { OnTrue result (at + 1 < 2 ^ 64) }
    {
        match self.spots.get(at) {
            None => false,
            Some(spot) => code_of(spot.kind) == code_of(kind),
        }
    }

    /// A name or a punctuator that is spelled so stands there.
    pub fn quoted(&self, word: &[u8], at: usize) -> bool
        ensures is { result ≡ is_quoted word.now self.now at }
        ensures within { OnTrue result (at + 1 < 2 ^ 64) }
    {
        match self.spots.get(at) {
            None => false,
            Some(spot) => is_word(self.text, *spot, word),
        }
    }

    /// A name that isn't reserved stands there.
    pub fn is_ident(&self, at: usize) -> bool
        ensures is { result ≡ at_place is_ident self.now at }
        ensures within { OnTrue result (at + 1 < 2 ^ 64) }
    {
        match self.spots.get(at) {
            None => false,
            Some(spot) => spot.ident,
        }
    }

    pub(crate) fn assigns(&self, at: usize) -> bool
        ensures is { result ≡ at_place (is_any_of assignment_operators) self.now at }
        ensures within { OnTrue result (at + 1 < 2 ^ 64) }
    {
        match self.spots.get(at) {
            None => false,
            Some(spot) => spot.assigns,
        }
    }

    pub(crate) fn closes(&self, at: usize) -> bool
        ensures { result ≡ at_place is_closing self.now at }
    {
        match self.spots.get(at) {
            None => false,
            Some(spot) => spot.closes,
        }
    }

    // An operator between two operands stands there, other than `in`.
    pub(crate) fn operates(&self, at: usize) -> bool
        ensures is { result ≡ at_place (is_any_of operators) self.now at }
        ensures within { OnTrue result (at + 1 < 2 ^ 64) }
    {
        match self.spots.get(at) {
            None => false,
            Some(spot) => spot.operates,
        }
    }

    /// A line end stands before the token there.
    pub fn line(&self, at: usize) -> bool
        ensures { result ≡ at_place (λ t. t.line) self.now at }
    {
        match self.spots.get(at) {
            None => false,
            Some(spot) => spot.line,
        }
    }

    // One of `(`, `,`, `;`, `:`, `=` and `}` stands there.
    pub(crate) fn ends_key(&self, at: usize) -> bool
        ensures { result ≡ at_place (is_any_of key_ends) self.now at }
    {
        match self.spots.get(at) {
            None => false,
            Some(spot) => spot.ends_key,
        }
    }

    // One of `,`, `=` and `}` stands there.
    pub(crate) fn ends_short(&self, at: usize) -> bool
        ensures { result ≡ at_place (is_any_of short_ends) self.now at }
    {
        match self.spots.get(at) {
            None => false,
            Some(spot) => spot.ends_short,
        }
    }

    // The number of the token behind the one there.
    #[tactic(auto, using(crate::proofs::Places::one_more))]
    pub(crate) fn after(&self, at: usize) -> Option<usize>
        ensures { MatchOption result (length self.now ≤ at) (λ next. next ≡ suc at) }
    {
        if at < self.spots.len() {
            Some(at + 1)
        } else {
            None
        }
    }

    // Whether `=>` stands on the line of the next token that leaves as many brackets open as are open before the token
    // there, and behind it.
    #[tactic(auto, using(crate::proofs::Passing::arrow_there, crate::proofs::Passing::arrow_past))]
    pub(crate) fn has_arrow(&self, at: usize) -> bool
        ensures { result ≡ arrow_at self.now at }
    {
        if at < self.arrows.len() {
            self.arrows[self.arrows.len() - 1 - at]
        } else {
            false
        }
    }

    // No token is left there.
    pub(crate) fn is_end(&self, at: usize) -> bool
        ensures { result ≡ not (at_place (λ t. true) self.now at) }
    {
        match self.spots.get(at) {
            None => true,
            Some(_) => false,
        }
    }

    // Exactly so many brackets are open before the token there.
    pub(crate) fn is_outside(&self, head: Option<usize>, at: usize) -> bool
        ensures { result ≡ at_place (outside head) self.now at }
    {
        match self.spots.get(at) {
            None => false,
            Some(spot) => match head {
                None => false,
                Some(depth) => spot.depth as usize == depth,
            },
        }
    }
}
