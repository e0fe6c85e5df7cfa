ghost use Rattle.std.specs.Prelude.{◌≡◌, All, IfOk, map, reverse};
ghost use Rattle.grammar_spec.specs.Sights.{is_word, is_arrow_sign};
ghost use Rattle.grammar_tokens.specs.Spots.{IsSpot, AreUnset, sight_of, arrows_behind};

use crate::spot::Spot;
use crate::tokens::code_of;
use shared_types::Memory;
use std::alloc::Global;

// One more than a depth can be.
const DEPTHS: usize = 65_536;

/// The token is a name or a punctuator that is spelled so.
pub(crate) fn is_word(text: &[u8], spot: Spot, word: &[u8]) -> bool
    requires { IsSpot text.now spot }
    ensures { result ≡ is_word word.now (sight_of text.now spot) }
{
    let code = code_of(spot.kind);
    (code == 0 || code == 9) && &text[spot.from as usize..spot.to as usize] == word
}

// The token is `=>`, on the line of the token before it.
fn is_sign(text: &[u8], spot: Spot) -> bool
    requires { IsSpot text.now spot }
    ensures { result ≡ is_arrow_sign (sight_of text.now spot) }
{
    is_word(text, spot, b"=>") && !spot.line
}

// So many signs, none of which is set.
#[tactic(auto, using(crate::proofs::Passing::unset))]
fn no_signs(alloc: Global, count: usize) -> Result<Vec<bool>, Memory>
    ensures { IfOk result (λ signs. AreUnset count signs.items) }
{
    vec![in alloc; false; count]
}

/// For each token, the last one first, whether `=>` stands behind the next token that leaves as many brackets open as
/// are open before it, and on its line. One pass from the last token to the first finds all.
#[tactic(auto, using(crate::proofs::Passing::passing))]
pub(crate) fn arrows_of(alloc: Global, text: &[u8], spots: &[Spot]) -> Result<Vec<bool>, Memory>
    requires { All (IsSpot text.now) spots.now }
    ensures { IfOk result (λ arrows. arrows.items ≡ reverse (arrows_behind (map (sight_of text.now) spots.now))) }
{
    let mut signs = no_signs(alloc, DEPTHS)?;
    let mut arrows = Vec::with_capacity(alloc, spots.len())?;
    let mut sign = false;
    let mut rest = spots;
    'back: while let Some((spot, before)) = rest.split_last() {
        arrows.push(signs[spot.depth as usize])?;
        signs[spot.behind as usize] = sign;
        sign = is_sign(text, *spot);
        rest = before;
    }
    Ok(arrows)
}
