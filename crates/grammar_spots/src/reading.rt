ghost use Rattle.std.specs.Prelude.{◌≡◌, ◌≤◌, length, Err, IfOk, IfErr, slice_range};
ghost use Rattle.module_spec.specs.declared.token.LexFault.{LexFault};
ghost use Rattle.module_spec.specs.Tokens.{ReadsTokens};
ghost use Rattle.grammar_spec.specs.Sights.{has_line_end};
ghost use Rattle.grammar_spots.specs.Texts.{SpotsOf};

use crate::making::spot_of;
use es_lexer::{Lexer, TokensFault, begins_line_end};
use grammar_tokens::Spot;
use shared_types::Listed;
use std::alloc::Global;

// A line end stands among the bytes.
fn has_line_end(bytes: &[u8]) -> bool
    ensures { result ≡ has_line_end bytes.now }
{
    let mut rest = bytes;
    'look: while let Some((_, more)) = rest.split_first() {
        if begins_line_end(rest) {
            return true;
        }
        rest = more;
    }
    false
}

// The bytes between two places, or none where the second doesn't stand behind the first.
fn between(bytes: &[u8], from: usize, to: usize) -> &[u8]
    requires { to ≤ length bytes.now }
    ensures { result.now ≡ slice_range bytes.now from to }
{
    bytes.get(from..to).unwrap_or(b"".as_slice())
}

/// What is kept of each token of the text, in their order, or the text's first fault. For a text above 4 GiB there is
/// no room.
pub fn spots_of(alloc: Global, text: &str) -> Result<Listed<Spot>, TokensFault>
    ensures spots { IfOk result (λ spots. SpotsOf text.now spots) }
    ensures fault { IfErr result (λ e. (fault : LexFault) → e ≡ TokensFault.Lexical fault
        → ReadsTokens text.now (Err fault)) }
{
    let bytes = text.as_bytes();
    let mut lexer = Lexer::new(alloc, text)?;
    let mut spots = Listed::new(alloc);
    let mut end = 0;
    'read: loop {
        let depth = lexer.depth();
        match lexer.next() {
            Err(fault) => return Err(TokensFault::Lexical(fault)),
            Ok(None) => return Ok(spots),
            Ok(Some(token)) => {
                let line = has_line_end(between(bytes, end, token.from));
                let spot = spot_of(bytes, token, line, depth, lexer.depth())?;
                spots.push(spot)?;
                end = token.to;
            }
        }
    }
}
