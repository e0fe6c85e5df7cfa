ghost use Rattle.std.specs.Prelude.{◌≡◌, ◌<◌, None, Some, length, MatchOption, MatchResult};
ghost use Rattle.module_spec.specs.Sorts.{opens, closes};
ghost use Rattle.module_spec.specs.Tokens.{is_closed_by, is_template, lexeme, next_at, refusal};
ghost use Rattle.module_spec.specs.Tokens.Next.{Ends, Faults, Gives};
ghost use Rattle.es_lexer.specs.Open.{slash_is_regex};

use crate::pieces::piece;
use crate::sorts::{closes, is_no_bracket, opens, same_bracket};
use crate::state::Last;
use module_spec::{Bracket, LexKind, Sort};
use tree_spec::MOST_BRACKETS;

fn is_closed_by(opened: Option<Bracket>, closed: Bracket) -> bool
    ensures { result ≡ is_closed_by opened closed }
{
    match opened {
        None => false,
        Some(bracket) => same_bracket(bracket, closed),
    }
}

fn is_template(opened: Option<Bracket>) -> bool
    ensures { result ≡ is_template opened }
{
    match opened {
        None => false,
        Some(Bracket::Round) => false,
        Some(Bracket::Square) => false,
        Some(Bracket::Curly) => false,
        Some(Bracket::Template) => true,
    }
}

// Why a token that can be read isn't taken.
fn refusal(
    opened: Option<Bracket>,
    closed: Option<Bracket>,
    innermost: Option<Bracket>,
    depth: usize,
) -> Option<LexKind>
    ensures { result ≡ refusal opened closed innermost depth }
{
    match closed {
        Some(bracket) => {
            if is_closed_by(innermost, bracket) {
                None
            } else {
                Some(LexKind::Unreadable)
            }
        }
        None => match opened {
            Some(_) => {
                if depth == MOST_BRACKETS {
                    Some(LexKind::TooDeep)
                } else {
                    None
                }
            }
            None => None,
        },
    }
}

// The same of a token. Most change no bracket, so this is asked first.
fn refused(sort: Sort, innermost: Option<Bracket>, depth: usize) -> Option<LexKind>
    ensures { result ≡ refusal (opens sort) (closes sort) innermost depth }
{
    if is_no_bracket(sort) {
        None
    } else {
        refusal(opens(sort), closes(sort), innermost, depth)
    }
}

/// What comes at the front of bytes that begin with no white space and no comment: a token and the bytes behind it,
/// None at the end, or a fault.
#[tactic(auto, unfolding(module_spec::specs::Tokens::next_at))]
pub fn look(
    last: Last,
    innermost: Option<Bracket>,
    depth: usize,
    bytes: &[u8],
) -> Result<Option<(Sort, &[u8])>, LexKind>
    ensures next { MatchResult result
        (λ found. MatchOption found (next_at (slash_is_regex last) innermost depth bytes.now ≡ Ends)
        (λ p. next_at (slash_is_regex last) innermost depth bytes.now ≡ Gives (lexeme p.0 bytes.now p.1.now) p.1.now))
        (λ kind. next_at (slash_is_regex last) innermost depth bytes.now ≡ Faults (length bytes.now) kind) }
    ensures allowed { MatchResult result (λ found. MatchOption found (Unit {0})
        (λ p. refusal (opens p.0) (closes p.0) innermost depth ≡ None)) (λ kind. Unit {0}) }
{
    if bytes.is_empty() {
        return if depth == 0 {
            Ok(None)
        } else {
            Err(LexKind::Unreadable)
        };
    }
    match piece(last, is_template(innermost), bytes) {
        None => Err(LexKind::Unreadable),
        Some((sort, rest)) => match refused(sort, innermost, depth) {
            Some(kind) => Err(kind),
            None => Ok(Some((sort, rest))),
        },
    }
}
