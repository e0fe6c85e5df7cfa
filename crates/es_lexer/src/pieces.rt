ghost use Rattle.std.specs.Prelude.{◌≡◌, ◌∷◌, false, None, Some, MatchOption};
ghost use Rattle.module_spec.specs.Spellings.{punctuator, text_rest, template_rest, regex_body_rest};
ghost use Rattle.module_spec.specs.Tokens.{piece, as_piece, slash_piece, private_piece};
ghost use Rattle.module_spec.specs.Tokens.{punctuator_piece, regex_piece, first_part, later_part};
ghost use Rattle.es_lexer.specs.Open.{slash_is_regex};

use crate::characters::behind;
use crate::names::{begins_name, name_rest};
use crate::punctuators::punctuator;
use crate::spellings::{begins_number, number_rest, regex_body_rest, template_rest, text_rest};
use crate::state::Last;
use module_spec::Sort;

// Half of all tokens are punctuators, and a call would hand each over in memory.
#[inline(always)]
fn punctuator_piece(bytes: &[u8]) -> Option<(Sort, &[u8])>
    ensures { MatchOption result (punctuator_piece bytes.now (punctuator bytes.now) ≡ None)
        (λ found. punctuator_piece bytes.now (punctuator bytes.now) ≡ Some (found.0, found.1.now)) }
{
    match punctuator(bytes) {
        None => None,
        Some((mark, size)) => Some((Sort::Punctuator(mark), behind(bytes, size))),
    }
}

fn private_piece(bytes: &[u8]) -> Option<(Sort, &[u8])>
    ensures { MatchOption result (private_piece bytes.now ≡ None)
        (λ found. private_piece bytes.now ≡ Some (found.0, found.1.now)) }
{
    if begins_name(bytes) {
        Some((Sort::Private, name_rest(bytes)))
    } else {
        None
    }
}

fn text_piece(quote: u8, bytes: &[u8]) -> Option<(Sort, &[u8])>
    ensures { MatchOption result (as_piece Sort.Text (text_rest quote bytes.now) ≡ None)
        (λ found. as_piece Sort.Text (text_rest quote bytes.now) ≡ Some (found.0, found.1.now)) }
{
    match text_rest(quote, bytes) {
        None => None,
        Some(rest) => Some((Sort::Text, rest)),
    }
}

fn first_part(bytes: &[u8]) -> Option<(Sort, &[u8])>
    ensures { MatchOption result (first_part (template_rest bytes.now) ≡ None)
        (λ found. first_part (template_rest bytes.now) ≡ Some (found.0, found.1.now)) }
{
    match template_rest(bytes) {
        None => None,
        Some((true, rest)) => Some((Sort::TemplateWhole, rest)),
        Some((false, rest)) => Some((Sort::TemplateHead, rest)),
    }
}

fn later_part(bytes: &[u8]) -> Option<(Sort, &[u8])>
    ensures { MatchOption result (later_part (template_rest bytes.now) ≡ None)
        (λ found. later_part (template_rest bytes.now) ≡ Some (found.0, found.1.now)) }
{
    match template_rest(bytes) {
        None => None,
        Some((true, rest)) => Some((Sort::TemplateTail, rest)),
        Some((false, rest)) => Some((Sort::TemplateMiddle, rest)),
    }
}

fn regex_piece(bytes: &[u8]) -> Option<(Sort, &[u8])>
    ensures { MatchOption result (regex_piece (regex_body_rest false false bytes.now) ≡ None)
        (λ found. regex_piece (regex_body_rest false false bytes.now) ≡ Some (found.0, found.1.now)) }
{
    match regex_body_rest(bytes) {
        None => None,
        Some(rest) => Some((Sort::Regex, name_rest(rest))),
    }
}

// A punctuator that begins with a `/`. Few do, so this has no place in a caller's body.
#[inline(never)]
fn division_piece(bytes: &[u8]) -> Option<(Sort, &[u8])>
    ensures { MatchOption result (punctuator_piece bytes.now (punctuator bytes.now) ≡ None)
        (λ found. punctuator_piece bytes.now (punctuator bytes.now) ≡ Some (found.0, found.1.now)) }
{
    punctuator_piece(bytes)
}

// What a `/` begins that begins no comment.
fn slash_piece<'a>(regex: bool, bytes: &'a [u8], rest: &'a [u8]) -> Option<(Sort, &'a [u8])>
    requires { bytes.now ≡ 47 ∷ rest.now }
    ensures { MatchOption result (slash_piece regex rest.now ≡ None)
        (λ found. slash_piece regex rest.now ≡ Some (found.0, found.1.now)) }
{
    match rest.split_first() {
        None => { if regex { None } else { division_piece(bytes) } }
        Some((second, _)) => {
            if *second == b'*' {
                None
            } else if regex {
                regex_piece(rest)
            } else {
                division_piece(bytes)
            }
        }
    }
}

/// The token at the front and the bytes behind it, None where no token can be read. `last` says whether a `/` begins a
/// regular expression, and `part` that a `}` goes on with a template.
#[tactic(auto, unfolding(module_spec::specs::Tokens::piece))]
pub fn piece(last: Last, part: bool, bytes: &[u8]) -> Option<(Sort, &[u8])>
    ensures { MatchOption result (piece (slash_is_regex last) part bytes.now ≡ None)
        (λ found. piece (slash_is_regex last) part bytes.now ≡ Some (found.0, found.1.now)) }
{
    let Some((first, rest)) = bytes.split_first() else {
        return None;
    };
    if begins_number(bytes) {
        Some((Sort::Number, number_rest(bytes)))
    } else if begins_name(bytes) {
        Some((Sort::Name, name_rest(bytes)))
    } else if *first == b'#' {
        private_piece(rest)
    } else if *first == b'"' || *first == b'\'' {
        text_piece(*first, rest)
    } else if *first == b'`' {
        first_part(rest)
    } else if *first == b'}' && part {
        later_part(rest)
    } else if *first == b'/' {
        slash_piece(last.slash_is_regex(), bytes, rest)
    } else {
        punctuator_piece(bytes)
    }
}
