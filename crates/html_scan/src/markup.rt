ghost use Rattle.std.specs.Prelude.{◌≡◌, ◌≤◌, ◌<◌, ◌==◌, ◌&&◌, ◌||◌, false, true, [], ◌∷◌, None, Some, length};
ghost use Rattle.std.specs.Prelude.{MatchOption, if◌then◌else◌};
ghost use Rattle.std.specs.Char.{is_ascii_alphabetic, is_ascii_whitespace};
ghost use Rattle.page_spec.specs.declared.kinds.State.TheVariants.{TagOpen, BogusComment, Comment, BeforeAttributeName};
ghost use Rattle.page_spec.specs.declared.kinds.State.TheVariants.{AttributeName, BeforeAttributeValue};
ghost use Rattle.page_spec.specs.Tokenizer.{may_end, is_last, next_state, behind_markup};

use crate::names::{is_letter, is_whitespace};
use crate::runs::{End, behind};
use page_spec::State;

fn may_end(state: State) -> bool
    ensures { result ≡ may_end state }
{
    match state {
        State::TagOpen => false,
        State::Comment => false,
        State::CommentEndDash => false,
        State::AttributeValueDoubleQuoted => false,
        State::AttributeValueSingleQuoted => false,
        State::EndTagOpen => true,
        State::MarkupDeclarationOpen => true,
        State::MarkupDeclarationDash => true,
        State::BogusComment => true,
        State::CommentStart => true,
        State::CommentStartDash => true,
        State::CommentEnd => true,
        State::CommentEndBang => true,
        State::TagName => true,
        State::BeforeAttributeName => true,
        State::AttributeName => true,
        State::AfterAttributeName => true,
        State::BeforeAttributeValue => true,
        State::AttributeValueUnquoted => true,
    }
}

/// Whether the byte is the last one of its tag or comment.
pub fn is_last(state: State, b: u8) -> bool
    ensures { result ≡ is_last state b }
{
    b == b'>' && may_end(state)
}

fn either(test: bool, first: State, other: State) -> State
    ensures { result ≡ (if test then first else other) }
{
    if test { first } else { other }
}

fn behind_less(b: u8) -> State
    ensures { result ≡ next_state TagOpen b }
{
    if is_letter(b) {
        State::TagName
    } else if b == b'/' {
        State::EndTagOpen
    } else {
        either(b == b'!', State::MarkupDeclarationOpen, State::BogusComment)
    }
}

fn behind_attribute_name(b: u8) -> State
    ensures { result ≡ next_state AttributeName b }
{
    if b == b'=' {
        State::BeforeAttributeValue
    } else if b == b'/' {
        State::BeforeAttributeName
    } else {
        either(
            is_whitespace(b),
            State::AfterAttributeName,
            State::AttributeName,
        )
    }
}

fn behind_equals(b: u8) -> State
    ensures { result ≡ next_state BeforeAttributeValue b }
{
    if b == b'"' {
        State::AttributeValueDoubleQuoted
    } else if b == b'\'' {
        State::AttributeValueSingleQuoted
    } else {
        either(
            is_whitespace(b),
            State::BeforeAttributeValue,
            State::AttributeValueUnquoted,
        )
    }
}

// In the markup of a comment that no standard has, unless the test holds.
fn or_bogus_comment(test: bool, state: State) -> State
    ensures { result ≡ (if test then state else BogusComment) }
{
    if test { state } else { State::BogusComment }
}

// Within a comment, unless the test holds.
fn or_comment(test: bool, state: State) -> State
    ensures { result ≡ (if test then state else Comment) }
{
    if test { state } else { State::Comment }
}

// Before an attribute's name, where the test holds; else in the state still.
fn leave(test: bool, state: State) -> State
    ensures { result ≡ (if test then BeforeAttributeName else state) }
{
    if test {
        State::BeforeAttributeName
    } else {
        state
    }
}

/// The state behind a byte that isn't the last one of its tag or comment.
pub fn next_state(state: State, b: u8) -> State
    ensures { result ≡ next_state state b }
{
    let skipped = is_whitespace(b) || b == b'/';
    let dash = b == b'-';
    match state {
        State::TagOpen => behind_less(b),
        State::EndTagOpen => or_bogus_comment(is_letter(b), State::TagName),
        State::MarkupDeclarationOpen => or_bogus_comment(dash, State::MarkupDeclarationDash),
        State::MarkupDeclarationDash => or_bogus_comment(dash, State::CommentStart),
        State::BogusComment => State::BogusComment,
        State::CommentStart => or_comment(dash, State::CommentStartDash),
        State::CommentStartDash => or_comment(dash, State::CommentEnd),
        State::Comment => or_comment(dash, State::CommentEndDash),
        State::CommentEndDash => or_comment(dash, State::CommentEnd),
        State::CommentEnd => either(b == b'!', State::CommentEndBang, or_comment(dash, state)),
        State::CommentEndBang => or_comment(dash, State::CommentEndDash),
        State::TagName => leave(skipped, state),
        State::BeforeAttributeName => leave(skipped, State::AttributeName),
        State::AttributeName => behind_attribute_name(b),
        State::AfterAttributeName => behind_attribute_name(b),
        State::BeforeAttributeValue => behind_equals(b),
        State::AttributeValueDoubleQuoted => leave(b == b'"', state),
        State::AttributeValueSingleQuoted => leave(b == b'\'', state),
        State::AttributeValueUnquoted => leave(is_whitespace(b), state),
    }
}

// What is left behind bytes that leave the state as it is: runs of them are most of a page's markup.
fn pass_run(state: State, bytes: &[u8]) -> &[u8]
    ensures same { behind_markup state result.now ≡ behind_markup state bytes.now }
    ensures shorter { length result.now ≤ length bytes.now }
{
    match state {
        State::BogusComment => behind(End::At(b'>'), bytes),
        State::Comment => behind(End::At(b'-'), bytes),
        State::TagName => behind(End::TagName, bytes),
        State::AttributeName => behind(End::Name, bytes),
        State::AttributeValueDoubleQuoted => behind(End::At(b'"'), bytes),
        State::AttributeValueSingleQuoted => behind(End::At(b'\''), bytes),
        State::AttributeValueUnquoted => behind(End::Unquoted, bytes),
        _ => bytes,
    }
}

/// What is left behind the markup behind whose `<` the bytes stand; None where they end before it does.
pub fn behind_markup(bytes: &[u8]) -> Option<&[u8]>
    ensures { let rest = behind_markup TagOpen bytes.now in MatchOption result (rest ≡ None) (λ r. rest ≡ Some r.now) }
{
    let mut state = State::TagOpen;
    let mut rest = bytes;
    while let Some((b, more)) = pass_run(state, rest).split_first() {
        if is_last(state, *b) {
            return Some(more);
        }
        state = next_state(state, *b);
        rest = more;
    }
    None
}
