ghost use Rattle.std.specs.Prelude.{◌≡◌, IsFalse, not, ◌==◌, ◌||◌, ◌&&◌, false, [], ◌∷◌, None, Some, length, codes};
ghost use Rattle.std.specs.Prelude.{bytes_eq, option_map};
ghost use Rattle.std.specs.Char.{is_ascii_alphabetic, is_ascii_whitespace, to_ascii_lowercase};
ghost use Rattle.page_spec.specs.Attributes.{skip_whitespace};
ghost use Rattle.page_spec.specs.Pieces.{ends_name, tag_name, is_name, name_of, raw_element, closes};

use page_spec::RawElement;

pub fn is_whitespace(b: u8) -> bool
    ensures { result ≡ is_ascii_whitespace b }
{
    b.is_ascii_whitespace()
}

/// The bytes from the first one on that isn't white space.
pub fn skip_whitespace(bytes: &[u8]) -> &[u8]
    ensures { result.now ≡ skip_whitespace bytes.now }
{
    let mut rest = bytes;
    while let Some((b, more)) = rest.split_first() {
        if !is_whitespace(*b) {
            return rest;
        }
        rest = more;
    }
    rest
}

pub fn is_letter(b: u8) -> bool
    ensures { result ≡ is_ascii_alphabetic b }
{
    b.is_ascii_alphabetic()
}

/// Whether a tag name ends before the byte.
pub fn ends_name(b: u8) -> bool
    ensures { result ≡ ends_name b }
{
    is_whitespace(b) || b == b'/' || b == b'>'
}

// Whether the first bytes are the same, but for ASCII case. It costs less than the whole names.
#[tactic(auto, using(crate::proofs::Letters::other_name))]
fn may_be_named(wanted: &[u8], bytes: &[u8]) -> bool
    ensures { IsFalse result → is_name wanted.now (tag_name bytes.now) ≡ false }
{
    match wanted.split_first() {
        None => true,
        Some((w, _)) => match bytes.split_first() {
            None => false,
            Some((b, _)) => b.to_ascii_lowercase() == *w,
        },
    }
}

fn is_whole_name(wanted: &[u8], bytes: &[u8]) -> bool
    ensures { result ≡ is_name wanted.now (tag_name bytes.now) }
{
    let mut left = wanted;
    let mut rest = bytes;
    while let Some((b, more)) = rest.split_first() {
        if ends_name(*b) {
            return left.is_empty();
        }
        match left.split_first() {
            None => return false,
            Some((w, after)) => {
                if b.to_ascii_lowercase() != *w {
                    return false;
                }
                left = after;
            }
        }
        rest = more;
    }
    false
}

/// Whether a whole tag name stands at the front, and is the wanted one, which is in lower case.
pub fn is_named(wanted: &[u8], bytes: &[u8]) -> bool
    ensures { result ≡ is_name wanted.now (tag_name bytes.now) }
{
    may_be_named(wanted, bytes) && is_whole_name(wanted, bytes)
}

fn name_of(element: RawElement) -> &'static [u8]
    ensures { result.now ≡ name_of element }
{
    match element {
        RawElement::Script => b"script".as_slice(),
        RawElement::Style => b"style".as_slice(),
        RawElement::Title => b"title".as_slice(),
        RawElement::Textarea => b"textarea".as_slice(),
        RawElement::Iframe => b"iframe".as_slice(),
        RawElement::Noembed => b"noembed".as_slice(),
        RawElement::Noframes => b"noframes".as_slice(),
        RawElement::Noscript => b"noscript".as_slice(),
        RawElement::Xmp => b"xmp".as_slice(),
    }
}

/// The element whose start tag has the name at the front, where it is one with raw text.
pub fn raw_element(bytes: &[u8]) -> Option<RawElement>
    ensures { result ≡ raw_element (tag_name bytes.now) }
{
    if is_named(name_of(RawElement::Script), bytes) {
        Some(RawElement::Script)
    } else if is_named(name_of(RawElement::Style), bytes) {
        Some(RawElement::Style)
    } else if is_named(name_of(RawElement::Title), bytes) {
        Some(RawElement::Title)
    } else if is_named(name_of(RawElement::Textarea), bytes) {
        Some(RawElement::Textarea)
    } else if is_named(name_of(RawElement::Iframe), bytes) {
        Some(RawElement::Iframe)
    } else if is_named(name_of(RawElement::Noembed), bytes) {
        Some(RawElement::Noembed)
    } else if is_named(name_of(RawElement::Noframes), bytes) {
        Some(RawElement::Noframes)
    } else if is_named(name_of(RawElement::Noscript), bytes) {
        Some(RawElement::Noscript)
    } else if is_named(name_of(RawElement::Xmp), bytes) {
        Some(RawElement::Xmp)
    } else {
        None
    }
}

/// Whether the element's end tag begins at the front.
pub fn closes(element: RawElement, bytes: &[u8]) -> bool
    ensures { result ≡ closes element bytes.now }
{
    match bytes.split_first() {
        None => false,
        Some((b, more)) => match more.split_first() {
            None => false,
            Some((c, rest)) => *b == b'<' && *c == b'/' && is_named(name_of(element), rest),
        },
    }
}
