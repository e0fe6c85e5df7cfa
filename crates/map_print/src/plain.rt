//! Texts of ordinary names, below an ordinary folder: of these no URL has to be parsed.
ghost use Rattle.std.specs.Prelude.{◌≡◌, ◌&&◌, ◌==◌, ◌∷◌, if◌then◌else◌, true, IsTrue, codes};
ghost use Rattle.std.specs.List.{list_all, list_any};
ghost use Rattle.map_print.specs.PlainRests as definition;
ghost use Rattle.map_print.specs.PlainRests.{ArePlain, HasPlainSegments};

/// Whether a folder and the name of a page in it are ordinary.
pub(crate) fn is_plain_page(folder: &[u8], name: &[u8]) -> bool
    ensures { IsTrue result → ArePlain folder.now name.now }
{
    is_plain_folder(folder) && is_plain_rest(name) && !name.contains(&b'/')
}

fn is_plain_folder(text: &[u8]) -> bool
    ensures { result ≡ definition.is_plain_folder text.now }
{
    is_below(text, b"https://".as_slice()) || is_below(text, b"http://".as_slice())
}

fn is_below(text: &[u8], start: &[u8]) -> bool
    ensures { result ≡ definition.is_below start.now text.now }
{
    text.starts_with(start) && is_host_and_folders(&text[start.len()..])
}

fn is_host_and_folders(text: &[u8]) -> bool
    ensures { result ≡ definition.is_host_and_folders text.now }
{
    !text.starts_with(b"/".as_slice()) && text.ends_with(b"/".as_slice()) && has_path_bytes(text)
}

fn has_path_bytes(text: &[u8]) -> bool
    ensures { result ≡ list_all definition.is_path_byte text.now }
{
    let mut rest = text;
    while let Some((first, more)) = rest.split_first() {
        if !is_path_byte(*first) {
            return false;
        }
        rest = more;
    }
    true
}

/// Whether a text has ordinary names alone.
pub(crate) fn is_plain_rest(text: &[u8]) -> bool
    ensures { IsTrue result → definition.is_plain_rest text.now ≡ true }
{
    begins_segment(text) && has_plain_segments(text)
}

fn has_plain_segments(text: &[u8]) -> bool
    ensures { IsTrue result → HasPlainSegments text.now }
{
    let mut rest = text;
    while let Some((first, more)) = rest.split_first() {
        if !goes_well(*first, more) {
            return false;
        }
        rest = more;
    }
    true
}

fn goes_well(first: u8, more: &[u8]) -> bool
    ensures { result ≡ (definition.is_path_byte first
        && (if first == 47 then definition.begins_segment more.now else true)) }
{
    is_path_byte(first) && (first != b'/' || begins_segment(more))
}

fn begins_segment(text: &[u8]) -> bool
    ensures { result ≡ definition.begins_segment text.now }
{
    match text.split_first() {
        None => true,
        Some((first, more)) => begins_with(*first, more),
    }
}

fn begins_with(first: u8, more: &[u8]) -> bool
    ensures { result ≡ definition.begins_segment (first ∷ more.now) }
{
    if first == b'.' || first == b'%' {
        goes_on(more)
    } else {
        true
    }
}

fn goes_on(text: &[u8]) -> bool
    ensures { result ≡ definition.goes_on text.now }
{
    match text.split_first() {
        None => false,
        Some((first, _)) => is_no_dot(*first),
    }
}

fn is_no_dot(byte: u8) -> bool
    ensures { result ≡ definition.is_no_dot byte }
{
    !(byte == b'.' || byte == b'%' || byte == b'/' || byte == b'2')
}

fn is_path_byte(byte: u8) -> bool
    ensures { result ≡ definition.is_path_byte byte }
{
    byte.is_ascii_alphanumeric() || is_mark(byte) || byte == b'%'
}

fn is_mark(byte: u8) -> bool
    ensures { result ≡ list_any (λ mark. mark == byte) (codes "/-._~!$&'()+,;=:@") }
{
    b"/-._~!$&'()+,;=:@".as_slice().contains(&byte)
}
