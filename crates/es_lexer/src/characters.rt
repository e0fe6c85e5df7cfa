ghost use Rattle.std.specs.Prelude.{◌≡◌, ◌<◌, slice_index, drop};
ghost use Rattle.module_spec.specs.Characters.{character_size, code_point, is_space_separator, is_ascii_space};
ghost use Rattle.module_spec.specs.Characters.{is_wide_line_end, is_wide_space, begins_line_end, space_size};

use unicode::properties::GeneralCategory;

pub fn character_size(first: u8) -> usize
    ensures { result ≡ character_size first }
{
    if first < 128 {
        1
    } else if first < 224 {
        2
    } else if first < 240 {
        3
    } else {
        4
    }
}

fn byte_at(bytes: &[u8], index: usize) -> u32
    ensures value { result ≡ slice_index bytes.now index }
    ensures small { result < 256 }
{
    match bytes.get(index) {
        Some(b) => u32::from(*b),
        None => 0,
    }
}

// Called past ASCII alone, where a character has two bytes at least.
fn code_point(bytes: &[u8]) -> u32
    ensures { result ≡ code_point bytes.now }
{
    let Some((first, rest)) = bytes.split_first() else {
        return 0;
    };
    let lead = u32::from(*first);
    let second = byte_at(rest, 0) % 64;
    let third = byte_at(rest, 1) % 64;
    if lead < 128 {
        lead
    } else if lead < 224 {
        lead % 32 * 64 + second
    } else if lead < 240 {
        lead % 16 * 4096 + second * 64 + third
    } else {
        lead % 8 * 262_144 + second * 4096 + third * 64 + byte_at(rest, 2) % 64
    }
}

#[tactic(auto, unfolding(module_spec::specs::Characters::is_space_separator))]
fn is_space_separator(code: u32) -> bool
    ensures { result ≡ is_space_separator code }
{
    match char::from_u32(code) {
        None => false,
        Some(c) => GeneralCategory::for_char(c) == GeneralCategory::SpaceSeparator,
    }
}

fn is_wide_line_end(code: u32) -> bool
    ensures { result ≡ is_wide_line_end code }
{
    code == 0x2028 || code == 0x2029
}

// What stands past ASCII as white space or as a line end.
fn is_wide_space(code: u32) -> bool
    ensures { result ≡ is_wide_space code }
{
    code == 0xFEFF || is_wide_line_end(code) || is_space_separator(code)
}

/// Whether white space or a line end past ASCII stands at the front.
pub fn begins_wide_space(bytes: &[u8]) -> bool
    ensures { result ≡ is_wide_space (code_point bytes.now) }
{
    is_wide_space(code_point(bytes))
}

/// Whether a line end stands at the front.
pub fn begins_line_end(bytes: &[u8]) -> bool
    ensures { result ≡ begins_line_end bytes.now }
{
    match bytes.split_first() {
        None => false,
        Some((first, _)) => {
            if *first < 128 {
                *first == b'\n' || *first == b'\r'
            } else {
                is_wide_line_end(code_point(bytes))
            }
        }
    }
}

/// Whether a byte is white space or a line end.
pub fn is_ascii_space(b: u8) -> bool
    ensures { result ≡ is_ascii_space b }
{
    b == b' ' || b == b'\t' || b == b'\n' || b == b'\r' || b == 11 || b == 12
}

/// How many bytes of white space or of a line end stand at the front.
pub fn space_size(bytes: &[u8]) -> usize
    ensures { result ≡ space_size bytes.now }
{
    match bytes.split_first() {
        None => 0,
        Some((first, _)) => {
            if *first < 128 {
                if is_ascii_space(*first) { 1 } else { 0 }
            } else if begins_wide_space(bytes) {
                character_size(*first)
            } else {
                0
            }
        }
    }
}

/// The bytes behind so many of them, or none where there are fewer.
pub fn behind(bytes: &[u8], size: usize) -> &[u8]
    ensures { result.now ≡ drop size bytes.now }
{
    bytes.get(size..).unwrap_or(b"".as_slice())
}
