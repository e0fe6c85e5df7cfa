//! The text of a digest.

use integrity_digest::digest_text;
use row_texts::Said;

pub fn tell_digest(bytes: &[u8], said: &mut Said) {
    said.push_bytes(digest_text(bytes).as_slice());
}
