//! The texts of digests, by which an import map's `integrity` knows the bytes of a module.
#![tactic(auto)]

ghost use Rattle.std.specs.Prelude.{◌≡◌, IfOk};
ghost use Rattle.integrity_spec.specs.DigestTexts.{digest_text};

use base64::engine::general_purpose::STANDARD;
use sha2::{Digest, Sha384};
use shared_types::{Memory, Text};
use std::alloc::Global;
use std::str;

/// The text of the bytes' digest: `sha384-`, and the digest in Base64. It takes no memory.
#[tactic(auto, unfolding(integrity_spec::specs::DigestTexts::digest_text))]
pub fn digest_text(bytes: &[u8]) -> [u8; 71]
    ensures { result ≡ digest_text bytes.now }
{
    let digest = Sha384::digest(bytes);
    let mut text = *b"sha384-0000000000000000000000000000000000000000000000000000000000000000";
    drop(STANDARD.encode_slice(digest.as_slice(), &mut text[7..]));
    text
}

/// The same text, kept.
pub fn kept_digest(alloc: Global, bytes: &[u8]) -> Result<Text, Memory>
    ensures { IfOk result (λ text. text ≡ digest_text bytes.now) }
{
    match str::from_utf8(digest_text(bytes).as_slice()) {
        Ok(text) => Text::of(alloc, text),
        Err(_) => unreachable!(),
    }
}
