//! The texts of digests, as the `integrity` part of an import map has them.
//!
//! Definitions and laws alone: each function here is empty, and its contract is a law.
#![tactic(auto)]

ghost use Rattle.integrity_spec.specs.Laws.{DigestsReadBack, TextsAreUtf8, TextsHave71Bytes};

/// The text of a digest has 71 bytes.
#[tactic(auto, using(crate::proofs::DigestTexts::texts_have_71_bytes))]
pub fn texts_have_71_bytes()
    ensures { TextsHave71Bytes }
{}

/// The text of a digest is UTF-8.
#[tactic(auto, using(crate::proofs::DigestTexts::texts_are_utf8))]
pub fn texts_are_utf8()
    ensures { TextsAreUtf8 }
{}

/// The digest is read back from its text.
#[tactic(auto, using(crate::proofs::DigestTexts::digests_read_back))]
pub fn digests_read_back()
    ensures { DigestsReadBack }
{}
