ghost use Rattle.std.specs.Prelude.{◌≡◌, ◌&&◌, ℕ, List, true, false, bytes_eq, IfOk, MatchOption};
ghost use Rattle.std.specs.Str.{is_utf8};
ghost use Rattle.url_spec.specs.PathTests.{is_path};
ghost use Rattle.session_spec.specs.declared.Change.TheVariants.{Link as Linking, Unlink as Unlinking};
ghost use Rattle.session_spec.specs.declared.Change.TheVariants.{Drop as Dropping};
ghost use Rattle.session_spec.specs.SessionLines.{changes, order_of, if_text, if_path, one_line, put_line, cut_last};
ghost use Rattle.session_input.specs.Lines.{is_entry, reading_of, word_reading, last_word_reading};

use crate::cuts::{behind_word, cut_last_space, number_of};
use shared_types::{Memory, Text};
use std::alloc::{AllocError, Global};
use tree_model::{Path, PathFault};

/// What a line says, without what comes behind it: the bytes of a file do.
#[derive(Drop)]
pub(crate) enum Line {
    Link { entry: Text },
    Unlink { entry: Text },
    /// The path of a file, and how many bytes it has.
    Put { path: Path, count: usize },
    Drop { path: Path },
    Begin,
    Commit,
    Map,
    End,
    Malformed,
}

/// How a line is read that stands there without its end.
#[tactic(auto, using(crate::proofs::LineLemmas::line_rules))]
pub(crate) fn line_of(alloc: Global, line: &[u8]) -> Result<Line, Memory>
    ensures { IfOk result (λ said. (behind : List ℕ) → order_of line.now behind ≡ reading_of said behind) }
{
    match behind_word(b"link ".as_slice(), line) {
        Some(text) => linking(alloc, text),
        None => match behind_word(b"unlink ".as_slice(), line) {
            Some(text) => unlinking(alloc, text),
            None => match behind_word(b"put ".as_slice(), line) {
                Some(text) => putting(alloc, text),
                None => match behind_word(b"drop ".as_slice(), line) {
                    Some(text) => dropping(alloc, text),
                    None => Ok(word_of(line)),
                },
            },
        },
    }
}

#[tactic(auto, using(crate::proofs::LineLemmas::line_rules))]
fn linking(alloc: Global, text: &[u8]) -> Result<Line, Memory>
    ensures { IfOk result (λ said. (behind : List ℕ)
        → if_text text.now (changes (Linking text.now)) behind ≡ reading_of said behind) }
{
    match entry_in(alloc, text)? {
        None => Ok(Line::Malformed),
        Some(entry) => Ok(Line::Link { entry }),
    }
}

#[tactic(auto, using(crate::proofs::LineLemmas::line_rules))]
fn unlinking(alloc: Global, text: &[u8]) -> Result<Line, Memory>
    ensures { IfOk result (λ said. (behind : List ℕ)
        → if_text text.now (changes (Unlinking text.now)) behind ≡ reading_of said behind) }
{
    match entry_in(alloc, text)? {
        None => Ok(Line::Malformed),
        Some(entry) => Ok(Line::Unlink { entry }),
    }
}

#[tactic(auto, using(crate::proofs::LineLemmas::line_rules))]
fn putting(alloc: Global, text: &[u8]) -> Result<Line, Memory>
    ensures { IfOk result (λ said. (behind : List ℕ)
        → put_line (cut_last 32 text.now) behind ≡ reading_of said behind) }
{
    match cut_last_space(text) {
        None => Ok(Line::Malformed),
        Some((front, digits)) => match number_of(digits) {
            None => Ok(Line::Malformed),
            Some(count) => match path_in(alloc, front)? {
                None => Ok(Line::Malformed),
                Some(path) => Ok(Line::Put { path, count }),
            },
        },
    }
}

#[tactic(auto, using(crate::proofs::LineLemmas::line_rules))]
fn dropping(alloc: Global, text: &[u8]) -> Result<Line, Memory>
    ensures { IfOk result (λ said. (behind : List ℕ)
        → if_path text.now (one_line (changes (Dropping text.now)) behind) ≡ reading_of said behind) }
{
    match path_in(alloc, text)? {
        None => Ok(Line::Malformed),
        Some(path) => Ok(Line::Drop { path }),
    }
}

#[tactic(auto, using(crate::proofs::LineLemmas::word_rules))]
fn word_of(line: &[u8]) -> Line
    ensures { (behind : List ℕ) → word_reading line.now behind ≡ reading_of result behind }
{
    if is_word(b"begin".as_slice(), line) {
        return Line::Begin;
    }
    if is_word(b"commit".as_slice(), line) {
        return Line::Commit;
    }
    last_word_of(line)
}

#[tactic(auto, using(crate::proofs::LineLemmas::word_rules))]
fn last_word_of(line: &[u8]) -> Line
    ensures { (behind : List ℕ) → last_word_reading line.now behind ≡ reading_of result behind }
{
    if is_word(b"map".as_slice(), line) {
        return Line::Map;
    }
    if is_word(b"end".as_slice(), line) {
        return Line::End;
    }
    Line::Malformed
}

fn is_word(word: &[u8], line: &[u8]) -> bool
    ensures { result ≡ bytes_eq word.now line.now }
{
    word == line
}

// The text of an entry, where the bytes are one.
fn entry_in(alloc: Global, bytes: &[u8]) -> Result<Option<Text>, Memory>
    ensures { IfOk result (λ found. MatchOption found (is_entry bytes.now ≡ false)
        (λ text. (is_entry bytes.now ≡ true) × (text ≡ bytes.now))) }
{
    if bytes.is_empty() {
        return Ok(None);
    }
    match str::from_utf8(bytes) {
        Err(_) => Ok(None),
        Ok(text) => Ok(Some(Text::of(alloc, text)?)),
    }
}

// The path that the bytes spell, where they do.
fn path_in(alloc: Global, bytes: &[u8]) -> Result<Option<Path>, Memory>
    ensures { IfOk result (λ found. MatchOption found ((is_utf8 bytes.now && is_path bytes.now) ≡ false)
        (λ path. ((is_utf8 bytes.now && is_path bytes.now) ≡ true) × (path ≡ bytes.now))) }
{
    match str::from_utf8(bytes) {
        Err(_) => Ok(None),
        Ok(text) => match Path::parse(alloc, text) {
            Ok(path) => Ok(Some(path)),
            Err(PathFault::BadPath) => Ok(None),
            Err(PathFault::Memory) => Err(AllocError),
        },
    }
}
