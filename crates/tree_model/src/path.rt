ghost use Rattle.std.specs.Prelude.{◌≡◌, ◌≢◌, ◌++◌, ◌∷◌, ◌↔◌, List, ℕ, codes, All, IsTrue, IfOk, IsErrOf, MatchOption};
ghost use Rattle.tree_spec.specs.Paths.{IsSegment, IsPath, IsParent, joined};
ghost use Rattle.std.specs.String.{string_bytes};
ghost use Rattle.tree_model.specs.Below.{IsBelow};

use shared_types::{Memory, Text};
use std::alloc::Global;
use std::marker::Model;

/// The most bytes that the text of a path has.
const MOST_BYTES: usize = 1024;

/// The most segments that a path has.
const MOST_SEGMENTS: usize = 64;

/// Why a text gives no path.
#[derive(Clone, Copy, Debug, PartialEq, Eq)]
pub enum PathFault {
    /// The text isn't a path.
    BadPath,
    /// Want of memory.
    Memory,
}

impl From<Memory> for PathFault {
    ghost use Rattle.tree_model.specs.declared.path.PathFault.TheVariants.{Memory};

    ghost from_gives = { λ _ fault. fault ≡ Memory };

    fn from(_: Memory) -> Self {
        PathFault::Memory
    }
}

/// A path from the root of a tree: `/`, or segments that each follow a `/`.
#[derive(Debug, Drop, PartialOrd, Ord, Hash)]
pub struct Path {
    text: Text,
}

impl Model for Path {
    ghost use Rattle.std.specs.Prelude.{List, ℕ};
    ghost use Rattle.tree_spec.specs.Paths.{IsPath};

    ghost Value = { List ℕ };

    ghost view = { λ p. p.text };

    ghost invariant = { λ p. IsPath p.text };

    ghost inverse = { λ t. record { text = t } };
}

impl Path {
    /// The root.
    pub fn root(alloc: Global) -> Result<Path, Memory>
        ensures { IfOk result (λ path. path ≡ codes "/") }
    {
        let text = Text::of(alloc, "/")?;
        Ok(Path { text })
    }

    /// The path that a text spells.
    pub fn parse(alloc: Global, text: &str) -> Result<Path, PathFault>
        ensures path { IfOk result (λ path. (path ≡ text.now) × IsPath text.now) }
        ensures bad { IsErrOf result PathFault.BadPath ↔ (IsPath text.now → ⊥) }
    {
        if is_path(text) {
            let text = Text::of(alloc, text)?;
            Ok(Path { text })
        } else {
            Err(PathFault::BadPath)
        }
    }

    /// Lends the text.
    pub fn as_str(&self) -> &str
        ensures text { result.now ≡ self.now }
        ensures is_path { IsPath self.now }
    {
        self.text.as_str()
    }

    /// The text, which shares the memory of this path.
    pub fn to_text(&self, alloc: Global) -> Result<Text, Memory>
        ensures { IfOk result (λ text. text ≡ self.now) }
    {
        self.text.copy(alloc)
    }

    /// An equal path.
    pub fn copy(&self, alloc: Global) -> Result<Path, Memory>
        ensures same { IfOk result (λ copy. copy ≡ self.now) }
        ensures is_path { IsPath self.now }
    {
        Ok(Path {
            text: self.text.copy(alloc)?,
        })
    }

    /// The path without its last segment; the root has none.
    pub fn parent(&self, alloc: Global) -> Result<Option<Path>, Memory>
        ensures parent { IfOk result (λ found. MatchOption found (self.now ≡ codes "/")
            (λ parent. IsParent parent self.now)) }
        ensures is_path { IsPath self.now }
    {
        let text = self.text.as_str();
        if text == "/" {
            return Ok(None);
        }
        match last_part(text) {
            None => Ok(None),
            Some((front, _)) => {
                let parent = if front.is_empty() { "/" } else { front };
                let text = Text::of(alloc, parent)?;
                Ok(Some(Path { text }))
            }
        }
    }

    /// The path of what stands below this one under the text `rest`, where that is a path.
    pub fn join(&self, alloc: Global, rest: &str) -> Result<Option<Path>, Memory>
        ensures { IfOk result (λ found. MatchOption found (IsPath (joined self.now rest.now) → ⊥)
            (λ path. (path ≡ joined self.now rest.now) × IsPath (joined self.now rest.now))) }
    {
        if rest.len() > MOST_BYTES {
            return Ok(None);
        }
        let text = joined_text(alloc, self.text.as_str(), rest)?;
        if is_path(text.as_str()) {
            Ok(Some(Path {
                text: Text::from_string(alloc, text)?,
            }))
        } else {
            Ok(None)
        }
    }
}

impl PartialEq for Path {
    ghost use Rattle.std.specs.Prelude.{bytes_eq};
    ghost use Rattle.std.proofs.Common.{rules};
    ghost use Rattle.std.specs.Cmp.Rules.{comparing};

    ghost eq = { bytes_eq };

    ghost laws = { Prim.search (comparing, rules) };

    fn eq(&self, other: &Path) -> bool {
        self.as_str() == other.as_str()
    }
}

impl Eq for Path {
    ghost use Rattle.std.proofs.Common.{rules};
    ghost use Rattle.std.specs.Cmp.Rules.{comparing};

    ghost laws = { Prim.search (comparing, rules) };
}

/// The text of a path, a `/` where the path isn't the root, and `rest`.
fn joined_text(alloc: Global, path: &str, rest: &str) -> Result<String, Memory>
    ensures { IfOk result (λ text. string_bytes text ≡ joined path.now rest.now) }
{
    let mut text = String::new(alloc);
    if path != "/" {
        text.push_str(path)?;
    }
    text.push('/')?;
    text.push_str(rest)?;
    Ok(text)
}

/// Whether a text is a path.
fn is_path(text: &str) -> bool
    ensures { IsTrue result ↔ IsPath text.now }
{
    text.len() <= MOST_BYTES && (text == "/" || is_below(text, MOST_SEGMENTS))
}

/// Whether a text has one to `most` segments, each behind a `/`.
fn is_below(text: &str, most: usize) -> bool
    ensures { IsTrue result ↔ IsBelow most text.now }
{
    match last_part(text) {
        None => false,
        Some((front, name)) => {
            if !is_segment(name) {
                return false;
            }
            most > 0 && (front.is_empty() || is_below(front, most - 1))
        }
    }
}

/// Whether a text without a `/` is a segment.
fn is_segment(name: &str) -> bool
    requires { All (λ b. b ≢ 47) name.now }
    ensures { IsTrue result ↔ IsSegment name.now }
{
    match name {
        "" => false,
        "." => false,
        ".." => false,
        _ => !name.contains('\0'),
    }
}

/// What stands before and behind the last `/` of a text.
fn last_part(text: &str) -> Option<(&str, &str)>
    ensures { MatchOption result (All (λ b. b ≢ 47) text.now)
        (λ part. (text.now ≡ part.0.now ++ 47 ∷ part.1.now) × All (λ b. b ≢ 47) part.1.now) }
{
    match text.rfind('/') {
        None => None,
        Some(at) => Some((&text[..at], &text[at + 1..])),
    }
}
