ghost use Rattle.std.specs.Prelude.{◌≡◌, ◌==◌, List, [], ℕ, length, IfOk, slice_get, option_copied};

use crate::Memory;
use crate::short::Short;
use std::alloc::Global;
use std::cmp::Ordering;
use std::fmt;
use std::hash::{Hash, Hasher};
use std::marker::Model;
use std::rc::Rc;

// So a JSON value, which has its kind beside a text, takes 24 bytes.
const _: () = prove!(size_of::<Text>() == 16);

/// A text that is kept: a contract sees it as the list of its UTF-8 bytes.
///
/// A text of at most 14 bytes lies in its value and takes no memory of its own. A longer one lies in memory that it
/// shares with its copies.
#[derive(Drop)]
pub struct Text {
    kept: Kept,
}

#[derive(Drop)]
enum Kept {
    Short(Short),
    Long(Rc<String>),
}

impl Model for Text {
    ghost use Rattle.std.specs.Prelude.{List, ℕ};
    ghost use Rattle.shared_types.specs.Kept.{kept_bytes};

    ghost Value = { List ℕ };

    ghost view = { λ t. kept_bytes t.kept };
}

impl Text {
    ghost use Rattle.std.specs.String.{string_bytes};

    /// The empty text, which takes no memory.
    pub fn new(_alloc: Global) -> Text
        ensures { result ≡ [] }
    {
        Text {
            kept: Kept::Short(Short::empty()),
        }
    }

    /// A copy of a text.
    #[inline]
    pub fn of(alloc: Global, text: &str) -> Result<Text, Memory>
        ensures { IfOk result (λ copy. copy ≡ text.now) }
    {
        let kept = match Short::of(text) {
            Some(short) => Kept::Short(short),
            None => Kept::Long(Rc::new(alloc, String::from_str(alloc, text)?)?),
        };
        Ok(Text { kept })
    }

    /// The text of a `String`, which is moved where it is long.
    pub fn from_string(alloc: Global, text: String) -> Result<Text, Memory>
        ensures { IfOk result (λ kept. kept ≡ string_bytes text) }
    {
        let kept = match Short::of(text.as_str()) {
            Some(short) => Kept::Short(short),
            None => Kept::Long(Rc::new(alloc, text)?),
        };
        Ok(Text { kept })
    }

    /// An equal text. A long one shares the memory of this one, a short one takes none.
    pub fn copy(&self, _alloc: Global) -> Result<Text, Memory>
        ensures { IfOk result (λ copy. copy ≡ self.now) }
    {
        let kept = match &self.kept {
            Kept::Short(text) => Kept::Short(text.copy()),
            Kept::Long(text) => Kept::Long(text.clone()?),
        };
        Ok(Text { kept })
    }

    /// Lends the text.
    pub fn as_str(&self) -> &str
        ensures { result.now ≡ self.now }
    {
        match &self.kept {
            Kept::Short(text) => text.as_str(),
            Kept::Long(text) => text.as_str(),
        }
    }

    /// The number of bytes.
    pub fn len(&self) -> usize
        ensures { result ≡ length self.now }
    {
        self.as_str().len()
    }

    /// Whether there is no byte.
    pub fn is_empty(&self) -> bool
        ensures { result ≡ (length self.now == 0) }
    {
        self.as_str().is_empty()
    }

    /// The byte with this number, counted from 0.
    pub fn at(&self, index: usize) -> Option<&u8>
        ensures { option_copied result ≡ slice_get self.now index }
    {
        self.as_str().as_bytes().get(index)
    }
}

impl fmt::Debug for Text {
    fn fmt<W: fmt::Write>(&self, f: &mut fmt::Formatter<W>) -> fmt::Result {
        fmt::Debug::fmt(self.as_str(), f)
    }
}

impl PartialEq for Text {
    ghost use Rattle.std.specs.Prelude.{bytes_eq};
    ghost use Rattle.std.proofs.Common.{rules};
    ghost use Rattle.std.specs.Cmp.Rules.{comparing};

    ghost eq = { bytes_eq };

    ghost laws = { Prim.search (comparing, rules) };

    fn eq(&self, other: &Text) -> bool {
        self.as_str() == other.as_str()
    }
}

impl Eq for Text {
    ghost use Rattle.std.proofs.Common.{rules};
    ghost use Rattle.std.specs.Cmp.Rules.{comparing};

    ghost laws = { Prim.search (comparing, rules) };
}

impl Hash for Text {
    ghost use Rattle.std.proofs.Common.{rules};
    ghost use Rattle.std.specs.Cmp.Rules.{hashing};
    ghost use Rattle.std.specs.Hash as fed;

    ghost hash_input = { fed.str };

    ghost respects_eq = { Prim.search (hashing, rules) };

    fn hash<H: Hasher>(&self, state: &mut H) {
        self.as_str().hash(state);
    }
}

impl Ord for Text {
    ghost use Rattle.std.specs.Ordering.{nat_cmp};
    ghost use Rattle.std.specs.Cmp.Lexicographic.{slice_cmp};
    ghost use Rattle.std.proofs.Common.{rules};
    ghost use Rattle.std.specs.Cmp.Rules.{comparing};

    ghost cmp = { slice_cmp nat_cmp };

    ghost total = { Prim.search (comparing, rules) };

    ghost matches_partial_cmp = { Prim.search (comparing, rules) };

    ghost matches_eq = { Prim.search (comparing, rules) };

    fn cmp(&self, other: &Text) -> Ordering {
        self.as_str().cmp(other.as_str())
    }
}

impl PartialOrd for Text {
    ghost use Rattle.std.specs.Ordering.{nat_cmp};
    ghost use Rattle.std.specs.Ordering.{as_partial_cmp};
    ghost use Rattle.std.specs.Cmp.Lexicographic.{slice_cmp};
    ghost use Rattle.std.proofs.Common.{rules};
    ghost use Rattle.std.specs.Cmp.Rules.{comparing};
    ghost use Rattle.std.specs.Cmp.{partial_order_from_own_ties};

    ghost partial_cmp = { as_partial_cmp (slice_cmp nat_cmp) };

    ghost laws = { partial_order_from_own_ties (Prim.search (comparing, rules)) (Prim.search (comparing, rules)) };

    fn partial_cmp(&self, other: &Text) -> Option<Ordering> {
        Some(self.cmp(other))
    }
}
