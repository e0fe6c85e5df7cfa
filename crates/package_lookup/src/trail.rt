ghost use Rattle.std.specs.Prelude.{◌≡◌, ◌≤◌, ◌||◌, ◌<◌, ◌+◌, ◌-◌, ◌++◌, ◌∷◌, [], ℕ, nat_lt, length, Option, Ok, true};
ghost use Rattle.std.specs.Prelude.{false, OnOk, OnErr, IfOk, bytes_eq};
ghost use Rattle.std.specs.Bool.{Decides};
ghost use Rattle.std.specs.List.{IsDistinct};
ghost use Rattle.tree_spec.specs.LookAskings.{is_seen, with_seen};
ghost use Rattle.tree_spec.specs.LookLimits.{begun, counted, look_limits, no_trail, seen_again, size_at};
ghost use Rattle.tree_spec.specs.declared.Entry.{Entry};
ghost use Rattle.package_lookup.specs.Space.{HasSpace};
ghost use Rattle.package_lookup.specs.Trails.{asked_again, has_room, passed, Lengthens, OnCount};

use crate::LookupFault;
use crate::question::Question;
use indexmap::IndexSet;
use shared_types::Memory;
use std::alloc::Global;
use std::marker::Model;
use std::rc::Rc;
use tree_model::{Path, Paths};
use tree_spec::{LimitName, MOST_BYTES, MOST_FILE_BYTES, MOST_LOOKS};

/// The distinct paths that one generation looked at, how many bytes the files among them have together, and the
/// distinct paths of the present question, which may be shared with what is kept of it.
#[derive(Drop)]
pub struct Trail {
    paths: IndexSet<Path>,
    size: u64,
    question: Question,
}

impl Model for Trail {
    ghost use Rattle.std.specs.Prelude.{◌≡◌};
    ghost use Rattle.tree_spec.specs.LookLimits as spec;

    ghost Value = { spec.Trail };

    ghost view = { λ trail. record { paths = trail.paths.keys; size = trail.size; question = trail.question } };
}

impl Trail {
    /// Nothing was looked at.
    pub fn new(alloc: Global) -> Trail
        ensures { result ≡ no_trail }
    {
        Trail {
            paths: IndexSet::new(alloc),
            size: 0,
            question: Question::new(alloc),
        }
    }

    /// Begins a question.
    pub fn begin(&mut self)
        ensures { self.new ≡ begun self.old }
    {
        self.question.clear();
    }

    /// Begins a question that asked all of these paths, each once.
    pub fn ask_again(&mut self, paths: Rc<Paths>)
        requires { IsDistinct bytes_eq paths.value }
        ensures { self.new ≡ asked_again self.old paths.value }
    {
        self.question.share(paths);
    }

    /// All paths at which was looked, in the order of first looks.
    pub fn paths(&self) -> &[Path]
        ensures { result.now ≡ self.now.paths }
    {
        self.paths.as_slice()
    }

    /// The paths at which the present question looked, in the order of first looks.
    pub fn question(&self) -> &Paths
        ensures question { result.now ≡ self.now.question }
        ensures distinct { IsDistinct bytes_eq result.now }
    {
        self.question.paths()
    }

    /// How many bytes more pass no limit.
    pub fn bytes_left(&self) -> u64
        ensures { result ≡ look_limits.bytes - self.now.size }
    {
        MOST_BYTES.saturating_sub(self.size)
    }

    /// Whether so many paths more, with so many bytes together, pass no limit.
    pub fn has_space(&self, looks: usize, bytes: u64) -> bool
        ensures { Decides result (HasSpace self.now looks bytes) }
    {
        let many = self.paths.len().saturating_add(looks);
        let heavy = self.size.saturating_add(bytes);
        many <= MOST_LOOKS && heavy <= MOST_BYTES
    }

    /// Counts a look at a path at which so many bytes stand, in no question. That it passes no limit is for the
    /// caller to see, by [`Trail::has_space`].
    pub fn pass(&mut self, alloc: Global, path: &Path, size: u64) -> Result<(), Memory>
        requires { self.old.size + size ≤ look_limits.bytes }
        ensures passes { OnOk result (self.new ≡ passed self.old path.now size) }
        ensures grows { Lengthens self.old self.new }
    {
        if !self.paths.contains(path) {
            let first = path.copy(alloc)?;
            self.add(first)?;
            self.size += size;
        }
        Ok(())
    }

    /// Whether a look at a path isn't one path too many.
    pub(crate) fn has_room(&self, path: &Path) -> bool
        ensures { result ≡ has_room self.now path.now }
    {
        self.paths.len() < MOST_LOOKS || self.paths.contains(path)
    }

    /// Counts a look at a path at which so many bytes stand.
    pub(crate) fn count(&mut self, alloc: Global, path: &Path, size: u64) -> Result<(), LookupFault>
        ensures counts { (found : Option Entry) → size_at found ≡ size
            → OnCount self.old (counted look_limits self.old path.now found) result self.new }
        ensures grows { Lengthens self.old self.new }
    {
        if self.paths.contains(path) {
            self.count_again(alloc, path, size)
        } else {
            self.count_first(alloc, path, size)
        }
    }

    fn count_again(&mut self, alloc: Global, path: &Path, size: u64) -> Result<(), LookupFault>
        requires { is_seen path.now self.old.paths ≡ true }
        ensures counts { (found : Option Entry) → size_at found ≡ size
            → OnCount self.old (counted look_limits self.old path.now found) result self.new }
        ensures grows { Lengthens self.old self.new }
    {
        if size > MOST_FILE_BYTES {
            return Err(limit(LimitName::File));
        }
        self.note(alloc, path)?;
        Ok(())
    }

    fn count_first(&mut self, alloc: Global, path: &Path, size: u64) -> Result<(), LookupFault>
        requires { is_seen path.now self.old.paths ≡ false }
        ensures counts { (found : Option Entry) → size_at found ≡ size
            → OnCount self.old (counted look_limits self.old path.now found) result self.new }
        ensures grows { Lengthens self.old self.new }
    {
        if self.paths.len() >= MOST_LOOKS {
            return Err(limit(LimitName::Looks));
        }
        if size > MOST_FILE_BYTES {
            return Err(limit(LimitName::File));
        }
        let sum = self.size.saturating_add(size);
        if sum > MOST_BYTES {
            return Err(limit(LimitName::Bytes));
        }
        self.note(alloc, path)?;
        self.add(path.copy(alloc)?)?;
        self.size = sum;
        Ok(())
    }

    // Puts a path that is new at the end of the paths.
    fn add(&mut self, path: Path) -> Result<(), Memory>
        requires { is_seen path self.old.paths ≡ false }
        ensures added { OnOk result (self.new ≡ record {
          paths = self.old.paths ++ path ∷ [];
          size = self.old.size;
          question = self.old.question;
        }) }
        ensures grows { Lengthens self.old self.new }
    {
        self.paths.insert(path)?;
        Ok(())
    }

    // Puts a path at the end of the question's, unless it is one of them.
    fn note(&mut self, alloc: Global, path: &Path) -> Result<(), Memory>
        ensures noted { OnOk result (self.new ≡ seen_again self.old path.now) }
        ensures grows { Lengthens self.old self.new }
    {
        self.question.note(alloc, path)
    }
}

fn limit(which: LimitName) -> LookupFault
    ensures { result ≡ LookupFault.Limit which }
{
    LookupFault::Limit { which }
}
