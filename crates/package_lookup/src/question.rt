ghost use Rattle.std.specs.Prelude.{◌≡◌, [], bytes_eq, IfOk, OnOk};
ghost use Rattle.std.specs.List.{IsDistinct};
ghost use Rattle.tree_spec.specs.LookAskings.{noted, with_seen};

use indexmap::IndexSet;
use shared_types::Memory;
use std::alloc::Global;
use std::marker::Model;
use std::rc::Rc;
use tree_model::{Path, Paths};

/// The distinct paths of a question, in the order of first looks. They are shared with what is kept of it, until a
/// further path is noted.
#[derive(Drop)]
pub(crate) struct Question {
    own: Noted,
    shared: Option<Rc<Paths>>,
}

impl Model for Question {
    ghost use Rattle.std.specs.Prelude.{ℕ, List};
    ghost use Rattle.package_lookup.specs.SharedPaths.{shared_or, AreDistinct};

    ghost Value = { List (List ℕ) };

    ghost view = { λ q. shared_or q.own q.shared };

    ghost invariant = { λ q. AreDistinct q.shared };
}

impl Question {
    /// No path.
    pub(crate) fn new(alloc: Global) -> Question
        ensures { result ≡ [] }
    {
        Question {
            own: Noted::new(alloc),
            shared: None,
        }
    }

    /// Leaves no path.
    pub(crate) fn clear(&mut self)
        ensures { self.new ≡ [] }
    {
        self.shared = None;
        self.own.clear();
    }

    /// The paths.
    pub(crate) fn paths(&self) -> &Paths
        ensures paths { result.now ≡ self.now }
        ensures distinct { IsDistinct bytes_eq result.now }
    {
        match &self.shared {
            None => self.own.paths(),
            Some(paths) => paths,
        }
    }

    /// Puts these in the place of all.
    pub(crate) fn share(&mut self, paths: Rc<Paths>)
        requires { IsDistinct bytes_eq paths.value }
        ensures { self.new ≡ paths.value }
    {
        self.own.clear();
        self.shared = Some(paths);
    }

    /// Puts a path at the end, unless it is one of them.
    pub(crate) fn note(&mut self, alloc: Global, path: &Path) -> Result<(), Memory>
        ensures { OnOk result (self.new ≡ with_seen self.old path.now) }
    {
        match self.shared.take() {
            None => self.own.note(alloc, path),
            Some(paths) => {
                self.own = Noted::of(alloc, paths.as_slice())?;
                self.own.note(alloc, path)
            }
        }
    }
}

// Distinct paths in the order in which they were noted.
#[derive(Drop)]
struct Noted {
    alloc: Global,
    paths: Paths,
    set: IndexSet<Path>,
}

impl Model for Noted {
    ghost use Rattle.std.specs.Prelude.{◌≡◌, ℕ, List, bytes_eq};
    ghost use Rattle.std.specs.List.{IsDistinct};

    ghost Value = { List (List ℕ) };

    ghost view = { λ noted. noted.paths };

    ghost invariant = { λ noted. (noted.set.keys ≡ noted.paths) × IsDistinct bytes_eq noted.paths };
}

impl Noted {
    fn new(alloc: Global) -> Noted
        ensures { result ≡ [] }
    {
        Noted {
            alloc,
            paths: Paths::new(alloc),
            set: IndexSet::new(alloc),
        }
    }

    // These paths, each once.
    fn of(alloc: Global, paths: &[Path]) -> Result<Noted, Memory>
        ensures { IfOk result (λ own. own ≡ noted [] paths.now) }
    {
        let mut own = Noted::new(alloc);
        let mut rest = paths;
        while let Some((path, others)) = rest.split_first() {
            own.note(alloc, path)?;
            rest = others;
        }
        Ok(own)
    }

    fn clear(&mut self)
        ensures { self.new ≡ [] }
    {
        if !self.paths.is_empty() {
            self.paths = Paths::new(self.alloc);
            self.set.clear();
        }
    }

    fn paths(&self) -> &Paths
        ensures paths { result.now ≡ self.now }
        ensures distinct { IsDistinct bytes_eq result.now }
    {
        &self.paths
    }

    // Puts a path at the end, unless it is one of them.
    fn note(&mut self, alloc: Global, path: &Path) -> Result<(), Memory>
        ensures { OnOk result (self.new ≡ with_seen self.old path.now) }
    {
        if self.set.contains(path) {
            return Ok(());
        }
        let first = path.copy(alloc)?;
        let second = path.copy(alloc)?;
        self.set.reserve(1)?;
        self.paths.push(first)?;
        self.set.insert(second)?;
        Ok(())
    }
}
