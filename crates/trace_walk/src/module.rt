ghost use Rattle.std.specs.Prelude.{◌≡◌, IfOk};

use shared_types::Memory;
use std::alloc::Global;
use std::hash::{Hash, Hasher};
use std::marker::Model;
use tree_model::Path;
use web_url::Suffix;

/// A module: a path with a suffix. Two suffixes of one path are two modules.
pub struct Module {
    path: Path,
    suffix: Suffix,
}

// Written out, as a function that drops a module at several exits is then proved sooner.
impl Drop for Module {
    fn drop(self) {
        let Module { path: _, suffix: _ } = self;
    }
}

impl Model for Module {
    ghost use Rattle.trace_spec.specs.Modules as spec;

    ghost Value = { spec.Module };

    ghost view = { λ m. record { path = m.path; suffix = m.suffix } };
}

impl Module {
    ghost use Rattle.trace_spec.specs.Modules as spec;

    pub fn new(path: Path, suffix: Suffix) -> Module
        ensures path { result.path ≡ path }
        ensures suffix { result.suffix ≡ suffix }
    {
        Module { path, suffix }
    }

    /// The path and the suffix, moved out.
    pub fn into_parts(self) -> (Path, Suffix)
        ensures path { result.0 ≡ self.path }
        ensures suffix { result.1 ≡ self.suffix }
    {
        let Module { path, suffix } = self;
        (path, suffix)
    }

    pub fn path(&self) -> &Path
        ensures { result.now ≡ self.now.path }
    {
        &self.path
    }

    pub fn suffix(&self) -> &Suffix
        ensures { result.now ≡ self.now.suffix }
    {
        &self.suffix
    }

    pub fn copy(&self, alloc: Global) -> Result<Module, Memory>
        ensures { IfOk result (λ copy. copy ≡ self.now) }
    {
        Ok(Module {
            path: self.path.copy(alloc)?,
            suffix: self.suffix.copy(alloc)?,
        })
    }
}

impl PartialEq for Module {
    ghost use Rattle.std.specs.Prelude.{bytes_eq};
    ghost use Rattle.std.specs.Ordering.{on, eq_of_both};
    ghost use Rattle.std.proofs.Common.{rules};
    ghost use Rattle.std.specs.Cmp.Rules.{comparing};

    ghost eq = { eq_of_both (on (λ m. m.path) bytes_eq) (on (λ m. m.suffix) bytes_eq) };

    ghost laws = { Prim.search (comparing, rules) };

    fn eq(&self, other: &Module) -> bool {
        self.path == other.path && self.suffix == other.suffix
    }
}

impl Eq for Module {
    ghost use Rattle.std.proofs.Common.{rules};
    ghost use Rattle.std.specs.Cmp.Rules.{comparing};

    ghost laws = { Prim.search (comparing, rules) };
}

impl Hash for Module {
    ghost use Rattle.std.proofs.Common.{rules};
    ghost use Rattle.std.specs.Cmp.Rules.{hashing};
    ghost use Rattle.std.specs.Hash as fed;
    ghost use Rattle.std.specs.Prelude.{◌++◌};

    ghost hash_input = { λ m. fed.str m.path ++ fed.str m.suffix };

    ghost respects_eq = { Prim.search (hashing, rules) };

    fn hash<H: Hasher>(&self, state: &mut H) {
        self.path.hash(state);
        self.suffix.hash(state);
    }
}
