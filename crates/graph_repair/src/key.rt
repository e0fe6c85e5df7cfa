use module_graph::ModuleView;
use shared_types::Memory;
use std::alloc::Global;
use std::hash::{Hash, Hasher};
use std::marker::Model;
use tree_model::Path;
use web_url::Suffix;

/// The path and the suffix of a module.
#[derive(Drop)]
pub(crate) struct ModuleKey {
    path: Path,
    suffix: Suffix,
}

impl Model for ModuleKey {
    ghost use Rattle.trace_spec.specs.Modules.{Module};

    ghost Value = { Module };

    ghost view = { λ k. record { path = k.path; suffix = k.suffix } };
}

impl ModuleKey {
    ghost use Rattle.std.specs.Prelude.{◌≡◌, IfOk};
    ghost use Rattle.trace_graph.specs.Links.{module_of};

    /// Those of a module, which share its memory.
    pub(crate) fn of(alloc: Global, module: &ModuleView<'_>) -> Result<ModuleKey, Memory>
        ensures { IfOk result (λ key. key ≡ module_of module.now) }
    {
        Ok(ModuleKey {
            path: module.path().copy(alloc)?,
            suffix: module.as_suffix().copy(alloc)?,
        })
    }
}

impl PartialEq for ModuleKey {
    ghost use Rattle.std.specs.Prelude.{bytes_eq};
    ghost use Rattle.std.specs.Ordering.{on, eq_of_both};
    ghost use Rattle.std.proofs.Common.{rules};
    ghost use Rattle.std.specs.Cmp.Rules.{comparing};

    ghost eq = { eq_of_both (on (λ m. m.path) bytes_eq) (on (λ m. m.suffix) bytes_eq) };

    ghost laws = { Prim.search (comparing, rules) };

    fn eq(&self, other: &ModuleKey) -> bool {
        self.path == other.path && self.suffix == other.suffix
    }
}

impl Eq for ModuleKey {
    ghost use Rattle.std.proofs.Common.{rules};
    ghost use Rattle.std.specs.Cmp.Rules.{comparing};

    ghost laws = { Prim.search (comparing, rules) };
}

impl Hash for ModuleKey {
    ghost use Rattle.std.proofs.Common.{rules};
    ghost use Rattle.std.specs.Cmp.Rules.{hashing};
    ghost use Rattle.std.specs.Hash as fed;
    ghost use Rattle.std.specs.Prelude.{◌++◌};

    ghost hash_input = { λ m. fed.str m.path ++ fed.str m.suffix };

    ghost respects_eq = { Prim.search (hashing, rules) };

    fn hash<H: Hasher>(&self, state: &mut H) {
        self.path.hash(state);
        self.suffix.hash(state);
    }
}
