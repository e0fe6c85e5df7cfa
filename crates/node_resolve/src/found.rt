ghost use Rattle.std.specs.Prelude.{◌≡◌, IfOk};
ghost use Rattle.node_resolve.specs.Places.{module_of};

use crate::resolved_module::ResolvedModule;
use shared_types::Memory;
use std::alloc::Global;
use tree_model::{Path, Paths};
use web_url::Suffix;

/// The module that a specifier gives. `resolve` alone makes one from a specifier.
#[derive(Drop)]
pub struct Found {
    pub(crate) path: Path,
    pub(crate) suffix: Suffix,
    pub(crate) footprint: Paths,
}

impl Found {
    /// The path of the module's file.
    pub fn path(&self) -> &Path
        ensures { result.now ≡ self.now.path }
    {
        &self.path
    }

    /// The query and fragment of its URL.
    pub fn suffix(&self) -> &Suffix
        ensures { result.now ≡ self.now.suffix }
    {
        &self.suffix
    }

    /// The paths at which the resolution looked, in the order of first looks.
    pub fn footprint(&self) -> &Paths
        ensures { result.now ≡ self.now.footprint }
    {
        &self.footprint
    }

    /// The module, as an answer.
    pub fn into_module(self) -> ResolvedModule
        ensures { result ≡ module_of self }
    {
        ResolvedModule {
            path: self.path,
            suffix: self.suffix,
        }
    }

    /// The module, as an answer that shares its memory.
    pub fn module(&self, alloc: Global) -> Result<ResolvedModule, Memory>
        ensures { IfOk result (λ resolved. resolved ≡ module_of self.now) }
    {
        Ok(ResolvedModule {
            path: self.path.copy(alloc)?,
            suffix: self.suffix.copy(alloc)?,
        })
    }

    /// An equal one.
    pub fn copy(&self, alloc: Global) -> Result<Found, Memory>
        ensures { IfOk result (λ copy. copy ≡ self.now) }
    {
        Ok(Found {
            path: self.path.copy(alloc)?,
            suffix: self.suffix.copy(alloc)?,
            footprint: copy_paths(alloc, &self.footprint)?,
        })
    }
}

/// A list of equal paths.
pub(crate) fn copy_paths(alloc: Global, paths: &Paths) -> Result<Paths, Memory>
    ensures { IfOk result (λ copy. copy ≡ paths.now) }
{
    let mut copy = Paths::new(alloc);
    for path in paths.as_slice() {
        copy.push(path.copy(alloc)?)?;
    }
    Ok(copy)
}
