ghost use Rattle.std.specs.Prelude.{OnOk};
ghost use Rattle.tree_spec.specs.Paths.{IsPath};
ghost use Rattle.workload.specs.Putting.{IsPut};

use shared_types::Memory;
use std::alloc::{AllocError, Global};
use tree_model::{Folder, MemFolder, Path, PathFault};

/// Writes a file. A write of this folder fails for want of memory alone.
pub(crate) fn put(
    alloc: Global,
    folder: &mut MemFolder,
    path: &str,
    text: &str,
) -> Result<(), Memory>
    requires { IsPath path.now }
    ensures { OnOk result (IsPut folder.old path.now text.now folder.new) }
{
    match Path::parse(alloc, path) {
        Ok(path) => write(folder, &path, text),
        Err(PathFault::Memory) => Err(AllocError),
        Err(PathFault::BadPath) => unreachable!(),
    }
}

fn write(folder: &mut MemFolder, path: &Path, text: &str) -> Result<(), Memory>
    requires { IsPath path.now }
    ensures { OnOk result (IsPut folder.old path.now text.now folder.new) }
{
    match folder.write(path, text.as_bytes()) {
        Ok(()) => Ok(()),
        Err(_) => Err(AllocError),
    }
}
