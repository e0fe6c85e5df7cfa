ghost use Rattle.std.specs.Prelude.{◌≡◌, not, ◌∷◌, [], OnOk};
ghost use Rattle.std.specs.FinMap.{get, remove};
ghost use Rattle.std.specs.List.{list_all};
ghost use Rattle.tree_spec.specs.FoldersAbove.{folders_from};
ghost use Rattle.tree_spec.specs.Paths.{IsPath};
ghost use Rattle.tree_spec.specs.Trees.{IsTree};
ghost use Rattle.tree_spec.specs.declared.Look.TheVariants.{File};
ghost use Rattle.package_lookup.specs.LaidTrees.{IsLaid};
ghost use Rattle.package_lookup.specs.Looked.{Puts};
ghost use Rattle.session_spec.specs.Edits as spec;
ghost use Rattle.session_spec.specs.Edits.{above, with_folders, put_file};
ghost use Rattle.session_spec.specs.EditLooks.{climbed};
ghost use Rattle.edit_session.specs.Making.{MakesTree};

use crate::looks::Looks;
use crate::standing::Standing;
use shared_types::{Bytes, Memory};
use std::alloc::Global;
use tree_model::{Folder, Look, Path};
use tree_spec::LookFault;

/// Lays a file at a path, and a folder at each path above it at which nothing stands; whether a file may stand there.
pub(crate) fn put<F: Folder>(
    alloc: Global,
    looks: &mut Looks,
    folder: &mut F,
    path: &Path,
    bytes: &Bytes,
) -> Result<bool, LookFault>
    ensures { MakesTree (λ tree seen left. IsLaid tree left (put_file seen path.now bytes.now)
        × IsTree (put_file seen path.now bytes.now)) (λ seen. spec.can_put (get seen) path.now)
        (λ seen. climbed (get seen) (folders_from path.now)) (F.state folder.old) looks.old.known looks.old.over result
        (F.state folder.new) looks.new.known looks.new.over }
{
    match can_put(alloc, looks, folder, path) {
        Err(fault) => Err(fault),
        Ok(false) => Ok(false),
        Ok(true) => match lay_file(alloc, looks, path, bytes) {
            Ok(()) => Ok(true),
            Err(_) => Err(LookFault::Memory),
        },
    }
}

fn lay_file(alloc: Global, looks: &mut Looks, path: &Path, bytes: &Bytes) -> Result<(), Memory>
    ensures puts { OnOk result (Puts looks.old.over path.now (File bytes.now) looks.new.over) }
    ensures known { looks.new.known ≡ looks.old.known }
{
    let bytes = Bytes::of(alloc, bytes.as_bytes())?;
    looks.set(alloc, path, Look::File(bytes))
}

// Whether a file may stand at a path; then there are folders above it.
fn can_put<F: Folder>(
    alloc: Global,
    looks: &mut Looks,
    folder: &mut F,
    path: &Path,
) -> Result<bool, LookFault>
    ensures { MakesTree (λ tree seen left. IsLaid tree left (with_folders seen (above path.now)) × IsPath path.now)
        (λ seen. spec.can_put (get seen) path.now) (λ seen. climbed (get seen) (folders_from path.now))
        (F.state folder.old) looks.old.known looks.old.over result (F.state folder.new) looks.new.known looks.new.over }
{
    match looks.standing_of(alloc, folder, path) {
        Err(fault) => Err(fault),
        Ok(Standing::Folder) => Ok(false),
        Ok(Standing::File) => Ok(true),
        Ok(Standing::Nothing) => match path.parent(alloc) {
            Err(_) => Err(LookFault::Memory),
            Ok(None) => Ok(true),
            Ok(Some(parent)) => make_folders(alloc, looks, folder, &parent),
        },
    }
}

// Lays folders at a path and above it, up to one that stands; whether no file stands there.
fn make_folders<F: Folder>(
    alloc: Global,
    looks: &mut Looks,
    folder: &mut F,
    at: &Path,
) -> Result<bool, LookFault>
    ensures { MakesTree (λ tree seen left. IsLaid tree left (with_folders seen (folders_from at.now)))
        (λ seen. list_all (λ above. not (spec.is_file (get seen above))) (folders_from at.now))
        (λ seen. climbed (get seen) (folders_from at.now))
        (F.state folder.old) looks.old.known looks.old.over result (F.state folder.new) looks.new.known looks.new.over }
{
    match looks.standing_of(alloc, folder, at) {
        Err(fault) => Err(fault),
        Ok(Standing::Folder) => Ok(true),
        Ok(Standing::File) => Ok(false),
        Ok(Standing::Nothing) => match at.parent(alloc) {
            Err(_) => Err(LookFault::Memory),
            Ok(None) => Ok(true),
            Ok(Some(parent)) => match make_folders(alloc, looks, folder, &parent) {
                Err(fault) => Err(fault),
                Ok(false) => Ok(false),
                Ok(true) => match looks.set(alloc, at, Look::Folder) {
                    Ok(()) => Ok(true),
                    Err(_) => Err(LookFault::Memory),
                },
            },
        },
    }
}

/// Lays over a file that nothing stands at its path; whether a file does.
pub(crate) fn drop_file<F: Folder>(
    alloc: Global,
    looks: &mut Looks,
    folder: &mut F,
    path: &Path,
) -> Result<bool, LookFault>
    ensures { MakesTree (λ tree seen left. IsLaid tree left (remove seen path.now) × IsTree (remove seen path.now))
        (λ seen. spec.is_file (get seen path.now)) (λ seen. path.now ∷ [])
        (F.state folder.old) looks.old.known looks.old.over result (F.state folder.new) looks.new.known looks.new.over }
{
    match looks.standing_of(alloc, folder, path) {
        Err(fault) => Err(fault),
        Ok(Standing::Nothing) => Ok(false),
        Ok(Standing::Folder) => Ok(false),
        Ok(Standing::File) => match looks.set(alloc, path, Look::Absent) {
            Ok(()) => Ok(true),
            Err(_) => Err(LookFault::Memory),
        },
    }
}
