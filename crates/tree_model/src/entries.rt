ghost use Rattle.std.specs.Prelude.{◌≡◌, Option, None, option_copied, IfOk, OnOk, OnErr};
ghost use Rattle.std.specs.FinMap.{get, insert, remove};
ghost use Rattle.tree_spec.specs.Paths.{IsPath};
ghost use Rattle.tree_spec.specs.Trees.{IsTree, bare_tree};
ghost use Rattle.tree_spec.specs.Looks.{IsLook};
ghost use Rattle.tree_model.specs.Entries.{tree_of, IsSettled, IsPlaced, IsPutNew, IsPutFile};

use crate::Path;
use shared_types::{Bytes, Memory};
use std::alloc::Global;
use std::collections::HashMap;
use tree_spec::{Entry, Look};

/// The entries of a folder in memory.
pub(crate) type Entries = HashMap<Path, Entry>;

/// The root alone.
pub(crate) fn start(alloc: Global) -> Result<Entries, Memory>
    ensures root { IfOk result (λ entries. tree_of entries ≡ bare_tree) }
    ensures tree { IfOk result (λ entries. IsTree (tree_of entries)) }
{
    let mut entries = HashMap::new(alloc);
    entries.insert(Path::root(alloc)?, Entry::Directory)?;
    Ok(entries)
}

/// What stands at a path.
pub(crate) fn entry_at<'a>(entries: &'a Entries, path: &Path) -> Option<&'a Entry>
    ensures { option_copied result ≡ get (tree_of entries.now) path.now }
{
    entries.get(path)
}

/// What a look at a path answers.
pub(crate) fn look_in(
    alloc: Global,
    entries: &Entries,
    path: &Path,
    limit: u64,
) -> Result<Look, Memory>
    ensures { IfOk result (λ look. IsLook (tree_of entries.now) path.now limit look) }
{
    match entry_at(entries, path) {
        None => Ok(Look::Absent),
        Some(Entry::Directory) => Ok(Look::Folder),
        Some(Entry::Stored(bytes)) => {
            if bytes.len() as u64 > limit {
                Ok(Look::TooLarge)
            } else {
                Ok(Look::File(Bytes::of(alloc, bytes.as_bytes())?))
            }
        }
    }
}

/// Puts an entry at a path, in the place of one that is there.
fn put_at(alloc: Global, entries: &mut Entries, path: &Path, entry: Entry) -> Result<(), Memory>
    ensures put { OnOk result (tree_of entries.new ≡ insert (tree_of entries.old) path.now entry) }
    ensures same { OnErr result (tree_of entries.new ≡ tree_of entries.old) }
    ensures is_path { OnOk result (IsPath path.now) }
{
    let key = path.copy(alloc)?;
    entries.insert(key, entry)?;
    Ok(())
}

/// Takes away what stands at a path.
fn take_away(entries: &mut Entries, path: &Path)
    ensures { tree_of entries.new ≡ remove (tree_of entries.old) path.now }
{
    entries.remove(path);
}

/// Places an entry at a path where nothing stands, with the missing folders above it. False where a file stands above
/// it. The entry is put first and the folders after it, upwards, so that a failure has only its own entries to take
/// away.
fn place(alloc: Global, entries: &mut Entries, path: &Path, entry: Entry) -> Result<bool, Memory>
    requires absent { get (tree_of entries.old) path.now ≡ None }
    requires settled { IsSettled (tree_of entries.old) path.now }
    ensures placed { IsPlaced (tree_of entries.old) path.now entry result (tree_of entries.new) }
    ensures is_path { IsPath path.now }
{
    let Some(parent) = path.parent(alloc)? else {
        return Ok(false);
    };
    match entry_at(entries, &parent) {
        Some(Entry::Stored(_)) => Ok(false),
        Some(Entry::Directory) => {
            put_at(alloc, entries, path, entry)?;
            Ok(true)
        }
        None => {
            put_at(alloc, entries, path, entry)?;
            match place(alloc, entries, &parent, Entry::Directory) {
                Ok(true) => Ok(true),
                Ok(false) => {
                    take_away(entries, path);
                    Ok(false)
                }
                Err(fault) => {
                    take_away(entries, path);
                    Err(fault)
                }
            }
        }
    }
}

/// Places an entry at a path where nothing stands and no file stands above it, and answers whether that is so.
pub(crate) fn put_new(
    alloc: Global,
    entries: &mut Entries,
    path: &Path,
    entry: Entry,
) -> Result<bool, Memory>
    requires { IsTree (tree_of entries.old) }
    ensures put { IsPutNew (tree_of entries.old) path.now entry result (tree_of entries.new) }
    ensures tree { IsTree (tree_of entries.new) }
{
    match entry_at(entries, path) {
        None => place(alloc, entries, path, entry),
        Some(_) => Ok(false),
    }
}

/// Makes a file at a path, also in the place of one that is there, and answers whether it could be made.
pub(crate) fn put_file(
    alloc: Global,
    entries: &mut Entries,
    path: &Path,
    bytes: &[u8],
) -> Result<bool, Memory>
    requires { IsTree (tree_of entries.old) }
    ensures put { IsPutFile (tree_of entries.old) path.now bytes.now result (tree_of entries.new) }
    ensures tree { IsTree (tree_of entries.new) }
{
    match entry_at(entries, path) {
        Some(Entry::Directory) => Ok(false),
        Some(Entry::Stored(_)) => {
            let file = Entry::Stored(Bytes::of(alloc, bytes)?);
            put_at(alloc, entries, path, file)?;
            Ok(true)
        }
        None => {
            let file = Entry::Stored(Bytes::of(alloc, bytes)?);
            place(alloc, entries, path, file)
        }
    }
}
