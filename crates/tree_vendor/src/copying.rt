ghost use Rattle.std.specs.Prelude.{◌≡◌, true, All, is_some, option_copied};
ghost use Rattle.tree_spec.specs.States.{IsWritten};
ghost use Rattle.tree_vendor.specs.Copying.{AreKept, CopiesOut, bytes_at, file_at};

use crate::planning::Plan;
use package_lookup::Known;
use tree_model::{Failed, Folder, Path};

/// Writes the copies of a plan, one after another: of each file the bytes that are kept. Those that were written before
/// a write that failed stand.
pub fn copy_out<F: Folder>(plan: &Plan, known: &Known, folder: &mut F) -> Result<(), Failed>
    requires { AreKept known.now plan.now }
    ensures { CopiesOut known.now plan.now (F.state folder.old) result (F.state folder.new) }
{
    for step in plan.as_slice() {
        match copy_file(known, folder, &step.0, &step.1) {
            Ok(()) => {}
            Err(fault) => return Err(fault),
        }
    }
    Ok(())
}

// Writes the copy of a file.
fn copy_file<F: Folder>(
    known: &Known,
    folder: &mut F,
    source: &Path,
    goal: &Path,
) -> Result<(), Failed>
    requires { is_some (file_at known.now source.now) ≡ true }
    ensures { IsWritten (F.state folder.old) goal.now (bytes_at known.now source.now) result (F.state folder.new) }
{
    match file_of(known, source) {
        Some(bytes) => folder.write(goal, bytes),
        None => unreachable!(),
    }
}

/// The bytes of the file that is kept for a path.
pub(crate) fn file_of<'a>(known: &'a Known, path: &Path) -> Option<&'a [u8]>
    ensures { option_copied result ≡ file_at known.now path.now }
{
    match known.kept(path) {
        None => None,
        Some(held) => held.file(),
    }
}
