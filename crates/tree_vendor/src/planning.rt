ghost use Rattle.std.specs.Prelude.{◌≡◌, ◌↔◌, false, IsTrue, IfOk};
ghost use Rattle.tree_vendor.specs.Planning.{Plans, InOrder, IsOfBytes, AreOfBytes, IsSource, HasLongGoal, IsTooLong};

use crate::copying::file_of;
use crate::goals::{Goals, goal_length, goals};
use package_lookup::Known;
use shared_types::{Listed, Memory};
use std::alloc::Global;
use tree_model::Path;
use vendor_spec::MOST_PATH_BYTES;

/// What is to be copied: the path of each file, and the path of its copy.
pub type Plan = Listed<(Path, Path)>;

/// Why there is no plan.
#[derive(Clone, Copy, Debug, PartialEq, Eq)]
pub enum VendorFault {
    /// The text of some copy's path has too many bytes.
    PathTooLong,
    /// None has, and some copy's path has too many segments.
    TooManySegments,
    /// Want of memory.
    Memory,
}

/// The files among these paths, as they are kept, in the byte order of their paths, each once, with the path that each
/// has below a folder. The root, where no tree has a file, is none of them.
pub fn plan(
    alloc: Global,
    footprint: &[Path],
    known: &Known,
    to: &Path,
) -> Result<Plan, VendorFault>
    ensures { Plans footprint.now known.now to.now result }
{
    if has_long_goal(footprint, known, to) {
        return Err(VendorFault::PathTooLong);
    }
    match goals(alloc, footprint, known, to) {
        Err(fault) => Err(fault),
        Ok(goals) => match plan_of(alloc, goals) {
            Err(_) => Err(VendorFault::Memory),
            Ok(plan) => Ok(plan),
        },
    }
}

// The goals as a list, in the order of their sources.
fn plan_of(alloc: Global, goals: Goals) -> Result<Plan, Memory>
    ensures entries { IfOk result (λ plan. plan ≡ goals.entries) }
    ensures in_order { IfOk result InOrder }
{
    let _count = goals.len();
    Ok(Plan::from_vec(goals.into_iter().collect(alloc)?))
}

// Whether the path of some copy would have too many bytes.
fn has_long_goal(footprint: &[Path], known: &Known, to: &Path) -> bool
    ensures long { IsTrue result ↔ HasLongGoal footprint.now known.now to.now }
    ensures bytes { result ≡ false → AreOfBytes footprint.now }
{
    for path in footprint {
        if is_too_long(known, to, path) {
            return true;
        }
    }
    false
}

fn is_too_long(known: &Known, to: &Path, path: &Path) -> bool
    ensures long { IsTrue result ↔ IsTooLong known.now to.now path.now }
    ensures bytes { IsOfBytes path.now }
{
    if goal_length(to, path) > MOST_PATH_BYTES {
        is_source(known, path)
    } else {
        false
    }
}

/// Whether a file is kept for a path that isn't the root.
pub(crate) fn is_source(known: &Known, path: &Path) -> bool
    ensures { IsTrue result ↔ IsSource known.now path.now }
{
    if path.as_str() == "/" {
        return false;
    }
    match file_of(known, path) {
        None => false,
        Some(_) => true,
    }
}
