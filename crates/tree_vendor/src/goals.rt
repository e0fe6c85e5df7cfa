ghost use Rattle.std.specs.BTreeMap.{Updates};
ghost use Rattle.std.specs.Cmp.Lexicographic.{slice_cmp};
ghost use Rattle.std.specs.Ordering.{nat_cmp};
ghost use Rattle.std.specs.Prelude.{◌≡◌, ◌≢◌, ◌++◌, ◌∷◌, [], List, ℕ, Err, Some, IfOk, OnOk, length};
ghost use Rattle.std.specs.String.{string_bytes};
ghost use Rattle.tree_model.specs.declared.path.PathFault.{PathFault};
ghost use Rattle.tree_spec.specs.Paths.{IsPath};
ghost use Rattle.tree_vendor.specs.Planning.{AreGoals, HasBadGoal, IsBad, IsOfBytes};
ghost use Rattle.tree_vendor.specs.declared.planning.VendorFault.TheVariants.{PathTooLong, TooManySegments};
ghost use Rattle.vendor_spec.specs.Goals.{goal_of};

use crate::planning::{VendorFault, is_source};
use package_lookup::Known;
use shared_types::Memory;
use std::alloc::Global;
use std::collections::BTreeMap;
use tree_model::{Path, PathFault};

/// The paths of copies, each under the path of its file.
pub(crate) type Goals = BTreeMap<Path, Path>;

/// The goals of the files that are kept for these paths.
pub(crate) fn goals(
    alloc: Global,
    footprint: &[Path],
    known: &Known,
    to: &Path,
) -> Result<Goals, VendorFault>
    ensures are { IfOk result (AreGoals known.now to.now footprint.now) }
    ensures bad { result ≡ Err TooManySegments → HasBadGoal footprint.now known.now to.now }
    ensures short { result ≢ Err PathTooLong }
{
    let mut goals = Goals::new(alloc);
    for path in footprint {
        match put_goal(alloc, &mut goals, known, to, path) {
            Ok(()) => {}
            Err(fault) => return Err(fault),
        }
    }
    Ok(goals)
}

// Puts the goal of the file that is kept for a path, if there is one.
fn put_goal(
    alloc: Global,
    goals: &mut Goals,
    known: &Known,
    to: &Path,
    path: &Path,
) -> Result<(), VendorFault>
    ensures puts { OnOk result ((done : List (List ℕ)) → AreGoals known.now to.now done goals.old
        → AreGoals known.now to.now (done ++ path.now ∷ []) goals.new) }
    ensures bad { result ≡ Err TooManySegments → IsBad known.now to.now path.now }
    ensures short { result ≢ Err PathTooLong }
{
    if !is_source(known, path) {
        return Ok(());
    }
    match goal(alloc, to, path) {
        Ok(goal) => match insert(alloc, goals, path, goal) {
            Ok(()) => Ok(()),
            Err(_) => Err(VendorFault::Memory),
        },
        Err(PathFault::BadPath) => Err(VendorFault::TooManySegments),
        Err(PathFault::Memory) => Err(VendorFault::Memory),
    }
}

fn insert(alloc: Global, goals: &mut Goals, path: &Path, goal: Path) -> Result<(), Memory>
    ensures { OnOk result (Updates (slice_cmp nat_cmp) goals.old goals.new path.now (Some goal)) }
{
    goals.insert(path.copy(alloc)?, goal)?;
    Ok(())
}

// The path of a file's copy.
fn goal(alloc: Global, to: &Path, path: &Path) -> Result<Path, PathFault>
    ensures path { IfOk result (λ goal. (goal ≡ goal_of to.now path.now) × IsPath goal) }
    ensures bad { result ≡ Err PathFault.BadPath → IsPath (goal_of to.now path.now) → ⊥ }
    ensures paths { IsPath to.now × IsPath path.now }
{
    match goal_text(alloc, to.as_str(), path.as_str()) {
        Ok(text) => Path::parse(alloc, text.as_str()),
        Err(_) => Err(PathFault::Memory),
    }
}

fn goal_text(alloc: Global, to: &str, path: &str) -> Result<String, Memory>
    ensures { IfOk result (λ text. string_bytes text ≡ goal_of to.now path.now) }
{
    let mut text = String::new(alloc);
    if to != "/" {
        text.push_str(to)?;
    }
    text.push_str(path)?;
    Ok(text)
}

/// How many bytes that path has.
pub(crate) fn goal_length(to: &Path, path: &Path) -> usize
    ensures length { result ≡ length (goal_of to.now path.now) }
    ensures bytes { IsOfBytes path.now }
{
    let folder = to.as_str();
    let own = count(path.as_str());
    if folder == "/" {
        own
    } else {
        folder.len() + own
    }
}

fn count(text: &str) -> usize
    ensures length { result ≡ length text.now }
    ensures bytes { IsOfBytes text.now }
{
    text.len()
}
