//! What is copied of a generation's files into a folder of their own, and the copying.
#![tactic(auto)]

ghost use Rattle.tree_vendor.specs.Laws.{FaultsAreOfTree, PlannedIsPlan, PlannedAreKept};

mod copying;
mod goals;
mod planning;

pub use copying::copy_out;
pub use planning::{Plan, VendorFault, plan};

/// Where looks see the tree, and of each path of a footprint one is kept, a plan for the footprint is one of exactly
/// the tree's files there, and its writes are those of their copies.
pub fn planned_is_plan()
    ensures { PlannedIsPlan }
{}

/// Of each source of a plan a file is kept.
pub fn planned_are_kept()
    ensures { PlannedAreKept }
{}

/// A copy's path has too much for the plan exactly where it has for the tree.
pub fn faults_are_of_tree()
    ensures { FaultsAreOfTree }
{}
