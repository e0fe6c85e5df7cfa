//! What is copied into a folder of its own: the files at some paths of a tree, and what stands below the folder then.
//!
//! Definitions and laws, and what they have in numbers: each function here is empty, and its contract is a law.
#![tactic(auto)]

ghost use Rattle.vendor_spec.specs.Laws.{CopiedIsCopy, CopiedLeavesRest, OnePlan, PlanFits, SomePlan, SomeCopied};
ghost use Rattle.vendor_spec.specs.Laws.{SomeBelow};

/// The most bytes that the text of a path has.
pub const MOST_PATH_BYTES: usize = 1024;
/// The most segments of a path.
pub const MOST_PATH_SEGMENTS: usize = 64;

/// What was written below a folder that wasn't there is a copy of the files at the paths of the plan.
pub fn copied_is_copy()
    ensures { CopiedIsCopy }
{}

/// The writes leave a tree, in which all that is neither the folder, nor above it, nor below it stands as before.
pub fn copied_leaves_rest()
    ensures { CopiedLeavesRest }
{}

/// The files that a tree has at some paths are one list.
pub fn one_plan()
    ensures { OnePlan }
{}

/// The paths of their copies have neither too many bytes nor too many segments.
pub fn plan_fits()
    ensures { PlanFits }
{}

/// They can be listed, or some copy's path has too many bytes, or too many segments.
pub fn some_plan()
    ensures { SomePlan }
{}

/// They can be written where nothing stands, and no file above.
pub fn some_copied()
    ensures { SomeCopied }
{}

/// Below each path a tree stands.
pub fn some_below()
    ensures { SomeBelow }
{}
