ghost use Rattle.tree_spec.specs.Laws.{OneLook, OneParent, OnePlacing, PlacingKeepsTree, PlacingInFolder};
ghost use Rattle.tree_spec.specs.Laws.{PlacingInRoot, RootAlone};
ghost use Rattle.tree_spec.specs.LookExamples.{LookExamples};
ghost use Rattle.tree_spec.specs.Laws.{FootprintIsSet, FootprintsJoin, SameByFootprint, SameLimited, FirstLimitStops};
ghost use Rattle.tree_spec.specs.Laws.{EndsCounted, FoldersClimb, FolderIsParent, SparedSame, CopyIsThinned};

/// A path has one parent.
pub fn one_parent()
    ensures { OneParent }
{}

/// Two outcomes of one placing are the same tree.
pub fn one_placing()
    ensures { OnePlacing }
{}

/// A placing at a path where no folder stands leaves a tree a tree.
pub fn placing_keeps_tree()
    ensures { PlacingKeepsTree }
{}

/// In a tree, to place an entry in a folder that is there is to insert it.
pub fn placing_in_folder()
    ensures { PlacingInFolder }
{}

/// In a tree, to place an entry in the root is to insert it.
pub fn placing_in_root()
    ensures { PlacingInRoot }
{}

/// The root alone is a tree.
pub fn root_alone()
    ensures { RootAlone }
{}

/// A look at a path has one answer.
pub fn one_look()
    ensures { OneLook }
{}

/// What an asking over looks comes to is decided by what stands at the paths of its footprint.
pub fn same_by_footprint<X>()
    ensures { SameByFootprint X }
{}

/// So is which limit stops it, and behind which looks.
pub fn same_limited<X>()
    ensures { SameLimited X }
{}

/// A limit stops an asking exactly where it is the first that the asking's looks pass.
pub fn first_limit_stops<X>()
    ensures { FirstLimitStops X }
{}

/// An asking that no limit stops comes to its outcome, and its looks are counted.
pub fn ends_counted<X>()
    ensures { EndsCounted X }
{}

/// The folders at and above a path are reached from it by parents.
pub fn folders_climb()
    ensures { FoldersClimb }
{}

/// The folder in which a path stands is its parent.
pub fn folder_is_parent()
    ensures { FolderIsParent }
{}

/// Worked examples of looks with limits, and of folders.
#[tactic(auto, using(crate::proofs::examples::LookExamples::look_examples))]
pub fn look_examples()
    ensures { LookExamples }
{}

/// A footprint has each path of the looks once, and no other.
pub fn footprint_is_set<X>()
    ensures { FootprintIsSet X }
{}

/// Footprints are joined as looks are.
#[tactic(auto, using(crate::proofs::FootprintSets::footprints_join))]
pub fn footprints_join()
    ensures { FootprintsJoin }
{}

/// Folders that are left out decide nothing in an asking that spares them.
pub fn spared_same<X>()
    ensures { SparedSame X }
{}

/// A copy of the files at some paths is at these paths the tree, without the folders that have none of the files.
pub fn copy_is_thinned()
    ensures { CopyIsThinned }
{}
