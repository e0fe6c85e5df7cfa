//! Questions of packages, answered by looks: the package scope of a folder, the folder of a package, the record of a
//! folder, the format of a file. What was seen of the folder is kept, other looks may be laid over it, and each look is
//! counted on a trail. Each call comes to what the asking of `node_spec` comes to, within the limits of looks.
#![tactic(auto)]

ghost use Rattle.package_lookup.specs.Looked.{SomeSights};
ghost use Rattle.package_lookup.specs.Laws.{LaidIsSeen, OneLaid, NothingLaid, LaidAlike, SettingLays, DroppingLays};
ghost use Rattle.package_lookup.specs.Laws.{NothingKept, LooksKeepBehind};

mod fault;
mod format;
mod held;
mod known;
mod lookup;
mod over;
mod packages;
mod question;
mod trail;

pub use fault::LookupFault;
pub use format::{Format, folder_of, format_of};
pub use held::{Held, Seen};
pub use known::Known;
pub use lookup::Lookup;
pub use node_spec::Reason;
pub use over::Over;
pub use packages::{find_package, record_of, record_under, scope_of};
pub use trail::Trail;

/// Whatever a folder holds and whatever is known of it, something can stand at each path as looks tell it.
#[tactic(auto, using(crate::proofs::Sights::some_sights))]
pub fn some_sights()
    ensures { SomeSights }
{}

/// Looks see the tree with what is laid over it, where the kept looks are that tree's.
#[tactic(auto, using(crate::proofs::Laying::laid_is_seen))]
pub fn laid_is_seen()
    ensures { LaidIsSeen }
{}

/// One tree has the laid looks in their places.
#[tactic(auto, using(crate::proofs::Laying::one_laid))]
pub fn one_laid()
    ensures { OneLaid }
{}

/// Where nothing is laid, the tree is the one behind.
#[tactic(auto, using(crate::proofs::Laying::nothing_laid))]
pub fn nothing_laid()
    ensures { NothingLaid }
{}

/// Looks that are laid alike leave one tree.
#[tactic(auto, using(crate::proofs::Laying::laid_alike))]
pub fn laid_alike()
    ensures { LaidAlike }
{}

/// One look more inserts what it sees.
#[tactic(auto, using(crate::proofs::Laying::setting_lays))]
pub fn setting_lays()
    ensures { SettingLays }
{}

/// The look at nothing removes what stands there.
#[tactic(auto, using(crate::proofs::Laying::dropping_lays))]
pub fn dropping_lays()
    ensures { DroppingLays }
{}

/// A tree stands behind what nothing is kept of.
#[tactic(auto, using(crate::proofs::Laying::nothing_kept))]
pub fn nothing_kept()
    ensures { NothingKept }
{}

/// A tree stays behind what its looks tell.
#[tactic(auto, using(crate::proofs::Laying::looks_keep_behind))]
pub fn looks_keep_behind()
    ensures { LooksKeepBehind }
{}
