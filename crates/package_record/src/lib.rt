//! The record of a package.json: the fields by which a package is resolved, read from the file's bytes.
#![tactic(auto)]

mod fields;
mod left;
mod package_json;
mod subpaths;

pub use left::LeftTargets;
pub use node_spec::PackageKind;
pub use package_json::{Package, PackageFault, is_ready, read_package, read_package_under};
pub use subpaths::{Index, Subpaths};
