//! Node's resolution of a specifier in a file of a folder, with the looks that it takes: one file a rule, named as
//! Node's documentation names it. `resolve` comes to what the asking `node` comes to.
#![tactic(auto)]

mod bare_texts;
mod builtin_names;
mod esm_resolve;
mod fault;
mod file_urls;
mod found;
mod legacy_main_resolve;
mod package_exports_resolve;
mod package_imports_exports_resolve;
mod package_imports_resolve;
mod package_name;
mod package_resolve;
mod package_self_resolve;
mod package_target_resolve;
mod places;
mod resolved_module;
mod texts;

pub use esm_resolve::resolve;
pub use fault::NodeFault;
pub use found::Found;
pub use node_spec::Cause;
pub use resolved_module::ResolvedModule;
