//! The walk of a trace: the requests of a page and of what they lead to are followed one after another, until one is
//! refused. It asks an answerer what a module asks for and where a request leads.
#![tactic(auto)]

mod answerer;
mod following;
mod kept_names;
mod module;
mod namer;
mod names;
mod referrer;
mod refusals;
mod specifiers;
mod spelling;
mod tables;
mod visits;

pub use answerer::{Answerer, NodeAnswer};
pub use kept_names::KeptNames;
pub use module::Module;
pub use module_sources::{NoSource, Source};
pub use namer::{ComputedNames, Namer};
pub use spelling::Spelling;
pub use tables::{Name, Tables};
pub use visits::walk;
