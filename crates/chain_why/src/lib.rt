//! Why a file is loaded: the shortest chain of requests from the page to a module at a path, over a view of the graph.
#![tactic(auto)]

mod asker;
mod list;
mod reached;
mod search;
mod why;

pub use list::Chain;
pub use why::chain;
