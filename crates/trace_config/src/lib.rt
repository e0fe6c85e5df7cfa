//! What to generate for, as the walk of a trace and the project's file take it.
#![tactic(auto)]

mod config;

pub use config::Config;
