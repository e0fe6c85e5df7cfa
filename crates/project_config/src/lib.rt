//! The config that a command generates for: that of the folder's project, with what the words of the command line set.
#![tactic(auto)]

mod defaults;
mod entries;
mod fault;
mod linking;
mod measured;
mod order;
mod unlinking;

pub use fault::NoConfig;
pub use measured::measure_config;
pub use order::config_of;
