//! Paths, the traits of what is outside (a folder, a source and a sink of bytes), and one of each in memory.
#![tactic(auto)]

mod entries;
mod folder;
mod mem_folder;
mod mem_sink;
mod mem_source;
mod numbers;
mod path;
mod stream;

pub use folder::Folder;
pub use mem_folder::MemFolder;
pub use mem_sink::MemSink;
pub use mem_source::MemSource;
pub use path::{Path, PathFault};
pub use shared_types::{Bytes, Listed, Memory};
pub use stream::{Failed, Sink, Source};
pub use tree_spec::{LimitName, Look, LookFault};

/// A list of paths.
pub type Paths = Listed<Path>;
