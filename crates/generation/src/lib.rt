//! Generation: the map of a folder and a config, or why there is none; its first step alone, the trace; and the map of a
//! trace, whatever made it. Each is one call, whose contract is its definition.
#![tactic(auto)]

ghost use Rattle.generation.specs.Mapping.{TracesGenerate};

mod digester;
mod digests;
mod generated;
mod kept_digests;
mod kept_layout;
mod kept_map;
mod kept_page;
mod kept_pairs;
mod page;
mod stop;
mod tracing;

pub use generated::{Generated, generate, generate_over, generate_traced, map_by, map_of};
pub use kept_map::KeptMap;
pub use stop::{Stop, stop_of};
pub use tracing::traced;

/// Where the trace of a folder stops, generation stops so; and where there is a trace, the map of the trace is
/// generation's, or why there is none.
pub fn traces_generate()
    ensures { TracesGenerate }
{}
