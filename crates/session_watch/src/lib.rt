//! Who is shown the modules of a session: `Watch`, over whatever keeps the showings; `Unwatched`, which keeps none; and
//! `MemWatch`, which keeps all in memory.
#![tactic(auto)]

mod mem_watch;
mod shown_module;
mod unwatched;
mod watch;

pub use mem_watch::MemWatch;
pub use unwatched::Unwatched;
pub use watch::Watch;
