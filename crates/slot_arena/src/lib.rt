//! An arena: values under slots, and no slot is ever given a second time. A contract sees an arena as the list of
//! its places, each with its value and the generation that it gives next.
#![tactic(auto)]

mod arena;
mod block;
mod chunk;
mod laws;
mod places;
mod slot;

pub use arena::SlotArena;
pub use laws::{
    arena_grows, arena_inserts, arena_removes, arena_writes, live_is_given, slot_given_once,
};
pub use slot::Slot;
