//! The laws of an arena, each the contract of a function with nothing to do.
ghost use Rattle.slot_arena.specs.Laws.{GivenOnce, LiveIsGiven, Inserts, Writes, Removes, Grows};

/// A slot that was given is not given again, whatever is done between.
pub fn slot_given_once<T>(_any: &T)
    ensures { GivenOnce T }
{}

/// Each live slot was given.
pub fn live_is_given<T>(_any: &T)
    ensures { LiveIsGiven T }
{}

/// An insertion changes its slot alone.
pub fn arena_inserts<T>(_any: &T)
    ensures { Inserts T }
{}

/// A write changes its slot's value alone.
pub fn arena_writes<T>(_any: &T)
    ensures { Writes T }
{}

/// A removal changes its slot alone, and frees its place unless that gave its last generation.
pub fn arena_removes<T>(_any: &T)
    ensures { Removes T }
{}

/// New places change no slot.
pub fn arena_grows<T>(_any: &T)
    ensures { Grows T }
{}
