ghost use Rattle.std.specs.Prelude.{◌≡◌, Option, Some, None, IfOk};

use shared_types::Memory;
use slot_arena::SlotArena;
use std::alloc::Global;

/// Makes room for two values, puts the first in, takes it out, and puts the second in. What was taken out, and what is
/// then under the slot of the first and under the slot of the second.
pub fn give_anew(
    alloc: Global,
    first: u64,
    second: u64,
) -> Result<(Option<u64>, Option<u64>, Option<u64>), Memory>
    ensures { IfOk result (λ seen. seen ≡ (Some first, None, Some second)) }
{
    let mut arena = SlotArena::new(alloc);
    arena.reserve(2)?;
    let slot = arena.insert_reserved(first);
    let taken = arena.remove(slot);
    let anew = arena.insert_reserved(second);
    let before = arena.get(slot).copied();
    let after = arena.get(anew).copied();
    Ok((taken, before, after))
}
