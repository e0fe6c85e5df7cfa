ghost use Rattle.std.specs.Prelude.{◌≡◌, ◌↔◌, IsTrue, map};
ghost use Rattle.module_spec.specs.declared.request.Request.{Request};
ghost use Rattle.slot_arena.specs.Slots.{value_at};
ghost use Rattle.module_graph.specs.Modules.{asked_at};
ghost use Rattle.graph_repair.specs.Matching.{IsSame, IsAlike};

use module_graph::{ModuleView, Slot, View};

/// Whether a module like this one is under the slot.
pub(crate) fn is_like_at(shown: &View<'_>, slot: Slot, other: &ModuleView<'_>) -> bool
    ensures { IsTrue result ↔ IsAlike (value_at shown.now slot) (Some other.now) }
{
    match shown.module(slot) {
        Some(own) => is_like(&own, other),
        None => false,
    }
}

fn is_like(own: &ModuleView<'_>, other: &ModuleView<'_>) -> bool
    ensures { IsTrue result ↔ IsSame own.now other.now }
{
    if own.path() != other.path() {
        return false;
    }
    if own.suffix() != other.suffix() {
        return false;
    }
    if own.source() != other.source() {
        return false;
    }
    ask_alike(own, other)
}

// Whether the two ask for the same, one request after another.
fn ask_alike(own: &ModuleView<'_>, other: &ModuleView<'_>) -> bool
    ensures { IsTrue result ↔ (map (λ (r : Request). r.text) own.now.requests.value
        ≡ map (λ (r : Request). r.text) other.now.requests.value) }
{
    let count = own.requests();
    if other.requests() != count {
        return false;
    }
    for index in 0..count {
        if !asks_alike_at(own, other, index) {
            return false;
        }
    }
    true
}

fn asks_alike_at(own: &ModuleView<'_>, other: &ModuleView<'_>, index: usize) -> bool
    ensures { IsTrue result ↔ (asked_at own.now index ≡ asked_at other.now index) }
{
    match own.request(index) {
        Some(text) => match other.request(index) {
            Some(wanted) => text == wanted,
            None => false,
        },
        None => other.request(index).is_none(),
    }
}
