ghost use Rattle.std.specs.Prelude.{◌≡◌, ◌+◌, ◌-◌, ◌^◌, ◌<◌, [], length, option_copied, IfSome, OnOk, OnErr, Some};
ghost use Rattle.slot_arena.specs.Slots.{value_at, IsFresh, set_at, with_places, taken_from};
ghost use Rattle.slot_arena.specs.Counts.{spare, live, wanted};
ghost use Rattle.module_graph.specs.Modules.{IsModule, SetsTarget};
ghost use Rattle.module_graph.specs.Graphs.{AreModules, Connects};

use crate::module::Module;
use crate::view::View;
use shared_types::{Listed, Memory};
use slot_arena::{Slot, SlotArena};
use std::alloc::Global;
use std::marker::Model;
use std::mem;

/// Modules under slots. Each has as many targets as requests, and each request's span lies in its source.
#[derive(Drop)]
pub struct Graph {
    alloc: Global,
    arena: SlotArena<Module>,
}

impl Model for Graph {
    ghost use Rattle.std.specs.Prelude.{List};
    ghost use Rattle.slot_arena.specs.Slots.{Place};
    ghost use Rattle.module_graph.specs.declared.module.Module.{Module};
    ghost use Rattle.module_graph.specs.Graphs.{AreModules};

    ghost Value = { List (Place Module) };

    ghost view = { λ g. g.arena };

    ghost invariant = { λ g. AreModules g.arena };
}

impl Graph {
    /// A graph without modules. It takes no memory yet.
    pub fn new(alloc: Global) -> Graph
        ensures { result ≡ [] }
    {
        Graph {
            alloc,
            arena: SlotArena::new(alloc),
        }
    }

    /// Makes places until `n` modules can be added. Without memory all stays as it was.
    pub fn reserve(&mut self, n: u32) -> Result<(), Memory>
        requires { length self.old + n < 2 ^ 32 - 64 }
        ensures ok { OnOk result (self.new ≡ with_places self.old (wanted (spare self.old) n)) }
        ensures err { OnErr result (self.new ≡ self.old) }
    {
        self.arena.reserve(n)
    }

    /// How many modules can be added before memory is needed.
    pub fn spare(&self) -> u32
        ensures { result ≡ spare self.now }
    {
        self.arena.spare()
    }

    /// How many places there are, those included that have no slot left to give.
    pub fn made(&self) -> u32
        ensures { result ≡ length self.now }
    {
        self.arena.made()
    }

    /// Adds a module, under a slot that was never given before.
    pub fn add(&mut self, added: Module) -> Slot
        requires spare { 0 < spare self.old }
        requires well_made { IsModule added }
        ensures fresh { IsFresh self.old result }
        ensures placed { self.new ≡ set_at self.old result (Some added) }
    {
        self.arena.insert_reserved(added)
    }

    /// Sets the target of a request of the module under `from`. False, and nothing changes, where there is none.
    pub fn connect(&mut self, from: Slot, request: usize, to: Slot) -> bool
        ensures { Connects self.old self.new from request to result }
    {
        let alloc = self.alloc;
        match self.arena.get_mut(from) {
            Some(module) => set_target(alloc, module, request, to),
            None => false,
        }
    }

    /// Takes out the module under a slot. Targets that name it stay as they are.
    pub fn remove(&mut self, at: Slot) -> Option<Module>
        ensures value { result ≡ value_at self.old at }
        ensures left { self.new ≡ taken_from self.old at result }
    {
        self.arena.remove(at)
    }

    /// Lends the graph to be looked at.
    pub fn view(&self) -> View<'_>
        ensures graph { result ≡ self.now }
        ensures modules { AreModules self.now }
    {
        // What is known of a graph is known where a field is used.
        let _ = &self.alloc;
        View::of(self)
    }

    /// The module under a slot.
    pub(crate) fn module(&self, at: Slot) -> Option<&Module>
        ensures value { option_copied result ≡ value_at self.now at }
        ensures well_made { IfSome result (λ module_here. IsModule module_here.now) }
    {
        self.arena.get(at)
    }

    /// How many modules there are.
    pub(crate) fn len(&self) -> u32
        ensures { result ≡ live self.now }
    {
        self.arena.len()
    }
}

/// Sets one target of a module; false where it has no such request.
fn set_target(alloc: Global, changed: &mut Module, request: usize, to: Slot) -> bool
    ensures { SetsTarget changed.old changed.new request to result }
{
    let mut targets = mem::replace(&mut changed.targets, Listed::new(alloc)).into_vec();
    let known = match targets.get_mut(request) {
        Some(target) => {
            *target = Some(to);
            true
        }
        None => false,
    };
    changed.targets = Listed::from_vec(targets);
    known
}
