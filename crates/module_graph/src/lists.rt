//! Calls on many modules at once: what a change of a graph is made of. They take no memory.
ghost use Rattle.std.specs.Prelude.{◌≡◌, ◌+◌, ◌++◌, ◌<◌, ◌≤◌, All, List, length, map, reverse, Some};
ghost use Rattle.std.specs.Prelude.{slice_get, vec_len, vec_capacity};
ghost use Rattle.slot_arena.specs.Slots.{value_at};
ghost use Rattle.slot_arena.specs.Counts.{spare};
ghost use Rattle.slot_arena.specs.declared.slot.Slot as declared;
ghost use Rattle.module_graph.specs.declared.module.Module as declared_module;
ghost use Rattle.module_graph.specs.Modules.{IsModule};
ghost use Rattle.module_graph.specs.Many.{AddsAll, RemovesAll, AreApart, AreLive, ConnectsAll, SetsAll, slot_in};

use crate::graph::Graph;
use crate::module::Module;
use slot_arena::Slot;

impl Graph {
    /// Takes out the modules under these slots, where they are live. Targets that name them stay as they are.
    pub fn remove_all(&mut self, gone: &[Slot])
        ensures { RemovesAll self.old self.new gone.now }
    {
        let mut rest = gone;
        while let Some((at, more)) = rest.split_first() {
            self.remove(*at);
            rest = more;
        }
    }

    /// Adds the modules, the last one first, each under a slot that was never given before. The slots are put behind
    /// the others in this order.
    pub fn add_all(&mut self, modules: Vec<Module>, slots: &mut Vec<Slot>)
        requires spare { vec_len modules ≤ spare self.old }
        requires well_made { All IsModule modules.items }
        requires room { vec_len slots.old + vec_len modules ≤ vec_capacity slots.old }
        ensures { (added : List declared.Slot) × (slots.new.items ≡ slots.old.items ++ added)
            × AddsAll self.old self.new (reverse modules.items) added }
    {
        let mut waiting = modules;
        while let Some(module) = waiting.pop() {
            slots.push_reserved(self.add(module));
        }
    }

    /// Sets the targets of the modules under these slots: to each request of theirs, in their order, the slot at the
    /// next of these places among them.
    pub fn connect_all(&mut self, slots: &[Slot], leads: &[usize])
        requires live { AreLive self.old slots.now (length leads.now) }
        requires apart { AreApart slots.now }
        requires within { All (λ lead. lead < length slots.now) leads.now }
        ensures { ConnectsAll self.old self.new slots.now (map (slot_in slots.now) leads.now) }
    {
        let mut rest = slots;
        let mut left = leads;
        while let Some((from, more)) = rest.split_first() {
            let (own, others) = left.split_at(self.requests(*from));
            self.set_all(*from, slots, own);
            rest = more;
            left = others;
        }
    }

    // How many requests the module under a slot has; 0 where there is none.
    fn requests(&self, at: Slot) -> usize
        ensures { (m : declared_module.Module) → value_at self.now at ≡ Some m → result ≡ length m.requests.value }
    {
        match self.module(at) {
            Some(module) => module.requests.len(),
            None => 0,
        }
    }

    // Sets the targets of the module under a slot: to its first requests the slots at these places.
    fn set_all(&mut self, from: Slot, slots: &[Slot], leads: &[usize])
        requires live { (m : declared_module.Module) × (value_at self.old from ≡ Some m)
            × (length leads.now ≤ length m.requests.value) }
        requires within { All (λ lead. lead < length slots.now) leads.now }
        ensures { SetsAll self.old self.new from 0 (map (slot_in slots.now) leads.now) }
    {
        let mut request = 0;
        while request < leads.len() {
            self.connect(from, request, slot_at(slots, place_at(leads, request)));
            request += 1;
        }
    }
}

fn place_at(leads: &[usize], request: usize) -> usize
    requires { request < length leads.now }
    ensures { slice_get leads.now request ≡ Some result }
{
    leads[request]
}

fn slot_at(slots: &[Slot], place: usize) -> Slot
    requires { place < length slots.now }
    ensures { result ≡ slot_in slots.now place }
{
    slots[place]
}
