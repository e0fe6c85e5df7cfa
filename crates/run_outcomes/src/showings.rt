//! What a watch is shown of a session, as rows tell it.

use crate::parts::push_all;
use module_graph::{ModuleView, Slot, View};
use session_watch::{MemWatch, Watch};
use shared_types::Memory;
use std::alloc::Global;
use tree_model::Path;

/// The showings of a run. Each slot has a number, by the order in which slots are shown first: in trace order, and one
/// showing after another.
#[derive(Drop)]
pub struct Showings {
    /// Whether they are kept.
    is_told: bool,
    /// A text for each showing, with a module on each line.
    texts: Vec<String>,
    /// The slots by their numbers, from 1.
    slots: Vec<Slot>,
    /// The modules of each showing.
    modules: Vec<Vec<Placed>>,
    /// The paths of them all, each once.
    paths: Vec<Path>,
    /// What a watch in memory keeps of the same.
    memory: MemWatch,
}

/// Where a module stands, and under which slot it is shown.
#[derive(Drop)]
struct Placed {
    slot: Slot,
    path: Path,
}

impl Showings {
    /// No showing yet. Those to come are kept where they are told.
    pub fn new(alloc: Global, is_told: bool) -> Showings {
        Showings {
            is_told,
            texts: Vec::new(alloc),
            slots: Vec::new(alloc),
            modules: Vec::new(alloc),
            paths: Vec::new(alloc),
            memory: MemWatch::new(),
        }
    }

    /// The texts of the showings, in their order.
    pub fn texts(&self) -> &[String] {
        self.texts.as_slice()
    }

    // The number of a slot, where it was shown.
    fn number_of(&self, slot: Slot) -> Option<usize> {
        let mut number: usize = 0;
        for other in self.slots.as_slice() {
            number = number.saturating_add(1);
            if *other == slot {
                return Some(number);
            }
        }
        None
    }

    fn is_known(&self, path: &Path) -> bool {
        for other in self.paths.as_slice() {
            if *other == *path {
                return true;
            }
        }
        false
    }

    // A slot that wasn't shown before has the next number.
    fn take(&mut self, alloc: Global, slot: Slot, path: &Path) -> Result<Placed, Memory> {
        if self.number_of(slot).is_none() {
            self.slots.push(slot)?;
        }
        if !self.is_known(path) {
            self.paths.push(path.copy(alloc)?)?;
        }
        Ok(Placed {
            slot,
            path: path.copy(alloc)?,
        })
    }

    fn take_all(
        &mut self,
        alloc: Global,
        slots: &[Slot],
        view: &View<'_>,
    ) -> Result<Vec<Placed>, Memory> {
        let mut taken = Vec::new(alloc);
        for slot in slots {
            if let Some(module) = view.module(*slot) {
                taken.push(self.take(alloc, *slot, module.path())?)?;
            }
        }
        Ok(taken)
    }

    fn text_of(&self, alloc: Global, slots: &[Slot], view: &View<'_>) -> Result<String, Memory> {
        let mut text = String::new(alloc);
        for slot in slots {
            if let Some(module) = view.module(*slot) {
                self.push_line(alloc, *slot, &module, &mut text)?;
            }
        }
        Ok(text)
    }

    // `NUMBER PATH -> NUMBER NUMBER ..`
    fn push_line(
        &self,
        alloc: Global,
        slot: Slot,
        module: &ModuleView<'_>,
        text: &mut String,
    ) -> Result<(), Memory> {
        self.push_number(alloc, Some(slot), text)?;
        push_all(text, &[" ", module.path().as_str(), module.suffix()])?;
        self.push_targets(alloc, module, text)?;
        text.push_str("\n")
    }

    fn push_targets(
        &self,
        alloc: Global,
        module: &ModuleView<'_>,
        text: &mut String,
    ) -> Result<(), Memory> {
        for index in 0..module.requests() {
            text.push_str(if index == 0 { " -> " } else { " " })?;
            self.push_number(alloc, module.target(index), text)?;
        }
        Ok(())
    }

    // The number of a slot, where there is one and it was shown.
    fn push_number(
        &self,
        alloc: Global,
        slot: Option<Slot>,
        text: &mut String,
    ) -> Result<(), Memory> {
        let number = match slot {
            Some(slot) => self.number_of(slot),
            None => None,
        };
        match number {
            None => text.push_str("none"),
            Some(number) => {
                let number = format!(in alloc; "{number}")?;
                text.push_str(number.as_str())
            }
        }
    }

    // Whether the watch in memory tells of a path, in the showing with this number, the slot of the first module there, and
    // none where there is none.
    fn agrees(&self, number: usize, path: &Path) -> bool {
        let shown = match self.modules.get(number) {
            Some(modules) => slot_at(modules.as_slice(), path),
            None => None,
        };
        match (self.memory.slot(number, path), shown) {
            (Some(kept), Some(slot)) => kept == slot,
            (None, None) => true,
            _ => false,
        }
    }

    // A line for each path of which the watch in memory tells another slot in this showing than was shown.
    fn push_others(&self, alloc: Global, number: usize, text: &mut String) -> Result<(), Memory> {
        for path in self.paths.as_slice() {
            if !self.agrees(number, path) {
                let line = format!(in alloc; "another slot in memory of showing {number}: ")?;
                push_all(text, &[line.as_str(), path.as_str(), "\n"])?;
            }
        }
        Ok(())
    }

    fn keep(&mut self, alloc: Global, text: String) -> Result<(), Memory> {
        let mut text = text;
        self.push_all_others(alloc, &mut text)?;
        Ok(self.texts.push(text)?)
    }

    // The watch in memory is asked for all that was shown so far, again: what is shown later changes none of it.
    fn push_all_others(&self, alloc: Global, text: &mut String) -> Result<(), Memory> {
        if self.memory.len() != self.modules.len() {
            text.push_str("another number of showings in memory\n")?;
        }
        for number in 0..self.modules.len() {
            self.push_others(alloc, number, text)?;
        }
        Ok(())
    }
}

// The slot of the first of these modules at a path.
fn slot_at(modules: &[Placed], path: &Path) -> Option<Slot> {
    for module in modules {
        if module.path == *path {
            return Some(module.slot);
        }
    }
    None
}

impl Watch for Showings {
    ghost use Rattle.std.specs.Prelude.{None};

    ghost seen = { λ showings. None };

    fn shown(&mut self, alloc: Global, slots: &[Slot], view: View<'_>) -> Result<(), Memory> {
        if !self.is_told {
            return Ok(());
        }
        let modules = self.take_all(alloc, slots, &view)?;
        let text = self.text_of(alloc, slots, &view)?;
        self.memory.shown(alloc, slots, view)?;
        self.modules.push(modules)?;
        self.keep(alloc, text)
    }
}
