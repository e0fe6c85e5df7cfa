ghost use Rattle.std.specs.Prelude.{◌≡◌, ◌<◌, length, option_copied, IfOk, Some, None};
ghost use Rattle.slot_arena.specs.Slots.{value_at};
ghost use Rattle.slot_arena.specs.Counts.{live};
ghost use Rattle.module_graph.specs.Modules.{IsModule, IsUntied, asked_at, literal_at, target_at};

use crate::graph::Graph;
use crate::module::Module;
use shared_types::{Bytes, Listed, Memory};
use slot_arena::Slot;
use std::alloc::Global;
use std::marker::Model;
use std::rc::Rc;
use tree_model::Path;
use web_url::Suffix;

/// A graph that is looked at. It stays as it is for as long as a view is kept.
#[derive(Drop)]
pub struct View<'a> {
    graph: &'a Graph,
}

impl<'a> Model for View<'a> {
    ghost use Rattle.std.specs.Prelude.{List};
    ghost use Rattle.slot_arena.specs.Slots.{Place};
    ghost use Rattle.module_graph.specs.declared.module.Module.{Module};

    ghost Value = { List (Place Module) };

    ghost view = { λ v. v.graph.now };
}

impl<'a> View<'a> {
    pub(crate) fn of(graph: &'a Graph) -> View<'a>
        ensures { result ≡ graph.now }
    {
        View { graph }
    }

    /// The module under a slot.
    pub fn module(&self, at: Slot) -> Option<ModuleView<'a>>
        ensures { result ≡ value_at self.now at }
    {
        let graph = self.graph;
        match graph.module(at) {
            Some(module) => Some(ModuleView { module }),
            None => None,
        }
    }

    /// How many modules there are.
    pub fn len(&self) -> u32
        ensures { result ≡ live self.now }
    {
        self.graph.len()
    }
}

/// A module that is looked at.
#[derive(Drop)]
pub struct ModuleView<'a> {
    module: &'a Module,
}

impl<'a> Model for ModuleView<'a> {
    ghost use Rattle.module_graph.specs.declared.module.Module.{Module};
    ghost use Rattle.module_graph.specs.Modules.{IsModule};

    ghost Value = { Module };

    ghost view = { λ v. v.module.now };

    ghost invariant = { λ v. IsModule v.module.now };
}

impl<'a> ModuleView<'a> {
    pub fn path(&self) -> &'a Path
        ensures { result.now ≡ self.now.path }
    {
        &self.module.path
    }

    pub fn suffix(&self) -> &'a str
        ensures { result.now ≡ self.now.suffix }
    {
        self.module.suffix.as_str()
    }

    /// The suffix as one of a URL.
    pub fn as_suffix(&self) -> &'a Suffix
        ensures { result.now ≡ self.now.suffix }
    {
        &self.module.suffix
    }

    /// The bytes of the module.
    pub fn source(&self) -> &'a [u8]
        ensures { result.now ≡ self.now.source.value }
    {
        let source: &'a Bytes = &self.module.source;
        source.as_bytes()
    }

    /// The number of requests.
    pub fn requests(&self) -> usize
        ensures count { result ≡ length self.now.requests.value }
        ensures well_made { IsModule self.now }
    {
        self.module.requests.len()
    }

    /// The specifier of the request with this number, counted from 0.
    pub fn request(&self, index: usize) -> Option<&'a str>
        ensures { option_copied result ≡ asked_at self.now index }
    {
        match self.module.requests.at(index) {
            Some(request) => Some(request.text.as_str()),
            None => None,
        }
    }

    /// The string literal of the request with this number, as it stands in the source, with its quotes.
    pub fn literal(&self, index: usize) -> Option<&'a [u8]>
        ensures { option_copied result ≡ literal_at self.now index }
    {
        match self.module.requests.at(index) {
            Some(request) => Some(&self.module.source.as_bytes()[request.from..request.to]),
            None => None,
        }
    }

    /// The target of the request with this number, where one is set.
    pub fn target(&self, index: usize) -> Option<Slot>
        ensures { result ≡ target_at self.now index }
    {
        match self.module.targets.at(index) {
            Some(target) => *target,
            None => None,
        }
    }

    /// The module for another graph: its targets aren't set, and the rest is shared.
    pub fn untied(&self, alloc: Global) -> Result<Module, Memory>
        ensures { IfOk result (IsUntied self.now) }
    {
        let module = self.module;
        let mut targets = Vec::new(alloc);
        targets.resize(module.requests.len(), None)?;
        Ok(Module {
            path: module.path.copy(alloc)?,
            suffix: module.suffix.copy(alloc)?,
            source: Rc::clone(&module.source)?,
            requests: Rc::clone(&module.requests)?,
            targets: Listed::from_vec(targets),
        })
    }
}
