ghost use Rattle.std.specs.Prelude.{◌↔◌, IsTrue};
ghost use Rattle.module_graph.specs.Modules.{HasSpan, IsModule};

use es_module_parser::Requests;
use shared_types::{Bytes, Listed};
use slot_arena::Slot;
use std::rc::Rc;
use tree_model::Path;
use web_url::Suffix;

/// To each request of a module the slot of the module that answers it, once that is known.
pub type Targets = Listed<Option<Slot>>;

/// A module: the file at a path, read under a suffix of its URL, and what its text asks for. Its source and its
/// requests are shared with what is kept of its folder.
#[derive(Drop)]
pub struct Module {
    pub path: Path,
    pub suffix: Suffix,
    pub source: Rc<Bytes>,
    pub requests: Rc<Requests>,
    pub targets: Targets,
}

impl Module {
    /// Whether it has as many targets as requests, and the span of each request lies in its source.
    pub fn is_well_made(&self) -> bool
        ensures { IsTrue result ↔ IsModule self.now }
    {
        let count = self.requests.len();
        if self.targets.len() != count {
            return false;
        }
        for index in 0..count {
            if !self.has_span(index) {
                return false;
            }
        }
        true
    }

    /// Whether the span of a request lies in the source, if there is one with this number.
    fn has_span(&self, index: usize) -> bool
        ensures { IsTrue result ↔ HasSpan self.now index }
    {
        match self.requests.at(index) {
            Some(request) => request.from <= request.to && request.to <= self.source.len(),
            None => true,
        }
    }
}
