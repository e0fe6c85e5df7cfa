ghost use Rattle.std.specs.Prelude.{◌≡◌, ◌↔◌, ◌+◌, ◌≤◌, IfOk, IfSome, None, length, slice_get, option_map, option_and_then, option_copied};
ghost use Rattle.tree_spec.specs.declared.LimitName.TheVariants.{Requests};
ghost use Rattle.tree_spec.specs.Limits.{limit_number};
ghost use Rattle.layout_spec.specs.Needs.{NoClash};
ghost use Rattle.url_spec.specs.WebNames.{web};
ghost use Rattle.trace_walk.specs.Shown.{before_of};
ghost use Rattle.trace_walk.specs.Walking.{AreBeside, AreOfUrls, IsWhole, module_requests};
ghost use Rattle.module_graph.specs.Graphs.{AreModules};
ghost use Rattle.trace_graph.specs.Links.{IsLinked, IsLive, module_of, source_of};
ghost use Rattle.request_trace.specs.Naming.{AllNamedAt};
ghost use Rattle.request_trace.specs.Showing.{Shows, bytes_at};
ghost use Rattle.request_trace.specs.Tracing.{CountsModules};

use crate::vertices::{Joined, join};
use need_table::Needs;
use package_lookup::Trail;
use shared_types::{Memory, Text};
use std::alloc::{AllocError, Global};
use std::marker::Model;
use trace_graph::{ModuleView, Slot, TraceGraph, View};
use trace_walk::{Spelling, Tables};
use tree_model::Path;
use web_url::{Base, WebFault, web_of};

/// What a trace holds: its modules, in a graph and in trace order, with the texts of their names at its base; the needs;
/// how many requests were followed; and where was looked.
pub struct Trace {
    base: Base,
    graph: TraceGraph,
    names: Vec<Text>,
    needs: Needs,
    spellings: Vec<Spelling>,
    requests: usize,
    trail: Trail,
}

// Written out, since a function that drops a trace is then proved far sooner.
impl Drop for Trace {
    fn drop(self) {
        let Trace {
            base: _,
            graph: _,
            names: _,
            needs: _,
            spellings: _,
            requests: _,
            trail: _,
        } = self;
    }
}

impl Model for Trace {
    ghost use Rattle.request_trace.specs.Showing.{Traced, traced_in, gathered_in, IsTraceAt};

    ghost Value = { Traced };

    ghost view = { λ t. traced_in t.graph t.needs t.spellings.items t.trail.paths };

    ghost invariant = { λ t. IsTraceAt t.base t.names.items t.requests
        (gathered_in t.graph t.needs t.spellings.items) };
}

impl Trace {
    /// The trace that these tables hold, whose modules are named at this base. The page's requests are the first ones.
    pub(crate) fn of(
        alloc: Global,
        base: Base,
        tables: Tables,
        entries: usize,
        trail: Trail,
    ) -> Result<Trace, Memory>
        requires whole { IsWhole (before_of tables) }
        requires named { AllNamedAt base tables.modules.entries }
        requires beside { AreBeside tables }
        requires counted { length tables.targets.items ≡ entries + module_requests (before_of tables).sources }
        ensures gathered { IfOk result (λ trace. trace.gathered ≡ before_of tables) }
        ensures entries { IfOk result (λ trace. length trace.links.roots ≡ entries) }
        ensures footprint { IfOk result (λ trace. trace.footprint ≡ trail.paths) }
    {
        let Tables {
            modules,
            sources,
            needs,
            spellings,
            targets,
        } = tables;
        let parts = join(alloc, modules, sources)?;
        let Joined { vertices, names } = parts;
        let graph = TraceGraph::of(alloc, vertices, &targets, entries)?;
        Ok(Trace {
            base,
            graph,
            names,
            needs,
            spellings,
            requests: targets.len(),
            trail,
        })
    }

    /// The paths at which was looked for the trace, each once, in the order of first looks.
    pub fn footprint(&self) -> &[Path]
        ensures { result.now ≡ self.now.footprint }
    {
        self.trail.paths()
    }

    /// The modules under slots, in trace order, with the slots to which the entries lead.
    pub fn graph(&self) -> &TraceGraph
        ensures { result.now ≡ self.now.links }
    {
        &self.graph
    }

    /// The modules as a graph: each has one slot, and each of their requests has the slot of the module to which it
    /// leads.
    pub fn view(&self) -> View<'_>
        ensures graph { result ≡ self.now.links.graph }
        ensures shows { Shows self.now }
        ensures linked { IsLinked self.now.links }
        ensures modules { AreModules self.now.links.graph }
    {
        self.graph.view()
    }

    /// The slot of the module at a place.
    pub fn slot(&self, place: usize) -> Option<Slot>
        ensures slot { result ≡ slice_get self.now.links.slots place }
        ensures none { (result ≡ None) ↔ (length self.now.gathered.modules ≤ place) }
        ensures live { IfSome result (IsLive self.now.links.graph) }
    {
        self.graph.slot(place)
    }

    /// The slot of the module to which the entry with this number leads, counted from 0.
    pub fn root(&self, entry: usize) -> Option<Slot>
        ensures slot { result ≡ slice_get self.now.links.roots entry }
        ensures none { (result ≡ None) ↔ (length self.now.links.roots ≤ entry) }
        ensures live { IfSome result (IsLive self.now.links.graph) }
    {
        self.graph.root(entry)
    }

    /// The slots of the modules to which the entries lead.
    pub fn roots(&self) -> &[Slot]
        ensures { result.now ≡ self.now.links.roots }
    {
        self.graph.roots()
    }

    /// The needs, each at its first place. The referrer of each parses to itself.
    pub fn needs(&self) -> &Needs
        ensures needs { result.now ≡ self.now.gathered.needs }
        ensures clear { NoClash self.now.gathered.needs }
        ensures urls { AreOfUrls self.now.gathered.needs }
    {
        &self.needs
    }

    /// How the need with this number, counted from 0, is first spelled.
    pub fn spelling(&self, number: usize) -> Option<&Spelling>
        ensures { option_copied result ≡ slice_get self.now.gathered.spellings number }
    {
        self.spellings.get(number)
    }

    /// The number of modules.
    pub fn len(&self) -> usize
        ensures { CountsModules self.now.gathered result }
    {
        self.graph.len()
    }

    /// How many requests were followed: those of the page, and all those of the modules.
    pub fn request_count(&self) -> usize
        ensures requests { result ≡ length self.now.gathered.targets }
        ensures few { result ≤ limit_number Requests }
        ensures of_modules { module_requests self.now.gathered.sources ≤ result }
    {
        self.requests
    }

    /// The path of the module at a place.
    pub fn path(&self, place: usize) -> Option<&Path>
        ensures { option_copied result ≡ option_map (λ m. m.path) (slice_get self.now.gathered.modules place) }
    {
        match self.module(place) {
            None => None,
            Some(module) => Some(module.path()),
        }
    }

    /// The suffix of the module at a place.
    pub fn suffix(&self, place: usize) -> Option<&str>
        ensures { option_copied result ≡ option_map (λ m. m.suffix) (slice_get self.now.gathered.modules place) }
    {
        match self.module(place) {
            None => None,
            Some(module) => Some(module.suffix()),
        }
    }

    /// The URL of the module at a place, at this base, whether or not it is served there. At the base of the trace it
    /// shares the memory of the module's name.
    pub fn url(&self, alloc: Global, base: &Base, place: usize) -> Result<Option<Text>, Memory>
        ensures { IfOk result (λ found. found
            ≡ option_and_then (λ m. web base.now m.path m.suffix) (slice_get self.now.gathered.modules place)) }
    {
        if base.as_str() == self.base.as_str() {
            return name_at(alloc, &self.names, place);
        }
        match self.module(place) {
            None => Ok(None),
            Some(module) => url_of(alloc, base, &module),
        }
    }

    /// The bytes of the module at a place. Each module has its source, as `len` says.
    pub fn bytes(&self, place: usize) -> Option<&[u8]>
        ensures { option_copied result ≡ bytes_at self.now place }
    {
        match self.module(place) {
            None => None,
            Some(module) => Some(module.source()),
        }
    }

    /// How many requests the module at a place has.
    pub fn requests(&self, place: usize) -> Option<usize>
        ensures { result ≡ option_map (λ source. length source.specifiers) (slice_get self.now.gathered.sources place) }
    {
        match self.module(place) {
            None => None,
            Some(module) => Some(module.requests()),
        }
    }

    /// What the module at a place asks for in its request with this number, counted from 0.
    pub fn request(&self, place: usize, number: usize) -> Option<&str>
        ensures { option_copied result ≡ option_and_then (λ source. slice_get source.specifiers number)
            (slice_get self.now.gathered.sources place) }
    {
        match self.module(place) {
            None => None,
            Some(module) => module.request(number),
        }
    }

    // The module at a place.
    fn module(&self, place: usize) -> Option<ModuleView<'_>>
        ensures module { slice_get self.now.gathered.modules place ≡ option_map module_of result }
        ensures source { slice_get self.now.gathered.sources place ≡ option_map source_of result }
    {
        self.graph.module(place)
    }
}

// A copy of the name at a place.
fn name_at(alloc: Global, names: &Vec<Text>, place: usize) -> Result<Option<Text>, Memory>
    ensures { IfOk result (λ found. found ≡ slice_get names.now.items place) }
{
    match names.get(place) {
        None => Ok(None),
        Some(name) => Ok(Some(name.copy(alloc)?)),
    }
}

// The URL of a module at a base, whether or not it is served there.
fn url_of(alloc: Global, base: &Base, target: &ModuleView<'_>) -> Result<Option<Text>, Memory>
    ensures { IfOk result (λ found. found ≡ web base.now target.now.path target.now.suffix) }
{
    match web_of(alloc, base, target.path(), target.as_suffix()) {
        Ok(url) => Ok(Some(url.into_text(alloc)?)),
        Err(WebFault::Unservable { url: Some(url) }) => Ok(Some(url.into_text(alloc)?)),
        Err(WebFault::Unservable { url: None }) => Ok(None),
        Err(WebFault::Memory) => Err(AllocError),
    }
}
