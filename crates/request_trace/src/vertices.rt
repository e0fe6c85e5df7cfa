ghost use Rattle.std.specs.Prelude.{◌≡◌, ◌<◌, ◌++◌, ◌∷◌, [], IfOk, length};
ghost use Rattle.module_sources.specs.Shown.{AreInside};
ghost use Rattle.trace_walk.specs.Walking.{AllInside};
ghost use Rattle.request_trace.specs.Joining.{IsVertex, AreJoined};

use indexmap::IndexMap;
use module_sources::Source;
use shared_types::{Listed, Memory, Text};
use std::alloc::Global;
use trace_graph::Vertex;
use trace_walk::{Module, Name};

/// The modules of a walk for a graph, the last one first, and the texts of their names in trace order.
#[derive(Drop)]
pub(crate) struct Joined {
    pub(crate) vertices: Vec<Vertex>,
    pub(crate) names: Vec<Text>,
}

/// Joins each module with its source. Both tables are emptied from their ends, so that nothing is held twice.
pub(crate) fn join(
    alloc: Global,
    modules: IndexMap<Module, Name>,
    sources: Vec<Source>,
) -> Result<Joined, Memory>
    requires beside { length sources.items ≡ length modules.entries }
    requires inside { AllInside sources.items }
    ensures { IfOk result (AreJoined modules.entries sources.items) }
{
    let mut vertices = Vec::with_capacity(alloc, modules.len())?;
    let mut names = Vec::with_capacity(alloc, modules.len())?;
    let mut waiting = modules;
    let mut unread = sources;
    while let Some((module, name)) = waiting.pop() {
        let source = last_of(&mut unread);
        vertices.push_reserved(vertex(alloc, module, source)?);
        names.push_reserved(text_of(name));
    }
    names.reverse();
    Ok(Joined { vertices, names })
}

// The last source, taken out.
fn last_of(sources: &mut Vec<Source>) -> Source
    requires { 0 < length sources.old.items }
    ensures { sources.old.items ≡ sources.new.items ++ result ∷ [] }
{
    sources.pop().unwrap()
}

// A module with its source, which waits for the targets of its requests.
fn vertex(alloc: Global, reached: Module, source: Source) -> Result<Vertex, Memory>
    requires { AreInside source.bytes.value source.requests.value }
    ensures { IfOk result (IsVertex reached source) }
{
    let mut targets = Vec::new(alloc);
    targets.resize(source.requests.len(), None)?;
    let (path, suffix) = reached.into_parts();
    let Source { bytes, requests } = source;
    Ok(Vertex {
        path,
        suffix,
        source: bytes,
        requests,
        targets: Listed::from_vec(targets),
    })
}

fn text_of(name: Name) -> Text
    ensures { result ≡ name.text }
{
    let Name { url: _url, text } = name;
    text
}
