ghost use Rattle.std.specs.Prelude.{◌≡◌, IfOk, OnOk, option_map, slice_get};
ghost use Rattle.std.specs.FinMap.{entries};
ghost use Rattle.trace_graph.specs.Links.{source_of};
ghost use Rattle.generator_spec.specs.Digests as definition;
ghost use Rattle.generation.specs.Digesting.{IsPut, kept_texts};

use crate::digester::Digester;
use request_trace::{Config, ModuleView, Trace};
use scope_builder::Mappings;
use shared_types::{Memory, Text};
use std::alloc::Global;
use std::collections::BTreeMap;

/// Digests under URLs.
type Digests = BTreeMap<Text, Text>;

/// The digests of a trace's modules, each under the module's URL. A URL stands there once.
pub(crate) fn digests<D: Digester>(
    alloc: Global,
    config: &Config,
    trace: &Trace,
    digester: &mut D,
) -> Result<Mappings, Memory>
    ensures { IfOk result (λ pairs. pairs
        ≡ entries (definition.digests config.now trace.now.gathered.modules trace.now.gathered.sources)) }
{
    let mut kept = Digests::new(alloc);
    let mut place = trace.len();
    while place > 0 {
        place -= 1;
        put(alloc, &mut kept, config, trace, digester, place)?;
    }
    Mappings::from_map(alloc, kept)
}

// Puts the digest of the module at a place.
fn put<D: Digester>(
    alloc: Global,
    kept: &mut Digests,
    config: &Config,
    trace: &Trace,
    digester: &mut D,
    place: usize,
) -> Result<(), Memory>
    ensures { OnOk result (IsPut config.now trace.now.gathered place (kept_texts kept.old) (kept_texts kept.new)) }
{
    let url = trace.url(alloc, config.base(), place)?;
    let (Some(url), Some(module)) = (url, module_at(trace, place)) else {
        return Ok(());
    };
    put_digest(alloc, kept, digester, url, &module)
}

// The module at a place.
pub(crate) fn module_at(trace: &Trace, place: usize) -> Option<ModuleView<'_>>
    ensures { option_map source_of result ≡ slice_get trace.now.gathered.sources place }
{
    let _shown = trace.view();
    trace.graph().module(place)
}

// Puts the digest of a module that has this URL.
fn put_digest<D: Digester>(
    alloc: Global,
    kept: &mut Digests,
    digester: &mut D,
    url: Text,
    module: &ModuleView<'_>,
) -> Result<(), Memory>
    ensures { OnOk result (kept_texts kept.new
        ≡ definition.with_digest (Some url) module.now.source.value (kept_texts kept.old)) }
{
    let digest = digester.digest(alloc, module)?;
    kept.insert(url, digest)?;
    Ok(())
}
