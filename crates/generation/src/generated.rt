ghost use Rattle.std.specs.Prelude.{◌≡◌, ◌+◌, Err, IfOk, Some};
ghost use Rattle.fewest_spec.specs.Wishes.{HasTooManyChoices};
ghost use Rattle.layout.specs.Layouts.{FewestLists};
ghost use Rattle.request_trace.specs.Footprints.{IsFootprint};
ghost use Rattle.request_trace.specs.Tracing.{TakesSteps, TakesStepsToEnd};
ghost use Rattle.std.specs.FinMap.{entries};
ghost use Rattle.generator_spec.specs.Digests as definition;
ghost use Rattle.generator_spec.specs.Generation.{PageIsFile};
ghost use Rattle.trace_spec.specs.Modules.{web_name};
ghost use Rattle.trace_spec.specs.Walking.{the_page};
ghost use Rattle.generation.specs.Generating.{Generating, GeneratingOver, IsMapOf, HasLargeMap};
ghost use Rattle.generation.specs.Generating.{StepsToEnd, generated_of};
ghost use Rattle.generation.specs.Mapping.{MapsTrace};

use crate::digester::ComputedDigests;
use crate::digests::digests;
use crate::kept_layout::KeptLayout;
use crate::kept_map::KeptMap;
use crate::kept_page::KeptPage;
use crate::kept_pairs::KeptPairs;
use crate::page::page_url;
use crate::stop::{Stop, too_large, too_many_choices};
use crate::tracing::traced_over;
use layout::{LayoutFault, layout, mappings};
use map_print::{PrintFault, print_map};
use package_lookup::Known;
use request_trace::{Config, Trace};
use scope_builder::{Layout, Mappings};
use shared_types::Steps;
use std::alloc::Global;
use std::sync::ledger::Ledger;
use tree_model::Folder;
use web_url::WebUrl;

/// A map's text, and the counts that are told of it: the modules of its trace without the page, its requests, and the
/// mappings of its layout.
#[derive(Drop)]
pub struct Generated {
    pub map: Vec<u8>,
    pub modules: usize,
    pub requests: usize,
    pub mappings: usize,
}

/// The map of what stands in the folder, for the config. Nothing is written, and no path is looked at twice. A map
/// takes at most one step for each module and for each request, and where the trace is refused, up to the refusal.
pub fn generate<F: Folder, L: Ledger>(
    alloc: Global,
    folder: &mut F,
    config: &Config,
    steps: &mut Steps<L>,
) -> Result<Generated, Stop>
    ensures generates { Generating config.now (F.state folder.old) result (F.state folder.new) }
    ensures page { IfOk result (λ found. PageIsFile config.now) }
    ensures steps { TakesSteps result (λ found. found.modules + found.requests) steps.old steps.new }
    ensures to_end { StepsToEnd config.now (F.state folder.old).holds steps.old steps.new }
{
    let mut known = Known::new(alloc);
    generate_over(alloc, folder, &mut known, config, steps)
}

/// The same, where something is known of the folder: the looks that are laid over it, and those that were kept. It is
/// asked for no path that is known.
pub fn generate_over<F: Folder, L: Ledger>(
    alloc: Global,
    folder: &mut F,
    known: &mut Known,
    config: &Config,
    steps: &mut Steps<L>,
) -> Result<Generated, Stop>
    ensures generates { GeneratingOver config.now (F.state folder.old) known.old result
        (F.state folder.new) known.new }
    ensures page { IfOk result (λ found. PageIsFile config.now) }
    ensures steps { TakesSteps result (λ found. found.modules + found.requests) steps.old steps.new }
    ensures to_end { TakesStepsToEnd config.now (F.state folder.old) known.old steps.old steps.new }
{
    match generate_traced(alloc, folder, known, config, steps) {
        Err(stop) => Err(stop),
        Ok((generated, _trace)) => Ok(generated),
    }
}

/// The same, with the trace from which the map came.
pub fn generate_traced<F: Folder, L: Ledger>(
    alloc: Global,
    folder: &mut F,
    known: &mut Known,
    config: &Config,
    steps: &mut Steps<L>,
) -> Result<(Generated, Trace), Stop>
    ensures generates { GeneratingOver config.now (F.state folder.old) known.old (generated_of result)
        (F.state folder.new) known.new }
    ensures page { IfOk result (λ found. PageIsFile config.now) }
    ensures of_trace { IfOk result (λ found. IsMapOf config.now found.1.gathered found.0) }
    ensures footprint { IfOk result (λ found. IsFootprint config.now (F.state folder.old) known.old known.new
        found.1.footprint) }
    ensures steps { TakesSteps result (λ found. found.0.modules + found.0.requests) steps.old steps.new }
    ensures to_end { TakesStepsToEnd config.now (F.state folder.old) known.old steps.old steps.new }
{
    match traced_over(alloc, folder, known, config, steps) {
        Err(stop) => Err(stop),
        Ok(trace) => match map_of(alloc, config, &trace) {
            Err(stop) => Err(stop),
            Ok(generated) => Ok((generated, trace)),
        },
    }
}

/// The map of a trace, with its counts, or why there is none, whatever made the trace. Nothing is looked at.
pub fn map_of(alloc: Global, config: &Config, trace: &Trace) -> Result<Generated, Stop>
    ensures maps { MapsTrace config.now trace.now.gathered result }
    ensures page { IfOk result (λ found. PageIsFile config.now) }
{
    match layout(alloc, trace.needs()) {
        Ok(layout) => map_anew(alloc, config, trace, &layout),
        Err(LayoutFault::TooManyChoices) => Err(too_many_choices()),
        Err(LayoutFault::Memory) => Err(Stop::Memory),
    }
}

/// The same map, whatever is kept of earlier ones: what they have in common with it isn't made anew. What is made anew
/// is kept for later ones.
pub fn map_by(
    alloc: Global,
    config: &Config,
    trace: &Trace,
    kept: &mut KeptMap,
) -> Result<Generated, Stop>
    ensures maps { MapsTrace config.now trace.now.gathered result }
    ensures page { IfOk result (λ found. PageIsFile config.now) }
{
    kept.digests.make_room(trace.len());
    match KeptLayout::again(alloc, kept.layout.take(), trace.needs()) {
        Ok(laid) => {
            let found = map_again(alloc, config, trace, laid.layout(), kept);
            kept.layout = Some(laid);
            found
        }
        Err(LayoutFault::TooManyChoices) => Err(too_many_choices()),
        Err(LayoutFault::Memory) => Err(Stop::Memory),
    }
}

// The map of a trace, where this is the layout of its needs.
fn map_anew(
    alloc: Global,
    config: &Config,
    trace: &Trace,
    layout: &Layout,
) -> Result<Generated, Stop>
    requires fewest { FewestLists trace.now.gathered.needs layout.now }
    requires few { HasTooManyChoices trace.now.gathered.needs → ⊥ }
    ensures maps { MapsTrace config.now trace.now.gathered result }
    ensures page { IfOk result (λ found. PageIsFile config.now) }
{
    match page_url(alloc, config) {
        Err(stop) => Err(stop),
        Ok(page) => match digests(alloc, config, trace, &mut ComputedDigests {}) {
            Err(_) => Err(Stop::Memory),
            Ok(digests) => map_laid(alloc, config, &page, trace, layout, &digests),
        },
    }
}

// The same, where the page's URL and digests are kept.
fn map_again(
    alloc: Global,
    config: &Config,
    trace: &Trace,
    layout: &Layout,
    kept: &mut KeptMap,
) -> Result<Generated, Stop>
    requires fewest { FewestLists trace.now.gathered.needs layout.now }
    requires few { HasTooManyChoices trace.now.gathered.needs → ⊥ }
    ensures maps { MapsTrace config.now trace.now.gathered result }
    ensures page { IfOk result (λ found. PageIsFile config.now) }
{
    match KeptPage::again(alloc, kept.page.take(), config) {
        Err(stop) => Err(stop),
        Ok(page) => {
            let found = map_at(alloc, config, page.url(), trace, layout, kept);
            kept.page = Some(page);
            found
        }
    }
}

// The same, where the page is served at this URL.
fn map_at(
    alloc: Global,
    config: &Config,
    page: &WebUrl,
    trace: &Trace,
    layout: &Layout,
    kept: &mut KeptMap,
) -> Result<Generated, Stop>
    requires page { web_name config.now the_page ≡ Some page.now }
    requires file { PageIsFile config.now }
    requires fewest { FewestLists trace.now.gathered.needs layout.now }
    requires few { HasTooManyChoices trace.now.gathered.needs → ⊥ }
    ensures maps { MapsTrace config.now trace.now.gathered result }
    ensures page { IfOk result (λ found. PageIsFile config.now) }
{
    match KeptPairs::again(alloc, kept.pairs.take(), config, trace, &mut kept.digests) {
        Err(_) => Err(Stop::Memory),
        Ok(pairs) => {
            let found = map_laid(alloc, config, page, trace, layout, pairs.pairs());
            kept.pairs = Some(pairs);
            found
        }
    }
}

// The map of a trace, where these are the layout of its needs and the digests of its modules, and the page is served at
// this URL.
fn map_laid(
    alloc: Global,
    config: &Config,
    page: &WebUrl,
    trace: &Trace,
    layout: &Layout,
    digests: &Mappings,
) -> Result<Generated, Stop>
    requires page { web_name config.now the_page ≡ Some page.now }
    requires file { PageIsFile config.now }
    requires fewest { FewestLists trace.now.gathered.needs layout.now }
    requires few { HasTooManyChoices trace.now.gathered.needs → ⊥ }
    requires digests { digests.now
        ≡ entries (definition.digests config.now trace.now.gathered.modules trace.now.gathered.sources) }
    ensures maps { MapsTrace config.now trace.now.gathered result }
    ensures page { IfOk result (λ found. PageIsFile config.now) }
{
    match printed(alloc, config, page, trace, layout, digests) {
        Ok(generated) => Ok(generated),
        Err(PrintFault::MapTooLarge) => Err(too_large()),
        Err(PrintFault::Memory) => Err(Stop::Memory),
    }
}

// The map, printed.
fn printed(
    alloc: Global,
    config: &Config,
    page: &WebUrl,
    trace: &Trace,
    layout: &Layout,
    digests: &Mappings,
) -> Result<Generated, PrintFault>
    requires page { web_name config.now the_page ≡ Some page.now }
    requires fewest { FewestLists trace.now.gathered.needs layout.now }
    requires few { HasTooManyChoices trace.now.gathered.needs → ⊥ }
    requires digests { digests.now
        ≡ entries (definition.digests config.now trace.now.gathered.modules trace.now.gathered.sources) }
    ensures map { IfOk result (IsMapOf config.now trace.now.gathered) }
    ensures too_large { result ≡ Err PrintFault.MapTooLarge → HasLargeMap config.now trace.now.gathered }
{
    let map = print_map(alloc, layout, digests, page)?;
    let Some(mappings) = mappings(layout) else {
        return Err(PrintFault::Memory);
    };
    Ok(Generated {
        map,
        modules: trace.len(),
        requests: trace.request_count(),
        mappings,
    })
}
