//! What a list says of the modules, or why it says nothing.

ghost use Rattle.std.specs.Prelude.{◌≡◌, ◌≤◌, ◌+◌, IfOk, OnOk, option_map, slice_get};
ghost use Rattle.std.specs.List.{concat};
ghost use Rattle.tree_spec.specs.declared.LimitName.TheVariants.{Modules, Requests};
ghost use Rattle.tree_spec.specs.Limits.{limit_number};
ghost use Rattle.trace_graph.specs.Links.{module_of, source_of};
ghost use Rattle.generation.specs.Generating.{StepsToEnd};
ghost use Rattle.generator_spec.specs.Listing.{list_lines};
ghost use Rattle.generator_core.specs.Listing.{IsPushed, Lists};

use crate::checking::Report;
use generation::{Stop, traced};
use request_trace::{Config, ModuleView, Trace};
use run_texts::{DONE, push_module_line};
use shared_types::{Memory, Steps};
use std::alloc::Global;
use std::sync::ledger::Ledger;
use tree_model::Folder;

/// `list` traces, and writes nothing.
pub fn listed<F: Folder, L: Ledger>(
    alloc: Global,
    folder: &mut F,
    config: &Config,
    steps: &mut Steps<L>,
) -> Result<Report, Stop>
    ensures lists { Lists config.now (F.state folder.old) result (F.state folder.new) }
    ensures bounded { steps.new ≤ steps.old + (limit_number Modules + limit_number Requests) }
    ensures to_end { StepsToEnd config.now (F.state folder.old).holds steps.old steps.new }
{
    match traced(alloc, folder, config, steps) {
        Err(stop) => Err(stop),
        Ok(trace) => match module_text(alloc, &trace) {
            Err(_) => {
                drop(trace);
                Err(Stop::Memory)
            }
            Ok(text) => {
                drop(trace);
                Ok(Report { status: DONE, text })
            }
        },
    }
}

// The line of each module, in the order of the trace.
fn module_text(alloc: Global, trace: &Trace) -> Result<Vec<u8>, Memory>
    ensures { IfOk result (λ text. text.items ≡ concat (list_lines trace.now.gathered)) }
{
    let mut text = Vec::new(alloc);
    for place in 0..trace.len() {
        push_module(alloc, &mut text, trace, place)?;
    }
    Ok(text)
}

fn push_module(alloc: Global, text: &mut Vec<u8>, trace: &Trace, place: usize) -> Result<(), Memory>
    ensures { OnOk result (IsPushed trace.now.gathered place text.old.items text.new.items) }
{
    match module_at(trace, place) {
        None => Ok(()),
        Some(module) => push_module_line(
            alloc,
            text,
            module.path().as_str(),
            module.suffix(),
            module.requests(),
        ),
    }
}

// The module at a place, as the trace's graph shows it.
fn module_at(trace: &Trace, place: usize) -> Option<ModuleView<'_>>
    ensures module { option_map module_of result ≡ slice_get trace.now.gathered.modules place }
    ensures source { option_map source_of result ≡ slice_get trace.now.gathered.sources place }
{
    let graph = trace.view();
    match trace.slot(place) {
        Some(slot) => graph.module(slot),
        None => None,
    }
}
