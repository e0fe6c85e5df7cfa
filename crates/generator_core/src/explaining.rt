//! What is said of a file that the page may come to load, or why nothing is said.

ghost use Rattle.std.specs.Prelude.{◌≡◌, ◌≤◌, ◌<◌, ◌+◌, ◌++◌, [], IfOk, OnOk, Some, length};
ghost use Rattle.std.specs.Prelude.{option_copied, slice_get, unwrap_or};
ghost use Rattle.std.specs.List.{concat};
ghost use Rattle.slot_arena.specs.Slots.{value_at};
ghost use Rattle.tree_spec.specs.declared.LimitName.TheVariants.{Modules, Requests};
ghost use Rattle.tree_spec.specs.Limits.{limit_number};
ghost use Rattle.trace_graph.specs.Links.{IsLive, module_in};
ghost use Rattle.generation.specs.Generating.{StepsToEnd};
ghost use Rattle.generator_spec.specs.Explaining.{request_line};
ghost use Rattle.generator_spec.specs.Lines as spec;
ghost use Rattle.generator_spec.specs.Statuses.{done_status, not_reached_status};
ghost use Rattle.generator_core.specs.Explaining.{AreLive, ExplainsFile, IsReportBy, specifiers_of, step_lines};

use crate::checking::Report;
use chain_why::{Chain, chain};
use generation::{Stop, traced};
use request_trace::{Config, Slot, Trace};
use run_texts::{DONE, NOT_REACHED, from_page_line, not_reached_line, push_asks_line};
use shared_types::{Memory, Steps};
use std::alloc::Global;
use std::sync::ledger::Ledger;
use tree_model::{Folder, Path};

/// `why` traces, and writes nothing.
pub fn explained<F: Folder, L: Ledger>(
    alloc: Global,
    folder: &mut F,
    config: &Config,
    path: &Path,
    steps: &mut Steps<L>,
) -> Result<Report, Stop>
    ensures explains { ExplainsFile path.now config.now (F.state folder.old) result (F.state folder.new) }
    ensures bounded { steps.new ≤ steps.old + (limit_number Modules + limit_number Requests) }
    ensures to_end { StepsToEnd config.now (F.state folder.old).holds steps.old steps.new }
{
    match traced(alloc, folder, config, steps) {
        Err(stop) => Err(stop),
        Ok(trace) => match reported(alloc, &trace, config, path) {
            Err(_) => {
                drop(trace);
                Err(Stop::Memory)
            }
            Ok(report) => {
                drop(trace);
                Ok(report)
            }
        },
    }
}

// What is said of the path. The page's own is told before any request.
fn reported(alloc: Global, trace: &Trace, config: &Config, path: &Path) -> Result<Report, Memory>
    ensures { IfOk result (IsReportBy trace.now config.now path.now) }
{
    let graph = trace.view();
    let page = config.page();
    if path.as_str() == page.as_str() {
        return page_report(alloc, page);
    }
    match chain(alloc, graph, trace.roots(), path)? {
        None => lost_report(alloc, path),
        Some(found) => chain_report(alloc, trace, config, &found),
    }
}

fn page_report(alloc: Global, page: &Path) -> Result<Report, Memory>
    ensures { IfOk result (λ report. (report.status ≡ done_status)
        × (report.text.items ≡ spec.from_page_line page.now)) }
{
    let text = from_page_line(alloc, page.as_str())?;
    Ok(Report { status: DONE, text })
}

fn lost_report(alloc: Global, path: &Path) -> Result<Report, Memory>
    ensures { IfOk result (λ report. (report.status ≡ not_reached_status)
        × (report.text.items ≡ spec.not_reached_line path.now)) }
{
    let text = not_reached_line(alloc, path.as_str())?;
    Ok(Report {
        status: NOT_REACHED,
        text,
    })
}

fn chain_report(
    alloc: Global,
    trace: &Trace,
    config: &Config,
    found: &Chain,
) -> Result<Report, Memory>
    requires { AreLive trace.now.links.graph found.now }
    ensures { IfOk result (λ report. (report.status ≡ done_status)
        × (report.text.items ≡ spec.from_page_line config.now.page
        ++ concat (step_lines trace.now.links.graph config.now.entries found.now))) }
{
    let mut text = from_page_line(alloc, config.page().as_str())?;
    push_steps(alloc, &mut text, trace, config, found)?;
    Ok(Report { status: DONE, text })
}

// The lines of the requests of a chain, one behind another.
fn push_steps(
    alloc: Global,
    text: &mut Vec<u8>,
    trace: &Trace,
    config: &Config,
    found: &Chain,
) -> Result<(), Memory>
    requires { AreLive trace.now.links.graph found.now }
    ensures { OnOk result (text.new.items
        ≡ text.old.items ++ concat (step_lines trace.now.links.graph config.now.entries found.now)) }
{
    let mut from = None;
    for index in 0..found.len() {
        let (number, slot) = step_at(found, index);
        push_step(alloc, text, trace, config, from, number, slot)?;
        from = Some(slot);
    }
    Ok(())
}

fn step_at(found: &Chain, index: usize) -> (usize, Slot)
    requires { index < length found.now }
    ensures { slice_get found.now index ≡ Some result }
{
    match found.at(index) {
        Some((number, slot)) => (*number, *slot),
        None => unreachable!(),
    }
}

// The line of one request: of the page, or of the module under a slot.
fn push_step(
    alloc: Global,
    text: &mut Vec<u8>,
    trace: &Trace,
    config: &Config,
    from: Option<Slot>,
    number: usize,
    slot: Slot,
) -> Result<(), Memory>
    requires { IsLive trace.now.links.graph slot }
    ensures { OnOk result (text.new.items ≡ text.old.items
        ++ request_line (specifiers_of trace.now.links.graph config.now.entries from) number
        (module_in (value_at trace.now.links.graph slot))) }
{
    let graph = trace.view();
    let specifier = request_at(trace, config, from, number);
    match graph.module(slot) {
        None => Ok(()),
        Some(module) => push_asks_line(
            alloc,
            text,
            specifier,
            module.path().as_str(),
            module.suffix(),
        ),
    }
}

// How a request is spelled, by its number; empty where there is none.
fn request_at<'a>(
    trace: &'a Trace,
    config: &'a Config,
    from: Option<Slot>,
    number: usize,
) -> &'a str
    ensures { result.now
        ≡ unwrap_or (slice_get (specifiers_of trace.now.links.graph config.now.entries from) number) [] }
{
    match from {
        None => entry_at(config, number),
        Some(slot) => asked_at(trace, slot, number),
    }
}

fn entry_at(config: &Config, number: usize) -> &str
    ensures { result.now ≡ unwrap_or (slice_get config.now.entries number) [] }
{
    match config.entries().get(number) {
        None => "",
        Some(entry) => entry.as_str(),
    }
}

fn asked_at<'a>(trace: &'a Trace, slot: Slot, number: usize) -> &'a str
    ensures { result.now
        ≡ unwrap_or (slice_get (specifiers_of trace.now.links.graph [] (Some slot)) number) [] }
{
    let graph = trace.view();
    match graph.module(slot) {
        None => "",
        Some(module) => or_empty(module.request(number)),
    }
}

fn or_empty(text: Option<&str>) -> &str
    ensures { result.now ≡ unwrap_or (option_copied text.entry) [] }
{
    match text {
        None => "",
        Some(text) => text,
    }
}
