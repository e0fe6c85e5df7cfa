//! What a command says of the map that is there, or why it says nothing.

ghost use Rattle.std.specs.Prelude.{◌≡◌, ◌≤◌, ◌+◌, ◌++◌, [], ◌∷◌, length, map, IfOk, OnOk, IfSome, Some};
ghost use Rattle.std.specs.List.{concat};
ghost use Rattle.tree_spec.specs.declared.LimitName.TheVariants.{Modules, Requests};
ghost use Rattle.tree_spec.specs.Limits.{limit_number};
ghost use Rattle.trace_spec.specs.Modules as modules;
ghost use Rattle.trace_spec.specs.Modules.{web_name};
ghost use Rattle.trace_spec.specs.Walking.{the_page};
ghost use Rattle.map_check.specs.Shown.{shown};
ghost use Rattle.config_spec.specs.declared.Command.{Command};
ghost use Rattle.generator_spec.specs.Checking as spec_at;
ghost use Rattle.generator_spec.specs.Checking.{difference_line, difference_lines};
ghost use Rattle.generator_spec.specs.Commands as spec_files;
ghost use Rattle.generator_spec.specs.Commands.{HoldsMap};
ghost use Rattle.generator_core.specs.Checking.{AsksGrammar, Checks, ChecksBy, FindsMapText, FindsMap, IsNameless};
ghost use Rattle.generator_core.specs.Checking.{IsReportOf, IsTold, IsToldStrictly, Reports};
ghost use Rattle.generator_core.specs.Spending.{FitsTrace};
ghost use Rattle.generator_core.specs.Strictness.{further_steps, module_steps};

use crate::paths::map_path;
use crate::strictness::push_strict;
use generation::{Stop, traced};
use generator_spec::{MapFileFault, Refusal};
use map_check::{Difference, Differences, check_map};
use map_parse::{MapFault, ParsedMap, parse_map};
use request_trace::{Config, Trace};
use run_texts::{DIFFERENCES, DONE, differences_line, differs_line, served_line};
use shared_types::{Bytes, Listed, Memory, Steps, Text};
use std::alloc::{AllocError, Global};
use std::sync::ledger::Ledger;
use trace_spec::TraceFault;
use tree_model::{Folder, Look, LookFault, Path};
use tree_spec::MOST_MAP_BYTES;
use web_url::{Suffix, WebFault, WebUrl, web_of};

/// What is said of a map or of modules, all its lines, and the status.
#[derive(Drop)]
pub struct Report {
    pub status: u8,
    pub text: Vec<u8>,
}

/// `check` reads the map before anything else, traces, and writes nothing. Strictly, it reads each module once more, by
/// the statement grammar.
pub fn checked<F: Folder, L: Ledger>(
    alloc: Global,
    folder: &mut F,
    config: &Config,
    strictly: bool,
    steps: &mut Steps<L>,
) -> Result<Report, Stop>
    ensures checks { (command : Command) → AsksGrammar command strictly
        → Checks command config.now (F.state folder.old) result (F.state folder.new) }
    ensures bounded { steps.new
        ≤ steps.old + (limit_number Modules + limit_number Requests) + further_steps strictly }
    ensures by_trace { (command : Command) → AsksGrammar command strictly
        → FitsTrace command config.now (F.state folder.old).holds steps.old steps.new }
{
    match map_text(alloc, folder) {
        Err(stop) => Err(stop),
        Ok(text) => match map_of(alloc, config, text.as_slice()) {
            Err(stop) => Err(stop),
            Ok(parsed) => {
                let said = checked_by(alloc, folder, config, &parsed, strictly, steps);
                drop(parsed);
                said
            }
        },
    }
}

// Looks at the map's file, once.
fn map_text<F: Folder>(alloc: Global, folder: &mut F) -> Result<Bytes, Stop>
    ensures { FindsMapText (F.state folder.old) result (F.state folder.new) }
{
    match map_path(alloc) {
        Ok(path) => text_at(alloc, folder, &path),
        Err(_) => Err(Stop::Memory),
    }
}

// The text of the map at its path.
fn text_at<F: Folder>(alloc: Global, folder: &mut F, path: &Path) -> Result<Bytes, Stop>
    ensures { path.now ≡ spec_files.map_path → FindsMapText (F.state folder.old) result (F.state folder.new) }
{
    match folder.look(alloc, path, MOST_MAP_BYTES as u64) {
        Ok(Look::Absent) => Err(without_map(MapFileFault::Absent)),
        Ok(Look::Folder) => Err(without_map(MapFileFault::Absent)),
        Ok(Look::TooLarge) => Err(without_map(MapFileFault::TooLarge)),
        Ok(Look::File(bytes)) => Ok(bytes),
        Err(LookFault::Failed) => Err(Stop::ReadFault),
        Err(LookFault::Memory) => Err(Stop::Memory),
    }
}

fn without_map(fault: MapFileFault) -> Stop
    ensures { result ≡ Stop.Refused (Refusal.MapFile fault) }
{
    Stop::Refused {
        why: Refusal::MapFile { fault },
    }
}

// The map of its text, read against the page's URL.
fn map_of(alloc: Global, config: &Config, text: &[u8]) -> Result<ParsedMap, Stop>
    ensures { FindsMap config.now text.now result }
{
    match map_base(alloc, config) {
        Err(_) => Err(Stop::Memory),
        Ok(None) => Err(without_base(alloc, config)),
        Ok(Some(base)) => map_at(alloc, text, &base),
    }
}

// The same, where this is the page's URL.
fn map_at(alloc: Global, text: &[u8], base: &WebUrl) -> Result<ParsedMap, Stop>
    ensures { (config : modules.Config) → web_name config the_page ≡ Some base.now → FindsMap config text.now result }
{
    match parse_map(alloc, text, base) {
        Ok(parsed) => Ok(parsed),
        Err(MapFault::NotJson { at }) => Err(without_map(MapFileFault::NotJson { at })),
        Err(MapFault::TooDeep { at: _ }) => Err(without_map(MapFileFault::TooDeep)),
        Err(MapFault::NotObject { which }) => Err(without_map(MapFileFault::NotObject { which })),
        Err(MapFault::Memory) => Err(Stop::Memory),
    }
}

// The page's URL, whether or not it is served there.
fn map_base(alloc: Global, config: &Config) -> Result<Option<WebUrl>, Memory>
    ensures { IfOk result (λ found. web_name config.now the_page ≡ found) }
{
    let suffix = Suffix::none(alloc);
    match web_of(alloc, config.base(), config.page(), &suffix) {
        Ok(url) => Ok(Some(url)),
        Err(WebFault::Unservable { url }) => Ok(url),
        Err(WebFault::Memory) => Err(AllocError),
    }
}

// The page has no URL, and so no trace.
fn without_base(alloc: Global, config: &Config) -> Stop
    ensures { IsNameless config.now result }
{
    match Text::of(alloc, config.page().as_str()) {
        Err(_) => Stop::Memory,
        Ok(path) => Stop::Refused {
            why: Refusal::Trace {
                fault: TraceFault::Unservable { path, url: None },
            },
        },
    }
}

// Traces, and says what the map doesn't serve, and which modules don't agree, where that is asked for.
fn checked_by<F: Folder, L: Ledger>(
    alloc: Global,
    folder: &mut F,
    config: &Config,
    parsed: &ParsedMap,
    strictly: bool,
    steps: &mut Steps<L>,
) -> Result<Report, Stop>
    ensures checks { IfSome (F.state folder.old).holds (λ tree. HoldsMap tree config.now parsed.now)
        → (command : Command) → AsksGrammar command strictly
        → ChecksBy command config.now (F.state folder.old) result (F.state folder.new) }
    ensures bounded { steps.new
        ≤ steps.old + (limit_number Modules + limit_number Requests) + further_steps strictly }
    ensures by_trace { IfSome (F.state folder.old).holds (λ tree. HoldsMap tree config.now parsed.now)
        → (command : Command) → AsksGrammar command strictly
        → FitsTrace command config.now (F.state folder.old).holds steps.old steps.new }
{
    match traced(alloc, folder, config, steps) {
        Err(stop) => Err(stop),
        Ok(trace) => {
            let said = report_of(alloc, &trace, parsed, strictly, steps);
            drop(trace);
            said
        }
    }
}

// What the map doesn't serve of a trace's needs, and which modules don't agree, where that is asked for.
fn report_of<L: Ledger>(
    alloc: Global,
    trace: &Trace,
    parsed: &ParsedMap,
    strictly: bool,
    steps: &mut Steps<L>,
) -> Result<Report, Stop>
    ensures reports { (command : Command) → AsksGrammar command strictly
        → Reports command parsed.now trace.now.gathered result }
    ensures cost { steps.new ≤ steps.old + further_steps strictly }
    ensures counted { steps.new ≤ steps.old + module_steps strictly trace.now.gathered }
{
    match differing(alloc, trace, parsed) {
        Err(_) => Err(Stop::Memory),
        Ok(lines) => {
            if strictly {
                reported_strictly(alloc, trace, lines, steps)
            } else {
                reported(alloc, trace, &lines)
            }
        }
    }
}

// With the lines of the modules behind those of the needs.
fn reported_strictly<L: Ledger>(
    alloc: Global,
    trace: &Trace,
    mut lines: Listed<Bytes>,
    steps: &mut Steps<L>,
) -> Result<Report, Stop>
    ensures reports { IsToldStrictly trace.now.gathered lines result }
    ensures cost { steps.new ≤ steps.old + limit_number Modules }
    ensures counted { steps.new ≤ steps.old + length trace.now.gathered.modules }
{
    match push_strict(alloc, &mut lines, trace, steps) {
        Err(stop) => Err(stop),
        Ok(()) => reported(alloc, trace, &lines),
    }
}

fn reported(alloc: Global, trace: &Trace, lines: &Listed<Bytes>) -> Result<Report, Stop>
    ensures { IsTold (length trace.now.gathered.needs) lines.now result }
{
    match report_with(alloc, trace.needs().len(), lines) {
        Err(_) => Err(Stop::Memory),
        Ok(report) => Ok(report),
    }
}

// These lines of what differs, and how many; or the number of the needs, where there are none.
fn report_with(alloc: Global, needs: usize, lines: &Listed<Bytes>) -> Result<Report, Memory>
    ensures { IfOk result (IsReportOf needs lines.now) }
{
    if lines.is_empty() {
        return Ok(Report {
            status: DONE,
            text: served_line(alloc, needs)?,
        });
    }
    let mut text = joined(alloc, lines)?;
    let last = differences_line(alloc, lines.len())?;
    text.extend_from_slice(last.as_slice())?;
    Ok(Report {
        status: DIFFERENCES,
        text,
    })
}

// The lines, one after another.
fn joined(alloc: Global, lines: &Listed<Bytes>) -> Result<Vec<u8>, Memory>
    ensures { IfOk result (λ text. text.items ≡ concat lines.now) }
{
    let mut text = Vec::new(alloc);
    for number in 0..lines.len() {
        let Some(line) = lines.at(number) else {
            unreachable!();
        };
        text.extend_from_slice(line.as_slice())?;
    }
    Ok(text)
}

// The line of each need that the map doesn't serve.
fn differing(alloc: Global, trace: &Trace, parsed: &ParsedMap) -> Result<Listed<Bytes>, Memory>
    ensures { IfOk result (λ lines. lines ≡ difference_lines parsed.now trace.now.gathered) }
{
    let differences = check_map(alloc, trace.needs(), parsed)?;
    difference_texts(alloc, trace, &differences)
}

// The line of each difference.
fn difference_texts(
    alloc: Global,
    trace: &Trace,
    differences: &Differences,
) -> Result<Listed<Bytes>, Memory>
    ensures { IfOk result (λ lines. lines ≡ map (λ d. difference_line trace.now.gathered (shown d)) differences.now) }
{
    let mut lines = Listed::new(alloc);
    for number in 0..differences.len() {
        let Some(difference) = differences.at(number) else {
            unreachable!();
        };
        push_difference(alloc, &mut lines, trace, difference)?;
    }
    Ok(lines)
}

fn push_difference(
    alloc: Global,
    lines: &mut Listed<Bytes>,
    trace: &Trace,
    difference: &Difference,
) -> Result<(), Memory>
    ensures { OnOk result (lines.new ≡ lines.old ++ difference_line trace.now.gathered (shown difference.now) ∷ []) }
{
    let (referrer, specifier) = spelled(trace, difference.need);
    let wants = wanted(trace, difference.need);
    let line = differs_line(alloc, referrer, specifier, wants, &difference.got)?;
    lines.push(Bytes::from_vec(line))
}

// How a need is first spelled: who asks, and the specifier.
fn spelled(trace: &Trace, number: usize) -> (&str, &str)
    ensures referrer { result.0.now ≡ (spec_at.spelling_at trace.now.gathered number).referrer }
    ensures specifier { result.1.now ≡ (spec_at.spelling_at trace.now.gathered number).specifier }
{
    match trace.spelling(number) {
        None => ("", ""),
        Some(spelling) => (spelling.referrer().as_str(), spelling.specifier().as_str()),
    }
}

// What has to come of a need.
fn wanted(trace: &Trace, number: usize) -> &str
    ensures { result.now ≡ (spec_at.need_at trace.now.gathered number).target }
{
    match trace.needs().at(number) {
        None => "",
        Some(need) => need.target.as_str(),
    }
}
