ghost use Rattle.std.specs.Prelude.{◌≡◌, ◌++◌, [], IfOk, OnOk, codes};
ghost use Rattle.json_spec.specs.PrintedString.{quoted};
ghost use Rattle.tree_spec.specs.Limits.{limit_name, limit_number};
ghost use Rattle.trace_spec.specs.declared.TraceFault.TheVariants as fault;
ghost use Rattle.generator_spec.specs.Lines as spec;
ghost use Rattle.map_check.specs.Shown.{got_of};

use config_spec::{ConfigFault, ProjectFault};
use generator_spec::{MapFileFault, PageFault, Refusal};
use import_map_spec::MapPart;
use map_check::Got;
use node_spec::Reason;
use ordered_json::print_text;
use page_spec::InjectFault;
use shared_types::{Memory, Text};
use std::alloc::Global;
use trace_spec::{AskCause, TraceFault};
use tree_spec::LimitName;
use vendor_spec::{MOST_PATH_BYTES, MOST_PATH_SEGMENTS};

/// How many forms of the statement grammar may be open at once in a module.
const MOST_NESTING: usize = 1000;

/// The line of words that have no meaning, though they can be parsed.
pub fn not_plain_line() -> &'static [u8]
    ensures { result.now ≡ spec.not_plain_line }
{
    b"words: not plain\n".as_slice()
}

/// The line of a command that lacks memory, also for its own line.
pub fn memory_line() -> &'static [u8]
    ensures { result.now ≡ spec.memory_line }
{
    b"memory\n".as_slice()
}

/// The line of a command of which a look failed.
pub fn read_fault_line() -> &'static [u8]
    ensures { result.now ≡ spec.read_fault_line }
{
    b"fault: read\n".as_slice()
}

/// The line of a command of which the write of the map failed.
pub fn write_fault_line() -> &'static [u8]
    ensures { result.now ≡ spec.write_fault_line }
{
    b"fault: write\n".as_slice()
}

/// The line of a command whose map is written.
pub fn done_line(
    alloc: Global,
    modules: usize,
    requests: usize,
    mappings: usize,
) -> Result<Vec<u8>, Memory>
    ensures { IfOk result (λ line. line.items ≡ spec.counts_line modules requests mappings) }
{
    let line = format!(in alloc;
        "ok: {modules} modules, {requests} requests, {mappings} mappings\n"
    )?;
    Ok(line.into_bytes())
}

/// The line of a measure of so many packages.
pub fn measure_line(
    alloc: Global,
    number: u32,
    modules: usize,
    requests: usize,
    mappings: usize,
) -> Result<Vec<u8>, Memory>
    ensures { IfOk result (λ line. line.items ≡ spec.measure_line number modules requests mappings) }
{
    let line = format!(in alloc;
        "measure {number}: {modules} modules, {requests} requests, {mappings} mappings\n"
    )?;
    Ok(line.into_bytes())
}

/// The line of a check of a map that serves this number of needs.
pub fn served_line(alloc: Global, needs: usize) -> Result<Vec<u8>, Memory>
    ensures { IfOk result (λ line. line.items ≡ spec.served_line needs) }
{
    let line = format!(in alloc; "ok: {needs} needs served\n")?;
    Ok(line.into_bytes())
}

/// The line of a need that a map doesn't serve: who asks for it first, how, what it wants, and what it gets.
pub fn differs_line(
    alloc: Global,
    referrer: &str,
    specifier: &str,
    wants: &str,
    gets: &Got,
) -> Result<Vec<u8>, Memory>
    ensures { IfOk result (λ line. line.items
        ≡ spec.differs_line referrer.now specifier.now wants.now (got_of gets.now)) }
{
    let mut line = Vec::from_slice(alloc, b"differs: from ".as_slice())?;
    print_text(&mut line, referrer)?;
    line.extend_from_slice(b" for ".as_slice())?;
    print_text(&mut line, specifier)?;
    line.extend_from_slice(b" wants ".as_slice())?;
    print_text(&mut line, wants)?;
    line.extend_from_slice(b" gets ".as_slice())?;
    push_got(&mut line, gets)?;
    line.push(b'\n')?;
    Ok(line)
}

fn push_got(text: &mut Vec<u8>, got: &Got) -> Result<(), Memory>
    ensures { OnOk result (text.new.items ≡ text.old.items ++ spec.got_text (got_of got.now)) }
{
    match got {
        Got::Url(url) => print_text(text, url.as_str()),
        Got::Blocked => text.extend_from_slice(b"Blocked".as_slice()),
        Got::Bare => text.extend_from_slice(b"Bare".as_slice()),
        Got::Backtrack => text.extend_from_slice(b"Backtrack".as_slice()),
        Got::BadRest => text.extend_from_slice(b"BadRest".as_slice()),
    }
}

/// The line of a module that the statement grammar refuses at a place of its text: the module by its path and suffix.
pub fn strict_syntax_line(
    alloc: Global,
    path: &str,
    suffix: &str,
    at: usize,
) -> Result<Vec<u8>, Memory>
    ensures { IfOk result (λ line. line.items ≡ spec.strict_syntax_line (path.now ++ suffix.now) at) }
{
    let mut line = strict_front(alloc, path, suffix)?;
    let place = format!(in alloc; " Syntax at {at}\n")?;
    line.extend_from_slice(place.as_bytes())?;
    Ok(line)
}

/// The line of a module whose requests aren't those of its outline, by the statement grammar.
pub fn strict_requests_line(alloc: Global, path: &str, suffix: &str) -> Result<Vec<u8>, Memory>
    ensures { IfOk result (λ line. line.items ≡ spec.strict_requests_line (path.now ++ suffix.now)) }
{
    let mut line = strict_front(alloc, path, suffix)?;
    line.extend_from_slice(b" requests differ\n".as_slice())?;
    Ok(line)
}

// How the line of a module begins.
fn strict_front(alloc: Global, path: &str, suffix: &str) -> Result<Vec<u8>, Memory>
    ensures { IfOk result (λ line. line.items ≡ codes "strict: " ++ quoted (path.now ++ suffix.now)) }
{
    let name = format!(in alloc; "{path}{suffix}")?;
    let mut line = Vec::from_slice(alloc, b"strict: ".as_slice())?;
    print_text(&mut line, name.as_str())?;
    Ok(line)
}

/// The last line of a check that found this number of differences.
pub fn differences_line(alloc: Global, count: usize) -> Result<Vec<u8>, Memory>
    ensures { IfOk result (λ line. line.items ≡ spec.differences_line count) }
{
    let line = format!(in alloc; "{count} differences\n")?;
    Ok(line.into_bytes())
}

/// Puts the line of a module, by its path and its suffix, behind a text.
pub fn push_module_line(
    alloc: Global,
    text: &mut Vec<u8>,
    path: &str,
    suffix: &str,
    requests: usize,
) -> Result<(), Memory>
    ensures { OnOk result (text.new.items ≡ text.old.items ++ spec.module_line (path.now ++ suffix.now) requests) }
{
    let name = format!(in alloc; "{path}{suffix}")?;
    print_text(text, name.as_str())?;
    let count = format!(in alloc; " {requests}\n")?;
    text.extend_from_slice(count.as_bytes())
}

/// The line of the page, from which a chain of requests leads.
pub fn from_page_line(alloc: Global, path: &str) -> Result<Vec<u8>, Memory>
    ensures { IfOk result (λ line. line.items ≡ spec.from_page_line path.now) }
{
    text_line(alloc, "page ", path)
}

/// Puts the line of a request of a chain to a text: how it is spelled, and the module that it leads to.
pub fn push_asks_line(
    alloc: Global,
    text: &mut Vec<u8>,
    specifier: &str,
    path: &str,
    suffix: &str,
) -> Result<(), Memory>
    ensures { OnOk result (text.new.items
        ≡ text.old.items ++ spec.asks_line specifier.now (path.now ++ suffix.now)) }
{
    let name = format!(in alloc; "{path}{suffix}")?;
    text.extend_from_slice(b"asks ".as_slice())?;
    push_pair(text, specifier, " gets ", name.as_str())
}

/// The line of a path to which no chain of requests leads.
pub fn not_reached_line(alloc: Global, path: &str) -> Result<Vec<u8>, Memory>
    ensures { IfOk result (λ line. line.items ≡ spec.not_reached_line path.now) }
{
    text_line(alloc, "not reached: ", path)
}

/// The line of so many copies.
pub fn vendored_line(alloc: Global, count: usize) -> Result<Vec<u8>, Memory>
    ensures { IfOk result (λ line. line.items ≡ spec.vendored_line count) }
{
    let line = format!(in alloc; "vendored {count} files\n")?;
    Ok(line.into_bytes())
}

/// The line that tells of a refusal.
pub fn line_of(alloc: Global, refusal: &Refusal) -> Result<Vec<u8>, Memory>
    ensures { IfOk result (λ line. line.items ≡ spec.line_of refusal.now) }
{
    match refusal {
        Refusal::Config { fault } => config_line(alloc, fault),
        Refusal::Limit { which } => limit_line(alloc, *which),
        Refusal::Page { fault } => page_line(alloc, *fault),
        Refusal::MapFile { fault } => map_file_line(alloc, *fault),
        Refusal::Trace { fault } => trace_line(alloc, fault),
        Refusal::Occupied { path } => text_line(alloc, "refused: Occupied ", path.as_str()),
        Refusal::PathTooLong => most_line(alloc, "path", MOST_PATH_BYTES),
        Refusal::TooManySegments => most_line(alloc, "segments", MOST_PATH_SEGMENTS),
        Refusal::NestedTooDeep => most_line(alloc, "nesting", MOST_NESTING),
    }
}

// The name of what there is too much of, and the most that there may be.
fn most_line(alloc: Global, name: &str, most: usize) -> Result<Vec<u8>, Memory>
    ensures { IfOk result (λ line. line.items ≡ spec.above_line name.now most) }
{
    let line = format!(in alloc; "limit: {name} above {most}\n")?;
    Ok(line.into_bytes())
}

fn config_line(alloc: Global, fault: &ConfigFault) -> Result<Vec<u8>, Memory>
    ensures { IfOk result (λ line. line.items ≡ spec.config_line fault.now) }
{
    match fault {
        ConfigFault::BadBase { text } => text_line(alloc, "words: BadBase ", text.as_str()),
        ConfigFault::BadPath { text } => text_line(alloc, "words: BadPath ", text.as_str()),
        ConfigFault::BadConditions { text } => {
            text_line(alloc, "words: BadConditions ", text.as_str())
        }
        ConfigFault::Project { fault } => project_line(alloc, *fault),
        ConfigFault::NoBase => Vec::from_slice(alloc, b"words: no base\n".as_slice()),
        ConfigFault::NotLinked { entry } => text_line(alloc, "refused: NotLinked ", entry.as_str()),
        ConfigFault::TooManyEntries => limit_line(alloc, LimitName::Entries),
    }
}

fn project_line(alloc: Global, fault: ProjectFault) -> Result<Vec<u8>, Memory>
    ensures { IfOk result (λ line. line.items ≡ spec.project_line fault) }
{
    match fault {
        ProjectFault::Absent => Vec::from_slice(alloc, b"bad file: project absent\n".as_slice()),
        ProjectFault::TooLarge => limit_line(alloc, LimitName::File),
        ProjectFault::NotProject { at } => {
            let line = format!(in alloc; "bad file: project at {at}\n")?;
            Ok(line.into_bytes())
        }
        ProjectFault::Above { which } => limit_line(alloc, which),
    }
}

fn page_line(alloc: Global, fault: PageFault) -> Result<Vec<u8>, Memory>
    ensures { IfOk result (λ line. line.items ≡ spec.page_line fault) }
{
    match fault {
        PageFault::Absent => Vec::from_slice(alloc, b"bad file: page absent\n".as_slice()),
        PageFault::TooLarge => limit_line(alloc, LimitName::File),
        PageFault::KeepsMapsOut { fault } => inject_line(alloc, fault),
    }
}

fn map_file_line(alloc: Global, fault: MapFileFault) -> Result<Vec<u8>, Memory>
    ensures { IfOk result (λ line. line.items ≡ spec.map_file_line fault) }
{
    match fault {
        MapFileFault::Absent => Vec::from_slice(alloc, b"bad file: map absent\n".as_slice()),
        MapFileFault::TooLarge => above_line(alloc, LimitName::File, LimitName::Map),
        MapFileFault::NotJson { at } => {
            let line = format!(in alloc; "bad file: map at {at}\n")?;
            Ok(line.into_bytes())
        }
        MapFileFault::TooDeep => limit_line(alloc, LimitName::Depth),
        MapFileFault::NotObject { which } => {
            let name = part_name(which);
            let line = format!(in alloc; "bad file: map {name}\n")?;
            Ok(line.into_bytes())
        }
    }
}

fn part_name(part: MapPart) -> &'static str
    ensures { result.now ≡ spec.part_name part }
{
    match part {
        MapPart::Top => "Top",
        MapPart::Imports => "Imports",
        MapPart::Scopes => "Scopes",
        MapPart::Scope => "Scope",
        MapPart::Integrity => "Integrity",
    }
}

fn inject_line(alloc: Global, fault: InjectFault) -> Result<Vec<u8>, Memory>
    ensures { IfOk result (λ line. line.items ≡ spec.inject_line fault) }
{
    match fault {
        InjectFault::PageUnclear { at } => place_line(alloc, "PageUnclear", at),
        InjectFault::TwoMaps { at } => place_line(alloc, "TwoMaps", at),
        InjectFault::NoPlace => Vec::from_slice(alloc, b"refused: NoPlace\n".as_slice()),
        InjectFault::Memory => Vec::from_slice(alloc, memory_line()),
    }
}

// The name of a fault, and its place in the page.
fn place_line(alloc: Global, name: &str, at: usize) -> Result<Vec<u8>, Memory>
    ensures { IfOk result (λ line. line.items ≡ spec.place_line name.now at) }
{
    let line = format!(in alloc; "refused: {name} at {at}\n")?;
    Ok(line.into_bytes())
}

fn trace_line(alloc: Global, fault: &TraceFault) -> Result<Vec<u8>, Memory>
    ensures { IfOk result (λ line. line.items ≡ spec.trace_line fault.now) }
{
    match fault {
        TraceFault::Unservable { path, url } => unservable_line(alloc, path, url),
        TraceFault::Refused {
            referrer,
            specifier,
            cause,
        } => refused_line(alloc, referrer, specifier, *cause),
        TraceFault::Clash {
            referrer,
            first,
            first_to,
            second,
            second_to,
        } => clash_line(alloc, referrer, first, first_to, second, second_to),
        TraceFault::NotModule { path, reason } => module_line(alloc, path, *reason),
        TraceFault::Limit { which } => limit_line(alloc, *which),
        TraceFault::ReadFault => Vec::from_slice(alloc, read_fault_line()),
        TraceFault::Memory => Vec::from_slice(alloc, memory_line()),
    }
}

fn unservable_line(alloc: Global, path: &Text, url: &Option<Text>) -> Result<Vec<u8>, Memory>
    ensures { IfOk result (λ line. line.items ≡ spec.trace_line (fault.Unservable path.now url.now)) }
{
    let url = match url {
        None => "",
        Some(url) => url.as_str(),
    };
    let mut line = Vec::from_slice(alloc, b"refused: Unservable ".as_slice())?;
    push_pair(&mut line, path.as_str(), " as ", url)?;
    Ok(line)
}

fn refused_line(
    alloc: Global,
    referrer: &Text,
    specifier: &Text,
    cause: AskCause,
) -> Result<Vec<u8>, Memory>
    ensures { IfOk result (λ line. line.items ≡ spec.trace_line (fault.Refused referrer.now specifier.now cause)) }
{
    let mut line = Vec::from_slice(alloc, b"refused: ".as_slice())?;
    line.extend_from_slice(cause_name(cause).as_bytes())?;
    line.extend_from_slice(b" from ".as_slice())?;
    push_pair(&mut line, referrer.as_str(), " for ", specifier.as_str())?;
    Ok(line)
}

// Two requests of one referrer, with what each leads to.
fn clash_line(
    alloc: Global,
    referrer: &Text,
    first: &Text,
    first_to: &Text,
    second: &Text,
    second_to: &Text,
) -> Result<Vec<u8>, Memory>
    ensures { IfOk result (λ line. line.items
        ≡ spec.clash_line referrer.now first.now first_to.now second.now second_to.now) }
{
    let mut line = Vec::from_slice(alloc, b"refused: Clash from ".as_slice())?;
    print_text(&mut line, referrer.as_str())?;
    line.extend_from_slice(b" for ".as_slice())?;
    print_text(&mut line, first.as_str())?;
    line.extend_from_slice(b" to ".as_slice())?;
    print_text(&mut line, first_to.as_str())?;
    line.extend_from_slice(b" and ".as_slice())?;
    push_pair(&mut line, second.as_str(), " to ", second_to.as_str())?;
    Ok(line)
}

fn module_line(alloc: Global, path: &Text, reason: Reason) -> Result<Vec<u8>, Memory>
    ensures { IfOk result (λ line. line.items ≡ spec.trace_line (fault.NotModule path.now reason)) }
{
    let mut line = Vec::from_slice(alloc, b"refused: NotModule ".as_slice())?;
    print_text(&mut line, path.as_str())?;
    line.extend_from_slice(b" ".as_slice())?;
    push_reason(alloc, &mut line, reason)?;
    line.push(b'\n')?;
    Ok(line)
}

fn push_reason(alloc: Global, line: &mut Vec<u8>, reason: Reason) -> Result<(), Memory>
    ensures { OnOk result (line.new.items ≡ line.old.items ++ spec.reason_text reason) }
{
    match reason {
        Reason::CommonJs => line.extend_from_slice(b"CommonJs".as_slice()),
        Reason::Json => line.extend_from_slice(b"Json".as_slice()),
        Reason::Addon => line.extend_from_slice(b"Addon".as_slice()),
        Reason::Other => line.extend_from_slice(b"Other".as_slice()),
        Reason::Config => line.extend_from_slice(b"Config".as_slice()),
        Reason::Unreadable { at } => {
            let text = format!(in alloc; "Unreadable at {at}")?;
            line.extend_from_slice(text.as_bytes())
        }
    }
}

fn limit_line(alloc: Global, which: LimitName) -> Result<Vec<u8>, Memory>
    ensures { IfOk result (λ line. line.items ≡ spec.limit_line which) }
{
    above_line(alloc, which, which)
}

// The name of a limit, and the number of the same or another one.
fn above_line(alloc: Global, named: LimitName, counted: LimitName) -> Result<Vec<u8>, Memory>
    ensures { IfOk result (λ line. line.items ≡ spec.above_line (limit_name named) (limit_number counted)) }
{
    let name = named.name();
    let number = counted.number();
    let line = format!(in alloc; "limit: {name} above {number}\n")?;
    Ok(line.into_bytes())
}

// A text as a JSON string behind these words.
fn text_line(alloc: Global, front: &str, text: &str) -> Result<Vec<u8>, Memory>
    ensures { IfOk result (λ line. line.items ≡ spec.text_line front.now text.now) }
{
    let mut line = Vec::from_slice(alloc, front.as_bytes())?;
    print_text(&mut line, text)?;
    line.push(b'\n')?;
    Ok(line)
}

// Ends a line with two texts, each as a JSON string.
fn push_pair(line: &mut Vec<u8>, first: &str, between: &str, second: &str) -> Result<(), Memory>
    ensures { OnOk result (line.new.items ≡ spec.pair_line line.old.items first.now between.now second.now) }
{
    print_text(line, first)?;
    line.extend_from_slice(between.as_bytes())?;
    print_text(line, second)?;
    line.push(b'\n')?;
    Ok(())
}

fn cause_name(cause: AskCause) -> &'static str
    ensures { result.now ≡ spec.cause_name cause }
{
    match cause {
        AskCause::Builtin => "Builtin",
        AskCause::ExternalUrl => "ExternalUrl",
        AskCause::InvalidSpecifier => "InvalidSpecifier",
        AskCause::InvalidConfig => "InvalidConfig",
        AskCause::InvalidTarget => "InvalidTarget",
        AskCause::NotExported => "NotExported",
        AskCause::ImportNotDefined => "ImportNotDefined",
        AskCause::NotFound => "NotFound",
        AskCause::DirectoryImport => "DirectoryImport",
        AskCause::Unaskable => "Unaskable",
        AskCause::TrailingSlash => "TrailingSlash",
    }
}
