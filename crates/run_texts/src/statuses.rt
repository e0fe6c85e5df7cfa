ghost use Rattle.std.specs.Prelude.{◌≡◌};
ghost use Rattle.generator_spec.specs.Lines as spec;

use config_spec::{ConfigFault, ProjectFault};
use generator_spec::{MapFileFault, PageFault, Refusal};
use page_spec::InjectFault;
use trace_spec::TraceFault;

/// The map is written, or it serves each need.
pub const DONE: u8 = 0;
/// The words are wrong.
pub const BAD_WORDS: u8 = 2;
/// A look failed.
pub const READ_FAULT: u8 = 4;
/// The map wasn't written, or the line didn't go out.
pub const WRITE_FAULT: u8 = 5;
/// A need isn't served, or a module doesn't agree with the statement grammar.
pub const DIFFERENCES: u8 = 6;
/// Want of memory.
pub const MEMORY: u8 = 8;
/// No chain of requests leads to the file.
pub const NOT_REACHED: u8 = 10;

/// A request, a module or the page is refused, or something stands where copies are to.
const REFUSED: u8 = 1;
/// A limit is passed.
const LIMIT: u8 = 3;
/// A file that the command needs isn't there, or isn't of its form.
const BAD_FILE: u8 = 7;

/// The exit status of a refusal.
pub fn status_of(refusal: &Refusal) -> u8
    ensures { result ≡ spec.status_of refusal.now }
{
    match refusal {
        Refusal::Config { fault } => config_status(fault),
        Refusal::Limit { which: _ } => LIMIT,
        Refusal::Page { fault } => page_status(*fault),
        Refusal::MapFile { fault } => map_file_status(*fault),
        Refusal::Trace { fault } => trace_status(fault),
        Refusal::Occupied { path: _ } => REFUSED,
        Refusal::PathTooLong => LIMIT,
        Refusal::TooManySegments => LIMIT,
        Refusal::NestedTooDeep => LIMIT,
    }
}

fn config_status(fault: &ConfigFault) -> u8
    ensures { result ≡ spec.config_status fault.now }
{
    match fault {
        ConfigFault::BadBase { text: _ } => BAD_WORDS,
        ConfigFault::BadPath { text: _ } => BAD_WORDS,
        ConfigFault::BadConditions { text: _ } => BAD_WORDS,
        ConfigFault::Project { fault } => project_status(*fault),
        ConfigFault::NoBase => BAD_WORDS,
        ConfigFault::NotLinked { entry: _ } => REFUSED,
        ConfigFault::TooManyEntries => LIMIT,
    }
}

fn project_status(fault: ProjectFault) -> u8
    ensures { result ≡ spec.project_status fault }
{
    match fault {
        ProjectFault::Absent => BAD_FILE,
        ProjectFault::TooLarge => LIMIT,
        ProjectFault::NotProject { at: _ } => BAD_FILE,
        ProjectFault::Above { which: _ } => LIMIT,
    }
}

fn page_status(fault: PageFault) -> u8
    ensures { result ≡ spec.page_status fault }
{
    match fault {
        PageFault::Absent => BAD_FILE,
        PageFault::TooLarge => LIMIT,
        PageFault::KeepsMapsOut { fault } => inject_status(fault),
    }
}

fn map_file_status(fault: MapFileFault) -> u8
    ensures { result ≡ spec.map_file_status fault }
{
    match fault {
        MapFileFault::Absent => BAD_FILE,
        MapFileFault::TooLarge => LIMIT,
        MapFileFault::NotJson { at: _ } => BAD_FILE,
        MapFileFault::TooDeep => LIMIT,
        MapFileFault::NotObject { which: _ } => BAD_FILE,
    }
}

fn inject_status(fault: InjectFault) -> u8
    ensures { result ≡ spec.inject_status fault }
{
    match fault {
        InjectFault::PageUnclear { at: _ } => REFUSED,
        InjectFault::TwoMaps { at: _ } => REFUSED,
        InjectFault::NoPlace => REFUSED,
        InjectFault::Memory => MEMORY,
    }
}

fn trace_status(fault: &TraceFault) -> u8
    ensures { result ≡ spec.trace_status fault.now }
{
    match fault {
        TraceFault::Unservable { path: _, url: _ } => REFUSED,
        TraceFault::Refused {
            referrer: _,
            specifier: _,
            cause: _,
        } => REFUSED,
        TraceFault::Clash {
            referrer: _,
            first: _,
            first_to: _,
            second: _,
            second_to: _,
        } => REFUSED,
        TraceFault::NotModule { path: _, reason: _ } => REFUSED,
        TraceFault::Limit { which: _ } => LIMIT,
        TraceFault::ReadFault => READ_FAULT,
        TraceFault::Memory => MEMORY,
    }
}
