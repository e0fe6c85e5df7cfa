//! What is generated for a tree and a config, what the map promises, and how a run ends: definitions, and their laws as
//! the contracts of functions that do nothing.
#![tactic(auto)]

ghost use Rattle.generator_spec.specs.Laws.{AgreesWhereReached, ChecksAnswer, ChecksAreExact};
ghost use Rattle.generator_spec.specs.Laws.{OneGeneration, SomeGeneration, NothingRefused};
ghost use Rattle.generator_spec.specs.Laws.{RequestsAreNumbered, StepsAreCounted, UntracedTakesNone};
ghost use Rattle.generator_spec.specs.Laws.{OneOutcome, SomeOutcome, EndsKeepPromises};
ghost use Rattle.generator_spec.specs.WorkedExamples.{StrictExamples};

mod copies;

pub use config_spec::Command;
use config_spec::ConfigFault;
pub use copies::{copy_generates, vendored_generates};
use import_map_spec::MapPart;
use page_spec::InjectFault;
use shared_types::Text;
use trace_spec::TraceFault;
use tree_spec::LimitName;

/// Why there is no page to put a map into.
#[derive(Clone, Copy, Debug, PartialEq, Eq)]
pub enum PageFault {
    /// No file stands there.
    Absent,
    /// The file has more bytes than a file may.
    TooLarge,
    /// No map can be put into it.
    KeepsMapsOut { fault: InjectFault },
}

/// Why there is no map to check. A place is an offset in the file, in bytes.
#[derive(Clone, Copy, Debug, PartialEq, Eq)]
pub enum MapFileFault {
    /// No file stands there.
    Absent,
    /// The file has more bytes than a map may.
    TooLarge,
    /// It is no JSON text (RFC 8259).
    NotJson { at: usize },
    /// More brackets of it are open than are read.
    TooDeep,
    /// What must be an object is none (HTML, import maps).
    NotObject { which: MapPart },
}

/// Why a command ends before its first write, with what is shown of it.
#[derive(Debug, Drop)]
pub enum Refusal {
    /// There is no config.
    Config { fault: ConfigFault },
    /// The map passes its limit.
    Limit { which: LimitName },
    /// There is no page to put the map into.
    Page { fault: PageFault },
    /// There is no map to check.
    MapFile { fault: MapFileFault },
    /// There is no trace.
    Trace { fault: TraceFault },
    /// More forms of the statement grammar would be open in some module than may be.
    NestedTooDeep,
    /// Something stands where copies are to stand.
    Occupied { path: Text },
    /// The path of some copy has too many bytes.
    PathTooLong,
    /// None has, and the path of some copy has too many segments.
    TooManySegments,
}

/// A tree and a config have one text at most.
pub fn one_generation()
    ensures { OneGeneration }
{}

/// Each trace has a text, which is generated unless some specifier has too many choices, or it is too large.
pub fn some_generation()
    ensures { SomeGeneration }
{}

/// Where something is generated, nothing of the trace is refused, and neither a specifier's choices nor the map's size.
pub fn nothing_refused()
    ensures { NothingRefused }
{}

/// A check is done exactly where the map serves each need, and each module agrees that is checked.
pub fn checks_are_exact()
    ensures { ChecksAreExact }
{}

/// The modules of a trace agree exactly where the file of each module does that the page reaches.
pub fn agrees_where_reached()
    ensures { AgreesWhereReached }
{}

/// What a check answers: 0 exactly where each need is served and each module agrees that is checked; else 6, with the
/// lines of the needs, those of the modules, and their number.
pub fn checks_answer()
    ensures { ChecksAnswer }
{}

/// Worked examples of what a strict check says of modules.
pub fn strict_examples()
    ensures { StrictExamples }
{}

/// Where there is a trace, the request with a number leads to the module with that number.
pub fn requests_are_numbered()
    ensures { RequestsAreNumbered }
{}

/// Where there is a trace, a run takes at most one step for each module and each request, and where each module is
/// checked one more for each.
pub fn steps_are_counted()
    ensures { StepsAreCounted }
{}

/// A run that is refused for its config, its page or its map's file takes no step.
pub fn untraced_takes_none()
    ensures { UntracedTakesNone }
{}

/// A command over a tree has one outcome at most.
pub fn one_outcome()
    ensures { OneOutcome }
{}

/// A command over a tree has an outcome.
pub fn some_outcome()
    ensures { SomeOutcome }
{}

/// A run that ends as it must keeps all promises.
pub fn ends_keep_promises()
    ensures { EndsKeepPromises }
{}
