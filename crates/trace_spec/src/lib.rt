//! The trace of a tree and a config: what the page reaches by requests, in order, or the first refusal. Definitions,
//! and their laws as the contracts of functions that do nothing.
#![tactic(auto)]

ghost use Rattle.trace_spec.specs.Laws.{HasLevels, IsWhatIsReached, ModulesOnce, FewModules};
ghost use Rattle.trace_spec.specs.Laws.{FirstRefusalDecides, RefusesByKind, NeverOutOfRoom, GoesInOrder};
ghost use Rattle.trace_spec.specs.Laws.{RefusesInOrder, SourcesAreRead, SourcesAreDecided, RequestsPass};
ghost use Rattle.trace_spec.specs.Laws.{NeedsAreRequests, LimitsOfTexts, LooksAreOfQuestions};
ghost use Rattle.trace_spec.specs.Laws.{FewRequests, ClashesAreOfRequests};

mod copies;

pub use copies::{generation_spares, same_generation};
use node_spec::{Cause, Reason};
use shared_types::Text;
use std::alloc::AllocError;
use tree_spec::LimitName;

/// Why a request is refused: a cause of Node's, or one of what a specifier asks for by HTML.
#[derive(Clone, Copy, Debug, PartialEq, Eq)]
pub enum AskCause {
    Builtin,
    ExternalUrl,
    InvalidSpecifier,
    InvalidConfig,
    InvalidTarget,
    NotExported,
    ImportNotDefined,
    NotFound,
    DirectoryImport,
    /// A relative specifier has no URL.
    Unaskable,
    /// The URL of a relative specifier, or of what it leads to, ends in `/`.
    TrailingSlash,
}

impl From<Cause> for AskCause {
    ghost use Rattle.std.specs.Prelude.{◌≡◌};
    ghost use Rattle.trace_spec.specs.Causes.{ask_cause};

    ghost from_gives = { λ cause shown. shown ≡ ask_cause cause };

    fn from(cause: Cause) -> Self {
        match cause {
            Cause::Builtin => AskCause::Builtin,
            Cause::ExternalUrl => AskCause::ExternalUrl,
            Cause::InvalidSpecifier => AskCause::InvalidSpecifier,
            Cause::InvalidConfig => AskCause::InvalidConfig,
            Cause::InvalidTarget => AskCause::InvalidTarget,
            Cause::NotExported => AskCause::NotExported,
            Cause::ImportNotDefined => AskCause::ImportNotDefined,
            Cause::NotFound => AskCause::NotFound,
            Cause::DirectoryImport => AskCause::DirectoryImport,
        }
    }
}

/// Why there is no trace: its first refusal, with what is shown of it, or what ends the work on it. A referrer, a
/// module and a target are shown by path and suffix.
#[derive(Debug, Drop)]
pub enum TraceFault {
    /// A request is refused.
    Refused {
        referrer: Text,
        specifier: Text,
        cause: AskCause,
    },
    /// The page, or what a request leads to, isn't served at its web name, which is given where it has one.
    Unservable {
        path: Text,
        url: Option<Text>,
    },
    /// Two requests of one referrer ask for the same, and lead to two modules.
    Clash {
        referrer: Text,
        first: Text,
        first_to: Text,
        second: Text,
        second_to: Text,
    },
    /// What a request leads to is no module.
    NotModule {
        path: Text,
        reason: Reason,
    },
    /// A quantity passes its limit.
    Limit {
        which: LimitName,
    },
    /// A look failed, and was counted. No definition refuses so.
    ReadFault,
    /// Want of memory. No definition refuses so.
    Memory,
}

impl From<AllocError> for TraceFault {
    ghost use Rattle.std.specs.Prelude.{◌≡◌};
    ghost use Rattle.trace_spec.specs.declared.TraceFault.TheVariants.{Memory};

    ghost from_gives = { λ _ fault. fault ≡ Memory };

    fn from(_: AllocError) -> Self {
        TraceFault::Memory
    }
}

/// The modules of a trace are its levels, one behind another.
pub fn has_levels()
    ensures { HasLevels }
{}

/// The modules of a trace are those that the page reaches by requests.
pub fn is_what_is_reached()
    ensures { IsWhatIsReached }
{}

/// No module stands in a trace twice.
pub fn modules_once()
    ensures { ModulesOnce }
{}

/// A trace has at most 20,000 modules.
pub fn few_modules()
    ensures { FewModules }
{}

/// A trace has at most 200,000 requests.
pub fn few_requests()
    ensures { FewRequests }
{}

/// There is a trace exactly where all visits pass; else the refusal is that of the first check that isn't passed.
pub fn first_refusal_decides()
    ensures { FirstRefusalDecides }
{}

/// A refusal is of a kind that a trace of this config can end with.
pub fn refuses_by_kind()
    ensures { RefusesByKind }
{}

/// A trace never ends for want of room for its visits.
pub fn never_out_of_room()
    ensures { NeverOutOfRoom }
{}

/// The tables of a trace hold its requests in order, and each question is asked at its place.
pub fn goes_in_order()
    ensures { GoesInOrder }
{}

/// The visits before the first refusal pass in order, and each question up to it is asked at its place.
pub fn refuses_in_order()
    ensures { RefusesInOrder }
{}

/// A module has a source exactly where a file stands at its path whose format and text are those of a module.
pub fn sources_are_read()
    ensures { SourcesAreRead }
{}

/// What stands at the paths of its question's footprint decides a module's source, and its own file is one of them
/// wherever it may be a module.
pub fn sources_are_decided()
    ensures { SourcesAreDecided }
{}

/// Each request of whatever the page reaches passes its checks.
pub fn requests_pass()
    ensures { RequestsPass }
{}

/// The needs of a trace are those of requests of whatever the page reaches, and no two clash.
pub fn needs_are_requests()
    ensures { NeedsAreRequests }
{}

/// A clash is one of two requests, which ask for the same and lead to two modules.
pub fn clashes_are_of_requests()
    ensures { ClashesAreOfRequests }
{}

/// The numbers of a module's text are those of the limits.
#[tactic(auto, using(crate::proofs::TextLimits::limits_of_texts))]
pub fn limits_of_texts()
    ensures { LimitsOfTexts }
{}

/// What a generation looks at are the looks of its questions, its limits are those of these looks, and its trace looks
/// at no path beside them.
pub fn looks_are_of_questions()
    ensures { LooksAreOfQuestions }
{}
