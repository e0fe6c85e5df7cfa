ghost use Rattle.std.specs.Prelude.{◌≡◌, ◌≤◌, ◌+◌, Bool, ℕ, List, Some, Result, Ok, Err, IfOk};
ghost use Rattle.std.specs.Str.{is_utf8};
ghost use Rattle.tree_spec.specs.declared.Entry.TheVariants.{Stored};
ghost use Rattle.module_spec.specs.OutlineReading.{read_outline};
ghost use Rattle.node_spec.specs.EsmFileFormat as formats;
ghost use Rattle.node_spec.specs.NodeAnswers.{Refusal};
ghost use Rattle.trace_spec.specs.Questions as spec;
ghost use Rattle.package_lookup.specs.Answered.{Answered};
ghost use Rattle.package_lookup.specs.Formats.{by_format};
ghost use Rattle.package_lookup.specs.Lookups.{begun_of, state_of, IsSameLookup};
ghost use Rattle.package_lookup.specs.Responses.{given, fails, never, by_fault, by_limit, looked};
ghost use Rattle.package_lookup.specs.SeenLooks.{entry_of};
ghost use Rattle.es_module_parser.specs.Faults.{IsFaultOf};
ghost use Rattle.es_module_parser.specs.Outlines.{as_outline};
ghost use Rattle.module_sources.specs.Shown.{source_in, AreInside, FindsSource, IsRead, IsSource};

use crate::{NoSource, Source};
use es_module_parser::{Outline, OutlineFault, outline};
use node_spec::Reason;
use package_lookup::{Format, Lookup, LookupFault, Seen, format_of};
use shared_types::{Bytes, Memory, Steps};
use std::alloc::{AllocError, Global};
use std::rc::Rc;
use std::sync::ledger::Ledger;
use tree_model::{Folder, Path};
use tree_spec::LimitName;

/// The source of the file at a path, or why it has none. It begins a question: first the format is asked for, and then
/// the file is looked at. It takes one step at most.
pub fn module_source<F: Folder, L: Ledger>(
    lookup: &mut Lookup<'_, F>,
    path: &Path,
    steps: &mut Steps<L>,
) -> Result<Result<Source, NoSource>, LookupFault>
    ensures answered { Answered (begun_of F.state lookup.old) (spec.module_source path.now)
        (looked source_in result) (state_of F.state lookup.new) }
    ensures cost { steps.new ≤ steps.old + 1 }
    ensures is { FindsSource result }
    ensures same { IsSameLookup lookup.old lookup.new }
{
    match format_of(lookup, path) {
        Err(fault) => without_format(fault),
        Ok(format) => source_by_format(lookup, path, format, steps),
    }
}

// The format of a file that isn't known, since a package.json has too many open brackets, is no source.
fn without_format(fault: LookupFault) -> Result<Result<Source, NoSource>, LookupFault>
    ensures source { looked source_in result ≡ by_fault (fails never) (given (Err (spec.above LimitName.Depth))) fault }
    ensures is { FindsSource result }
{
    match fault {
        LookupFault::Limit { which } => above_limit(which),
        LookupFault::InvalidConfig => Err(LookupFault::InvalidConfig),
        LookupFault::ReadFault => Err(LookupFault::ReadFault),
        LookupFault::Memory => Err(LookupFault::Memory),
    }
}

fn above_limit(which: LimitName) -> Result<Result<Source, NoSource>, LookupFault>
    ensures source { looked source_in result ≡ by_limit (given (Err (spec.above LimitName.Depth))) which }
    ensures is { FindsSource result }
{
    match which {
        LimitName::Depth => Ok(Err(NoSource::Above { which })),
        _ => Err(LookupFault::Limit { which }),
    }
}

// The source of a file with this format.
fn source_by_format<F: Folder, L: Ledger>(
    lookup: &mut Lookup<'_, F>,
    path: &Path,
    format: Format,
    steps: &mut Steps<L>,
) -> Result<Result<Source, NoSource>, LookupFault>
    ensures answered { (found : Result formats.Format Refusal) → by_format format ≡ given found
        → Answered (state_of F.state lookup.old) (spec.by_format path.now found)
        (looked source_in result) (state_of F.state lookup.new) }
    ensures cost { steps.new ≤ steps.old + 1 }
    ensures is { FindsSource result }
    ensures same { IsSameLookup lookup.old lookup.new }
{
    match format {
        Format::Module => read_module(lookup, path, false, steps),
        Format::Detect => read_module(lookup, path, true, steps),
        Format::Not(reason) => Ok(Err(NoSource::NotModule { reason })),
    }
}

// The source of the file at a path, where its format is that of a module or its text decides.
fn read_module<F: Folder, L: Ledger>(
    lookup: &mut Lookup<'_, F>,
    path: &Path,
    is_detected: bool,
    steps: &mut Steps<L>,
) -> Result<Result<Source, NoSource>, LookupFault>
    ensures answered { Answered (state_of F.state lookup.old) (spec.read_module is_detected path.now)
        (looked source_in result) (state_of F.state lookup.new) }
    ensures cost { steps.new ≤ steps.old + 1 }
    ensures is { FindsSource result }
    ensures same { IsSameLookup lookup.old lookup.new }
{
    match lookup
        .known
        .look(lookup.alloc, lookup.folder, path, lookup.trail)
    {
        Err(fault) => Err(fault),
        Ok(seen) => Ok(source_seen(lookup.alloc, seen, is_detected, steps)?),
    }
}

fn source_seen<L: Ledger>(
    alloc: Global,
    seen: Seen,
    is_detected: bool,
    steps: &mut Steps<L>,
) -> Result<Result<Source, NoSource>, Memory>
    ensures source { IfOk result (λ found. source_in found ≡ spec.by_entry is_detected (entry_of seen)) }
    ensures cost { steps.new ≤ steps.old + 1 }
    ensures is { FindsSource result }
{
    match seen {
        Seen::Absent => Ok(unreadable(0)),
        Seen::Folder => Ok(unreadable(0)),
        Seen::File(bytes) => source_of_bytes(alloc, bytes, is_detected, steps),
    }
}

fn unreadable(at: usize) -> Result<Source, NoSource>
    ensures source { source_in result ≡ Err (spec.not_module (Reason.Unreadable at)) }
    ensures is { IsSource result }
{
    Err(NoSource::NotModule {
        reason: Reason::Unreadable { at },
    })
}

fn source_of_bytes<L: Ledger>(
    alloc: Global,
    bytes: Rc<Bytes>,
    is_detected: bool,
    steps: &mut Steps<L>,
) -> Result<Result<Source, NoSource>, Memory>
    ensures source { IfOk result (λ found. source_in found ≡ spec.by_bytes is_detected bytes.value) }
    ensures cost { steps.new ≤ steps.old + 1 }
    ensures is { FindsSource result }
{
    match std::str::from_utf8(bytes.as_bytes()) {
        Err(fault) => Ok(unreadable(fault.valid_up_to())),
        Ok(text) => match outline(alloc, text, steps) {
            Err(fault) => without_outline(fault),
            Ok(outline) => source_of_outline(alloc, bytes, outline, is_detected),
        },
    }
}

// Where a text has no outline, it has no source.
fn without_outline(fault: OutlineFault) -> Result<Result<Source, NoSource>, Memory>
    ensures source { IfOk result (λ found. (text bytes : List ℕ) (is_detected : Bool) → IsFaultOf text fault
        → source_in found ≡ spec.by_outline is_detected bytes (read_outline text)) }
    ensures is { FindsSource result }
{
    match fault {
        OutlineFault::Unreadable { at } => Ok(unreadable(at)),
        OutlineFault::TooDeep => Ok(Err(NoSource::Above {
            which: LimitName::Brackets,
        })),
        OutlineFault::TooManyRequests => Ok(Err(NoSource::Above {
            which: LimitName::ModuleRequests,
        })),
        OutlineFault::Memory => Err(AllocError),
    }
}

// The source of a text with this outline; where the text decides, only where it declares that it is a module's.
fn source_of_outline(
    alloc: Global,
    bytes: Rc<Bytes>,
    outline: Outline,
    is_detected: bool,
) -> Result<Result<Source, NoSource>, Memory>
    requires inside { AreInside bytes.value outline.requests }
    requires read { IsRead bytes.value }
    ensures source { IfOk result (λ found. source_in found
        ≡ spec.by_outline is_detected bytes.value (Ok (as_outline outline))) }
    ensures is { FindsSource result }
{
    if is_detected && !outline.declares {
        return Ok(Err(NoSource::NotModule {
            reason: Reason::CommonJs,
        }));
    }
    Ok(Ok(Source {
        bytes,
        requests: Rc::new(alloc, outline.requests)?,
    }))
}
