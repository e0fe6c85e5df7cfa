ghost use Rattle.std.specs.Prelude.{◌≡◌, Ok, Some, IfOk};
ghost use Rattle.asking_spec.specs.Askings.{and_then};
ghost use Rattle.node_spec.specs.EsmFileFormat.{file_format, format_in, format_of_kind, has_ending, HasBadConfig};
ghost use Rattle.node_spec.specs.LookupPackageScope.{package_scope};
ghost use Rattle.tree_spec.specs.FoldersAbove.{folder_of};
ghost use Rattle.package_lookup.specs.Answered.{Answered};
ghost use Rattle.package_lookup.specs.Lookups.{begun_of, state_of, IsSameLookup};
ghost use Rattle.package_lookup.specs.Formats.{by_format, formatted, IsByEnding};
ghost use Rattle.package_lookup.specs.Responses.{given, by_fault, deep_config};

use crate::packages::{record_of, scope_of};
use crate::{Lookup, LookupFault};
use node_spec::{PackageKind, Reason};
use shared_types::Memory;
use std::alloc::Global;
use tree_model::{Folder, Path};

/// What is known of a file's format before its text is read.
#[derive(Clone, Copy, Debug, PartialEq, Eq)]
pub enum Format {
    /// It is a module.
    Module,
    /// Its text decides.
    Detect,
    /// It is no module.
    Not(Reason),
}

/// The format of a file (Node.js, ECMAScript modules: ESM_FILE_FORMAT). It begins a question; where the text decides,
/// the caller goes on in that question with a look at the file.
pub fn format_of<F: Folder>(lookup: &mut Lookup<'_, F>, path: &Path) -> Result<Format, LookupFault>
    ensures answered { Answered (begun_of F.state lookup.old) (file_format path.now)
        (formatted result) (state_of F.state lookup.new) }
    ensures same { IsSameLookup lookup.old lookup.new }
{
    lookup.trail.begin();
    match format_by_ending(path) {
        Some(format) => Ok(format),
        None => format_by_scope(lookup, path),
    }
}

// What the ending of a file's name says of its format; none where its package scope decides.
#[tactic(auto, using(crate::proofs::RecordAnswers::by_endings))]
fn format_by_ending(path: &Path) -> Option<Format>
    ensures { IsByEnding path.now result }
{
    if has_ending(path, b".mjs") {
        Some(Format::Module)
    } else if has_ending(path, b".cjs") {
        Some(Format::Not(Reason::CommonJs))
    } else if has_ending(path, b".json") {
        Some(Format::Not(Reason::Json))
    } else if has_ending(path, b".node") {
        Some(Format::Not(Reason::Addon))
    } else if has_ending(path, b".js") {
        None
    } else {
        Some(Format::Not(Reason::Other))
    }
}

fn has_ending(path: &Path, ending: &[u8]) -> bool
    ensures { result ≡ has_ending path.now ending.now }
{
    path.as_str().as_bytes().ends_with(ending)
}

// What the package scope of a file says of its format.
fn format_by_scope<F: Folder>(
    lookup: &mut Lookup<'_, F>,
    path: &Path,
) -> Result<Format, LookupFault>
    ensures answered { Answered (state_of F.state lookup.old)
        (and_then (package_scope (folder_of path.now)) format_in)
        (formatted result) (state_of F.state lookup.new) }
    ensures same { IsSameLookup lookup.old lookup.new }
{
    let from = folder_of(lookup.alloc, path)?;
    match scope_of(lookup, &from) {
        Err(fault) => Err(fault),
        Ok(None) => Ok(Format::Detect),
        Ok(Some(scope)) => format_in(lookup, &scope),
    }
}

/// The folder in which a path stands; of the root, the root.
pub fn folder_of(alloc: Global, path: &Path) -> Result<Path, Memory>
    ensures { IfOk result (λ folder. folder ≡ folder_of path.now) }
{
    match path.parent(alloc)? {
        None => path.copy(alloc),
        Some(folder) => Ok(folder),
    }
}

fn format_in<F: Folder>(lookup: &mut Lookup<'_, F>, scope: &Path) -> Result<Format, LookupFault>
    ensures answered { Answered (state_of F.state lookup.old) (format_in (Some scope.now))
        (formatted result) (state_of F.state lookup.new) }
    ensures same { IsSameLookup lookup.old lookup.new }
{
    match record_of(lookup, scope) {
        Ok(None) => Ok(Format::Detect),
        Ok(Some(package)) => Ok(format_of_kind(package.kind)),
        Err(fault) => without_record(fault),
    }
}

// What it says where its package.json isn't well formed.
fn without_record(fault: LookupFault) -> Result<Format, LookupFault>
    ensures { formatted result ≡ by_fault (given (Ok HasBadConfig)) deep_config fault }
{
    match fault {
        LookupFault::InvalidConfig => Ok(Format::Not(Reason::Config)),
        LookupFault::Limit { which } => Err(LookupFault::Limit { which }),
        LookupFault::ReadFault => Err(LookupFault::ReadFault),
        LookupFault::Memory => Err(LookupFault::Memory),
    }
}

fn format_of_kind(kind: PackageKind) -> Format
    ensures { by_format result ≡ given (Ok (format_of_kind kind)) }
{
    match kind {
        PackageKind::Module => Format::Module,
        PackageKind::CommonJs => Format::Not(Reason::CommonJs),
        PackageKind::Unstated => Format::Detect,
    }
}
