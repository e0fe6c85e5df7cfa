ghost use Rattle.std.specs.Prelude.{◌≡◌, ◌++◌, List, ℕ, Ok, Some, None, is_some, IfOk, IfSome, codes};
ghost use Rattle.std.specs.String.{string_bytes};
ghost use Rattle.node_spec.specs.FileLooks.{is_file};
ghost use Rattle.node_spec.specs.LookupPackageScope.{is_node_modules, package_scope, scopes};
ghost use Rattle.node_spec.specs.Nearest.{is_accepted};
ghost use Rattle.node_spec.specs.PackageResolve.{package_folder, packages};
ghost use Rattle.node_spec.specs.ReadPackageJson.{record_at, record_or_refusal};
ghost use Rattle.tree_spec.specs.Paths.{IsPath, joined};
ghost use Rattle.tree_spec.specs.declared.Entry.TheVariants.{Stored};
ghost use Rattle.tree_spec.specs.declared.Look.{Look};
ghost use Rattle.tree_spec.specs.declared.Look.TheVariants.{File};
ghost use Rattle.package_lookup.specs.SeenLooks.{entry_of, look_seen};
ghost use Rattle.package_lookup.specs.Readings.{outcome_of, AreNamedApart, AreReadingsOf, IsReadingOf};
ghost use Rattle.package_lookup.specs.Recorded.{shown_record, IsRecorded, AllNamedApart};
ghost use Rattle.package_lookup.specs.Looked.{known_at, IsSameKnown};
ghost use Rattle.package_lookup.specs.Responses.{given, itself, looked, resolved};
ghost use Rattle.package_lookup.specs.Answered.{Answered};
ghost use Rattle.package_lookup.specs.Lookups.{state_of, IsSameLookup};

use crate::held::Reading;
use crate::{Known, Lookup, LookupFault, Seen};
use condition_match::Conditions;
use package_record::{Package, PackageFault, is_ready, read_package_under};
use shared_types::{Bytes, Memory};
use std::alloc::{AllocError, Global};
use std::rc::Rc;
use tree_model::{Folder, Path};
use tree_spec::LimitName;

/// The package scope of a folder (Node.js, ECMAScript modules: LOOKUP_PACKAGE_SCOPE).
pub fn scope_of<F: Folder>(
    lookup: &mut Lookup<'_, F>,
    from: &Path,
) -> Result<Option<Path>, LookupFault>
    ensures answered { Answered (state_of F.state lookup.old) (package_scope from.now) (looked itself result)
        (state_of F.state lookup.new) }
    ensures same { IsSameLookup lookup.old lookup.new }
{
    let mut at = from.copy(lookup.alloc)?;
    'up: loop {
        if is_node_modules(&at) {
            return Ok(None);
        }
        match holds_record(lookup, &at) {
            Err(fault) => return Err(fault),
            Ok(true) => return Ok(Some(at)),
            Ok(false) => {}
        }
        match at.parent(lookup.alloc)? {
            None => return Ok(None),
            Some(parent) => at = parent,
        }
    }
}

#[tactic(auto, unfolding(node_spec::specs::LookupPackageScope::is_node_modules))]
fn is_node_modules(folder: &Path) -> bool
    ensures named { result ≡ is_node_modules folder.now }
    ensures is_path { IsPath folder.now }
{
    folder
        .as_str()
        .as_bytes()
        .ends_with(b"/node_modules".as_slice())
}

// Whether a folder holds a file package.json.
fn holds_record<F: Folder>(lookup: &mut Lookup<'_, F>, at: &Path) -> Result<bool, LookupFault>
    ensures answered { Answered (state_of F.state lookup.old) (is_accepted scopes at.now)
        (looked itself result) (state_of F.state lookup.new) }
    ensures same { IsSameLookup lookup.old lookup.new }
{
    match at.join(lookup.alloc, "package.json")? {
        None => Ok(false),
        Some(path) => match lookup
            .known
            .look(lookup.alloc, lookup.folder, &path, lookup.trail)
        {
            Err(fault) => Err(fault),
            Ok(seen) => Ok(is_file(&seen)),
        },
    }
}

fn is_file(seen: &Seen) -> bool
    ensures { result ≡ is_file (entry_of seen.now) }
{
    match seen {
        Seen::Absent => false,
        Seen::Folder => false,
        Seen::File(_) => true,
    }
}

/// The folder of a package, for a module in a folder (Node.js, ECMAScript modules: PACKAGE_RESOLVE).
pub fn find_package<F: Folder>(
    lookup: &mut Lookup<'_, F>,
    from: &Path,
    name: &str,
) -> Result<Option<Path>, LookupFault>
    ensures answered { Answered (state_of F.state lookup.old) (package_folder from.now name.now)
        (looked itself result) (state_of F.state lookup.new) }
    ensures same { IsSameLookup lookup.old lookup.new }
{
    let place = place_of(lookup.alloc, name)?;
    let mut at = from.copy(lookup.alloc)?;
    'up: loop {
        match package_in(lookup, &at, place.as_str()) {
            Err(fault) => return Err(fault),
            Ok(Some(package)) => return Ok(Some(package)),
            Ok(None) => {}
        }
        match at.parent(lookup.alloc)? {
            None => return Ok(None),
            Some(parent) => at = parent,
        }
    }
}

/// The record of a folder (Node.js, ECMAScript modules: READ_PACKAGE_JSON); none where it has no file package.json.
pub fn record_of<F: Folder>(
    lookup: &mut Lookup<'_, F>,
    at: &Path,
) -> Result<Option<Rc<Package>>, LookupFault>
    ensures record { Answered (state_of F.state lookup.old) (record_at at.now)
        (resolved shown_record result) (state_of F.state lookup.new) }
    ensures named { AllNamedApart result }
    ensures same { IsSameLookup lookup.old lookup.new }
{
    record_by(lookup, at, None)
}

/// The same, where its targets will be asked for under these conditions.
pub fn record_under<F: Folder>(
    lookup: &mut Lookup<'_, F>,
    at: &Path,
    conditions: &Conditions,
) -> Result<Option<Rc<Package>>, LookupFault>
    ensures record { Answered (state_of F.state lookup.old) (record_at at.now)
        (resolved shown_record result) (state_of F.state lookup.new) }
    ensures named { AllNamedApart result }
    ensures same { IsSameLookup lookup.old lookup.new }
{
    record_by(lookup, at, Some(conditions))
}

fn record_by<F: Folder>(
    lookup: &mut Lookup<'_, F>,
    at: &Path,
    conditions: Option<&Conditions>,
) -> Result<Option<Rc<Package>>, LookupFault>
    ensures record { Answered (state_of F.state lookup.old) (record_at at.now)
        (resolved shown_record result) (state_of F.state lookup.new) }
    ensures named { AllNamedApart result }
    ensures same { IsSameLookup lookup.old lookup.new }
{
    match at.join(lookup.alloc, "package.json")? {
        None => Ok(None),
        Some(path) => match lookup
            .known
            .sight(lookup.alloc, lookup.folder, &path, lookup.trail)
        {
            Err(fault) => Err(fault),
            Ok((seen, reading)) => {
                recorded(lookup.alloc, lookup.known, path, seen, reading, conditions)
            }
        },
    }
}

// The record of what stands at a path, where that is known.
fn recorded(
    alloc: Global,
    known: &mut Known,
    path: Path,
    seen: Seen,
    reading: Option<Reading>,
    conditions: Option<&Conditions>,
) -> Result<Option<Rc<Package>>, LookupFault>
    requires known { known_at known.old path ≡ Some (look_seen seen) }
    requires readings { AreReadingsOf (look_seen seen) reading }
    ensures record { IsRecorded (entry_of seen) result }
    ensures named { AllNamedApart result }
    ensures same { IsSameKnown known.old known.new }
{
    match seen {
        Seen::Absent => Ok(None),
        Seen::Folder => Ok(None),
        Seen::File(bytes) => match ready(reading, bytes.as_bytes(), conditions) {
            Some(reading) => record_in(reading),
            None => read_now(alloc, known, path, bytes, conditions),
        },
    }
}

// What was read, where it keeps what it would keep under these conditions.
fn ready(reading: Option<Reading>, bytes: &[u8], conditions: Option<&Conditions>) -> Option<Reading>
    ensures { (look : Look) → AreReadingsOf look reading → AreReadingsOf look result }
{
    match reading {
        None => None,
        Some(reading) => {
            if keeps(&reading, bytes, conditions) {
                Some(reading)
            } else {
                None
            }
        }
    }
}

fn keeps(reading: &Reading, bytes: &[u8], conditions: Option<&Conditions>) -> bool {
    match conditions {
        None => true,
        Some(conditions) => match reading {
            Reading::Found(package) => is_ready(package, bytes, conditions),
            Reading::NotWellFormed => true,
            Reading::TooDeep => true,
        },
    }
}

fn record_in(reading: Reading) -> Result<Option<Rc<Package>>, LookupFault>
    ensures record { resolved shown_record result ≡ given (record_or_refusal (outcome_of reading)) }
    ensures named { AreNamedApart reading → AllNamedApart result }
{
    match reading {
        Reading::Found(package) => Ok(Some(package)),
        Reading::NotWellFormed => Err(LookupFault::InvalidConfig),
        Reading::TooDeep => Err(LookupFault::Limit {
            which: LimitName::Depth,
        }),
    }
}

// The record of a file's bytes, which is kept beside them.
fn read_now(
    alloc: Global,
    known: &mut Known,
    path: Path,
    bytes: Rc<Bytes>,
    conditions: Option<&Conditions>,
) -> Result<Option<Rc<Package>>, LookupFault>
    requires { known_at known.old path ≡ Some (File bytes.value) }
    ensures record { IsRecorded (Some (Stored bytes.value)) result }
    ensures named { AllNamedApart result }
    ensures same { IsSameKnown known.old known.new }
{
    let reading = reading_of(alloc, bytes.as_bytes(), conditions)?;
    let copy = reading.copy()?;
    known.keep_reading(path, Seen::File(bytes), copy)?;
    record_in(reading)
}

fn reading_of(
    alloc: Global,
    bytes: &[u8],
    conditions: Option<&Conditions>,
) -> Result<Reading, Memory>
    ensures { IfOk result (IsReadingOf (File bytes.now)) }
{
    match read_package_under(alloc, bytes, conditions) {
        Ok(package) => Ok(Reading::Found(Rc::new(alloc, package)?)),
        Err(PackageFault::InvalidConfig) => Ok(Reading::NotWellFormed),
        Err(PackageFault::TooDeep) => Ok(Reading::TooDeep),
        Err(PackageFault::Memory) => Err(AllocError),
    }
}

// Where packages with a name stand in a folder.
fn place_of(alloc: Global, name: &str) -> Result<String, Memory>
    ensures { IfOk result (λ place. string_bytes place ≡ codes "node_modules/" ++ name.now) }
{
    let mut place = String::new(alloc);
    place.push_str("node_modules/")?;
    place.push_str(name)?;
    Ok(place)
}

// The package that stands at a place in a folder.
fn package_in<F: Folder>(
    lookup: &mut Lookup<'_, F>,
    at: &Path,
    place: &str,
) -> Result<Option<Path>, LookupFault>
    ensures answered { (name : List ℕ) → place.now ≡ codes "node_modules/" ++ name
        → Answered (state_of F.state lookup.old) (is_accepted (packages name) at.now)
        (looked is_some result) (state_of F.state lookup.new) }
    ensures place { IfOk result (λ found. IfSome found (λ path. path ≡ joined at.now place.now)) }
    ensures same { IsSameLookup lookup.old lookup.new }
{
    match at.join(lookup.alloc, place)? {
        None => Ok(None),
        Some(path) => match lookup
            .known
            .look(lookup.alloc, lookup.folder, &path, lookup.trail)
        {
            Err(fault) => Err(fault),
            Ok(Seen::Folder) => Ok(Some(path)),
            Ok(Seen::Absent) => Ok(None),
            Ok(Seen::File(_)) => Ok(None),
        },
    }
}
