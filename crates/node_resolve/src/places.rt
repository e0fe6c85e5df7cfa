//! What stands at the place of a URL.
ghost use Rattle.std.specs.Prelude.{◌≡◌, ◌&&◌, not, ℕ, List};
ghost use Rattle.url_spec.specs.FileUrls.{IsPlace};
ghost use Rattle.asking_spec.specs.Askings.{answered, and_then};
ghost use Rattle.node_spec.specs.EsmResolve.{judged};
ghost use Rattle.node_spec.specs.FileLooks.{is_file, look_at_url};
ghost use Rattle.node_spec.specs.LegacyMainResolve.{serves};
ghost use Rattle.package_lookup.specs.Answered.{Answered};
ghost use Rattle.package_lookup.specs.Lookups.{state_of, IsSameLookup};
ghost use Rattle.node_spec.specs.NodeAnswers.{as_node};
ghost use Rattle.package_lookup.specs.Responses.{given, itself, looked};
ghost use Rattle.package_lookup.specs.SeenLooks.{entry_of};
ghost use Rattle.node_resolve.specs.Places.{judged_there, module_at};
ghost use Rattle.node_resolve.specs.Responses.{responded};

use crate::NodeFault;
use crate::fault::behind;
use node_spec::Cause;
use package_lookup::{Lookup, LookupFault, Seen};
use tree_model::{Folder, Path};
use web_url::{FileUrl, Place, Suffix, place_of};

/// The module at a URL (Node.js, ECMAScript modules: ESM_RESOLVE, "If resolved is a "file:" URL").
pub fn judged<F: Folder>(
    lookup: &mut Lookup<'_, F>,
    url: &FileUrl,
) -> Result<(Path, Suffix), NodeFault>
    ensures answered { Answered (state_of F.state lookup.old) (judged url.now)
        (responded module_at result) (state_of F.state lookup.new) }
    ensures same { IsSameLookup lookup.old lookup.new }
{
    let place = place_of(lookup.alloc, url)?;
    judged_at(lookup, place)
}

fn judged_at<F: Folder>(
    lookup: &mut Lookup<'_, F>,
    place: Place,
) -> Result<(Path, Suffix), NodeFault>
    ensures answered { (url : List ℕ) → IsPlace url place.path place.folder_only place.escaped place.suffix
        → Answered (state_of F.state lookup.old) (judged url)
        (responded module_at result) (state_of F.state lookup.new) }
    ensures same { IsSameLookup lookup.old lookup.new }
{
    let Place {
        path,
        folder_only,
        escaped,
        suffix,
    } = place;
    if escaped {
        return Err(NodeFault::Refused(Cause::InvalidSpecifier));
    }
    match path {
        None => Err(NodeFault::Refused(Cause::NotFound)),
        Some(path) => match lookup
            .known
            .look(lookup.alloc, lookup.folder, &path, lookup.trail)
        {
            Err(fault) => Err(behind(fault)),
            Ok(seen) => module_of(path, folder_only, suffix, seen),
        },
    }
}

/// The module at a path, by what stands there.
fn module_of(
    path: Path,
    folder_only: bool,
    suffix: Suffix,
    seen: Seen,
) -> Result<(Path, Suffix), NodeFault>
    ensures { responded module_at result ≡ given (as_node (judged_there path folder_only suffix (entry_of seen))) }
{
    match seen {
        Seen::Absent => Err(NodeFault::Refused(Cause::NotFound)),
        Seen::Folder => Err(NodeFault::Refused(Cause::DirectoryImport)),
        Seen::File(_) => {
            if folder_only {
                Err(NodeFault::Refused(Cause::NotFound))
            } else {
                Ok((path, suffix))
            }
        }
    }
}

/// Whether a file stands at a URL whose path doesn't end in `/`.
pub fn serves<F: Folder>(lookup: &mut Lookup<'_, F>, url: &FileUrl) -> Result<bool, LookupFault>
    ensures answered { Answered (state_of F.state lookup.old)
        (and_then (look_at_url url.now) (λ found. answered (serves url.now found)))
        (looked itself result) (state_of F.state lookup.new) }
    ensures same { IsSameLookup lookup.old lookup.new }
{
    let place = place_of(lookup.alloc, url)?;
    serves_at(lookup, place)
}

fn serves_at<F: Folder>(lookup: &mut Lookup<'_, F>, place: Place) -> Result<bool, LookupFault>
    ensures answered { (url : List ℕ) → IsPlace url place.path place.folder_only place.escaped place.suffix
        → Answered (state_of F.state lookup.old)
        (and_then (look_at_url url) (λ found. answered (serves url found)))
        (looked itself result) (state_of F.state lookup.new) }
    ensures same { IsSameLookup lookup.old lookup.new }
{
    let Place {
        path,
        folder_only,
        ..
    } = place;
    match path {
        None => Ok(false),
        Some(path) => match lookup
            .known
            .look(lookup.alloc, lookup.folder, &path, lookup.trail)
        {
            Err(fault) => Err(fault),
            Ok(seen) => Ok(is_served(&seen, folder_only)),
        },
    }
}

fn is_served(seen: &Seen, folder_only: bool) -> bool
    ensures { result ≡ (is_file (entry_of seen.now) && not folder_only) }
{
    match seen {
        Seen::Absent => false,
        Seen::Folder => false,
        Seen::File(_) => !folder_only,
    }
}
