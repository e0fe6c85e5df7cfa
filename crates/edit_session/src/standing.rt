ghost use Rattle.std.specs.Prelude.{◌≡◌};
ghost use Rattle.edit_session.specs.Standings.{Stands, standing_by, standing_seen};

use package_lookup::{Held, Known, LookupFault, Over, Seen};
use std::alloc::Global;
use tree_model::{Folder, Path};
use tree_spec::LookFault;

/// What stands at a path, as far as an edit asks.
#[derive(Clone, Copy, Debug, PartialEq, Eq)]
pub(crate) enum Standing {
    Nothing,
    Folder,
    File,
}

/// What stands at a path, where these looks are laid over what is known. It counts under no limit.
pub(crate) fn standing_of<F: Folder>(
    alloc: Global,
    known: &mut Known,
    over: &mut Over,
    folder: &mut F,
    path: &Path,
) -> Result<Standing, LookFault>
    ensures { Stands (F.state folder.old) known.old over.old path.now result
        (F.state folder.new) known.new over.new }
{
    let _is_path = path.as_str();
    known.lay(over);
    let held = known.hold(alloc, folder, path);
    known.lay(over);
    standing_by(held)
}

fn standing_by(held: Result<Held, LookupFault>) -> Result<Standing, LookFault>
    ensures { result ≡ standing_by held }
{
    match held {
        Ok(held) => Ok(standing_seen(held)),
        Err(LookupFault::ReadFault) => Err(LookFault::Failed),
        Err(LookupFault::Memory) => Err(LookFault::Memory),
        Err(LookupFault::InvalidConfig) => Err(LookFault::Memory),
        Err(LookupFault::Limit { .. }) => Err(LookFault::Memory),
    }
}

fn standing_seen(held: Held) -> Standing
    ensures { result ≡ standing_seen held }
{
    let (seen, _) = held.into_parts();
    match seen {
        None => Standing::File,
        Some(Seen::Absent) => Standing::Nothing,
        Some(Seen::Folder) => Standing::Folder,
        Some(Seen::File(_)) => Standing::File,
    }
}
