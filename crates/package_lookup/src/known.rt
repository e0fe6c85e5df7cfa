ghost use Rattle.std.specs.Prelude.{◌≡◌, List, ℕ, Option, None, Some, IfOk, IfErr, OnOk, OnErr, bytes_eq};
ghost use Rattle.std.specs.Prelude.{option_copied, if◌then◌else◌};
ghost use Rattle.std.specs.HashMap as map;
ghost use Rattle.tree_spec.specs.LookAskings.{look_at};
ghost use Rattle.tree_spec.specs.declared.Look.{Look};
ghost use Rattle.package_lookup.specs.SeenLooks.{entry_of, look_seen, Shows};
ghost use Rattle.package_lookup.specs.Readings.{IsReadingOf, AreReadingsOf};
ghost use Rattle.package_lookup.specs.Looked.{kept_at, known_at, laid_at, Grows, IsSameKnown};
ghost use Rattle.package_lookup.specs.Responses.{looked};
ghost use Rattle.package_lookup.specs.Trails.{IsCounted};
ghost use Rattle.package_lookup.specs.Answered.{state, Answered, Asks};
ghost use Rattle.package_lookup.specs.Fetching.{Fetches, LooksNow};
ghost use Rattle.package_lookup.specs.declared.fault.LookupFault.{LookupFault};

use crate::held::{Held, Reading, Seen};
use crate::{LookupFault, Over, Trail};
use shared_types::Memory;
use std::alloc::Global;
use std::collections::HashMap;
use std::mem;
use tree_model::{Folder, Look, LookFault, Path};
use tree_spec::{LimitName, MOST_FILE_BYTES};

/// What is known of a folder: the looks that it gave, and other looks that are laid over them.
#[derive(Drop)]
pub struct Known {
    kept: HashMap<Path, Held>,
    laid: Over,
}

impl Known {
    /// Nothing is known.
    pub fn new(alloc: Global) -> Known
        ensures kept { (path : List ℕ) → kept_at result path ≡ None }
        ensures laid { (path : List ℕ) → laid_at result path ≡ None }
    {
        Known {
            kept: HashMap::new(alloc),
            laid: Over::new(alloc),
        }
    }

    /// The laid looks.
    pub fn laid(&self) -> &Over
        ensures { result.now ≡ self.now.laid }
    {
        &self.laid
    }

    /// Exchanges the laid looks with others.
    pub fn lay(&mut self, over: &mut Over)
        ensures laid { self.new.laid ≡ over.old }
        ensures over { over.new ≡ self.old.laid }
        ensures kept { self.new.kept ≡ self.old.kept }
    {
        mem::swap(&mut self.laid, over);
    }

    /// Makes room for so many looks more that the folder gives, as [`Over::make_room`] does for those that are laid.
    pub fn make_room(&mut self, more: usize)
        ensures kept { (path : List ℕ) → kept_at self.new path ≡ kept_at self.old path }
        ensures laid { self.new.laid ≡ self.old.laid }
    {
        let _ = self.kept.reserve(more);
    }

    /// The look at a path that the folder gave; none exactly where it gave none.
    pub fn kept(&self, path: &Path) -> Option<&Held>
        ensures { option_copied result ≡ kept_at self.now path.now }
    {
        self.kept.get(path)
    }

    /// What stands at a path: as the look that is laid over it says, else as the folder said when it was asked, which
    /// it is now where it wasn't yet.
    pub fn look<F: Folder>(
        &mut self,
        alloc: Global,
        folder: &mut F,
        path: &Path,
        trail: &mut Trail,
    ) -> Result<Seen, LookupFault>
        ensures answered { Answered (state (F.state folder.old) self.old trail.old) (look_at path.now)
            (looked entry_of result) (state (F.state folder.new) self.new trail.new) }
        ensures asks { Asks (state (F.state folder.old) self.old trail.old) path.now
            (looked entry_of result) (state (F.state folder.new) self.new trail.new) }
        ensures counted { IsCounted entry_of trail.old path.now result trail.new }
        ensures held { IfOk result (λ seen. known_at self.new path.now ≡ Some (look_seen seen)) }
    {
        let (seen, _) = self.sight(alloc, folder, path, trail)?;
        Ok(seen)
    }

    /// The same, with what was read of the bytes that stand there.
    pub(crate) fn sight<F: Folder>(
        &mut self,
        alloc: Global,
        folder: &mut F,
        path: &Path,
        trail: &mut Trail,
    ) -> Result<(Seen, Option<Reading>), LookupFault>
        ensures answered { Answered (state (F.state folder.old) self.old trail.old) (look_at path.now)
            (looked (λ sight. entry_of sight.0) result) (state (F.state folder.new) self.new trail.new) }
        ensures asks { Asks (state (F.state folder.old) self.old trail.old) path.now
            (looked (λ sight. entry_of sight.0) result) (state (F.state folder.new) self.new trail.new) }
        ensures counted { IsCounted (λ sight. entry_of sight.0) trail.old path.now result trail.new }
        ensures held { IfOk result (λ sight. (known_at self.new path.now ≡ Some (look_seen sight.0))
            × AreReadingsOf (look_seen sight.0) sight.1) }
    {
        if !trail.has_room(path) {
            return Err(limit(LimitName::Looks));
        }
        let held = self.hold(alloc, folder, path)?;
        let (seen, reading) = held.into_parts();
        match seen {
            None => Err(limit(LimitName::File)),
            Some(seen) => {
                trail.count(alloc, path, seen.size())?;
                Ok((seen, reading))
            }
        }
    }

    /// What is held for a path, by a look at the folder where nothing was. It counts nothing.
    pub fn hold<F: Folder>(
        &mut self,
        alloc: Global,
        folder: &mut F,
        path: &Path,
    ) -> Result<Held, LookupFault>
        ensures { Fetches (F.state folder.old) self.old path.now result (F.state folder.new) self.new }
    {
        match self.find(path) {
            Some(held) => Ok(held.copy()?),
            None => self.fetch(alloc, folder, path),
        }
    }

    /// What is known to stand at a path; none where nothing is known, or a file above the limit.
    pub fn shown(&self, path: &Path) -> Option<&Seen>
        ensures { Shows (known_at self.now path.now) (option_copied result) }
    {
        match self.find(path) {
            None => None,
            Some(held) => held.seen(),
        }
    }

    fn find(&self, path: &Path) -> Option<&Held>
        ensures { option_copied result ≡ known_at self.now path.now }
    {
        match self.laid.find(path) {
            Some(held) => Some(held),
            None => self.kept(path),
        }
    }

    fn fetch<F: Folder>(
        &mut self,
        alloc: Global,
        folder: &mut F,
        path: &Path,
    ) -> Result<Held, LookupFault>
        requires { known_at self.old path.now ≡ None }
        ensures { Fetches (F.state folder.old) self.old path.now result (F.state folder.new) self.new }
    {
        let look = look_now(alloc, folder, path)?;
        let held = Held::of(alloc, look)?;
        self.keep(alloc, path, &held)?;
        Ok(held)
    }

    fn keep(&mut self, alloc: Global, path: &Path, held: &Held) -> Result<(), Memory>
        requires { known_at self.old path.now ≡ None }
        ensures grows { Grows self.old self.new }
        ensures laid { self.new.laid ≡ self.old.laid }
        ensures kept { OnOk result ((other : List ℕ) → kept_at self.new other
            ≡ (if bytes_eq path.now other then Some held.now else kept_at self.old other)) }
        ensures same { OnErr result ((other : List ℕ) → kept_at self.new other ≡ kept_at self.old other) }
    {
        let path = path.copy(alloc)?;
        let held = held.copy()?;
        insert(&mut self.kept, path, held)
    }

    /// Keeps what was read of the bytes that stand at a path beside the look that is held for it.
    pub(crate) fn keep_reading(
        &mut self,
        path: Path,
        seen: Seen,
        reading: Reading,
    ) -> Result<(), Memory>
        requires held { known_at self.old path ≡ Some (look_seen seen) }
        requires reading { IsReadingOf (look_seen seen) reading }
        ensures { IsSameKnown self.old self.new }
    {
        let held = Held::read(seen, reading);
        match self.laid.find(&path) {
            Some(_) => self.laid.put(path, held),
            None => insert(&mut self.kept, path, held),
        }
    }
}

fn limit(which: LimitName) -> LookupFault
    ensures { result ≡ LookupFault.Limit which }
{
    LookupFault::Limit { which }
}

fn insert(looks: &mut HashMap<Path, Held>, path: Path, held: Held) -> Result<(), Memory>
    ensures set { OnOk result ((other : List ℕ) → map.get bytes_eq looks.new other
        ≡ (if bytes_eq path other then Some held else map.get bytes_eq looks.old other)) }
    ensures same { OnErr result ((other : List ℕ)
        → map.get bytes_eq looks.new other ≡ map.get bytes_eq looks.old other) }
{
    looks.insert(path, held)?;
    Ok(())
}

// A look at the folder.
fn look_now<F: Folder>(alloc: Global, folder: &mut F, path: &Path) -> Result<Look, LookupFault>
    ensures { LooksNow (F.state folder.old) path.now result (F.state folder.new) }
{
    match folder.look(alloc, path, MOST_FILE_BYTES) {
        Ok(look) => Ok(look),
        Err(LookFault::Failed) => Err(LookupFault::ReadFault),
        Err(LookFault::Memory) => Err(LookupFault::Memory),
    }
}
