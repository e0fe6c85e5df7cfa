//! The looks of a question, with what they saw.
ghost use Rattle.std.specs.Prelude.{◌≡◌, ◌≢◌, true, [], Some, IfOk, IfSome, OnErr, OnOk};
ghost use Rattle.std.specs.Bool.{Decides};
ghost use Rattle.tree_spec.specs.LookLimits.{size_at};
ghost use Rattle.tree_spec.specs.LookAskings.{look_at, look_at_each};
ghost use Rattle.package_lookup.specs.Answered.{Answered};
ghost use Rattle.package_lookup.specs.LaidTrees.{look_for};
ghost use Rattle.package_lookup.specs.Looked.{known_at};
ghost use Rattle.package_lookup.specs.Lookups.{state_of, IsSameLookup};
ghost use Rattle.package_lookup.specs.Responses.{looked};
ghost use Rattle.package_lookup.specs.SeenLooks.{entry_of, look_seen};
ghost use Rattle.package_lookup.specs.Trails.{IsCounted, Lengthens};
ghost use Rattle.kept_answers.specs.KnownLooks.{done, IsSmall, IsAsKnown, AreLooksAt, LooksAgain};
ghost use Rattle.kept_answers.specs.WholeLooks.{counted_all, AreLooksOf, AreShown, AreCountable, HasSpaceFor};

use package_lookup::{Known, Lookup, LookupFault, Seen, Trail};
use shared_types::{Listed, Memory};
use std::alloc::Global;
use std::marker::Model;
use std::rc::Rc;
use tree_model::{Folder, Path, Paths};

/// A look and what it saw, which is no file above the limit. Bytes are shared with what is known.
#[derive(Drop)]
pub struct LookedAt {
    path: Path,
    seen: Seen,
}

impl Model for LookedAt {
    ghost use Rattle.kept_spec.specs.Certificates.{LookSeen};
    ghost use Rattle.kept_answers.specs.KnownLooks.{IsSmall};
    ghost use Rattle.package_lookup.specs.SeenLooks.{entry_of};

    ghost Value = { LookSeen };

    ghost view = { λ l. record { path = l.path; found = entry_of l.seen } };

    ghost invariant = { λ l. IsSmall (entry_of l.seen) };
}

impl LookedAt {
    /// A look at a path, and what it saw.
    fn of(path: Path, seen: Seen) -> LookedAt
        requires { IsSmall (entry_of seen) }
        ensures { result ≡ record { path = path; found = entry_of seen } }
    {
        LookedAt { path, seen }
    }

    /// The path.
    pub fn path(&self) -> &Path
        ensures path { result.now ≡ self.now.path }
        ensures small { IsSmall self.now.found }
    {
        &self.path
    }

    /// Whether it saw the same.
    fn saw(&self, seen: &Seen) -> bool
        ensures { Decides result (look_seen seen.now ≡ look_for self.now.found) }
    {
        same_seen(seen, &self.seen)
    }

    // Whether the same is known to stand there.
    fn is_shown(&self, known: &Known) -> bool
        ensures { result ≡ true → IsAsKnown known.now self.now }
    {
        match known.shown(&self.path) {
            None => false,
            Some(seen) => self.saw(seen),
        }
    }

    // How many bytes it saw.
    fn size(&self) -> u64
        ensures { result ≡ size_at self.now.found }
    {
        self.seen.size()
    }
}

fn same_seen(one: &Seen, other: &Seen) -> bool
    ensures { Decides result (look_seen one.now ≡ look_seen other.now) }
{
    match one {
        Seen::Absent => match other {
            Seen::Absent => true,
            Seen::Folder => false,
            Seen::File(_) => false,
        },
        Seen::Folder => match other {
            Seen::Absent => false,
            Seen::Folder => true,
            Seen::File(_) => false,
        },
        Seen::File(bytes) => match other {
            Seen::Absent => false,
            Seen::Folder => false,
            Seen::File(others) => bytes.as_bytes() == others.as_bytes(),
        },
    }
}

/// The looks of a question, each at another path, and these paths by themselves, which trails share.
#[derive(Drop)]
pub struct Looks {
    paths: Rc<Paths>,
    items: Listed<LookedAt>,
}

impl Model for Looks {
    ghost use Rattle.std.specs.Prelude.{List};
    ghost use Rattle.kept_spec.specs.Certificates.{LookSeen};
    ghost use Rattle.kept_answers.specs.WholeLooks.{AreLooksOf};

    ghost Value = { List LookSeen };

    ghost view = { λ l. l.items };

    ghost invariant = { λ l. AreLooksOf l.paths.value l.items };
}

impl Looks {
    /// Looks at these paths.
    fn of(alloc: Global, paths: Paths, items: Listed<LookedAt>) -> Result<Looks, Memory>
        requires { AreLooksOf paths items }
        ensures { IfOk result (λ looks. looks ≡ items) }
    {
        Ok(Looks {
            paths: Rc::new(alloc, paths)?,
            items,
        })
    }

    // The paths, where the same is known to stand at each, and looks at all of them pass no limit however many were
    // counted; else none.
    fn countable(&self, known: &Known, trail: &Trail) -> Option<Rc<Paths>>
        ensures { IfSome result (λ paths. AreCountable known.now trail.now self.now paths.value) }
    {
        let most = trail.bytes_left();
        if !trail.has_space(self.items.len(), most) {
            return None;
        }
        if !are_shown(known, self.items.as_slice(), most) {
            return None;
        }
        match Rc::clone(&self.paths) {
            Ok(paths) => Some(paths),
            Err(_) => None,
        }
    }
}

// Whether the same is known to stand at the path of each of these looks, and so many bytes at most at all of them.
fn are_shown(known: &Known, looks: &[LookedAt], most: u64) -> bool
    ensures { result ≡ true → AreShown known.now looks.now most }
{
    let mut left = most;
    let mut rest = looks;
    while let Some((look, others)) = rest.split_first() {
        let size = look.size();
        if size > left || !look.is_shown(known) {
            return false;
        }
        left -= size;
        rest = others;
    }
    true
}

/// Looks again at the paths of the present question, which leaves the trail.
pub(crate) fn looks_of<F: Folder>(lookup: &mut Lookup<'_, F>) -> Result<Looks, LookupFault>
    ensures answered { Answered (state_of F.state lookup.old) (look_at_each lookup.old.trail.now.question)
        (looked done result) (state_of F.state lookup.new) }
    ensures looks { IfOk result (λ looks. AreLooksAt lookup.new.known.now lookup.old.trail.now.question looks) }
    ensures same { IsSameLookup lookup.old lookup.new }
{
    let paths = copy_of(lookup.alloc, lookup.trail.question())?;
    let items = looks_at(lookup, paths.as_slice())?;
    Ok(Looks::of(lookup.alloc, paths, items)?)
}

fn copy_of(alloc: Global, paths: &Paths) -> Result<Paths, Memory>
    ensures { IfOk result (λ copy. copy ≡ paths.now) }
{
    let mut copy = Paths::new(alloc);
    for path in paths.as_slice() {
        copy.push(path.copy(alloc)?)?;
    }
    Ok(copy)
}

// A look at a path.
fn seen_at<F: Folder>(lookup: &mut Lookup<'_, F>, path: &Path) -> Result<Seen, LookupFault>
    ensures answered { Answered (state_of F.state lookup.old) (look_at path.now)
        (looked entry_of result) (state_of F.state lookup.new) }
    ensures counted { IsCounted entry_of lookup.old.trail.now path.now result lookup.new.trail.now }
    ensures held { IfOk result (λ seen. known_at lookup.new.known.now path.now ≡ Some (look_seen seen)) }
    ensures same { IsSameLookup lookup.old lookup.new }
{
    lookup
        .known
        .look(lookup.alloc, lookup.folder, path, lookup.trail)
}

// Looks at these paths, one after another.
fn looks_at<F: Folder>(
    lookup: &mut Lookup<'_, F>,
    paths: &[Path],
) -> Result<Listed<LookedAt>, LookupFault>
    ensures answered { Answered (state_of F.state lookup.old) (look_at_each paths.now)
        (looked done result) (state_of F.state lookup.new) }
    ensures looks { IfOk result (λ looks. AreLooksAt lookup.new.known.now paths.now looks) }
    ensures same { IsSameLookup lookup.old lookup.new }
{
    let mut looks = Listed::new(lookup.alloc);
    let mut rest = paths;
    while let Some((path, others)) = rest.split_first() {
        let seen = seen_at(lookup, path)?;
        looks.push(LookedAt::of(path.copy(lookup.alloc)?, seen))?;
        rest = others;
    }
    Ok(looks)
}

/// Looks again at the paths of these looks, in a new question, up to the first that sees otherwise. Whether none does.
pub(crate) fn look_again<F: Folder>(
    lookup: &mut Lookup<'_, F>,
    looks: &Looks,
) -> Result<bool, LookupFault>
    ensures again { LooksAgain (state_of F.state lookup.old) looks.now result
        (state_of F.state lookup.new) }
    ensures same { IsSameLookup lookup.old lookup.new }
{
    match looks.countable(lookup.known, lookup.trail) {
        None => look_by_look(lookup, looks.items.as_slice()),
        Some(paths) => look_at_all(lookup, looks.items.as_slice(), paths),
    }
}

// Counts all of these looks, at these paths, in a new question.
fn look_at_all<F: Folder>(
    lookup: &mut Lookup<'_, F>,
    looks: &[LookedAt],
    paths: Rc<Paths>,
) -> Result<bool, LookupFault>
    requires { AreCountable lookup.old.known.now lookup.old.trail.now looks.now paths.value }
    ensures again { LooksAgain (state_of F.state lookup.old) looks.now result
        (state_of F.state lookup.new) }
    ensures same { IsSameLookup lookup.old lookup.new }
{
    count_all(lookup.alloc, lookup.trail, looks)?;
    lookup.trail.ask_again(paths);
    Ok(true)
}

// Counts these looks, in no question.
fn count_all(alloc: Global, trail: &mut Trail, looks: &[LookedAt]) -> Result<(), Memory>
    requires { HasSpaceFor trail.old looks.now }
    ensures counted { OnOk result (trail.new ≡ counted_all trail.old looks.now) }
    ensures grows { Lengthens trail.old trail.new }
    ensures some { OnErr result (looks.now ≢ []) }
{
    let mut rest = looks;
    while let Some((look, others)) = rest.split_first() {
        trail.pass(alloc, look.path(), look.size())?;
        rest = others;
    }
    Ok(())
}

// The same, look by look.
fn look_by_look<F: Folder>(
    lookup: &mut Lookup<'_, F>,
    looks: &[LookedAt],
) -> Result<bool, LookupFault>
    ensures again { LooksAgain (state_of F.state lookup.old) looks.now result
        (state_of F.state lookup.new) }
    ensures same { IsSameLookup lookup.old lookup.new }
{
    lookup.trail.begin();
    let mut rest = looks;
    while let Some((look, others)) = rest.split_first() {
        let seen = seen_at(lookup, look.path())?;
        if !look.saw(&seen) {
            return Ok(false);
        }
        rest = others;
    }
    Ok(true)
}
