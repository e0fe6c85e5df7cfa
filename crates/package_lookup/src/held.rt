ghost use Rattle.std.specs.Prelude.{◌≡◌, ℕ, length, Some, IfOk, option_copied};
ghost use Rattle.tree_spec.specs.LookLimits.{size_at};
ghost use Rattle.tree_spec.specs.declared.Look.{Look};
ghost use Rattle.package_lookup.specs.SeenLooks.{bytes_of, entry_of, look_of, look_seen};
ghost use Rattle.package_lookup.specs.Readings.{IsReadingOf, AreReadingsOf};

use package_record::Package;
use shared_types::{Bytes, Memory};
use std::alloc::Global;
use std::marker::Model;
use std::rc::Rc;
use tree_spec::Look;

/// What stands at a path that was looked at.
#[derive(Drop)]
pub enum Seen {
    /// Nothing.
    Absent,
    /// A folder.
    Folder,
    /// A file, whose bytes are shared with what is kept.
    File(Rc<Bytes>),
}

impl Seen {
    /// The same, with the file's bytes shared.
    pub fn copy(&self) -> Result<Seen, Memory>
        ensures { IfOk result (λ copy. look_seen copy ≡ look_seen self.now) }
    {
        match self {
            Seen::Absent => Ok(Seen::Absent),
            Seen::Folder => Ok(Seen::Folder),
            Seen::File(bytes) => Ok(Seen::File(Rc::clone(bytes)?)),
        }
    }

    /// The bytes of a file.
    pub fn file(&self) -> Option<&[u8]>
        ensures { option_copied result ≡ bytes_of (look_seen self.now) }
    {
        match self {
            Seen::Absent => None,
            Seen::Folder => None,
            Seen::File(bytes) => Some(bytes.as_bytes()),
        }
    }

    /// How many bytes stand there.
    pub fn size(&self) -> u64
        ensures { result ≡ size_at (entry_of self.now) }
    {
        match self {
            Seen::Absent => 0,
            Seen::Folder => 0,
            Seen::File(bytes) => bytes.len() as u64,
        }
    }
}

/// What was read of the bytes of a package.json.
#[derive(Drop)]
pub enum Reading {
    Found(Rc<Package>),
    NotWellFormed,
    TooDeep,
}

impl Reading {
    /// The same, with the record shared.
    pub fn copy(&self) -> Result<Reading, Memory>
        ensures { IfOk result (λ copy. (look : Look) → IsReadingOf look self.now → IsReadingOf look copy) }
    {
        match self {
            Reading::Found(package) => Ok(Reading::Found(Rc::clone(package)?)),
            Reading::NotWellFormed => Ok(Reading::NotWellFormed),
            Reading::TooDeep => Ok(Reading::TooDeep),
        }
    }
}

/// A look that is held for a path, and what was read of its bytes. A contract sees it as the look.
#[derive(Drop)]
pub struct Held {
    seen: Option<Seen>,
    reading: Option<Reading>,
}

impl Model for Held {
    ghost use Rattle.tree_spec.specs.declared.Look.{Look};

    ghost Value = { Look };

    ghost use Rattle.package_lookup.specs.SeenLooks.{look_of};
    ghost use Rattle.package_lookup.specs.Readings.{AreReadingsOf};

    ghost view = { λ held. look_of held.seen };

    ghost invariant = { λ held. AreReadingsOf (look_of held.seen) held.reading };
}

impl Held {
    /// What a look told; nothing was read of it.
    pub fn of(alloc: Global, look: Look) -> Result<Held, Memory>
        ensures { IfOk result (λ held. held ≡ look) }
    {
        let seen = match look {
            Look::Absent => Some(Seen::Absent),
            Look::Folder => Some(Seen::Folder),
            Look::File(bytes) => Some(Seen::File(Rc::new(alloc, bytes)?)),
            Look::TooLarge => None,
        };
        Ok(Held {
            seen,
            reading: None,
        })
    }

    /// What was seen, and what was read of its bytes.
    pub(crate) fn read(seen: Seen, reading: Reading) -> Held
        requires { IsReadingOf (look_seen seen) reading }
        ensures { result ≡ look_seen seen }
    {
        Held {
            seen: Some(seen),
            reading: Some(reading),
        }
    }

    /// The bytes of the file that was seen; none where that was no file, or one above the limit.
    pub fn file(&self) -> Option<&[u8]>
        ensures { option_copied result ≡ bytes_of self.now }
    {
        match &self.seen {
            None => None,
            Some(seen) => seen.file(),
        }
    }

    /// What was seen, none where that is a file above the limit.
    pub fn seen(&self) -> Option<&Seen>
        ensures { look_of (option_copied result) ≡ self.now }
    {
        match &self.seen {
            None => None,
            Some(seen) => Some(seen),
        }
    }

    /// An equal one, with all bytes and records shared.
    pub fn copy(&self) -> Result<Held, Memory>
        ensures { IfOk result (λ copy. copy ≡ self.now) }
    {
        Ok(Held {
            seen: copy_of(&self.seen)?,
            reading: reading_copy(&self.reading)?,
        })
    }

    /// What was seen, none where that is a file above the limit, and what was read of it.
    pub fn into_parts(self) -> (Option<Seen>, Option<Reading>)
        ensures look { look_of result.0 ≡ self }
        ensures reading { AreReadingsOf self result.1 }
    {
        (self.seen, self.reading)
    }
}

fn copy_of(seen: &Option<Seen>) -> Result<Option<Seen>, Memory>
    ensures { IfOk result (λ copy. look_of copy ≡ look_of seen.now) }
{
    match seen {
        None => Ok(None),
        Some(seen) => Ok(Some(seen.copy()?)),
    }
}

fn reading_copy(reading: &Option<Reading>) -> Result<Option<Reading>, Memory>
    ensures { IfOk result (λ copy. (look : Look) → AreReadingsOf look reading.now → AreReadingsOf look copy) }
{
    match reading {
        None => Ok(None),
        Some(reading) => Ok(Some(reading.copy()?)),
    }
}
