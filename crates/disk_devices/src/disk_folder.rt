//! A folder of the disk.
ghost use Rattle.std.specs.Prelude.{◌≡◌, ◌≤◌, ◌<◌, ◌-◌, ◌^◌, ℕ, None, IfOk, IfSome, length};
ghost use Rattle.disk_devices.specs.Contents.{IsContent};
ghost use Rattle.disk_devices.specs.Counting.{IsFaultCounted};

use crate::faults::one_more;
use crate::trouble::{Obstacle, Trouble};
use std::alloc::{AllocError, Global};
use std::collections::HashMap;
use std::fs::OpenOptions;
use std::io::{ErrorKind, Read, Write};
use std::rt::Files;
use std::{fs, io};
use tree_model::{Bytes, Failed, Folder, Look, LookFault, Path};

/// How many names a write tries for the file that it makes beside its goal.
const DRAFTS: u8 = 100;

/// A folder of the disk with all below it. It tells nothing of what it holds.
///
/// A link isn't followed: a look at one, or past one, fails. A folder on the way to a file is judged once by the looks
/// between two writes, and once by the writes between two looks, so a link that takes its place after that goes unseen,
/// and so does what is put where nothing stood.
#[derive(Drop)]
pub struct DiskFolder<'a, R> {
    disk: Disk<'a, R>,
    look_faults: u64,
    write_faults: u64,
    trouble: Option<Trouble>,
}

impl<'a, R> DiskFolder<'a, R> {
    /// The folder with this name on the disk, which has not failed yet.
    pub fn new(rt: R, alloc: Global, root: &'a str) -> DiskFolder<'a, R>
        ensures looks { result.look_faults ≡ 0 }
        ensures writes { result.write_faults ≡ 0 }
    {
        DiskFolder {
            disk: Disk {
                rt,
                alloc,
                root,
                ways: HashMap::new(alloc),
                gap: None,
                writes: false,
            },
            look_faults: 0,
            write_faults: 0,
            trouble: None,
        }
    }

    /// What failed last, and why; None where nothing did, or where there was no memory to keep it.
    pub fn trouble(&self) -> Option<&Trouble> {
        self.trouble.as_ref()
    }

    /// The fault of a look that an obstacle makes, kept and counted where it isn't want of memory.
    fn look_fault(&mut self, path: &str, obstacle: Obstacle) -> LookFault
        ensures counted { IsFaultCounted self.old.look_faults result self.new.look_faults }
        ensures writes { self.new.write_faults ≡ self.old.write_faults }
    {
        if let Obstacle::System { error } = &obstacle {
            if error.kind() == ErrorKind::OutOfMemory {
                return LookFault::Memory;
            }
        }
        self.trouble = trouble_of(&self.disk, path, obstacle);
        self.look_faults = one_more(self.look_faults);
        LookFault::Failed
    }
}

fn trouble_of<R>(disk: &Disk<'_, R>, path: &str, obstacle: Obstacle) -> Option<Trouble> {
    match disk.name_of(disk.alloc, path) {
        Ok(name) => Some(Trouble::of(obstacle, name)),
        Err(_) => None,
    }
}

impl<'a, R: Files> Folder for DiskFolder<'a, R> {
    ghost use Rattle.std.proofs.Common.{rules};

    ghost state = { λ folder. record {
      holds = None;
      asked = None;
      look_faults = folder.look_faults;
      write_faults = folder.write_faults;
    } };

    ghost told = { Prim.search rules };

    fn look(&mut self, alloc: Global, path: &Path, limit: u64) -> Result<Look, LookFault> {
        match self.disk.look(alloc, path.as_str(), limit) {
            Ok(look) => Ok(look),
            Err(obstacle) => Err(self.look_fault(path.as_str(), obstacle)),
        }
    }

    fn write(&mut self, path: &Path, bytes: &[u8]) -> Result<(), Failed> {
        match self.disk.write(path.as_str(), bytes) {
            Ok(()) => Ok(()),
            Err(obstacle) => {
                self.trouble = trouble_of(&self.disk, path.as_str(), obstacle);
                self.write_faults = one_more(self.write_faults);
                Err(Failed)
            }
        }
    }
}

/// What stands under a name of the disk.
#[derive(Clone, Copy)]
enum Standing {
    Absent,
    Folder,
    /// A file of this many bytes.
    File(u64),
}

/// The files below one folder of the disk, and what was found on the way to them.
#[derive(Drop)]
struct Disk<'a, R> {
    rt: R,
    alloc: Global,
    root: &'a str,
    /// Names below the root, and whether a folder stands there, and above it folders alone.
    ways: HashMap<String, bool>,
    /// The path of the last of these names at which no folder was found by a look: nothing stands below it, so looks at
    /// many paths below it, as at each folder above a path, don't go through all names between.
    gap: Option<String>,
    /// Whether that was found by writes alone, with no look behind the first of them.
    writes: bool,
}

impl<'a, R> Disk<'a, R> {
    /// The name on the disk of what stands at a path.
    fn name_of(&self, alloc: Global, path: &str) -> Result<String, AllocError> {
        let mut name = String::with_capacity(alloc, self.root.len().saturating_add(path.len()))?;
        name.push_str(self.root)?;
        name.push_str(path)?;
        Ok(name)
    }

    /// Keeps whether a folder stands under a name.
    fn keep(&mut self, name: String, is_reached: bool) -> Result<(), AllocError> {
        self.ways.insert(name, is_reached)?;
        Ok(())
    }
}

impl<'a, R: Files> Disk<'a, R> {
    /// What stands at a path, where a file may have at most `limit` bytes.
    fn look(&mut self, alloc: Global, path: &str, limit: u64) -> Result<Look, Obstacle> {
        self.writes = false;
        if self.is_beyond(path) {
            return Ok(Look::Absent);
        }
        let name = self.name_of(alloc, path)?;
        if !self.reaches(above(name.as_str()))? {
            return Ok(Look::Absent);
        }
        match self.standing(name.as_str())? {
            Standing::Absent => Ok(Look::Absent),
            Standing::Folder => {
                self.keep(name, true)?;
                self.gap = None;
                Ok(Look::Folder)
            }
            Standing::File(size) => {
                if size > limit {
                    return Ok(Look::TooLarge);
                }
                let file = fs::open(&self.rt, name.as_str())?;
                // No file is so long that the greatest number makes a difference.
                Ok(content(alloc, file, size, limit.min(u64::MAX - 1))?)
            }
        }
    }

    /// Makes a file of these bytes, or leaves what stands there.
    fn write(&mut self, path: &str, bytes: &[u8]) -> Result<(), Obstacle> {
        let alloc = self.alloc;
        let goal = self.name_of(alloc, path)?;
        let above = above(goal.as_str());
        if !self.writes {
            // The first write behind a look judges each folder on its way anew.
            self.ways.clear();
            self.gap = None;
            self.writes = true;
        }
        self.make_folder(above)?;
        if let Standing::Folder = self.standing(goal.as_str())? {
            return Err(Obstacle::from(io::Error::from(ErrorKind::IsADirectory)));
        }
        // Written beside the goal and moved over it, so that a write that fails leaves what was there.
        let (draft, mut file) = self.draft(alloc, above)?;
        let written = file.write_all(bytes);
        drop(file);
        let moved = match written {
            Ok(()) => fs::rename(&self.rt, draft.as_str(), goal.as_str()),
            Err(fault) => Err(fault),
        };
        if moved.is_err() {
            // The fault to tell is the one before, whether or not the draft can be taken away.
            let _ = fs::remove_file(&self.rt, draft.as_str());
        }
        Ok(moved?)
    }

    /// What stands under a name, a link not followed.
    fn standing(&self, name: &str) -> Result<Standing, Obstacle> {
        match fs::symlink_metadata(&self.rt, name) {
            Ok(found) => {
                if found.is_file() {
                    Ok(Standing::File(found.len()))
                } else if found.is_dir() {
                    Ok(Standing::Folder)
                } else {
                    let name = String::from_str(self.alloc, name)?;
                    if found.is_symlink() {
                        return Err(Obstacle::Link { name });
                    }
                    Err(Obstacle::Special { name })
                }
            }
            Err(fault) => match fault.kind() {
                ErrorKind::NotFound | ErrorKind::NotADirectory | ErrorKind::InvalidFilename => {
                    Ok(Standing::Absent)
                }
                _ => Err(Obstacle::from(fault)),
            },
        }
    }

    /// Makes the folder of this name and those above it where nothing stands.
    fn make_folder(&mut self, name: &str) -> Result<(), Obstacle> {
        if name.len() <= self.root.len() {
            return Ok(());
        }
        if let Some(is_reached) = self.ways.get(name) {
            if *is_reached {
                return Ok(());
            }
        }
        self.make_folder(above(name))?;
        match self.standing(name)? {
            Standing::Folder => {}
            Standing::Absent => fs::create_dir(&self.rt, name)?,
            Standing::File(_) => {
                return Err(Obstacle::from(io::Error::from(ErrorKind::NotADirectory)));
            }
        }
        self.keep(String::from_str(self.alloc, name)?, true)?;
        Ok(())
    }

    /// Whether a folder stands under a name, and above it, from the root folder on, folders alone.
    fn reaches(&mut self, name: &str) -> Result<bool, Obstacle> {
        if let Some(is_reached) = self.ways.get(name) {
            return Ok(*is_reached);
        }
        let Some(path) = name.strip_prefix(self.root) else {
            return Ok(true);
        };
        // From the root on, so that where a folder is missing nothing is done for those below it.
        let mut front = String::with_capacity(self.alloc, name.len())?;
        front.push_str(self.root)?;
        for segment in path.split('/') {
            if !segment.is_empty() {
                front.push('/')?;
                front.push_str(segment)?;
                if !self.is_way(front.as_str())? {
                    return Ok(false);
                }
            }
        }
        Ok(true)
    }

    /// Whether a folder stands under a name, where above it folders alone do. Nothing is kept of a name below one where
    /// none does, so a path leaves at most one such name.
    fn is_way(&mut self, name: &str) -> Result<bool, Obstacle> {
        if let Some(is_reached) = self.ways.get(name) {
            return Ok(*is_reached);
        }
        let is_reached = matches!(self.standing(name)?, Standing::Folder);
        self.keep(String::from_str(self.alloc, name)?, is_reached)?;
        if !is_reached {
            self.gap = self.path_of(name)?;
        }
        Ok(is_reached)
    }

    /// The path of what stands under a name.
    fn path_of(&self, name: &str) -> Result<Option<String>, AllocError> {
        match name.strip_prefix(self.root) {
            None => Ok(None),
            Some(path) => Ok(Some(String::from_str(self.alloc, path)?)),
        }
    }

    /// Whether a path is below the last gap.
    fn is_beyond(&self, path: &str) -> bool {
        match &self.gap {
            None => false,
            Some(gap) => match path.strip_prefix(gap.as_str()) {
                None => false,
                Some(rest) => rest.starts_with('/'),
            },
        }
    }

    /// A new file in a folder, with its name.
    fn draft(&self, alloc: Global, above: &str) -> io::Result<(String, R::File)> {
        for number in 0..DRAFTS {
            let name = format!(in alloc; "{above}/.salimgub-draft-{number}")?;
            match OpenOptions::new()
                .write(true)
                .create_new(true)
                .open(&self.rt, name.as_str())
            {
                Ok(file) => return Ok((name, file)),
                Err(fault) => {
                    if fault.kind() != ErrorKind::AlreadyExists {
                        return Err(fault);
                    }
                }
            }
        }
        Err(io::Error::from(ErrorKind::AlreadyExists))
    }
}

/// What stands before the last slash of a name.
fn above(name: &str) -> &str
    ensures { length result.now ≤ length name.now - 1 }
{
    match name.rsplit_once('/') {
        None => "",
        Some((above, _)) => above,
    }
}

/// The content of a file of about `size` bytes, or too large where there are more than `limit`.
fn content<F: Read + Drop>(alloc: Global, file: F, size: u64, limit: u64) -> io::Result<Look>
    requires { limit < 2 ^ 64 - 1 }
    ensures { IfOk result (λ look. IfSome (F.remaining file) (λ all. IsContent all limit look)) }
{
    let room = size.min(limit) + 1;
    let mut bytes = Vec::with_capacity(alloc, room as usize)?;
    let mut front = file.take(limit + 1);
    front.read_to_end(&mut bytes)?;
    if bytes.len() as u64 > limit {
        return Ok(Look::TooLarge);
    }
    Ok(Look::File(Bytes::from_vec(bytes)))
}

#[cfg(test)]
mod tests {
    use super::*;
    use std::os::unix::fs::symlink;
    use std::test::Fail;
    use std::{env, process};

    #[derive(Clone, Copy, Debug, PartialEq, Eq)]
    enum Seen {
        Absent,
        Folder,
        File(usize),
        TooLarge,
        Failed,
        Memory,
    }

    fn answered(answer: Result<Look, LookFault>) -> Seen {
        match answer {
            Ok(Look::Absent) => Seen::Absent,
            Ok(Look::Folder) => Seen::Folder,
            Ok(Look::File(bytes)) => Seen::File(bytes.len()),
            Ok(Look::TooLarge) => Seen::TooLarge,
            Err(LookFault::Failed) => Seen::Failed,
            Err(LookFault::Memory) => Seen::Memory,
        }
    }

    /// What failed last, and why, as it is told.
    fn shown(alloc: Global, folder: &DiskFolder<'_, HostRuntime>) -> Result<String, Fail> {
        let trouble = folder.trouble().ok_or("no trouble")?;
        Ok(format!(in alloc; "{trouble}")?)
    }

    static LOOKS: [(&str, u64, Seen); 16] = [
        ("/", 9, Seen::Folder),
        ("/folder", 0, Seen::Folder),
        ("/folder/five", 5, Seen::File(5)),
        ("/folder/five", 4, Seen::TooLarge),
        ("/folder/empty", 0, Seen::File(0)),
        ("/folder/none", 9, Seen::Absent),
        ("/none/none", 9, Seen::Absent),
        ("/none/none/none", 9, Seen::Absent),
        ("/none", 9, Seen::Absent),
        ("/fold/none", 9, Seen::Absent),
        ("/folder/five", 5, Seen::File(5)),
        ("/folder/five/below", 9, Seen::Absent),
        ("/linked_file", 9, Seen::Failed),
        ("/linked_folder", 9, Seen::Failed),
        ("/linked_folder/five", 9, Seen::Failed),
        ("/folder/five", 9, Seen::File(5)),
    ];

    /// A new folder with the files that `LOOKS` speaks of.
    fn made(rt: &HostRuntime, name: &str) -> Result<String, Fail> {
        let alloc = rt.alloc();
        let place = env::temp_dir(rt)?;
        let number = process::id(rt.process());
        let root = format!(in alloc; "{}/salimgub-{name}-{number}", place.as_str())?;
        fs::create_dir_all(rt, format!(in alloc; "{root}/folder")?.as_str())?;
        fs::write(
            rt,
            format!(in alloc; "{root}/folder/five")?.as_str(),
            "12345",
        )?;
        fs::write(rt, format!(in alloc; "{root}/folder/empty")?.as_str(), "")?;
        symlink(
            rt,
            "folder/five",
            format!(in alloc; "{root}/linked_file")?.as_str(),
        )?;
        symlink(
            rt,
            "folder",
            format!(in alloc; "{root}/linked_folder")?.as_str(),
        )?;
        Ok(root)
    }

    #[test]
    fn looks(rt: HostRuntime) -> Result<(), Fail> {
        let alloc = rt.alloc();
        let root = made(&rt, "looks")?;
        let mut folder = DiskFolder::new(rt, alloc, root.as_str());
        for &(path, limit, wanted) in &LOOKS {
            let path = Path::parse(alloc, path)?;
            assert_eq!(rt;
                answered(folder.look(alloc, &path, limit)),
                wanted,
                "at {}",
                path.as_str()
            );
        }
        assert_eq!(rt; folder.look_faults, 3);
        let linked = format!(in alloc; "{root}/linked_folder: symbolic link")?;
        assert!(rt; shown(alloc, &folder)? == linked);
        let mut devices = DiskFolder::new(rt, alloc, "/dev");
        let null = Path::parse(alloc, "/null")?;
        assert_eq!(rt;
            answered(devices.look(alloc, &null, 9)),
            Seen::Failed,
            "a special file"
        );
        assert!(rt; shown(alloc, &devices)?.as_str() == "/dev/null: special file");
        fs::remove_dir_all(&rt, root.as_str())?;
        Ok(())
    }

    #[test]
    fn a_folder_that_comes_is_found(rt: HostRuntime) -> Result<(), Fail> {
        let alloc = rt.alloc();
        let root = made(&rt, "comes")?;
        let mut folder = DiskFolder::new(rt, alloc, root.as_str());
        let above = Path::parse(alloc, "/late")?;
        let below = Path::parse(alloc, "/late/deep/file")?;
        let before = answered(folder.look(alloc, &below, 9));
        fs::create_dir_all(&rt, format!(in alloc; "{root}/late/deep")?.as_str())?;
        fs::write(
            &rt,
            format!(in alloc; "{root}/late/deep/file")?.as_str(),
            "1",
        )?;
        let between = answered(folder.look(alloc, &above, 9));
        let after = answered(folder.look(alloc, &below, 9));
        assert!(rt; (before, between, after) == (Seen::Absent, Seen::Folder, Seen::File(1)));
        fs::remove_dir_all(&rt, root.as_str())?;
        Ok(())
    }

    /// What a file of five bytes told as its size, the limit, and what a look answers.
    static SIZES: [(u64, u64, Seen); 8] = [
        (5, 9, Seen::File(5)),
        (5, 5, Seen::File(5)),
        (0, 9, Seen::File(5)),
        (3, 9, Seen::File(5)),
        (9, 9, Seen::File(5)),
        (0, 4, Seen::TooLarge),
        (3, 4, Seen::TooLarge),
        (4, 4, Seen::TooLarge),
    ];

    #[test]
    fn a_file_that_grew_or_shrank(rt: HostRuntime) -> Result<(), Fail> {
        for &(size, limit, wanted) in &SIZES {
            let found = match content(rt.alloc(), b"12345".as_slice(), size, limit) {
                Ok(look) => answered(Ok(look)),
                Err(_) => Seen::Failed,
            };
            assert_eq!(rt; found, wanted, "{size} bytes told, {limit} allowed");
        }
        Ok(())
    }

    /// What a look at a path answers, whether a write there is answered, and what a look answers then.
    fn rewritten(
        alloc: Global,
        folder: &mut DiskFolder<'_, HostRuntime>,
        path: &str,
    ) -> Result<(Seen, bool, Seen), Fail> {
        let path = Path::parse(alloc, path)?;
        let before = answered(folder.look(alloc, &path, 9));
        let is_written = folder.write(&path, b"written").is_ok();
        Ok((before, is_written, answered(folder.look(alloc, &path, 9))))
    }

    static WRITES: [(&str, Seen, bool, Seen); 6] = [
        ("/new/deep/map", Seen::Absent, true, Seen::File(7)),
        ("/folder/empty", Seen::File(0), true, Seen::File(7)),
        ("/folder", Seen::Folder, false, Seen::Folder),
        ("/folder/five/below", Seen::Absent, false, Seen::Absent),
        ("/linked_file", Seen::Failed, false, Seen::Failed),
        ("/linked_folder/new", Seen::Failed, false, Seen::Failed),
    ];

    #[test]
    fn writes(rt: HostRuntime) -> Result<(), Fail> {
        let root = made(&rt, "writes")?;
        let mut folder = DiskFolder::new(rt, rt.alloc(), root.as_str());
        for &(path, before, is_written, after) in &WRITES {
            let found = rewritten(rt.alloc(), &mut folder, path)?;
            assert!(rt; found == (before, is_written, after), "at {path}");
        }
        assert!(rt; folder.write_faults == 4);
        fs::remove_dir_all(&rt, root.as_str())?;
        Ok(())
    }

    /// Takes all names of the files that a write makes beside its goal.
    fn take_drafts(rt: &HostRuntime, root: &str) -> Result<(), Fail> {
        for number in 0..DRAFTS {
            let draft = format!(in rt.alloc(); "{root}/folder/.salimgub-draft-{number}")?;
            fs::write(rt, draft.as_str(), "")?;
        }
        Ok(())
    }

    #[test]
    fn a_failed_write_leaves_the_file(rt: HostRuntime) -> Result<(), Fail> {
        let root = made(&rt, "failed")?;
        take_drafts(&rt, root.as_str())?;
        let mut folder = DiskFolder::new(rt, rt.alloc(), root.as_str());
        let found = rewritten(rt.alloc(), &mut folder, "/folder/five")?;
        assert!(rt; found == (Seen::File(5), false, Seen::File(5)));
        fs::remove_dir_all(&rt, root.as_str())?;
        Ok(())
    }

    /// A path whose last name has 256 bytes, one more than a disk takes.
    fn long_path(alloc: Global) -> Result<String, Fail> {
        let mut path = String::from_str(alloc, "/alone/")?;
        for _ in 0..256 {
            path.push('x')?;
        }
        Ok(path)
    }

    #[test]
    fn a_name_too_long_is_absent(rt: HostRuntime) -> Result<(), Fail> {
        let root = made(&rt, "long")?;
        let mut folder = DiskFolder::new(rt, rt.alloc(), root.as_str());
        let long = long_path(rt.alloc())?;
        let found = rewritten(rt.alloc(), &mut folder, long.as_str())?;
        assert!(rt; found == (Seen::Absent, false, Seen::Absent));
        // What the write made beside its goal is gone, so the folder can be taken away as an empty one.
        fs::remove_dir(&rt, format!(in rt.alloc(); "{root}/alone")?.as_str())?;
        fs::remove_dir_all(&rt, root.as_str())?;
        Ok(())
    }
}
