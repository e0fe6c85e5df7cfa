//! The tree over which a run goes.

use crate::row::Change;
use row_texts::{RowFault, malformed};
use std::alloc::Global;
use tree_model::{MemFolder, Path};

/// What stands at a path: a file with its bytes, or a folder, which has none.
#[derive(Drop)]
pub(crate) struct Stands {
    pub path: String,
    pub bytes: Option<Vec<u8>>,
}

/// Files with their bytes, and folders.
#[derive(Drop)]
pub struct Tree {
    stands: Vec<Stands>,
}

impl Tree {
    pub fn new(alloc: Global) -> Tree {
        Tree {
            stands: Vec::new(alloc),
        }
    }

    /// The bytes of the file at a path; None where no file was put there.
    pub fn file(&self, path: &str) -> Option<&[u8]> {
        let stands = self.at(path)?;
        match &stands.bytes {
            None => None,
            Some(bytes) => Some(bytes.as_slice()),
        }
    }

    fn at(&self, path: &str) -> Option<&Stands> {
        for stands in self.stands.as_slice() {
            if stands.path.as_str() == path {
                return Some(stands);
            }
        }
        None
    }

    /// The paths of the files.
    pub fn paths(&self, alloc: Global) -> Result<Vec<&str>, RowFault> {
        let mut paths = Vec::new(alloc);
        for stands in self.stands.as_slice() {
            if stands.bytes.is_some() {
                paths.push(stands.path.as_str())?;
            }
        }
        Ok(paths)
    }

    /// Puts a file or a folder where nothing was put before.
    pub(crate) fn put(&mut self, stands: Stands) -> Result<(), RowFault> {
        if self.at(stands.path.as_str()).is_some() {
            return Err(malformed("a path stands twice"));
        }
        self.stands.push(stands)?;
        Ok(())
    }

    /// Puts all that another tree has.
    pub(crate) fn put_all(&mut self, alloc: Global, other: &Tree) -> Result<(), RowFault> {
        for stands in other.stands.as_slice() {
            self.put(copy_of(alloc, stands)?)?;
        }
        Ok(())
    }

    /// The tree that is left behind by a run that changed these files. The texts of all must be told.
    pub fn changed(&self, alloc: Global, changes: &[Change]) -> Result<Tree, RowFault> {
        let mut tree = Tree::new(alloc);
        for change in changes {
            let Some(bytes) = &change.bytes else {
                return Err(malformed("a run goes on over a file that isn't told"));
            };
            tree.put(Stands {
                path: String::from_str(alloc, change.path.as_str())?,
                bytes: Some(Vec::from_slice(alloc, bytes.as_slice())?),
            })?;
        }
        for stands in self.stands.as_slice() {
            if tree.at(stands.path.as_str()).is_none() {
                tree.put(copy_of(alloc, stands)?)?;
            }
        }
        Ok(tree)
    }

    /// The tree with one file cut to so many bytes.
    pub fn cut(&self, alloc: Global, path: &str, length: u64) -> Result<Tree, RowFault> {
        let Some(front) = front_of(self.file(path), length) else {
            return Err(malformed("a file is cut where it has no bytes"));
        };
        let mut tree = Tree::new(alloc);
        tree.put(Stands {
            path: String::from_str(alloc, path)?,
            bytes: Some(Vec::from_slice(alloc, front)?),
        })?;
        for stands in self.stands.as_slice() {
            if tree.at(stands.path.as_str()).is_none() {
                tree.put(copy_of(alloc, stands)?)?;
            }
        }
        Ok(tree)
    }

    /// The tree as a folder in memory, of which the looks and writes with these numbers fail.
    pub fn folder(
        &self,
        alloc: Global,
        looks: &[u64],
        writes: &[u64],
    ) -> Result<MemFolder, RowFault> {
        let mut folder = MemFolder::new(alloc, looks, writes)?;
        for stands in self.stands.as_slice() {
            let path = Path::parse(alloc, stands.path.as_str())?;
            let bytes = match &stands.bytes {
                None => None,
                Some(bytes) => Some(bytes.as_slice()),
            };
            if !folder.put(&path, bytes)? {
                return Err(malformed("a file stands where another entry wants a folder"));
            }
        }
        Ok(folder)
    }
}

fn front_of(file: Option<&[u8]>, length: u64) -> Option<&[u8]> {
    file?.get(..length as usize)
}

fn copy_of(alloc: Global, stands: &Stands) -> Result<Stands, RowFault> {
    let bytes = match &stands.bytes {
        None => None,
        Some(bytes) => Some(Vec::from_slice(alloc, bytes.as_slice())?),
    };
    Ok(Stands {
        path: String::from_str(alloc, stands.path.as_str())?,
        bytes,
    })
}
