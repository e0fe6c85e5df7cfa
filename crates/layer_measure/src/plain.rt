use std::alloc::{AllocError, Global};

/// A vector of options and a list of its free places, as one would write it without an arena.
#[derive(Drop)]
pub struct Plain {
    values: Vec<Option<u64>>,
    free: Vec<u32>,
}

impl Plain {
    pub fn new(alloc: Global) -> Plain {
        Plain {
            values: Vec::new(alloc),
            free: Vec::new(alloc),
        }
    }

    /// The place that the value has.
    pub fn insert(&mut self, value: u64) -> Result<u32, AllocError> {
        if let Some(index) = self.free.pop() {
            if let Some(place) = self.values.get_mut(index as usize) {
                *place = Some(value);
            }
            return Ok(index);
        }
        let index = self.values.len().try_into().map_err(|_| AllocError)?;
        self.values.push(Some(value))?;
        Ok(index)
    }

    /// The value of the place, which is free from then on.
    pub fn remove(&mut self, index: u32) -> Result<Option<u64>, AllocError> {
        let value = match self.values.get_mut(index as usize) {
            Some(place) => place.take(),
            None => None,
        };
        if value.is_some() {
            self.free.push(index)?;
        }
        Ok(value)
    }
}
