ghost use Rattle.std.specs.Prelude.{◌≤◌, Some, length, drop, IfOk};
ghost use Rattle.tree_model.specs.Filling.{IsFilled};

use crate::numbers::is_listed;
use crate::{Failed, Source};
use shared_types::{Bytes, Listed, Memory};
use std::alloc::Global;

/// A source over bytes in memory, of which the calls with given numbers fail. They are numbered from 1.
#[derive(Drop)]
pub struct MemSource {
    bytes: Bytes,
    at: usize,
    takes: u64,
    latest: usize,
    faults: u64,
    failing: Listed<u64>,
    ghost within: { at ≤ length bytes },
}

impl MemSource {
    ghost use Rattle.tree_model.specs.Streams.{IsFreshSource};

    /// A source of these bytes, of which the calls with these numbers fail.
    pub fn new(alloc: Global, bytes: &[u8], takes: &[u64]) -> Result<MemSource, Memory>
        ensures { IfOk result (λ source. IsFreshSource source bytes.now takes.now) }
    {
        Ok(MemSource {
            bytes: Bytes::of(alloc, bytes)?,
            at: 0,
            takes: 0,
            latest: 0,
            faults: 0,
            failing: Listed::from_vec(Vec::from_slice(alloc, takes)?),
        })
    }
}

impl Source for MemSource {
    ghost use Rattle.tree_model.specs.Streams.{IsTakeOf};

    ghost state = { λ source. record {
      left = Some (drop source.at source.bytes);
      latest = Some source.latest;
      faults = source.faults;
    } };

    fn take(&mut self, into: &mut [u8]) -> Result<usize, Failed>
        ensures { IsTakeOf self.old into.old into.new result self.new }
    {
        self.takes = self.takes.saturating_add(1);
        self.latest = 0;
        if is_listed(self.failing.as_slice(), self.takes) {
            self.faults = self.faults.saturating_add(1);
            return Err(Failed);
        }
        let count = fill(into, &self.bytes.as_bytes()[self.at..]);
        self.at += count;
        self.latest = count;
        Ok(count)
    }
}

/// Fills a front of `into` with a front of `rest`, as long as both allow, and answers its length.
fn fill(into: &mut [u8], rest: &[u8]) -> usize
    ensures { IsFilled into.old rest.now result into.new }
{
    let count = rest.len().min(into.len());
    into[..count].copy_from_slice(&rest[..count]);
    count
}
