ghost use Rattle.std.specs.Prelude.{◌≡◌, Some, IfOk};
ghost use Rattle.tree_model.specs.Streams.{IsEmptySink, IsGiveOf};

use crate::numbers::is_listed;
use crate::{Failed, Sink};
use shared_types::{Listed, Memory};
use std::alloc::Global;

/// A sink that keeps its bytes in memory, of which the calls with given numbers fail. They are numbered from 1.
#[derive(Drop)]
pub struct MemSink {
    bytes: Vec<u8>,
    gives: u64,
    faults: u64,
    failing: Listed<u64>,
}

impl MemSink {
    /// A sink that took nothing yet, of which the calls with these numbers fail.
    pub fn new(alloc: Global, gives: &[u64]) -> Result<MemSink, Memory>
        ensures { IfOk result (λ sink. IsEmptySink sink gives.now) }
    {
        Ok(MemSink {
            bytes: Vec::new(alloc),
            gives: 0,
            faults: 0,
            failing: Listed::from_vec(Vec::from_slice(alloc, gives)?),
        })
    }

    /// Lends the bytes that were taken.
    pub fn got(&self) -> &[u8]
        ensures { result.now ≡ self.now.bytes.items }
    {
        self.bytes.as_slice()
    }
}

impl Sink for MemSink {
    ghost state = { λ sink. record { got = Some sink.bytes.items; faults = sink.faults } };

    fn give(&mut self, bytes: &[u8]) -> Result<(), Failed>
        ensures { IsGiveOf self.old bytes.now result self.new }
    {
        self.gives = self.gives.saturating_add(1);
        if is_listed(self.failing.as_slice(), self.gives) {
            self.faults = self.faults.saturating_add(1);
            return Err(Failed);
        }
        if self.bytes.extend_from_slice(bytes).is_err() {
            self.faults = self.faults.saturating_add(1);
            return Err(Failed);
        }
        Ok(())
    }
}
