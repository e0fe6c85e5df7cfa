//! The streams of the process.
ghost use Rattle.std.specs.Prelude.{◌≡◌, None, OnOk};
ghost use Rattle.std.specs.Io.KnownBytes.{Appends};
ghost use Rattle.disk_devices.specs.Counting.{IsCounted};
ghost use Rattle.disk_devices.specs.Reading.{IsReadInto};

use crate::faults::one_more;
use std::io;
use std::io::{Read, Write};
use tree_model::{Failed, Sink, Source};

/// How many bytes one call takes from the system, at most.
const PART: usize = 4096;

/// A source over a reader. It tells nothing of what is still to come.
#[derive(Drop)]
pub struct StdSource<R> {
    input: R,
    faults: u64,
}

impl<R> StdSource<R> {
    /// A source that has not failed yet.
    pub fn new(input: R) -> StdSource<R>
        ensures input { result.input ≡ input }
        ensures faults { result.faults ≡ 0 }
    {
        StdSource { input, faults: 0 }
    }
}

impl<R: Read> Source for StdSource<R> {
    ghost state = { λ source. record { left = None; latest = None; faults = source.faults } };

    fn take(&mut self, into: &mut [u8]) -> Result<usize, Failed>
        ensures read { IsReadInto (R.remaining self.old.input) into.old into.new result (R.remaining self.new.input) }
        ensures counted { IsCounted self.old.faults result self.new.faults }
    {
        // A reader may leave anything behind the bytes that it counts, and `into` may not change there.
        let mut part = [0u8; PART];
        let room = into.len().min(PART);
        match self.input.read(&mut part[..room]) {
            Ok(count) => {
                into[..count].copy_from_slice(&part[..count]);
                Ok(count)
            }
            Err(_) => {
                self.faults = one_more(self.faults);
                Err(Failed)
            }
        }
    }
}

/// A sink over a writer. It tells nothing of what has gone out, since a writer that fails doesn't tell how much it
/// took.
#[derive(Drop)]
pub struct StdSink<W> {
    output: W,
    faults: u64,
}

impl<W> StdSink<W> {
    /// A sink that has not failed yet.
    pub fn new(output: W) -> StdSink<W>
        ensures output { result.output ≡ output }
        ensures faults { result.faults ≡ 0 }
    {
        StdSink { output, faults: 0 }
    }
}

impl<W: Write> Sink for StdSink<W> {
    ghost state = { λ sink. record { got = None; faults = sink.faults } };

    fn give(&mut self, bytes: &[u8]) -> Result<(), Failed>
        ensures sent { OnOk result (Appends (W.contents self.old.output) (W.contents self.new.output) bytes.now) }
        ensures counted { IsCounted self.old.faults result self.new.faults }
    {
        match send(&mut self.output, bytes) {
            Ok(()) => Ok(()),
            Err(_) => {
                self.faults = one_more(self.faults);
                Err(Failed)
            }
        }
    }
}

/// Writes all bytes, and keeps none back.
fn send<W: Write>(output: &mut W, bytes: &[u8]) -> io::Result<()>
    ensures { OnOk result (Appends (W.contents output.old) (W.contents output.new) bytes.now) }
{
    output.write_all(bytes)?;
    output.flush()
}
