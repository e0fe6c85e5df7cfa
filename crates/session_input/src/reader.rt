ghost use Rattle.std.specs.Prelude.{◌≡◌, ◌≤◌, ◌<◌, ◌+◌, ◌-◌, None, length, take, drop, vec_len, IfOk};
ghost use Rattle.tree_spec.specs.Limits.{limit_number};
ghost use Rattle.tree_spec.specs.declared.LimitName.TheVariants.{Session};
ghost use Rattle.session_spec.specs.SessionLines.{cut_first};
ghost use Rattle.session_spec.specs.TakenInput.{taken_at_once};

use crate::cuts::{line_end, line_ends};
use crate::line::{Line, line_of};
use crate::reading::{InputFault, Order, Reading};
use crate::takes::{Came, beyond, fill};
use session_spec::{Change, MOST_TAKEN_AT_ONCE};
use shared_types::{Bytes, Memory};
use std::alloc::Global;
use tree_model::{Path, Source};
use tree_spec::MOST_SESSION_BYTES;

/// The most bytes of an input that are read.
const MOST_INPUT: usize = MOST_SESSION_BYTES as usize;

/// A reader of a session's lines: bytes that were taken and not read wait in it.
#[derive(Drop)]
pub struct SessionInput {
    held: Vec<u8>,
    // Where the first unread byte is, and how many bytes from there hold no end of a line.
    start: usize,
    searched: usize,
    room: usize,
    number: usize,
    piece: Vec<u8>,
    ghost begun: { start + searched ≤ length held.items },
    ghost seen: { cut_first 10 (take searched (drop start held.items)) ≡ None },
    ghost counted: { number + (length held.items - start + room) ≤ limit_number Session + 1 },
    ghost some: { 0 < length piece.items },
    ghost few: { length piece.items ≤ taken_at_once },
}

impl SessionInput {
    ghost use Rattle.session_spec.specs.SessionLines.{changes, one_line, read_line};
    ghost use Rattle.session_input.specs.Lines.{reading_of, file_reading};
    ghost use Rattle.session_input.specs.Readers.{waiting, order_of, IsFresh, Grows, Comes};
    ghost use Rattle.session_input.specs.Readers.{FindsEnd, ReadsAs, IsPassed};
    ghost use Rattle.session_input.specs.Readers.{TurnsTo, ReadsNext};

    /// A reader that took nothing yet.
    pub fn new(alloc: Global) -> Result<SessionInput, Memory>
        ensures { IfOk result IsFresh }
    {
        let piece = Vec::from_elem(alloc, 0, MOST_TAKEN_AT_ONCE)?;
        Ok(SessionInput {
            held: Vec::new(alloc),
            start: 0,
            searched: 0,
            room: MOST_INPUT,
            number: 1,
            piece,
        })
    }

    /// The number of the first unread line, from 1. The lines of a file's bytes count too.
    pub fn number(&self) -> usize
        ensures number { result ≡ (waiting self.now).number }
        ensures most { result ≤ limit_number Session + 1 }
    {
        self.number
    }

    /// Reads the first unread line. The source is asked only where no whole line waits.
    #[tactic(auto, using(crate::proofs::ReaderLemmas::nexts))]
    pub fn next<I: Source>(&mut self, alloc: Global, input: &mut I) -> Result<Reading, InputFault>
        ensures { ReadsNext (waiting self.old) (waiting self.new) (I.state input.old) (I.state input.new) result }
    {
        loop {
            match self.turn(alloc, input) {
                Err(fault) => return Err(fault),
                Ok(Some(reading)) => return Ok(reading),
                Ok(None) => {}
            }
        }
    }

    // Reads what waits, or takes more where that isn't a whole line.
    #[tactic(auto, using(crate::proofs::ReaderLemmas::turns))]
    fn turn<I: Source>(
        &mut self,
        alloc: Global,
        input: &mut I,
    ) -> Result<Option<Reading>, InputFault>
        ensures { TurnsTo (waiting self.old) (waiting self.new) (I.state input.old) (I.state input.new) result }
    {
        match self.at_hand(alloc) {
            Err(_) => Err(InputFault::Memory),
            Ok(Some(reading)) => Ok(Some(reading)),
            Ok(None) => match self.take_more(input) {
                Err(fault) => Err(fault),
                Ok(Came::Nothing) => Ok(Some(Reading::Ended)),
                Ok(Came::Beyond) => Ok(Some(Reading::TooLong)),
                Ok(Came::Bytes) => Ok(None),
            },
        }
    }

    fn unread(&self) -> &[u8]
        ensures { result.now ≡ (waiting self.now).unread }
    {
        &self.held[self.start..]
    }

    // Reads the first line of the bytes that wait, where it is whole.
    fn at_hand(&mut self, alloc: Global) -> Result<Option<Reading>, Memory>
        ensures { IfOk result (ReadsAs (read_line (waiting self.old).unread) (waiting self.old) (waiting self.new)) }
    {
        match self.find_end() {
            None => Ok(None),
            Some(end) => {
                let line = line_of(alloc, &self.unread()[..end])?;
                self.said(alloc, end, line)
            }
        }
    }

    // Looks for the end of the first line in the bytes that weren't searched yet.
    fn find_end(&mut self) -> Option<usize>
        ensures found { FindsEnd (waiting self.old).unread result }
        ensures same { waiting self.new ≡ waiting self.old }
    {
        match line_end(&self.unread()[self.searched..]) {
            Some(at) => Some(self.searched + at),
            None => {
                self.searched = self.unread().len();
                None
            }
        }
    }

    // What the line up to this place says, with the bytes of a file behind it.
    fn said(&mut self, alloc: Global, end: usize, line: Line) -> Result<Option<Reading>, Memory>
        requires { end < length (waiting self.old).unread }
        ensures { IfOk result (ReadsAs (reading_of line (drop (end + 1) (waiting self.old).unread))
            (waiting self.old) (waiting self.new)) }
    {
        match line {
            Line::Link { entry } => Ok(self.changed(end, Change::Link { entry })),
            Line::Unlink { entry } => Ok(self.changed(end, Change::Unlink { entry })),
            Line::Put { path, count } => self.file_at(alloc, end, path, count),
            Line::Drop { path } => Ok(self.changed(end, Change::Drop { path })),
            Line::Begin => Ok(self.ordered(end, Order::Begin)),
            Line::Commit => Ok(self.ordered(end, Order::Commit)),
            Line::Map => Ok(self.ordered(end, Order::Map)),
            Line::End => Ok(self.ordered(end, Order::End)),
            Line::Malformed => Ok(Some(Reading::Malformed)),
        }
    }

    fn changed(&mut self, end: usize, change: Change) -> Option<Reading>
        requires { end < length (waiting self.old).unread }
        ensures { ReadsAs (one_line (changes change) (drop (end + 1) (waiting self.old).unread))
            (waiting self.old) (waiting self.new) result }
    {
        self.ordered(end, Order::Change { change })
    }

    fn ordered(&mut self, end: usize, order: Order) -> Option<Reading>
        requires { end < length (waiting self.old).unread }
        ensures { ReadsAs (one_line (order_of order) (drop (end + 1) (waiting self.old).unread))
            (waiting self.old) (waiting self.new) result }
    {
        self.pass(end + 1, 1);
        Some(Reading::Ordered { order })
    }

    // The bytes of a file stand behind its line, and a line's end behind them.
    fn file_at(
        &mut self,
        alloc: Global,
        end: usize,
        path: Path,
        count: usize,
    ) -> Result<Option<Reading>, Memory>
        requires { end < length (waiting self.old).unread }
        ensures { IfOk result (ReadsAs (file_reading path count (drop (end + 1) (waiting self.old).unread))
            (waiting self.old) (waiting self.new)) }
    {
        let behind = &self.unread()[end + 1..];
        if behind.len() <= count {
            let missing = count - behind.len();
            self.held
                .reserve(missing.saturating_add(MOST_TAKEN_AT_ONCE))?;
            return Ok(None);
        }
        if behind[count] != b'\n' {
            return Ok(Some(Reading::Malformed));
        }
        let bytes = Bytes::of(alloc, &behind[..count])?;
        let lines = 2 + line_ends(&behind[..count]);
        self.pass(end + 2 + count, lines);
        let change = Change::Put { path, bytes };
        Ok(Some(Reading::Ordered {
            order: Order::Change { change },
        }))
    }

    // So many bytes and lines are read.
    fn pass(&mut self, count: usize, lines: usize)
        requires { (count ≤ length (waiting self.old).unread) × (lines ≤ count) }
        ensures { IsPassed (waiting self.old) count lines (waiting self.new) }
    {
        self.searched = 0;
        self.start += count;
        self.number += lines;
    }

    // Takes more of the input; behind all that may be read one byte, to know whether there is one.
    fn take_more<I: Source>(&mut self, input: &mut I) -> Result<Came, InputFault>
        ensures { Comes (waiting self.old) (waiting self.new) (I.state input.old) (I.state input.new) result }
    {
        if self.room == 0 {
            return beyond(input);
        }
        match fill(input, self.piece.as_mut_slice(), self.room) {
            Err(fault) => Err(fault),
            Ok(count) => {
                if count == 0 {
                    return Ok(Came::Nothing);
                }
                self.keep(count)?;
                Ok(Came::Bytes)
            }
        }
    }

    // Puts the front of the piece behind the bytes that wait.
    fn keep(&mut self, count: usize) -> Result<(), Memory>
        requires { (count ≤ length self.old.piece.items) × (count ≤ self.old.room) }
        ensures { IfOk result (λ _. Grows (waiting self.old) (take count self.old.piece.items) (waiting self.new)) }
    {
        self.drop_read();
        self.held.extend_from_slice(&self.piece[..count])?;
        self.room -= count;
        Ok(())
    }

    // What was read is kept no longer; its room is used again.
    fn drop_read(&mut self)
        ensures same { waiting self.new ≡ waiting self.old }
        ensures piece { self.new.piece ≡ self.old.piece }
        ensures room { self.new.room ≡ self.old.room }
    {
        if self.start == 0 {
            return;
        }
        remove_front(&mut self.held, self.start);
        self.start = 0;
    }
}

fn remove_front(held: &mut Vec<u8>, count: usize)
    requires { count ≤ vec_len held.old }
    ensures items { held.new.items ≡ drop count held.old.items }
    ensures len { vec_len held.new ≡ vec_len held.old - count }
{
    let len = held.len();
    held.as_mut_slice().copy_within(count..len, 0);
    held.truncate(len - count);
}
