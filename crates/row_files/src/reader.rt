//! Reads row files line by line.

use crate::entry::{change_of, entry_of};
use crate::heads::{Head, head_of};
use crate::item::{Item, line_of};
use crate::names::Names;
use crate::row::{Call, Change, Cut, Fails, Row, Run, Turns, Wanted};
use crate::tree::Tree;
use crate::words::{copied, words_of};
use row_texts::{RowFault, malformed, number_of, range_of, unescaped, unescaped_text};
use std::alloc::Global;
use std::mem;

/// What the lines that come belong to.
#[derive(Clone, Copy, PartialEq, Eq)]
enum Part {
    Nothing,
    /// A tree with a name.
    Tree,
    Row,
    /// What short rows have in common.
    Ask,
}

/// What short rows have in common: the words before those that are asked, and the files that are written where the
/// status is 0.
#[derive(Drop)]
struct Ask {
    words: Vec<String>,
    changes: Vec<Change>,
}

/// Reads files one after another, each line by line, and hands out their rows. What one file names, later ones may
/// cite.
#[derive(Drop)]
pub struct Reader {
    names: Names,
    /// How many lines of the file have been read.
    read: u64,
    /// The line that is being understood.
    line: u64,
    /// The line whose block may go on.
    item: Item,
    part: Part,
    /// The line on which the part begins, and its title or name.
    begun: u64,
    name: String,
    tree: Tree,
    runs: Vec<Run>,
    ask: Ask,
}

impl Reader {
    pub fn new(alloc: Global) -> Result<Reader, RowFault> {
        Ok(Reader {
            names: Names::new(alloc),
            read: 0,
            line: 0,
            item: Item::new(alloc, 0, "")?,
            part: Part::Nothing,
            begun: 0,
            name: String::new(alloc),
            tree: Tree::new(alloc),
            runs: Vec::new(alloc),
            ask: Ask {
                words: Vec::new(alloc),
                changes: Vec::new(alloc),
            },
        })
    }

    /// The number of the line that was understood last, which is at fault where a call fails.
    pub fn line(&self) -> u64 {
        self.line
    }

    /// Takes a line, and hands out the row that ended before it.
    pub fn take(&mut self, alloc: Global, line: &str) -> Result<Option<Row>, RowFault> {
        self.read = self.read.saturating_add(1);
        if let Some(text) = line.strip_prefix('|') {
            self.line = self.read;
            self.item.push(alloc, text)?;
            return Ok(None);
        }
        let ended = self.finish(alloc)?;
        self.item = Item::new(alloc, self.read, line)?;
        Ok(ended)
    }

    /// Ends the file, and hands out its last row.
    pub fn end(&mut self, alloc: Global) -> Result<Option<Row>, RowFault> {
        let before = self.finish(alloc)?;
        let ended = self.end_part(alloc)?;
        self.read = 0;
        self.ask = Ask {
            words: Vec::new(alloc),
            changes: Vec::new(alloc),
        };
        Ok(if before.is_some() { before } else { ended })
    }

    // Understands the line above the one that is read, now that its block is whole.
    fn finish(&mut self, alloc: Global) -> Result<Option<Row>, RowFault> {
        let nothing = Item::new(alloc, self.read, "")?;
        let item = mem::replace(&mut self.item, nothing);
        self.understand(alloc, &item)
    }

    fn understand(&mut self, alloc: Global, item: &Item) -> Result<Option<Row>, RowFault> {
        self.line = item.line;
        match head_of(item.head.as_str()) {
            Head::Nothing => Ok(None),
            Head::Text(text) => self.begin_text(alloc, item, text),
            Head::Tree(name) => self.begin(alloc, item, Part::Tree, name),
            Head::Row(title) => self.begin(alloc, item, Part::Row, title),
            Head::Ask(words) => self.begin_ask(alloc, item, words),
            head => {
                self.go_on(alloc, item, head)?;
                Ok(None)
            }
        }
    }

    fn begin_text(
        &mut self,
        alloc: Global,
        item: &Item,
        text: &str,
    ) -> Result<Option<Row>, RowFault> {
        let ended = self.end_part(alloc)?;
        match self.name_text(alloc, item, text) {
            Ok(()) => Ok(ended),
            Err(fault) => Err(fault),
        }
    }

    // `NAME: TEXT`, or `NAME` above a block.
    fn name_text(&mut self, alloc: Global, item: &Item, text: &str) -> Result<(), RowFault> {
        match (&item.block, text.split_once(": ")) {
            (None, Some((name, text))) => {
                let bytes = unescaped(alloc, text, None)?;
                self.names.name_text(alloc, name, bytes)
            }
            (Some(block), None) => {
                let bytes = Vec::from_slice(alloc, block.as_slice())?;
                self.names.name_text(alloc, text, bytes)
            }
            _ => Err(malformed("a text stands on its line or in its block")),
        }
    }

    fn begin(
        &mut self,
        alloc: Global,
        item: &Item,
        part: Part,
        name: &str,
    ) -> Result<Option<Row>, RowFault> {
        let ended = self.end_part(alloc)?;
        match self.begin_part(alloc, item, part, name) {
            Ok(()) => Ok(ended),
            Err(fault) => Err(fault),
        }
    }

    fn begin_part(
        &mut self,
        alloc: Global,
        item: &Item,
        part: Part,
        name: &str,
    ) -> Result<(), RowFault> {
        item.without_block()?;
        if name.is_empty() {
            return Err(malformed("a row or a tree has no name"));
        }
        self.part = part;
        self.begun = item.line;
        self.name = String::from_str(alloc, name)?;
        Ok(())
    }

    fn begin_ask(
        &mut self,
        alloc: Global,
        item: &Item,
        words: &str,
    ) -> Result<Option<Row>, RowFault> {
        let ended = self.begin(alloc, item, Part::Ask, words)?;
        match self.ask_with(alloc, words) {
            Ok(()) => Ok(ended),
            Err(fault) => Err(fault),
        }
    }

    fn ask_with(&mut self, alloc: Global, words: &str) -> Result<(), RowFault> {
        self.ask = Ask {
            words: words_of(alloc, words)?,
            changes: Vec::new(alloc),
        };
        Ok(())
    }

    // Ends the row, the tree or what else the lines before belong to, and hands out the row.
    fn end_part(&mut self, alloc: Global) -> Result<Option<Row>, RowFault> {
        let part = self.part;
        self.part = Part::Nothing;
        match part {
            Part::Nothing => Ok(None),
            Part::Ask => Ok(None),
            Part::Tree => {
                self.end_tree(alloc)?;
                Ok(None)
            }
            Part::Row => Ok(Some(self.end_row(alloc)?)),
        }
    }

    fn end_tree(&mut self, alloc: Global) -> Result<(), RowFault> {
        let tree = mem::replace(&mut self.tree, Tree::new(alloc));
        let name = mem::replace(&mut self.name, String::new(alloc));
        self.names.name_tree(name, tree)
    }

    // The line that is at fault in a row that isn't whole is the first one.
    fn end_row(&mut self, alloc: Global) -> Result<Row, RowFault> {
        let row = Row {
            title: mem::replace(&mut self.name, String::new(alloc)),
            line: self.begun,
            tree: mem::replace(&mut self.tree, Tree::new(alloc)),
            runs: mem::replace(&mut self.runs, Vec::new(alloc)),
        };
        match are_whole(row.runs.as_slice()) {
            Ok(()) => Ok(row),
            Err(fault) => {
                self.line = self.begun;
                Err(fault)
            }
        }
    }

    // Understands a line of a tree, a row or an `ask`.
    fn go_on(&mut self, alloc: Global, item: &Item, head: Head<'_>) -> Result<(), RowFault> {
        match head {
            Head::With(name) => self.put_tree(alloc, item, name),
            Head::Entry(entry) => self.put_entry(alloc, item, entry, None),
            Head::Entries(count, entry) => self.put_entries(alloc, item, count, entry),
            Head::Short(row) => self.short(alloc, item, row),
            Head::Run(words) => self.run(alloc, item, words, false),
            Head::Then(words) => self.run(alloc, item, words, true),
            Head::Change(file) => self.change(alloc, item, file),
            Head::Input(text) => self.input(alloc, item, text),
            Head::Fails(calls) => self.fail(item, calls),
            Head::Pieces(length) => self.pieces(item, length),
            Head::Cut(cut) => self.cut(alloc, item, cut),
            Head::Wanted(text) => self.want(alloc, item, text),
            Head::Looks => self.look(alloc, item),
            Head::Shown(rest) => self.show(alloc, item, rest),
            Head::Each(turns) => self.turn(alloc, item, turns),
            _ => Err(malformed("a line is none of the form")),
        }
    }

    // Fails where no entry of a tree may stand.
    fn takes_entries(&self) -> Result<(), RowFault> {
        match self.part {
            Part::Tree => Ok(()),
            Part::Row if self.runs.is_empty() => Ok(()),
            _ => Err(malformed("a file or a folder stands in no tree")),
        }
    }

    fn put_tree(&mut self, alloc: Global, item: &Item, name: &str) -> Result<(), RowFault> {
        self.takes_entries()?;
        item.without_block()?;
        self.tree.put_all(alloc, self.names.tree(name)?)
    }

    fn put_entry(
        &mut self,
        alloc: Global,
        item: &Item,
        entry: &str,
        turn: Option<u64>,
    ) -> Result<(), RowFault> {
        self.takes_entries()?;
        let stands = entry_of(alloc, &self.names, item, entry, turn)?;
        self.tree.put(stands)
    }

    fn put_entries(
        &mut self,
        alloc: Global,
        item: &Item,
        count: &str,
        entry: &str,
    ) -> Result<(), RowFault> {
        for turn in 0..number_of(count)? {
            self.put_entry(alloc, item, entry, Some(turn))?;
        }
        Ok(())
    }

    // A run, with the words behind its mark.
    fn run(
        &mut self,
        alloc: Global,
        item: &Item,
        words: &str,
        goes_on: bool,
    ) -> Result<(), RowFault> {
        item.without_block()?;
        if self.part != Part::Row {
            return Err(malformed("a run stands in no row"));
        }
        if goes_on {
            last_of(&mut self.runs)?.is_gone_on = true;
        }
        let run = Run::new(alloc, item.line, goes_on, words_of(alloc, words)?);
        self.runs.push(run)?;
        Ok(())
    }

    // `ASKED => WANTED`
    fn short(&mut self, alloc: Global, item: &Item, row: &str) -> Result<(), RowFault> {
        let Some((asked, wanted)) = row.split_once(" => ") else {
            return Err(malformed("a short row wants ` => `"));
        };
        if self.part != Part::Row || self.ask.words.is_empty() {
            return Err(malformed("a short row stands in no row, or behind no `ask`"));
        }
        let words = self.asked(alloc, asked)?;
        let run = self.short_run(alloc, item, wanted, words)?;
        self.runs.push(run)?;
        Ok(())
    }

    // The words of `ask`, and those that a short row adds.
    fn asked(&self, alloc: Global, added: &str) -> Result<Vec<String>, RowFault> {
        let mut words = copied(alloc, self.ask.words.as_slice())?;
        match push_words(&mut words, words_of(alloc, added)) {
            Ok(()) => Ok(words),
            Err(fault) => Err(fault),
        }
    }

    // The run of a short row, which writes the files of `ask` where its status is 0.
    fn short_run(
        &self,
        alloc: Global,
        item: &Item,
        text: &str,
        words: Vec<String>,
    ) -> Result<Run, RowFault> {
        let wanted = wanted_of(alloc, item, text)?;
        let changes = if text.starts_with("0 ") {
            changes_of(alloc, self.ask.changes.as_slice())?
        } else {
            Vec::new(alloc)
        };
        Ok(Run::short(alloc, item.line, words, wanted, changes))
    }

    fn change(&mut self, alloc: Global, item: &Item, file: &str) -> Result<(), RowFault> {
        let change = change_of(alloc, &self.names, item, file)?;
        if self.part == Part::Ask {
            self.ask.changes.push(change)?;
        } else {
            last_of(&mut self.runs)?.changes.push(change)?;
        }
        Ok(())
    }

    // A line of the input, or a block of it.
    fn input(&mut self, alloc: Global, item: &Item, text: &str) -> Result<(), RowFault> {
        let run = last_of(&mut self.runs)?;
        match &item.block {
            None => push_line(alloc, &mut run.input, text),
            Some(block) if text.is_empty() => Ok(run.input.extend_from_slice(block.as_slice())?),
            Some(_) => Err(malformed("an input stands on its line or in its block")),
        }
    }

    // `CALL NUMBER, CALL NUMBER ..`
    fn fail(&mut self, item: &Item, calls: &str) -> Result<(), RowFault> {
        item.without_block()?;
        let run = last_of(&mut self.runs)?;
        for call in calls.split(", ") {
            push_call(&mut run.fails, call)?;
        }
        Ok(())
    }

    // The number of bytes that come at a time.
    fn pieces(&mut self, item: &Item, length: &str) -> Result<(), RowFault> {
        item.without_block()?;
        let run = last_of(&mut self.runs)?;
        if run.piece.is_some() {
            return Err(malformed("a run's pieces stand twice"));
        }
        run.piece = Some(number_of(length)?);
        Ok(())
    }

    // `PATH FIRST-LAST`, or `< FIRST-LAST` for the input.
    fn cut(&mut self, alloc: Global, item: &Item, cut: &str) -> Result<(), RowFault> {
        item.without_block()?;
        let run = last_of(&mut self.runs)?;
        let Some((path, range)) = cut.rsplit_once(' ') else {
            return Err(malformed("a file that is cut wants its lengths"));
        };
        if run.cut.is_some() {
            return Err(malformed("a run cuts twice"));
        }
        let (first, last) = range_of(range)?;
        run.cut = Some(Cut {
            path: cut_path(alloc, path)?,
            first,
            last,
        });
        Ok(())
    }

    fn want(&mut self, alloc: Global, item: &Item, text: &str) -> Result<(), RowFault> {
        let run = last_of(&mut self.runs)?;
        if run.wanted.is_some() {
            return Err(malformed("a run ends twice"));
        }
        run.wanted = Some(wanted_of(alloc, item, text)?);
        Ok(())
    }

    // The block has a path on each line.
    fn look(&mut self, alloc: Global, item: &Item) -> Result<(), RowFault> {
        let text = text_of(alloc, item)?;
        self.look_at(lines_of(alloc, text.as_str())?)
    }

    fn look_at(&mut self, looks: Vec<String>) -> Result<(), RowFault> {
        let run = last_of(&mut self.runs)?;
        if run.looks.is_some() {
            return Err(malformed("a run's looks stand twice"));
        }
        run.looks = Some(looks);
        Ok(())
    }

    // A showing, whose block has a module on each line; or `never`.
    fn show(&mut self, alloc: Global, item: &Item, rest: &str) -> Result<(), RowFault> {
        let run = last_of(&mut self.runs)?;
        if rest.is_empty() {
            return show_text(alloc, &mut run.shown, text_of(alloc, item)?);
        }
        item.without_block()?;
        show_never(alloc, &mut run.shown)
    }

    // `CALL FIRST-LAST => WANTED`, or `CALL FIRST-LAST again`
    fn turn(&mut self, alloc: Global, item: &Item, turns: &str) -> Result<(), RowFault> {
        let turns = turns_of(alloc, item, turns)?;
        last_of(&mut self.runs)?.turns.push(turns)?;
        Ok(())
    }
}

fn push_words(
    words: &mut Vec<String>,
    added: Result<Vec<String>, RowFault>,
) -> Result<(), RowFault> {
    for word in added? {
        words.push(word)?;
    }
    Ok(())
}

fn push_line(alloc: Global, input: &mut Vec<u8>, text: &str) -> Result<(), RowFault> {
    let bytes = line_of(alloc, text)?;
    Ok(input.extend_from_slice(bytes.as_slice())?)
}

fn show_text(alloc: Global, shown: &mut Option<Vec<String>>, text: String) -> Result<(), RowFault> {
    match shown {
        None => {
            *shown = Some(vec![in alloc; text]?);
            Ok(())
        }
        Some(texts) if !texts.is_empty() => Ok(texts.push(text)?),
        Some(_) => Err(malformed("a run shows something and never anything")),
    }
}

fn show_never(alloc: Global, shown: &mut Option<Vec<String>>) -> Result<(), RowFault> {
    if shown.is_some() {
        return Err(malformed("a run shows something and never anything"));
    }
    *shown = Some(Vec::new(alloc));
    Ok(())
}

// `CALL NUMBER`
fn push_call(fails: &mut Fails, call: &str) -> Result<(), RowFault> {
    match call.split_once(' ') {
        None => Err(malformed("a call that fails wants its number")),
        Some((name, number)) => fails.push(Call::parse(name)?, number_of(number)?),
    }
}

// The text of a block; an empty one where there is none.
fn text_of(alloc: Global, item: &Item) -> Result<String, RowFault> {
    let Some(block) = &item.block else {
        return Ok(String::new(alloc));
    };
    match std::str::from_utf8(block.as_slice()) {
        Ok(text) => Ok(String::from_str(alloc, text)?),
        Err(_) => Err(malformed("bytes are no text")),
    }
}

fn lines_of(alloc: Global, text: &str) -> Result<Vec<String>, RowFault> {
    let mut lines = Vec::new(alloc);
    for line in text.lines() {
        lines.push(String::from_str(alloc, line)?)?;
    }
    Ok(lines)
}

// The path of a file that is cut; None for the input.
fn cut_path(alloc: Global, path: &str) -> Result<Option<String>, RowFault> {
    if path == "<" {
        return Ok(None);
    }
    Ok(Some(unescaped_text(alloc, path, None)?))
}

// The calls that fail in turn, and what must come then.
fn turns_of(alloc: Global, item: &Item, turns: &str) -> Result<Turns, RowFault> {
    let (calls, wanted) = turned(item, turns)?;
    let Some((name, range)) = calls.split_once(' ') else {
        return Err(malformed("calls that fail in turn want their numbers"));
    };
    let call = Call::parse(name)?;
    let (first, last) = range_of(range)?;
    Ok(Turns {
        call,
        first,
        last,
        wanted: match wanted {
            None => None,
            Some(wanted) => Some(wanted_of(alloc, item, wanted)?),
        },
    })
}

fn turned<'a>(item: &Item, turns: &'a str) -> Result<(&'a str, Option<&'a str>), RowFault> {
    if let Some((calls, wanted)) = turns.split_once(" => ") {
        return Ok((calls, Some(wanted)));
    }
    item.without_block()?;
    match turns.strip_suffix(" again") {
        Some(calls) => Ok((calls, None)),
        None => Err(malformed("calls that fail in turn want ` => ` or ` again`")),
    }
}

fn last_of(runs: &mut Vec<Run>) -> Result<&mut Run, RowFault> {
    match runs.last_mut() {
        None => Err(malformed("a line stands below no run")),
        Some(run) => Ok(run),
    }
}

// Fails where there is no run, or one of which nothing is said, or too much.
fn are_whole(runs: &[Run]) -> Result<(), RowFault> {
    if runs.is_empty() {
        return Err(malformed("a row has no run"));
    }
    for run in runs {
        run.wanted()?;
        if run.cut.is_some() && (run.is_gone_on || !run.turns.is_empty()) {
            return Err(malformed("a run whose file is cut has turns, or another goes on"));
        }
    }
    Ok(())
}

fn wanted_of(alloc: Global, item: &Item, text: &str) -> Result<Wanted, RowFault> {
    let block = match &item.block {
        None => None,
        Some(block) => Some(Vec::from_slice(alloc, block.as_slice())?),
    };
    Ok(Wanted {
        text: unescaped_text(alloc, text, None)?,
        block,
    })
}

fn changes_of(alloc: Global, changes: &[Change]) -> Result<Vec<Change>, RowFault> {
    let mut copies = Vec::new(alloc);
    for change in changes {
        let bytes = match &change.bytes {
            None => None,
            Some(bytes) => Some(Vec::from_slice(alloc, bytes.as_slice())?),
        };
        copies.push(Change {
            path: String::from_str(alloc, change.path.as_str())?,
            bytes,
        })?;
    }
    Ok(copies)
}
