ghost use Rattle.std.specs.Prelude.{◌≡◌, MatchResult, Some, map, string_bytes};
ghost use Rattle.words_parse.specs.Shown.{options_of, shown};
ghost use Rattle.words_spec.specs.PlainWords.{linking, explaining, vendoring};
ghost use Rattle.command_words.specs.Faults.{Explains, RefusesAs, RefusesOrder};
ghost use Rattle.command_words.specs.Orders.{IsOrderOf, IsWanted, IsWantedOf, command_ordered};

use crate::fault::WordsFault;
use crate::settings::{Settings, bad_path, settings_of};
use config_spec::Command;
use std::alloc::Global;
use tree_model::{Path, PathFault};
use words_parse::{Command as Parsed, LinkValues, WordsFault as ParseFault, parse};

/// A command on the project of a folder. Entries are the last of the words, as they stand there.
#[derive(Drop)]
pub enum Order<'a> {
    /// The map and the project, with these entries and options.
    Link {
        settings: Settings,
        entries: &'a [String],
    },
    /// The map and the project, without these entries.
    Unlink {
        entries: &'a [String],
    },
    /// The map of the project.
    Refresh,
    /// Which needs the map that is there doesn't serve.
    Check,
    /// The same, and which modules the statement grammar and the outline don't say the same of.
    CheckStrictly,
    /// The modules, each with the number of its requests.
    List,
    /// The page, with the map in it.
    Inject,
}

impl<'a> Order<'a> {
    /// The command.
    pub fn command(&self) -> Command
        ensures { result ≡ command_ordered self.now }
    {
        match self {
            Order::Link { .. } => Command::Link,
            Order::Unlink { .. } => Command::Unlink,
            Order::Refresh => Command::Refresh,
            Order::Check => Command::Check,
            Order::CheckStrictly => Command::CheckStrictly,
            Order::List => Command::List,
            Order::Inject => Command::Inject,
        }
    }
}

/// What plain words ask for, of what is built.
#[derive(Drop)]
pub enum Wanted<'a> {
    /// A command on the project of a folder.
    Order(Order<'a>),
    /// The shortest chain of requests that leads from the page to the file at this path.
    Why { path: Path },
    /// Copies of the files that the map needs, in a folder of their own at this path, which isn't the root.
    Vendor { path: Path },
    /// The map of a stated tree of so many packages.
    Measure { number: u64 },
    /// A session on the project of a folder.
    Session,
}

/// What the words ask for, or why they are refused.
pub fn order_of<'a>(alloc: Global, words: &'a [String]) -> Result<Wanted<'a>, WordsFault>
    ensures { MatchResult result (IsWanted (map string_bytes words.now)) (Explains (map string_bytes words.now)) }
{
    match parse(alloc, words) {
        Ok(parsed) => order_parsed(alloc, parsed),
        Err(ParseFault::Told(text)) => Err(WordsFault::Told(text)),
        Err(ParseFault::NotPlain) => Err(WordsFault::NotPlain),
        Err(ParseFault::Memory) => Err(WordsFault::Memory),
    }
}

fn order_parsed<'a>(alloc: Global, parsed: Parsed<'a>) -> Result<Wanted<'a>, WordsFault>
    ensures { MatchResult result (λ wanted. IsWantedOf wanted (shown parsed.entry))
        (RefusesAs (RefusesOrder (shown parsed.entry))) }
{
    match parsed {
        Parsed::Link(values, entries) => link_order(alloc, values, entries),
        Parsed::Unlink(entries) => Ok(Wanted::Order(Order::Unlink { entries })),
        Parsed::Refresh => Ok(Wanted::Order(Order::Refresh)),
        Parsed::Check => Ok(Wanted::Order(Order::Check)),
        Parsed::CheckStrictly => Ok(Wanted::Order(Order::CheckStrictly)),
        Parsed::Inject => Ok(Wanted::Order(Order::Inject)),
        Parsed::List => Ok(Wanted::Order(Order::List)),
        Parsed::Session => Ok(Wanted::Session),
        Parsed::Why(text) => why_wanted(alloc, text),
        Parsed::Vendor(text) => vendor_wanted(alloc, text),
        Parsed::Measure(number) => Ok(Wanted::Measure { number }),
    }
}

fn link_order<'a>(
    alloc: Global,
    values: LinkValues<'a>,
    entries: &'a [String],
) -> Result<Wanted<'a>, WordsFault>
    ensures { MatchResult result
        (λ wanted. IsWantedOf wanted (linking (options_of values.entry) (map string_bytes entries.now)))
        (RefusesAs (RefusesOrder (linking (options_of values.entry) (map string_bytes entries.now)))) }
{
    match settings_of(alloc, values) {
        Ok(settings) => Ok(Wanted::Order(Order::Link { settings, entries })),
        Err(fault) => Err(fault),
    }
}

fn why_wanted<'a>(alloc: Global, text: &str) -> Result<Wanted<'a>, WordsFault>
    ensures { MatchResult result (λ wanted. IsWantedOf wanted (explaining text.now))
        (RefusesAs (RefusesOrder (explaining text.now))) }
{
    match Path::parse(alloc, text) {
        Ok(path) => Ok(Wanted::Why { path }),
        Err(PathFault::Memory) => Err(WordsFault::Memory),
        Err(PathFault::BadPath) => Err(bad_path(alloc, text)),
    }
}

fn vendor_wanted<'a>(alloc: Global, text: &str) -> Result<Wanted<'a>, WordsFault>
    ensures { MatchResult result (λ wanted. IsWantedOf wanted (vendoring text.now))
        (RefusesAs (RefusesOrder (vendoring text.now))) }
{
    if text == "/" {
        return Err(bad_path(alloc, text));
    }
    match Path::parse(alloc, text) {
        Ok(path) => Ok(Wanted::Vendor { path }),
        Err(PathFault::Memory) => Err(WordsFault::Memory),
        Err(PathFault::BadPath) => Err(bad_path(alloc, text)),
    }
}
