ghost use Rattle.std.specs.Prelude.{◌≡◌, ◌<◌};

use condition_match::Conditions;
use disk_devices::DiskFolder;
use node_resolve::{NodeFault, resolve};
use package_lookup::{Known, Lookup, Trail};
use shared_types::Steps;
use std::alloc::Global;
use std::marker::Brand;
use std::rt::Runtime;
use std::sync::ledger::{Blank, Ledger};
use std::{fs, io};
use tree_model::{Folder, Path, PathFault};

/// How many specifiers gave a module, and how many a refusal.
#[derive(Clone, Copy, Debug, PartialEq, Eq)]
struct Counts {
    modules: usize,
    refusals: usize,
}

impl Counts {
    fn none() -> Counts {
        Counts {
            modules: 0,
            refusals: 0,
        }
    }

    fn with_module(self) -> Counts {
        Counts {
            modules: self.modules.saturating_add(1),
            refusals: self.refusals,
        }
    }

    fn with_refusal(self) -> Counts {
        Counts {
            modules: self.modules,
            refusals: self.refusals.saturating_add(1),
        }
    }
}

/// The counts with the answer to one pair; where what asks isn't a path, they stay as they are.
fn with_pair<F: Folder, L: Ledger>(
    lookup: &mut Lookup<'_, F>,
    pair: (&str, &str),
    conditions: &Conditions,
    steps: &mut Steps<L>,
    counts: Counts,
) -> Result<Counts, NodeFault> {
    let parent = match Path::parse(lookup.alloc, pair.0) {
        Ok(parent) => parent,
        Err(PathFault::BadPath) => return Ok(counts),
        Err(PathFault::Memory) => return Err(NodeFault::Memory),
    };
    match resolve(lookup, &parent, pair.1, conditions, steps) {
        Ok(_) => Ok(counts.with_module()),
        Err(NodeFault::Refused(_)) => Ok(counts.with_refusal()),
        Err(fault) => Err(fault),
    }
}

/// One round over the pairs, on a trail of its own. A line without a space is no pair, and is passed over.
fn round<F: Folder, L: Ledger>(
    alloc: Global,
    known: &mut Known,
    folder: &mut F,
    pairs: &str,
    conditions: &Conditions,
    steps: &mut Steps<L>,
) -> Result<Counts, NodeFault> {
    let mut trail = Trail::new(alloc);
    let mut lookup = Lookup {
        alloc,
        known,
        folder,
        trail: &mut trail,
    };
    let mut counts = Counts::none();
    for line in pairs.lines() {
        if let Some(pair) = line.split_once(' ') {
            counts = with_pair(&mut lookup, pair, conditions, steps, counts)?;
        }
    }
    Ok(counts)
}

/// As many rounds as are asked for, and what the last one counted.
fn rounds<F: Folder, L: Ledger>(
    alloc: Global,
    folder: &mut F,
    pairs: &str,
    count: u64,
    steps: &mut Steps<L>,
) -> Result<Counts, NodeFault> {
    let Ok(conditions) = Conditions::parse(alloc, "browser,import") else {
        return Err(NodeFault::Memory);
    };
    let mut known = Known::new(alloc);
    let mut counts = Counts::none();
    for _ in 0..count {
        counts = round(alloc, &mut known, folder, pairs, &conditions, steps)?;
    }
    Ok(counts)
}

/// The rounds over the current folder, of which nothing is known yet.
fn resolve_in_folder<R: Runtime + AllocGlobal, L: Ledger>(
    rt: &R,
    pairs: &str,
    count: u64,
    blank: Blank,
) -> Result<Counts, NodeFault>
    requires name { blank.name ≡ L.name }
    requires parts { blank.parts ≡ L.parts }
    requires some { 0 < blank.parts }
{
    let mut steps = Steps::<L>::start(blank);
    let mut folder = DiskFolder::new(rt, rt.alloc(), ".");
    rounds(rt.alloc(), &mut folder, pairs, count, &mut steps)
}

/// Prints the counts, or why there are none.
fn tell_counts<R: Runtime>(rt: &R, answer: Result<Counts, NodeFault>) -> io::Result<()> {
    match answer {
        Ok(counts) => println!(rt; "{} modules, {} refusals", counts.modules, counts.refusals),
        Err(NodeFault::Limit { which }) => println!(rt; "limit: {}", which.name()),
        Err(NodeFault::ReadFault) => println!(rt; "a look failed"),
        Err(NodeFault::Memory) => println!(rt; "no memory"),
        Err(NodeFault::Refused(_)) => println!(rt; "refused"),
    }
}

/// The rounds over the pairs of the file with this name, and their line.
// A `&str` here would leave no ghost members to pick at the call.
fn resolve_file<R: Runtime + AllocGlobal, L: Ledger>(
    rt: &R,
    name: &String,
    count: u64,
    blank: Blank,
) -> io::Result<()>
    requires name { blank.name ≡ L.name }
    requires parts { blank.parts ≡ L.parts }
    requires some { 0 < blank.parts }
{
    let pairs = fs::read_to_string(rt, name.as_str())?;
    tell_counts(
        rt,
        resolve_in_folder::<R, L>(rt, pairs.as_str(), count, blank),
    )
}

/// Resolves the pairs of a file, in each line the path of the file that asks, a space and a specifier, over the current
/// folder, round by round, and counts the answers of the last round. What was looked at in one round is known in the
/// next ones.
pub fn tell<R: Runtime + AllocGlobal>(rt: &R, name: &String, rounds: u64) -> io::Result<()> {
    resolve_file::<R, Brand>(rt, name, rounds, Blank::new(1))
}
