//! A folder in which each module asks for a further one, and what a run over it comes to.
ghost use Rattle.std.specs.Prelude.{◌≡◌, ◌<◌};

use generator_core::{Unwatched, run};
use shared_types::{Bytes, Memory, Steps};
use std::alloc::Global;
use std::marker::Brand;
use std::str;
use std::sync::ledger::{Blank, Ledger};
use tree_model::{Failed, Folder, Look, LookFault, MemSink, MemSource, Path};

/// The words of the run.
const WORDS: [&str; 4] = ["link", "--base", "https://app.test/", "./m0.mjs"];

/// A folder with a module `/mN.mjs` for each number, which imports that of the next one. It tells no tree, and keeps
/// nothing that is written.
#[derive(Clone, Copy)]
struct Endless;

// The number of a module.
fn number_of(path: &str) -> Option<u64> {
    match path
        .strip_prefix("/m")?
        .strip_suffix(".mjs")?
        .parse::<u64>()
    {
        Ok(number) => Some(number),
        Err(_) => None,
    }
}

// The text of a module.
fn text_of(alloc: Global, number: u64) -> Result<Bytes, Memory> {
    let next = number.saturating_add(1);
    let text = format!(in alloc; "import \"./m{next}.mjs\";")?;
    Bytes::of(alloc, text.as_bytes())
}

impl Folder for Endless {
    ghost use Rattle.std.specs.Prelude.{None};
    ghost use Rattle.std.proofs.Common.{rules};

    ghost state = { λ folder. record {
      holds = None;
      asked = None;
      look_faults = 0;
      write_faults = 0;
    } };

    ghost told = { Prim.search rules };

    fn look(&mut self, alloc: Global, path: &Path, _limit: u64) -> Result<Look, LookFault> {
        match number_of(path.as_str()) {
            None => Ok(Look::Absent),
            Some(number) => match text_of(alloc, number) {
                Ok(text) => Ok(Look::File(text)),
                Err(_) => Err(LookFault::Memory),
            },
        }
    }

    fn write(&mut self, _path: &Path, _bytes: &[u8]) -> Result<(), Failed> {
        Ok(())
    }
}

fn words_of(alloc: Global) -> Result<Vec<String>, Memory> {
    let mut words = Vec::new(alloc);
    for word in &WORDS {
        words.push(String::from_str(alloc, word)?)?;
    }
    Ok(words)
}

// A `&[String]` here would leave no ghost members to pick at the call.
fn status_of<L: Ledger>(
    alloc: Global,
    words: &Vec<String>,
    input: &mut MemSource,
    out: &mut MemSink,
    blank: Blank,
) -> u8
    requires name { blank.name ≡ L.name }
    requires parts { blank.parts ≡ L.parts }
    requires some { 0 < blank.parts }
{
    let mut folder = Endless;
    let mut steps = Steps::<L>::start(blank);
    run(
        alloc,
        words.as_slice(),
        &mut folder,
        input,
        out,
        &mut Unwatched,
        &mut steps,
    )
}

/// How `link` ends over such a folder: its status, and what it says.
pub fn endless_line(alloc: Global) -> Result<String, Memory> {
    let words = words_of(alloc)?;
    let mut input = MemSource::new(alloc, &[], &[])?;
    let mut out = MemSink::new(alloc, &[])?;
    let status = status_of::<Brand>(alloc, &words, &mut input, &mut out, Blank::new(1));
    let said = str::from_utf8(out.got()).unwrap_or("no text\n");
    format!(in alloc; "a folder without an end: {status} {said}")
}
