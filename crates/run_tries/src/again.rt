//! A session whose edits are made again where a look failed or memory was wanting.
ghost use Rattle.std.specs.Prelude.{◌≡◌, ◌<◌};

use crate::repeating::{Repeating, Told};
use edit_session::Session;
use generation::Stop;
use project_file::{ProjectFault, read_project};
use request_trace::Config;
use row_files::{Fails, RowFault, Run, Tree};
use run_outcomes::{Outcome, Outside};
use run_texts::{WRITE_FAULT, done_line};
use session_input::SessionInput;
use session_talk::converse;
use shared_types::Steps;
use std::alloc::Global;
use std::marker::Brand;
use std::sync::ledger::{Blank, Ledger};
use tree_model::{Folder, Look, LookFault, Path, Sink};
use tree_spec::MOST_FILE_BYTES;

/// How such a session ended.
#[derive(Drop)]
pub(crate) struct Repeated {
    pub outcome: Outcome,
    pub told: Told,
}

/// How a session over a tree ends where these calls fail. Memory is wanting where it was before the first line was
/// said.
pub(crate) fn again_outcome(
    alloc: Global,
    tree: &Tree,
    run: &Run,
    fails: &Fails,
) -> Result<Repeated, RowFault> {
    let mut outside = Outside::new(alloc, tree, run, run.input.as_slice(), fails)?;
    let (status, told) = held::<Brand>(alloc, &mut outside, Blank::new(1))?;
    Ok(Repeated {
        outcome: outside.left(status)?,
        told,
    })
}

// Holds a session on the project of the folder.
fn held<L: Ledger>(
    alloc: Global,
    outside: &mut Outside,
    blank: Blank,
) -> Result<(u8, Told), RowFault>
    requires name { blank.name ≡ L.name }
    requires parts { blank.parts ≡ L.parts }
    requires some { 0 < blank.parts }
{
    let mut steps = Steps::<L>::start(blank);
    let config = config_in(alloc, &mut outside.folder)?;
    match Session::open(alloc, config, &mut outside.folder, &mut steps) {
        Ok(session) => opened(alloc, session, outside, &mut steps),
        Err(Stop::Memory) => Err(RowFault::Memory),
        Err(_) => Err(none("no session is opened")),
    }
}

// The config of the folder's project.
fn config_in<F: Folder>(alloc: Global, folder: &mut F) -> Result<Config, RowFault> {
    let path = Path::parse(alloc, "/importmap.project.json")?;
    config_of(alloc, folder.look(alloc, &path, MOST_FILE_BYTES))
}

fn config_of(alloc: Global, look: Result<Look, LookFault>) -> Result<Config, RowFault> {
    match look {
        Ok(Look::File(bytes)) => match read_project(alloc, bytes.as_slice()) {
            Ok(config) => Ok(config),
            Err(ProjectFault::Memory) => Err(RowFault::Memory),
            Err(_) => Err(none("the project is none")),
        },
        Err(LookFault::Memory) => Err(RowFault::Memory),
        _ => Err(none("there is no project")),
    }
}

fn none(why: &'static str) -> RowFault {
    RowFault::Malformed { why }
}

fn opened<L: Ledger>(
    alloc: Global,
    session: Session,
    outside: &mut Outside,
    steps: &mut Steps<L>,
) -> Result<(u8, Told), RowFault> {
    let mut session = session;
    talk(alloc, &mut session, outside, steps)
}

// Says what is generated, and replies to the lines of the input.
fn talk<L: Ledger>(
    alloc: Global,
    session: &mut Session,
    outside: &mut Outside,
    steps: &mut Steps<L>,
) -> Result<(u8, Told), RowFault> {
    let counts = session.counts();
    let line = done_line(alloc, counts.modules, counts.requests, counts.mappings)?;
    let mut reader = SessionInput::new(alloc)?;
    let mut editor = Repeating::new(session, &mut outside.folder, steps);
    let status = match outside.out.give(line.as_slice()) {
        Err(_) => WRITE_FAULT,
        Ok(()) => converse(
            alloc,
            &mut editor,
            &mut reader,
            &mut outside.input,
            &mut outside.out,
        ),
    };
    Ok((status, editor.told()))
}
