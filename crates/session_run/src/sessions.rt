ghost use Rattle.std.specs.Prelude.{◌≡◌, ◌≤◌, ℕ, List, IfSome};
ghost use Rattle.config_spec.specs.declared.Command.TheVariants.{Refresh};
ghost use Rattle.generation.specs.Generating.{AsksNoPathTwice};
ghost use Rattle.generator_spec.specs.Asked.{IsConfigAt};
ghost use Rattle.generator_spec.specs.Ending.{Ends};
ghost use Rattle.session_spec.specs.Openings.{refresh_words};
ghost use Rattle.session_talk.specs.Editors.{EditorState, Seen};
ghost use Rattle.session_run.specs.Editing.{IsViewOf, LooksSome};
ghost use Rattle.session_run.specs.Sessions.{HoldsSession, OpenedEnds, RefusedEnds, ShownEnds, TalksOn};

use crate::session_editor::SessionEditor;
use edit_session::Session;
use generation::Stop;
use request_trace::Config;
use run_texts::{
    DONE, MEMORY, READ_FAULT, WRITE_FAULT, done_line, line_of, memory_line, read_fault_line,
    status_of,
};
use session_input::SessionInput;
use session_talk::converse;
use session_watch::Watch;
use shared_types::Steps;
use std::alloc::Global;
use std::sync::ledger::Ledger;
use tree_model::{Folder, Sink, Source};

/// Opens a session on what stands in the folder, shows its modules, says what is generated, and replies to the lines of
/// the input, where each edit that is accepted is shown before it is said. Nothing is written, and no input is read where
/// the session isn't opened. Answers the exit status.
pub fn session<F: Folder, I: Source, O: Sink, W: Watch, L: Ledger>(
    alloc: Global,
    config: Config,
    folder: &mut F,
    input: &mut I,
    out: &mut O,
    watch: &mut W,
    steps: &mut Steps<L>,
) -> u8
    ensures ends { IsConfigAt refresh_words Refresh config (F.state folder.old)
        → HoldsSession (F.state folder.old) (F.state folder.new) (I.state input.old) (I.state input.new)
        (O.state out.old) (O.state out.new) (W.seen watch.old) (W.seen watch.new) result steps.old steps.new }
    ensures asked { IfSome (F.state folder.old).asked (λ old. AsksNoPathTwice old (F.state folder.new)) }
{
    match Session::open(alloc, config, folder, steps) {
        Ok(session) => opened(alloc, session, folder, input, out, watch, steps),
        Err(stop) => {
            let status = refuse(alloc, &stop, out);
            drop(stop);
            status
        }
    }
}

// Says why no session is opened.
fn refuse<O: Sink>(alloc: Global, stop: &Stop, out: &mut O) -> u8
    ensures tells { RefusedEnds stop.now (O.state out.old) (O.state out.new) result }
    ensures later { (O.state out.old).faults ≤ (O.state out.new).faults }
{
    match stop {
        Stop::Refused { why } => match line_of(alloc, why) {
            Ok(line) => tell(out, line.as_slice(), status_of(why)),
            Err(_) => tell(out, memory_line(), MEMORY),
        },
        Stop::ReadFault => tell(out, read_fault_line(), READ_FAULT),
        Stop::Memory => tell(out, memory_line(), MEMORY),
    }
}

// Shows the modules, says what is generated, and replies to the lines of the input.
fn opened<F: Folder, I: Source, O: Sink, W: Watch, L: Ledger>(
    alloc: Global,
    session: Session,
    folder: &mut F,
    input: &mut I,
    out: &mut O,
    watch: &mut W,
    steps: &mut Steps<L>,
) -> u8
    ensures ends { OpenedEnds session (F.state folder.old) (F.state folder.new) (I.state input.old) (I.state input.new)
        (O.state out.old) (O.state out.new) (W.seen watch.old) (W.seen watch.new) result steps.old steps.new }
    ensures later { (O.state out.old).faults ≤ (O.state out.new).faults }
{
    match watch.shown(alloc, session.slots(), session.view()) {
        Err(_) => {
            drop(session);
            tell(out, memory_line(), MEMORY)
        }
        Ok(()) => shown(alloc, session, folder, input, out, watch, steps),
    }
}

// Says what is generated, and replies to the lines of the input.
fn shown<F: Folder, I: Source, O: Sink, W: Watch, L: Ledger>(
    alloc: Global,
    session: Session,
    folder: &mut F,
    input: &mut I,
    out: &mut O,
    watch: &mut W,
    steps: &mut Steps<L>,
) -> u8
    ensures ends { ShownEnds session (F.state folder.old) (F.state folder.new) (I.state input.old) (I.state input.new)
        (O.state out.old) (O.state out.new) (W.seen watch.old) (W.seen watch.new) result steps.old steps.new }
    ensures later { (O.state out.old).faults ≤ (O.state out.new).faults }
{
    let mut session = session;
    let counts = session.counts();
    match done_line(alloc, counts.modules, counts.requests, counts.mappings) {
        Err(_) => {
            drop(session);
            tell(out, memory_line(), MEMORY)
        }
        Ok(line) => match out.give(line.as_slice()) {
            Err(_) => {
                drop(session);
                WRITE_FAULT
            }
            Ok(()) => {
                let status = talk(alloc, &mut session, folder, input, out, watch, steps);
                drop(session);
                status
            }
        },
    }
}

// Replies to the lines of the input.
fn talk<F: Folder, I: Source, O: Sink, W: Watch, L: Ledger>(
    alloc: Global,
    session: &mut Session,
    folder: &mut F,
    input: &mut I,
    out: &mut O,
    watch: &mut W,
    steps: &mut Steps<L>,
) -> u8
    ensures talks { (before : EditorState)
        → IsViewOf (F.state folder.old) session.old (W.seen watch.old) steps.old before
        → Seen (IsViewOf (F.state folder.new) session.new (W.seen watch.new) steps.new)
        (λ after. TalksOn before (I.state input.old) (O.state out.old) after (I.state input.new) (O.state out.new)
        result) }
    ensures asks { (references : List ℕ) → LooksSome references (F.state folder.old) session.old
        (F.state folder.new) session.new }
    ensures later { (O.state out.old).faults ≤ (O.state out.new).faults }
{
    match SessionInput::new(alloc) {
        Err(_) => tell(out, memory_line(), MEMORY),
        Ok(reader) => {
            let mut reader = reader;
            let mut editor = SessionEditor {
                session,
                folder,
                watch,
                steps,
            };
            converse(alloc, &mut editor, &mut reader, input, out)
        }
    }
}

// Says a line; where that fails, that is how it ends.
fn tell<O: Sink>(out: &mut O, line: &[u8], status: u8) -> u8
    ensures ends { Ends status line.now (O.state out.old) (O.state out.new) result }
    ensures later { (O.state out.old).faults ≤ (O.state out.new).faults }
{
    match out.give(line) {
        Ok(()) => status,
        Err(_) => WRITE_FAULT,
    }
}
