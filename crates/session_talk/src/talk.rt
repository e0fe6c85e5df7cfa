ghost use Rattle.std.specs.Prelude.{◌≡◌, ◌≤◌, ◌<◌, ◌+◌, None, Some, length, IfNone};
ghost use Rattle.tree_spec.specs.Limits.{limit_number};
ghost use Rattle.tree_spec.specs.States.{SourceState};
ghost use Rattle.tree_spec.specs.declared.LimitName.TheVariants.{Session};
ghost use Rattle.generator_spec.specs.Ending.{Ends};
ghost use Rattle.generator_spec.specs.Lines.{limit_line};
ghost use Rattle.generator_spec.specs.Statuses.{file_status, limit_status};
ghost use Rattle.session_spec.specs.Conversations.{bad_line};
ghost use Rattle.session_input.specs.Readers.{Waiting, waiting, order_of, IsFresh};
ghost use Rattle.session_talk.specs.Editors.{EditorState, Seen};
ghost use Rattle.session_talk.specs.EditorLooks.{AsksSome, TurnAsks};
ghost use Rattle.session_talk.specs.Talking.{Now, now_at, GoesOn, IsOrdered, Converses, Turns};
ghost use Rattle.session_talk.specs.Talking.{Makes, ShowsMap, TellsEnd, GivesReply};

use crate::editor::{Editor, EditorFault};
use run_texts::{DONE, MEMORY, READ_FAULT, WRITE_FAULT, memory_line, read_fault_line};
use session_input::{InputFault, Order, Reading, SessionInput};
use session_spec::Change;
use session_texts::{BAD_INPUT, INPUT_LIMIT, bad_line, end_line, map_line, too_long_line};
use shared_types::Listed;
use std::alloc::Global;
use tree_model::{Sink, Source};

/// Replies to the lines of an input, one after another, until one of them ends the session or something fails. Answers
/// the exit status. A reply goes out before more is taken than what came with its line; the contract doesn't say so.
pub fn converse<E: Editor, I: Source, O: Sink>(
    alloc: Global,
    editor: &mut E,
    reader: &mut SessionInput,
    input: &mut I,
    out: &mut O,
) -> u8
    requires { IsFresh reader.old }
    ensures converses { (before : EditorState) → E.views editor.old before → Seen (E.views editor.new)
        (λ after. Converses (now_at before (waiting reader.old) None (I.state input.old) (O.state out.old))
        after (I.state input.new) (O.state out.new) result) }
    ensures asks { AsksSome (E.looks editor.old) (E.looks editor.new) }
    ensures later { (O.state out.old).faults ≤ (O.state out.new).faults }
{
    let mut held = None;
    loop {
        match turn(alloc, editor, reader, &mut held, input, out) {
            None => {}
            Some(status) => return status,
        }
    }
}

// Reads a line and obeys it. Answers the exit status, where that ends the session.
fn turn<E: Editor, I: Source, O: Sink>(
    alloc: Global,
    editor: &mut E,
    reader: &mut SessionInput,
    held: &mut Option<Listed<Change>>,
    input: &mut I,
    out: &mut O,
) -> Option<u8>
    ensures less { IfNone result (length (waiting reader.new).unread + (waiting reader.new).room
        < length (waiting reader.old).unread + (waiting reader.old).room) }
    ensures turns { (first : Now) (before : EditorState) → E.views editor.old before
        → GoesOn first (now_at before (waiting reader.old) held.old (I.state input.old) (O.state out.old))
        → Seen (E.views editor.new) (λ after. Turns first after (waiting reader.new) held.new
        (I.state input.new) (O.state out.new) result) }
    ensures asks { TurnAsks result (E.looks editor.old) (E.looks editor.new) }
    ensures later { (O.state out.old).faults ≤ (O.state out.new).faults }
{
    let number = reader.number();
    match reader.next(alloc, input) {
        Ok(Reading::Ordered { order }) => obey(alloc, editor, held, order, number, out),
        Ok(Reading::Malformed) => Some(refuse(alloc, number, out)),
        Ok(Reading::Ended) => Some(refuse(alloc, number, out)),
        Ok(Reading::TooLong) => Some(too_long(alloc, out)),
        Err(InputFault::ReadFault) => Some(tell(out, read_fault_line(), READ_FAULT)),
        Err(InputFault::Memory) => Some(tell(out, memory_line(), MEMORY)),
    }
}

// Does what a line asks for, which has this number.
fn obey<E: Editor, O: Sink>(
    alloc: Global,
    editor: &mut E,
    held: &mut Option<Listed<Change>>,
    order: Order,
    number: usize,
    out: &mut O,
) -> Option<u8>
    ensures turns { (first : Now) (left : Waiting) (source : SourceState) (before : EditorState)
        → E.views editor.old before
        → IsOrdered number (order_of order) first (now_at before left held.old source (O.state out.old))
        → Seen (E.views editor.new) (λ after. Turns first after left held.new source (O.state out.new) result) }
    ensures asks { TurnAsks result (E.looks editor.old) (E.looks editor.new) }
    ensures later { (O.state out.old).faults ≤ (O.state out.new).faults }
{
    match held.take() {
        None => obey_alone(alloc, editor, held, order, number, out),
        Some(edit) => obey_within(alloc, editor, held, edit, order, number, out),
    }
}

// The same where no `begin` is open.
fn obey_alone<E: Editor, O: Sink>(
    alloc: Global,
    editor: &mut E,
    held: &mut Option<Listed<Change>>,
    order: Order,
    number: usize,
    out: &mut O,
) -> Option<u8>
    requires { held.old ≡ None }
    ensures turns { (first : Now) (left : Waiting) (source : SourceState) (before : EditorState)
        → E.views editor.old before
        → IsOrdered number (order_of order) first (now_at before left None source (O.state out.old))
        → Seen (E.views editor.new) (λ after. Turns first after left held.new source (O.state out.new) result) }
    ensures asks { TurnAsks result (E.looks editor.old) (E.looks editor.new) }
    ensures later { (O.state out.old).faults ≤ (O.state out.new).faults }
{
    match order {
        Order::Change { change } => {
            let mut edit = Listed::new(alloc);
            match edit.push(change) {
                Err(_) => Some(tell(out, memory_line(), MEMORY)),
                Ok(()) => make(alloc, editor, &edit, out),
            }
        }
        Order::Begin => {
            *held = Some(Listed::new(alloc));
            None
        }
        Order::Commit => Some(refuse(alloc, number, out)),
        Order::Map => show(alloc, editor, out),
        Order::End => Some(tell(out, end_line(), DONE)),
    }
}

// The same behind a `begin`, with the changes since.
fn obey_within<E: Editor, O: Sink>(
    alloc: Global,
    editor: &mut E,
    held: &mut Option<Listed<Change>>,
    edit: Listed<Change>,
    order: Order,
    number: usize,
    out: &mut O,
) -> Option<u8>
    requires { held.old ≡ None }
    ensures turns { (first : Now) (left : Waiting) (source : SourceState) (before : EditorState)
        → E.views editor.old before
        → IsOrdered number (order_of order) first (now_at before left (Some edit) source (O.state out.old))
        → Seen (E.views editor.new) (λ after. Turns first after left held.new source (O.state out.new) result) }
    ensures asks { TurnAsks result (E.looks editor.old) (E.looks editor.new) }
    ensures later { (O.state out.old).faults ≤ (O.state out.new).faults }
{
    match order {
        Order::Change { change } => {
            let mut edit = edit;
            match edit.push(change) {
                Err(_) => Some(tell(out, memory_line(), MEMORY)),
                Ok(()) => {
                    *held = Some(edit);
                    None
                }
            }
        }
        Order::Commit => make(alloc, editor, &edit, out),
        Order::Begin => Some(refuse(alloc, number, out)),
        Order::Map => Some(refuse(alloc, number, out)),
        Order::End => Some(refuse(alloc, number, out)),
    }
}

// Makes an edit, and replies to it.
fn make<E: Editor, O: Sink>(
    alloc: Global,
    editor: &mut E,
    edit: &Listed<Change>,
    out: &mut O,
) -> Option<u8>
    ensures makes { (before : EditorState) → E.views editor.old before → Seen (E.views editor.new)
        (λ after. Makes before edit.now (O.state out.old) after (O.state out.new) result) }
    ensures asks { TurnAsks result (E.looks editor.old) (E.looks editor.new) }
    ensures later { (O.state out.old).faults ≤ (O.state out.new).faults }
{
    match editor.edit(alloc, edit) {
        Ok(line) => give(out, line.as_slice()),
        Err(EditorFault::ReadFault) => Some(tell(out, read_fault_line(), READ_FAULT)),
        Err(EditorFault::Memory) => Some(tell(out, memory_line(), MEMORY)),
    }
}

// Replies with the map.
fn show<E: Editor, O: Sink>(alloc: Global, editor: &mut E, out: &mut O) -> Option<u8>
    ensures same { editor.new ≡ editor.old }
    ensures shows { (state : EditorState) → E.views editor.old state
        → ShowsMap state (O.state out.old) (O.state out.new) result }
    ensures later { (O.state out.old).faults ≤ (O.state out.new).faults }
{
    let map = editor.map();
    match map_line(alloc, map.len()) {
        Err(_) => Some(tell(out, memory_line(), MEMORY)),
        Ok(line) => match give(out, line.as_slice()) {
            Some(status) => Some(status),
            None => give(out, map),
        },
    }
}

// Says that a line has no meaning or stands in the wrong place, or isn't whole.
fn refuse<O: Sink>(alloc: Global, number: usize, out: &mut O) -> u8
    ensures tells { TellsEnd file_status (bad_line number) (O.state out.old) (O.state out.new) result }
    ensures later { (O.state out.old).faults ≤ (O.state out.new).faults }
{
    match bad_line(alloc, number) {
        Ok(line) => tell(out, line.as_slice(), BAD_INPUT),
        Err(_) => tell(out, memory_line(), MEMORY),
    }
}

// Says that more came than is read.
fn too_long<O: Sink>(alloc: Global, out: &mut O) -> u8
    ensures tells { TellsEnd limit_status (limit_line Session) (O.state out.old) (O.state out.new) result }
    ensures later { (O.state out.old).faults ≤ (O.state out.new).faults }
{
    match too_long_line(alloc) {
        Ok(line) => tell(out, line.as_slice(), INPUT_LIMIT),
        Err(_) => tell(out, memory_line(), MEMORY),
    }
}

// Gives a reply. Where that fails, the session ends with the status that is answered.
fn give<O: Sink>(out: &mut O, reply: &[u8]) -> Option<u8>
    ensures gives { GivesReply reply.now (O.state out.old) (O.state out.new) result }
    ensures later { (O.state out.old).faults ≤ (O.state out.new).faults }
{
    match out.give(reply) {
        Ok(()) => None,
        Err(_) => Some(WRITE_FAULT),
    }
}

// Says a line, with which the session ends.
fn tell<O: Sink>(out: &mut O, line: &[u8], status: u8) -> u8
    ensures ends { Ends status line.now (O.state out.old) (O.state out.new) result }
    ensures later { (O.state out.old).faults ≤ (O.state out.new).faults }
{
    match out.give(line) {
        Ok(()) => status,
        Err(_) => WRITE_FAULT,
    }
}
