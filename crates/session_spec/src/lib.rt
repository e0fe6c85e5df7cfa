//! Sessions: the edits of a tree and of a config's entries, what each is answered, and what is replied to the lines of
//! an input. Definitions, and their laws as the contracts of functions that do nothing.
#![tactic(auto)]

ghost use Rattle.std.specs.Prelude.{◌≡◌};
ghost use Rattle.session_spec.specs.Laws.{OneReply, SomeReply, RefusedLeaves, AcceptedOrLeft, AlwaysCurrent};
ghost use Rattle.session_spec.specs.Laws.{PutPlaces, EditsKeepTree, FaultsAreOfEdits, EditsJoin, AcceptedJoin};
ghost use Rattle.session_spec.specs.Laws.{OneAnswer, SomeAnswer, NothingBehindEnd};
ghost use Rattle.session_spec.specs.Laws.{FrontReplies, TalksStayCurrent, OneSession, SomeSession, SessionsEnd};
ghost use Rattle.session_spec.specs.Laws.{SessionsAreShaped, TriedAreCurrent, LooksStay, MapsAreFreshAfterEdits};
ghost use Rattle.session_spec.specs.Laws.{RepliesAreFront, SessionsKeepPromises, OpenInputsWait, WaitingIsOpen};
ghost use Rattle.session_spec.specs.Laws.{NoTakeBehindEnd, DoingsTalk, RenewalsAreRare};
ghost use Rattle.session_spec.specs.TakenInput.{taken_at_once};
ghost use Rattle.session_spec.specs.WorkedExamples.{LineExamples, TurnExamples, EntryExamples};
ghost use Rattle.session_spec.specs.WorkedExamples.{EditExamples, AnswerExamples, FrugalExamples};

use shared_types::{Bytes, Text};
use tree_model::Path;

/// Bytes of a session's input that are taken at once.
pub const MOST_TAKEN_AT_ONCE: usize = 65_536;

/// How many bytes of a session's input are taken at once, at most.
pub fn most_taken_at_once() -> usize
    ensures { result ≡ taken_at_once }
{
    MOST_TAKEN_AT_ONCE
}

/// One change of what a session works on.
#[derive(Drop)]
pub enum Change {
    /// One entry more.
    Link { entry: Text },
    /// One entry less.
    Unlink { entry: Text },
    /// A file with these bytes, in place of the one that may stand there.
    Put { path: Path, bytes: Bytes },
    /// One file less.
    Drop { path: Path },
}

/// Why a change can't be made.
#[derive(Debug, Drop)]
pub enum EditFault {
    /// An entry that isn't there to be taken out.
    NotLinked { entry: Text },
    /// One entry more than a project may have.
    TooManyEntries,
    /// No file can be put there, or none stands there to be dropped.
    BadEdit { path: Path },
}

/// An edit of a state has one reply and one next state.
pub fn one_reply()
    ensures { OneReply }
{}

/// Each edit has a reply.
pub fn some_reply()
    ensures { SomeReply }
{}

/// A refused edit leaves the state.
pub fn refused_leaves()
    ensures { RefusedLeaves }
{}

/// An edit is accepted, or the state stays.
pub fn accepted_or_left()
    ensures { AcceptedOrLeft }
{}

/// Whatever edits led there, the map is that of the tree and the config.
pub fn always_current()
    ensures { AlwaysCurrent }
{}

/// A file that is put is placed, with the folders above it.
pub fn put_places()
    ensures { PutPlaces }
{}

/// An edit of a tree leaves a tree.
pub fn edits_keep_tree()
    ensures { EditsKeepTree }
{}

/// Whatever the draft, an edit is refused for what one of its changes does.
pub fn faults_are_of_edits()
    ensures { FaultsAreOfEdits }
{}

/// Behind an edit stands what its changes leave, one after another.
pub fn edits_join()
    ensures { EditsJoin }
{}

/// Behind accepted edits stands what all their changes leave.
pub fn accepted_join()
    ensures { AcceptedJoin }
{}

/// The lines of an input have one answer.
pub fn one_answer()
    ensures { OneAnswer }
{}

/// Each input has an answer.
pub fn some_answer()
    ensures { SomeAnswer }
{}

/// What comes behind `end` changes nothing.
pub fn nothing_behind_end()
    ensures { NothingBehindEnd }
{}

/// What is replied to the first bytes of an input stays what is replied, whatever comes behind them.
pub fn front_replies()
    ensures { FrontReplies }
{}

/// Wherever a session stands, its map is that of its tree and config.
pub fn talks_stay_current()
    ensures { TalksStayCurrent }
{}

/// An edit to which an input comes is made of a state whose map is current.
pub fn tried_are_current()
    ensures { TriedAreCurrent }
{}

/// Where a session looks for the first bytes of an input, it looks for it all.
pub fn looks_stay()
    ensures { LooksStay }
{}

/// Whatever a session is told, its map is that of a fresh generation for the tree and the entries that the accepted
/// edits leave.
pub fn maps_are_fresh_after_edits()
    ensures { MapsAreFreshAfterEdits }
{}

/// What a session says while it takes an input is the front of what it says to it all.
pub fn replies_are_front()
    ensures { RepliesAreFront }
{}

/// A session that ends as is promised keeps the promises of its caller.
pub fn sessions_keep_promises()
    ensures { SessionsKeepPromises }
{}

/// A session on a tree says one text to an input.
pub fn one_session()
    ensures { OneSession }
{}

/// It says something to each input.
pub fn some_session()
    ensures { SomeSession }
{}

/// Whatever the tree and the input, what a session says and its status are of one of four shapes.
pub fn sessions_are_shaped()
    ensures { SessionsAreShaped }
{}

/// Bytes that leave a session open are replied to, and more are awaited.
pub fn open_inputs_wait()
    ensures { OpenInputsWait }
{}

/// Bytes behind which more are awaited leave a session open.
pub fn waiting_is_open()
    ensures { WaitingIsOpen }
{}

/// Once the bytes taken hold what ends a session, no take follows.
pub fn no_take_behind_end()
    ensures { NoTakeBehindEnd }
{}

/// What a session does goes with what it replies.
pub fn doings_talk()
    ensures { DoingsTalk }
{}

/// A session seldom begins another graph.
pub fn renewals_are_rare()
    ensures { RenewalsAreRare }
{}

/// How a session ends, where it stands.
pub fn sessions_end()
    ensures { SessionsEnd }
{}

/// How lines are read.
pub fn line_examples()
    ensures { LineExamples }
{}

/// What a line does at each place.
pub fn turn_examples()
    ensures { TurnExamples }
{}

/// Changes of entries.
pub fn entry_examples()
    ensures { EntryExamples }
{}

/// Changes of files.
pub fn edit_examples()
    ensures { EditExamples }
{}

/// What is replied to whole inputs.
pub fn answer_examples()
    ensures { AnswerExamples }
{}

/// What an edit asks anew, and how many steps lines take.
pub fn frugal_examples()
    ensures { FrugalExamples }
{}
