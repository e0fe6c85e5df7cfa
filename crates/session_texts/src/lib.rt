//! The lines that a session says beside those of a command, and the exit status of an input that can't be read: with
//! `run_texts` the one place with a printed text or a status.
#![tactic(auto)]

ghost use Rattle.std.specs.Prelude.{◌≡◌, ◌++◌, codes, IfOk};
ghost use Rattle.std.specs.Fmt.{decimal};
ghost use Rattle.tree_spec.specs.declared.LimitName.TheVariants.{Session};
ghost use Rattle.generator_spec.specs.Lines.{end_of_line, limit_line, text_line};
ghost use Rattle.session_spec.specs.Conversations as spec;
ghost use Rattle.session_spec.specs.Replies.{fault_line};

use generator_spec::Refusal;
use ordered_json::print_text;
use run_texts::line_of;
use session_spec::EditFault;
use shared_types::Memory;
use std::alloc::Global;
use tree_spec::LimitName;

/// A line of the input has no meaning or stands in the wrong place, or the input ends before `end`.
pub const BAD_INPUT: u8 = 7;

/// More input came than a session reads.
pub const INPUT_LIMIT: u8 = 3;

/// What is said before a map of so many bytes.
pub fn map_line(alloc: Global, count: usize) -> Result<Vec<u8>, Memory>
    ensures { IfOk result (λ line. line.items ≡ codes "map " ++ (decimal count ++ end_of_line)) }
{
    let line = format!(in alloc; "map {count}\n")?;
    Ok(line.into_bytes())
}

/// What is said at the end.
pub fn end_line() -> &'static [u8]
    ensures { result.now ≡ spec.end_reply }
{
    b"end\n".as_slice()
}

/// What is said of the line with this number.
pub fn bad_line(alloc: Global, number: usize) -> Result<Vec<u8>, Memory>
    ensures { IfOk result (λ line. line.items ≡ spec.bad_line number) }
{
    let line = format!(in alloc; "bad file: session line {number}\n")?;
    Ok(line.into_bytes())
}

/// What is said of an input that is too long.
pub fn too_long_line(alloc: Global) -> Result<Vec<u8>, Memory>
    ensures { IfOk result (λ line. line.items ≡ limit_line Session) }
{
    line_of(
        alloc,
        &Refusal::Limit {
            which: LimitName::Session,
        },
    )
}

/// What is said of an edit of which a change can't be made.
pub fn edit_line(alloc: Global, fault: &EditFault) -> Result<Vec<u8>, Memory>
    ensures { IfOk result (λ line. line.items ≡ fault_line fault.now) }
{
    match fault {
        EditFault::NotLinked { entry } => text_line(alloc, "refused: NotLinked ", entry.as_str()),
        EditFault::TooManyEntries => line_of(
            alloc,
            &Refusal::Limit {
                which: LimitName::Entries,
            },
        ),
        EditFault::BadEdit { path } => text_line(alloc, "refused: BadEdit ", path.as_str()),
    }
}

// A text as a JSON string behind these words.
fn text_line(alloc: Global, front: &str, text: &str) -> Result<Vec<u8>, Memory>
    ensures { IfOk result (λ line. line.items ≡ text_line front.now text.now) }
{
    let mut line = Vec::from_slice(alloc, front.as_bytes())?;
    print_text(&mut line, text)?;
    line.push(b'\n')?;
    Ok(line)
}
