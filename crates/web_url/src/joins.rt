//! Relative texts that lead from a file or a folder to a path, so that no URL has to be parsed.
ghost use Rattle.std.specs.Prelude.{◌≡◌, true, IfOk, IfSome};
ghost use Rattle.std.specs.List.{list_all};
ghost use Rattle.url_spec.specs.FileJoins.{IsFolderOf, LeadsTo};
ghost use Rattle.url_spec.specs.WebNames.{is_plain};
ghost use Rattle.web_url.specs.Joins.{IsJoinIn, IsShortJoin};

use crate::escapes::is_plain_text;
use crate::names::after_front;
use shared_types::Memory;
use std::alloc::Global;
use tree_model::Path;

/// The path whose file URL a relative text gives against the URL of a file or a folder, where that is known
/// without a parse.
pub fn short_join(
    alloc: Global,
    text: &str,
    path: &Path,
    folder: bool,
) -> Result<Option<Path>, Memory>
    ensures { IfOk result (λ found. IfSome found (IsShortJoin path.now folder text.now)) }
{
    if !is_plain_text(text) {
        return Ok(None);
    }
    match folder_of(alloc, path, folder)? {
        None => Ok(None),
        Some(above) => joined_in(alloc, &above, text),
    }
}

// The folder in which relative texts begin; there is none for the root as a file.
fn folder_of(alloc: Global, path: &Path, folder: bool) -> Result<Option<Path>, Memory>
    ensures { IfOk result (λ found. IfSome found (IsFolderOf path.now folder)) }
{
    if folder {
        Ok(Some(path.copy(alloc)?))
    } else {
        path.parent(alloc)
    }
}

fn joined_in(alloc: Global, above: &Path, text: &str) -> Result<Option<Path>, Memory>
    requires { list_all is_plain text.now ≡ true }
    ensures { IfOk result (λ found. IfSome found (IsJoinIn above.now text.now)) }
{
    match after_front(text, "./") {
        Some(rest) => led(alloc, above, rest),
        None => joined_above(alloc, above, text),
    }
}

fn joined_above(alloc: Global, above: &Path, text: &str) -> Result<Option<Path>, Memory>
    requires { list_all is_plain text.now ≡ true }
    ensures { IfOk result (λ found. IfSome found (IsJoinIn above.now text.now)) }
{
    match after_front(text, "../") {
        Some(_) => led(alloc, above, text),
        None => Ok(None),
    }
}

// The path to which a text leads from a folder.
fn led(alloc: Global, above: &Path, text: &str) -> Result<Option<Path>, Memory>
    requires { list_all is_plain text.now ≡ true }
    ensures { IfOk result (λ found. IfSome found (LeadsTo above.now text.now)) }
{
    match after_front(text, "../") {
        None => led_below(alloc, above, text),
        Some(more) => match above.parent(alloc)? {
            None => Ok(None),
            Some(parent) => led(alloc, &parent, more),
        },
    }
}

fn led_below(alloc: Global, above: &Path, text: &str) -> Result<Option<Path>, Memory>
    requires { list_all is_plain text.now ≡ true }
    ensures { IfOk result (λ found. IfSome found (LeadsTo above.now text.now)) }
{
    if above.as_str() == "/" {
        return Ok(None);
    }
    above.join(alloc, text)
}
