//! The main file of a package without exports (Node.js, CommonJS modules: LOAD_AS_DIRECTORY; ECMAScript modules:
//! PACKAGE_RESOLVE).
ghost use Rattle.std.specs.Prelude.{◌≡◌, ◌++◌, List, ℕ, true, codes, map, Some, IfOk, option_map};
ghost use Rattle.std.specs.String.{string_bytes};
ghost use Rattle.url_spec.specs.FileUrls.{file_text};
ghost use Rattle.node_spec.specs.FileLooks.{url_in};
ghost use Rattle.node_spec.specs.LegacyMainResolve.{index_files, first_file, main_file};
ghost use Rattle.package_lookup.specs.Answered.{Answered};
ghost use Rattle.package_lookup.specs.Lookups.{state_of, IsSameLookup};
ghost use Rattle.package_lookup.specs.Responses.{itself, looked};
ghost use Rattle.node_resolve.specs.MainFiles.{first_served, served_at, texts_of};
ghost use Rattle.node_resolve.specs.Responses.{responded};

use crate::NodeFault;
use crate::fault::behind;
use crate::file_urls::{folder_url, join};
use crate::places::serves;
use node_spec::Cause;
use package_lookup::{Lookup, LookupFault};
use shared_types::Memory;
use std::alloc::Global;
use tree_model::{Folder, Path};
use web_url::FileUrl;

static MAIN_ENDS: [&str; 7] = [
    "",
    ".js",
    ".json",
    ".node",
    "/index.js",
    "/index.json",
    "/index.node",
];

static INDEX_FILES: [&str; 3] = ["index.js", "index.json", "index.node"];

/// The URL of the main file of the package in a folder, by the `main` of its record.
pub fn main_file<F: Folder>(
    lookup: &mut Lookup<'_, F>,
    package_folder: &Path,
    main: Option<&str>,
) -> Result<FileUrl, NodeFault>
    ensures answered { Answered (state_of F.state lookup.old)
        (main_file package_folder.now (option_map (λ text. text.now) main.entry))
        (responded itself result) (state_of F.state lookup.new) }
    ensures same { IsSameLookup lookup.old lookup.new }
{
    let url = folder_url(lookup.alloc, package_folder)?;
    match main {
        None => index_file(lookup, &url),
        Some(main) => named_file(lookup, &url, main),
    }
}

/// The URL of the file that `main` names in the folder with this URL, or of the index file.
fn named_file<F: Folder>(
    lookup: &mut Lookup<'_, F>,
    package_url: &FileUrl,
    main: &str,
) -> Result<FileUrl, NodeFault>
    ensures answered { (path : List ℕ) → package_url.now ≡ file_text path true
        → Answered (state_of F.state lookup.old) (main_file path (Some main.now))
        (responded itself result) (state_of F.state lookup.new) }
    ensures same { IsSameLookup lookup.old lookup.new }
{
    match first_served(lookup, package_url, main, &MAIN_ENDS) {
        Err(fault) => Err(behind(fault)),
        Ok(Some(found)) => Ok(found),
        Ok(None) => index_file(lookup, package_url),
    }
}

/// The URL of the index file in the folder with this URL.
fn index_file<F: Folder>(
    lookup: &mut Lookup<'_, F>,
    package_url: &FileUrl,
) -> Result<FileUrl, NodeFault>
    ensures answered { (path : List ℕ) → package_url.now ≡ file_text path true
        → Answered (state_of F.state lookup.old) (first_file path index_files)
        (responded itself result) (state_of F.state lookup.new) }
    ensures same { IsSameLookup lookup.old lookup.new }
{
    match first_served(lookup, package_url, "", &INDEX_FILES) {
        Err(fault) => Err(behind(fault)),
        Ok(Some(found)) => Ok(found),
        Ok(None) => Err(NodeFault::Refused(Cause::NotFound)),
    }
}

/// The URL of the first file of these that is there, each named by a text and one of these ends behind it.
fn first_served<F: Folder>(
    lookup: &mut Lookup<'_, F>,
    package_url: &FileUrl,
    front: &str,
    ends: &[&str],
) -> Result<Option<FileUrl>, LookupFault>
    ensures answered { (path : List ℕ) → package_url.now ≡ file_text path true
        → Answered (state_of F.state lookup.old)
        (first_served path (map (λ end. front.now ++ end) (texts_of ends.now)))
        (looked itself result) (state_of F.state lookup.new) }
    ensures same { IsSameLookup lookup.old lookup.new }
{
    match ends.split_first() {
        None => Ok(None),
        Some((end, more)) => match served(lookup, package_url, front, end) {
            Err(fault) => Err(fault),
            Ok(Some(found)) => Ok(Some(found)),
            Ok(None) => first_served(lookup, package_url, front, more),
        },
    }
}

/// The URL of the file that a text with this end names, if it is there.
fn served<F: Folder>(
    lookup: &mut Lookup<'_, F>,
    package_url: &FileUrl,
    front: &str,
    end: &str,
) -> Result<Option<FileUrl>, LookupFault>
    ensures answered { (path : List ℕ) → package_url.now ≡ file_text path true
        → Answered (state_of F.state lookup.old)
        (served_at (url_in path (codes "./" ++ (front.now ++ end.now))))
        (looked itself result) (state_of F.state lookup.new) }
    ensures same { IsSameLookup lookup.old lookup.new }
{
    let text = relative_text(lookup.alloc, front, end)?;
    match join(lookup.alloc, package_url, text.as_str())? {
        None => Ok(None),
        Some(url) => match serves(lookup, &url) {
            Err(fault) => Err(fault),
            Ok(true) => Ok(Some(url)),
            Ok(false) => Ok(None),
        },
    }
}

/// `./` and both parts behind it.
fn relative_text(alloc: Global, front: &str, end: &str) -> Result<String, Memory>
    ensures text { IfOk result (λ text. string_bytes text ≡ codes "./" ++ (front.now ++ end.now)) }
{
    let mut text = String::from_str(alloc, "./")?;
    text.push_str(front)?;
    text.push_str(end)?;
    Ok(text)
}
