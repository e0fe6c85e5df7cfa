//! URLs in a folder.
ghost use Rattle.std.specs.Prelude.{◌≡◌, ℕ, List, true, IfOk};
ghost use Rattle.url_spec.specs.FileUrls.{file_text};
ghost use Rattle.url_spec.specs.Parsing.{parse_against};
ghost use Rattle.url_spec.specs.Specifiers.{is_relative};
ghost use Rattle.node_spec.specs.FileLooks.{check_url, without_host};
ghost use Rattle.node_spec.specs.PackageResolve.{inside};
ghost use Rattle.node_resolve.specs.Responses.{Gives};
ghost use Rattle.package_lookup.specs.Responses.{itself};

use crate::NodeFault;
use crate::texts::begins;
use node_spec::Cause;
use shared_types::Memory;
use std::alloc::Global;
use tree_model::Path;
use web_url::{FileUrl, file_join, file_url};

/// The URL of a folder.
pub fn folder_url(alloc: Global, folder: &Path) -> Result<FileUrl, Memory>
    ensures { IfOk result (λ url. url ≡ file_text folder.now true) }
{
    file_url(alloc, folder, true)
}

/// The URL of a relative text against another, where it has one without a host.
pub fn join(alloc: Global, base: &FileUrl, text: &str) -> Result<Option<FileUrl>, Memory>
    requires { is_relative text.now ≡ true }
    ensures { IfOk result (λ found. found ≡ without_host (parse_against base.now text.now)) }
{
    match file_join(alloc, text, base)? {
        None => Ok(None),
        Some(url) => {
            if url.names_host() {
                Ok(None)
            } else {
                Ok(Some(url))
            }
        }
    }
}

/// A URL that is there, or that a text which isn't well formed doesn't have.
pub fn check_url(found: Option<FileUrl>) -> Result<FileUrl, NodeFault>
    ensures { Gives itself (check_url found) result }
{
    match found {
        None => Err(NodeFault::Refused(Cause::InvalidSpecifier)),
        Some(url) => Ok(url),
    }
}

/// A URL that is there, and that begins with the URL of this folder.
pub fn inside(folder: &FileUrl, found: Option<FileUrl>) -> Result<FileUrl, NodeFault>
    ensures { (path : List ℕ) → folder.now ≡ file_text path true → Gives itself (inside path found) result }
{
    match found {
        None => Err(NodeFault::Refused(Cause::InvalidSpecifier)),
        Some(url) => {
            if begins(url.as_str(), folder.as_str()) {
                Ok(url)
            } else {
                Err(NodeFault::Refused(Cause::InvalidSpecifier))
            }
        }
    }
}
