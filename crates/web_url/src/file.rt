ghost use Rattle.std.specs.Prelude.{◌≡◌, ℕ, Bool, List, IfOk, IsErrOf, true, false};
ghost use Rattle.std.specs.Prelude.{string_bytes, codes, bytes_eq, ◌&&◌, not, [], if◌then◌else◌};
ghost use Rattle.url_spec.specs.Parsing.{parse_against, text_of, IsUrl};
ghost use Rattle.url_spec.specs.Specifiers.{is_relative};
ghost use Rattle.url_spec.specs.FileUrls.{file_text, names_host, url_path, IsPlace};
ghost use Rattle.web_url.specs.Kept.{IsNamed};
ghost use Rattle.web_url.specs.Written.{IsTextOf, IsWritten};

use crate::escapes::push_escaped;
use crate::joins::short_join;
use crate::paths::{escapes_separator, named_path};
use crate::suffix::Suffix;
use crate::url_text;
use shared_types::{Memory, Text};
use std::alloc::{AllocError, Global};
use std::marker::Model;
use tree_model::Path;
use url::Url;

/// A URL of scheme `file`, seen as its text. That of a path isn't parsed before it has to be.
#[derive(Debug, Drop)]
pub struct FileUrl {
    kept: Kept,
}

#[derive(Debug, Drop)]
enum Kept {
    Named {
        text: String,
        path: Path,
        folder: bool,
    },
    Parsed(Url),
}

impl Model for FileUrl {
    ghost use Rattle.std.specs.Prelude.{List, ℕ};
    ghost use Rattle.web_url.specs.Kept.{kept_text, IsKept};

    ghost Value = { List ℕ };

    ghost view = { λ f. kept_text f.kept };

    ghost invariant = { λ f. IsKept f.kept };
}

/// The place that a file URL names.
#[derive(Debug, Drop)]
pub struct Place {
    /// The path, where the URL's path spells one.
    pub path: Option<Path>,
    /// The URL's path ends in `/`, so that no file stands there.
    pub folder_only: bool,
    /// An escape gives a `/` or a `\`.
    pub escaped: bool,
    /// The query and fragment.
    pub suffix: Suffix,
}

/// Why a file URL names no place.
#[derive(Clone, Copy, Debug, PartialEq, Eq)]
pub enum FileFault {
    /// The URL has a host.
    BadFileUrl,
    /// Want of memory.
    Memory,
}

impl From<AllocError> for FileFault {
    ghost use Rattle.std.specs.Prelude.{◌≡◌};
    ghost use Rattle.web_url.specs.declared.file.FileFault.TheVariants.{Memory};

    ghost from_gives = { λ _ e. e ≡ Memory };

    fn from(_: AllocError) -> FileFault {
        FileFault::Memory
    }
}

impl FileUrl {
    /// Lends the text.
    #[tactic(auto, using(crate::proofs::UrlTexts::texts, crate::proofs::FileLemmas::named))]
    pub fn as_str(&self) -> &str
        ensures { IsTextOf self.now result.now }
    {
        match &self.kept {
            Kept::Named { text, .. } => text.as_str(),
            Kept::Parsed(url) => url.as_str(),
        }
    }

    /// An equal URL.
    pub fn copy(&self, alloc: Global) -> Result<FileUrl, Memory>
        ensures { IfOk result (λ copy. copy ≡ self.now) }
    {
        let kept = match &self.kept {
            Kept::Named { text, path, folder } => Kept::Named {
                text: String::from_str(alloc, text.as_str())?,
                path: path.copy(alloc)?,
                folder: *folder,
            },
            Kept::Parsed(url) => Kept::Parsed(url.clone()?),
        };
        Ok(FileUrl { kept })
    }

    /// Whether the URL has a host that isn't empty.
    #[tactic(auto, using(crate::proofs::UrlTexts::texts, crate::proofs::FileLemmas::named))]
    pub fn names_host(&self) -> bool
        ensures { result ≡ names_host self.now }
    {
        match &self.kept {
            Kept::Named { .. } => false,
            Kept::Parsed(url) => url.has_host(),
        }
    }
}

/// The URL of a file or a folder.
pub fn file_url(alloc: Global, path: &Path, folder: bool) -> Result<FileUrl, Memory>
    ensures { IfOk result (λ url. url ≡ file_text path.now folder) }
{
    let text = file_text(alloc, path, folder)?;
    Ok(FileUrl {
        kept: Kept::Named {
            text,
            path: path.copy(alloc)?,
            folder,
        },
    })
}

fn file_text(alloc: Global, path: &Path, folder: bool) -> Result<String, Memory>
    ensures { IfOk result (λ text. IsNamed (string_bytes text) path.now folder) }
{
    let mut text = String::from_str(alloc, "file://")?;
    push_escaped(&mut text, path.as_str())?;
    text.push_str(folder_end(path, folder))?;
    Ok(text)
}

fn folder_end(path: &Path, folder: bool) -> &'static str
    ensures { result.now ≡ (if folder && not (bytes_eq path.now (codes "/")) then codes "/" else []) }
{
    if folder && path.as_str() != "/" {
        "/"
    } else {
        ""
    }
}

/// The URL of a relative text against a file URL, or none.
pub fn file_join(alloc: Global, text: &str, parent: &FileUrl) -> Result<Option<FileUrl>, Memory>
    requires { is_relative text.now ≡ true }
    ensures { IfOk result (λ found. found ≡ parse_against parent.now text.now) }
{
    match &parent.kept {
        Kept::Named {
            text: own,
            path,
            folder,
        } => named_join(alloc, text, own.as_str(), path, *folder),
        Kept::Parsed(url) => parsed_join(text, url),
    }
}

// The same against the URL of a path.
fn named_join(
    alloc: Global,
    text: &str,
    own: &str,
    path: &Path,
    folder: bool,
) -> Result<Option<FileUrl>, Memory>
    requires { IsNamed own.now path.now folder }
    ensures { IfOk result (λ found. found ≡ parse_against own.now text.now) }
{
    match short_join(alloc, text, path, folder)? {
        Some(target) => Ok(Some(file_url(alloc, &target, false)?)),
        None => {
            let url = parsed(alloc, own)?;
            parsed_join(text, &url)
        }
    }
}

// The same against a parsed URL.
fn parsed_join(text: &str, parent: &Url) -> Result<Option<FileUrl>, Memory>
    requires { IsWritten parent.now }
    ensures { IfOk result (λ found. found ≡ parse_against (text_of parent.now) text.now) }
{
    match url_text::join(parent, text)? {
        Some(url) => Ok(Some(FileUrl {
            kept: Kept::Parsed(url),
        })),
        None => Ok(None),
    }
}

// The URL with this text.
fn parsed(alloc: Global, text: &str) -> Result<Url, Memory>
    requires { IsUrl text.now }
    ensures text { IfOk result (λ url. text_of url ≡ text.now) }
    ensures written { IfOk result IsWritten }
{
    match url_text::parse(alloc, text)? {
        Some(url) => Ok(url),
        None => unreachable!(),
    }
}

/// The place that a file URL names, which must have no host.
pub fn file_of(alloc: Global, url: &FileUrl) -> Result<Place, FileFault>
    ensures place { IfOk result (λ place. (names_host url.now ≡ false)
        × IsPlace url.now place.path place.folder_only place.escaped place.suffix) }
    ensures host { IsErrOf result FileFault.BadFileUrl → names_host url.now ≡ true }
{
    if url.names_host() {
        return Err(FileFault::BadFileUrl);
    }
    Ok(place_of(alloc, url)?)
}

/// The place that the path of a file URL names, whatever its host.
#[tactic(auto, using(std::proofs::lemmas::Str::Pattern::ends_text))]
pub fn place_of(alloc: Global, url: &FileUrl) -> Result<Place, Memory>
    ensures { IfOk result (λ place. IsPlace url.now place.path place.folder_only place.escaped place.suffix) }
{
    let url_path = path(url);
    Ok(Place {
        path: named_path(alloc, url_path)?,
        folder_only: url_path.ends_with("/"),
        escaped: escapes_separator(url_path),
        suffix: Suffix::behind(alloc, url.as_str())?,
    })
}

#[tactic(auto, using(crate::proofs::UrlTexts::texts, crate::proofs::FileLemmas::named))]
fn path(url: &FileUrl) -> &str
    ensures { result.now ≡ url_path url.now }
{
    match &url.kept {
        Kept::Named { text, .. } => behind_scheme(text.as_str()),
        Kept::Parsed(url) => url.path(),
    }
}

// What the text of a path's URL has behind `file://`.
fn behind_scheme(text: &str) -> &str
    requires { (path : List ℕ) × (folder : Bool) × IsNamed text.now path folder }
    ensures { result.now ≡ url_path text.now }
{
    &text[7..]
}
