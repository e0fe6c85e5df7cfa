//! Paths, URLs and specifiers. The first word of a question says which call is asked.

use crate::maps::url_of;
use row_texts::Said;
use std::alloc::Global;
use tree_model::{Path, PathFault};
use web_url::{
    AskFault, Asked, Base, BaseFault, FileFault, FileUrl, Place, Scheme, Suffix, WebUrl, ask,
    file_join, file_of, file_url, is_relative, normalized, scheme_of, served, web_of,
};

/// Who asks, where nobody is named.
const REFERRER: &str = "https://h/a/b.mjs";

/// Who asks by files.
const PARENT: &str = "/a/b.mjs";

fn tell_path(alloc: Global, text: &str, said: &mut Said) {
    match Path::parse(alloc, text) {
        Ok(path) => said.push(path.as_str()),
        Err(PathFault::BadPath) => said.push("none"),
        Err(PathFault::Memory) => said.push("memory"),
    }
}

fn tell_base(alloc: Global, text: &str, said: &mut Said) {
    match Base::parse(alloc, text) {
        Ok(base) => said.push(base.as_str()),
        Err(BaseFault::BadBase) => said.push("none"),
        Err(BaseFault::Memory) => said.push("memory"),
    }
}

fn tell_parsed(alloc: Global, text: &str, said: &mut Said) {
    match WebUrl::parse(alloc, text) {
        Ok(Some(url)) => said.push(url.as_str()),
        Ok(None) => said.push("none"),
        Err(_) => said.push("memory"),
    }
}

fn tell_asked(alloc: Global, specifier: &str, referrer: &WebUrl, said: &mut Said) {
    match ask(alloc, specifier, referrer) {
        Ok(Asked::Url(url)) => said.push(url.as_str()),
        Ok(Asked::Bare) => said.push("bare"),
        Err(AskFault::Unaskable) => said.push("unaskable"),
        Err(AskFault::TrailingSlash) => said.push("trailing slash"),
        Err(AskFault::Memory) => said.push("memory"),
    }
}

fn tell_normalized(alloc: Global, specifier: &str, referrer: &WebUrl, said: &mut Said) {
    match normalized(alloc, specifier, referrer) {
        Ok(text) => said.push(text.as_str()),
        Err(_) => said.push("memory"),
    }
}

fn tell_scheme(alloc: Global, specifier: &str, said: &mut Said) {
    match scheme_of(alloc, specifier) {
        Ok(Scheme::Node) => said.push("node"),
        Ok(Scheme::Other) => said.push("another"),
        Ok(Scheme::NotUrl) => said.push("no URL"),
        Err(_) => said.push("memory"),
    }
}

// What a path is on the web, with a suffix.
fn tell_web(alloc: Global, base: &Base, suffix: &Suffix, path: &str, said: &mut Said) {
    match Path::parse(alloc, path) {
        Err(_) => said.push("no path"),
        Ok(path) => match web_of(alloc, base, &path, suffix) {
            Ok(url) => said.push(url.as_str()),
            Err(_) => said.push("none"),
        },
    }
}

// The same, the suffix as a text.
fn tell_with(alloc: Global, base: &Base, suffix: &str, path: &str, said: &mut Said) {
    match Suffix::of(alloc, suffix) {
        Ok(Some(suffix)) => tell_web(alloc, base, &suffix, path, said),
        Ok(None) => said.push("no suffix"),
        Err(_) => said.push("memory"),
    }
}

// The same behind a suffix and a space.
fn tell_suffixed(alloc: Global, base: &Base, file: &str, said: &mut Said) {
    match file.split_once(' ') {
        Some((suffix, path)) => tell_with(alloc, base, suffix, path, said),
        None => said.push("no path"),
    }
}

fn tell_served(alloc: Global, base: &Base, url: &str, said: &mut Said) {
    match url_of(alloc, url) {
        None => said.push("no URL"),
        Some(url) => match served(alloc, base, &url) {
            Ok(Some(path)) => said.push(path.as_str()),
            Ok(None) => said.push("none"),
            Err(_) => said.push("memory"),
        },
    }
}

// The file URL of a path that is a folder's, or a file's.
fn file_url_of(alloc: Global, path: &str, is_folder: bool) -> Option<FileUrl> {
    match Path::parse(alloc, path) {
        Err(_) => None,
        Ok(path) => match file_url(alloc, &path, is_folder) {
            Ok(url) => Some(url),
            Err(_) => None,
        },
    }
}

// The file URL of a path; one that ends in `/` is a folder's.
fn tell_file(alloc: Global, path: &str, said: &mut Said) {
    let url = match path.strip_suffix("/") {
        Some("") => file_url_of(alloc, "/", true),
        Some(folder) => file_url_of(alloc, folder, true),
        None => file_url_of(alloc, path, false),
    };
    match url {
        Some(url) => said.push(url.as_str()),
        None => said.push("no path"),
    }
}

fn push_place(place: &Place, said: &mut Said) {
    match &place.path {
        Some(path) => said.push(path.as_str()),
        None => said.push("none"),
    }
    let folder = if place.folder_only { " folder" } else { "" };
    let escaped = if place.escaped { " escaped" } else { "" };
    said.push_all(&[folder, escaped, " ", place.suffix.as_str(), "."]);
}

fn push_place_of(alloc: Global, url: &FileUrl, said: &mut Said) {
    match file_of(alloc, url) {
        Ok(place) => push_place(&place, said),
        Err(FileFault::BadFileUrl) => said.push("host"),
        Err(FileFault::Memory) => said.push("memory"),
    }
}

fn push_joined(alloc: Global, text: &str, parent: &FileUrl, said: &mut Said) {
    if !is_relative(text) {
        said.push("not relative");
        return;
    }
    match file_join(alloc, text, parent) {
        Ok(Some(url)) => push_place_of(alloc, &url, said),
        Ok(None) => said.push("no URL"),
        Err(_) => said.push("memory"),
    }
}

// The place that a relative specifier names: its path, whether it is a folder's alone, whether it escapes a separator,
// and its suffix before a full stop.
fn tell_relative(alloc: Global, specifier: &str, said: &mut Said) {
    match file_url_of(alloc, PARENT, false) {
        Some(parent) => push_joined(alloc, specifier, &parent, said),
        None => said.push("no path"),
    }
}

// What is asked by a module.
fn tell_by(alloc: Global, call: &str, text: &str, said: &mut Said) {
    match url_of(alloc, REFERRER) {
        None => said.push("the referrer has no URL"),
        Some(referrer) if call == "ask" => tell_asked(alloc, text, &referrer, said),
        Some(referrer) => tell_normalized(alloc, text, &referrer, said),
    }
}

// What is asked of a base.
fn tell_over(alloc: Global, call: &str, base: &Base, text: &str, said: &mut Said) {
    match call {
        "served" => tell_served(alloc, base, text, said),
        "suffixed" => tell_suffixed(alloc, base, text, said),
        "web" => tell_with(alloc, base, "", text, said),
        _ => said.push("no call has this name"),
    }
}

fn tell_based(alloc: Global, call: &str, base: &str, text: &str, said: &mut Said) {
    match Base::parse(alloc, base) {
        Ok(base) => tell_over(alloc, call, &base, text, said),
        Err(_) => said.push("no base"),
    }
}

/// What a call gives: `path`, `base`, `URL`, `ask`, `normalized`, `scheme`, `web`, `suffixed` and `served` (by the
/// base that is named in `ask`), `file` and `relative`.
pub fn tell_url(alloc: Global, base: &str, question: &str, said: &mut Said) {
    let (call, text) = question.split_once(' ').unwrap_or((question, ""));
    match call {
        "path" => tell_path(alloc, text, said),
        "base" => tell_base(alloc, text, said),
        "URL" => tell_parsed(alloc, text, said),
        "ask" | "normalized" => tell_by(alloc, call, text, said),
        "scheme" => tell_scheme(alloc, text, said),
        "file" => tell_file(alloc, text, said),
        "relative" => tell_relative(alloc, text, said),
        _ => tell_based(alloc, call, base, text, said),
    }
}
