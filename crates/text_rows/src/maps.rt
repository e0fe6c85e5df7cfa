//! Import maps: what a text is as one, and what specifiers come to through it.

use html_resolve::{HtmlFault, resolve_in};
use map_parse::{MapFault, MapPart, ParsedMap, parse_map};
use row_texts::{Question, Said};
use std::alloc::Global;
use web_url::WebUrl;

/// The page's URL, against which maps are read.
const PAGE: &str = "https://app.test/dir/index.html";

/// The URL of a text; None where it has none.
pub fn url_of(alloc: Global, text: &str) -> Option<WebUrl> {
    match WebUrl::parse(alloc, text) {
        Ok(url) => url,
        Err(_) => None,
    }
}

fn part_name(part: MapPart) -> &'static str {
    match part {
        MapPart::Top => "Top",
        MapPart::Imports => "Imports",
        MapPart::Scopes => "Scopes",
        MapPart::Scope => "Scope",
        MapPart::Integrity => "Integrity",
    }
}

fn push_fault(fault: MapFault, said: &mut Said) {
    match fault {
        MapFault::NotJson { at } => said.push_place("NotJson ", at),
        MapFault::TooDeep { at } => said.push_place("TooDeep ", at),
        MapFault::NotObject { which } => said.push(part_name(which)),
        MapFault::Memory => said.push("memory"),
    }
}

/// `map`, or the first fault of a text.
pub fn tell_map(alloc: Global, text: &[u8], said: &mut Said) {
    match url_of(alloc, PAGE) {
        None => said.push("the page has no URL"),
        Some(page) => match parse_map(alloc, text, &page) {
            Ok(_) => said.push("map"),
            Err(fault) => push_fault(fault, said),
        },
    }
}

fn fault_name(fault: HtmlFault) -> &'static str {
    match fault {
        HtmlFault::Blocked => "Blocked",
        HtmlFault::Bare => "Bare",
        HtmlFault::Backtrack => "Backtrack",
        HtmlFault::BadRest => "BadRest",
        HtmlFault::Memory => "memory",
    }
}

fn push_resolved(
    alloc: Global,
    map: &ParsedMap,
    referrer: &WebUrl,
    specifier: &str,
    said: &mut Said,
) {
    match resolve_in(alloc, map, referrer, specifier) {
        Ok(url) => said.push(url.as_str()),
        Err(fault) => said.push(fault_name(fault)),
    }
}

// What a specifier comes to through a map that was read for the page; where no referrer is given, the page asks.
fn push_through(alloc: Global, map: &ParsedMap, referrer: &str, specifier: &str, said: &mut Said) {
    let text = if referrer.is_empty() { PAGE } else { referrer };
    match url_of(alloc, text) {
        None => said.push("the referrer has no URL"),
        Some(referrer) => push_resolved(alloc, map, &referrer, specifier, said),
    }
}

/// What a specifier comes to through the given map: a URL, or why there is none. Behind the layer's name stands the
/// referrer.
pub fn tell_through(alloc: Global, question: &Question<'_>, specifier: &str, said: &mut Said) {
    match url_of(alloc, PAGE) {
        None => said.push("the page has no URL"),
        Some(page) => match parse_map(alloc, question.given.as_bytes(), &page) {
            Ok(map) => push_through(alloc, &map, question.rest, specifier, said),
            Err(fault) => push_fault(fault, said),
        },
    }
}
