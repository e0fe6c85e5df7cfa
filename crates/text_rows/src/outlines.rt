//! What a module text asks for.

use es_module_parser::{Outline, OutlineFault, Request, outline};
use row_texts::Said;
use shared_types::Steps;
use std::alloc::Global;
use std::sync::ledger::Ledger;

fn push_request(request: &Request, said: &mut Said) {
    said.push("  ");
    said.push_number(request.from as u64);
    said.push_place("..", request.to);
    said.push_all(&[" ", request.text.as_str()]);
}

fn push_outline(outline: &Outline, said: &mut Said) {
    said.push(if outline.declares { "m" } else { "-" });
    for index in 0..outline.requests.len() {
        if let Some(request) = outline.requests.at(index) {
            push_request(request, said);
        }
    }
}

/// `m` where the text is a module's and else `-`, and behind it its requests, each with its span and its text; or `!`
/// and the place of what can't be read, `deep` or `many`.
pub fn tell_outline<L: Ledger>(alloc: Global, text: &str, steps: &mut Steps<L>, said: &mut Said) {
    match outline(alloc, text, steps) {
        Ok(outline) => push_outline(&outline, said),
        Err(OutlineFault::Unreadable { at }) => said.push_place("! ", at),
        Err(OutlineFault::TooDeep) => said.push("deep"),
        Err(OutlineFault::TooManyRequests) => said.push("many"),
        Err(OutlineFault::Memory) => said.push("memory"),
    }
}
