//! What the statement grammar says of a module text.

use es_grammar::{Strict, strict};
use es_module_parser::outline;
use row_texts::Said;
use shared_types::Steps;
use std::alloc::Global;
use std::sync::ledger::Ledger;

/// `agrees`, `differs`, `TooDeep`, or `Syntax` and the place of what can't stand there; or that there is no outline.
pub fn tell_strict<L: Ledger>(alloc: Global, text: &str, steps: &mut Steps<L>, said: &mut Said) {
    let Ok(outline) = outline(alloc, text, steps) else {
        said.push("no outline");
        return;
    };
    match strict(alloc, text, &outline) {
        Ok(Strict::Agrees) => said.push("agrees"),
        Ok(Strict::Differs { .. }) => said.push("differs"),
        Ok(Strict::Syntax { at }) => said.push_place("Syntax ", at),
        Ok(Strict::TooDeep) => said.push("TooDeep"),
        Err(_) => said.push("memory"),
    }
}
