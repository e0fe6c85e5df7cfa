//! What commands come to over the project that the one before left.

use crate::words::{push_bracketed, words_of};
use command_words::{Order, Wanted, WordsFault, order_of};
use condition_match::Conditions;
use config_spec::{ConfigFault, ProjectFault};
use project_config::{NoConfig, config_of};
use row_texts::Said;
use shared_types::Text;
use std::alloc::Global;
use trace_config::Config;

fn push_conditions(conditions: &Conditions, said: &mut Said) {
    for index in 0..conditions.len() {
        if let Some(condition) = conditions.at(index) {
            push_bracketed(condition.as_str(), said);
        }
    }
}

fn push_entries(entries: &[Text], said: &mut Said) {
    for entry in entries {
        push_bracketed(entry.as_str(), said);
    }
}

// Base, page, conditions and entries.
fn push_config(config: &Config, said: &mut Said) {
    push_bracketed(config.base().as_str(), said);
    push_bracketed(config.page().as_str(), said);
    said.push(" for ");
    push_conditions(config.conditions(), said);
    said.push(" of ");
    push_entries(config.entries(), said);
}

fn push_named(name: &str, value: &Text, said: &mut Said) {
    said.push(name);
    push_bracketed(value.as_str(), said);
}

fn push_fault(fault: &ConfigFault, said: &mut Said) {
    match fault {
        ConfigFault::BadBase { text } => push_named("bad base ", text, said),
        ConfigFault::BadPath { text } => push_named("bad path ", text, said),
        ConfigFault::BadConditions { text } => push_named("bad conditions ", text, said),
        ConfigFault::Project {
            fault: ProjectFault::Absent,
        } => said.push("no project"),
        ConfigFault::Project { .. } => said.push("a project's fault"),
        ConfigFault::NoBase => said.push("no base"),
        ConfigFault::NotLinked { entry } => push_named("not linked ", entry, said),
        ConfigFault::TooManyEntries => said.push("too many entries"),
    }
}

// What an order comes to over a project, and the project behind it.
fn after_order(
    alloc: Global,
    order: Order<'_>,
    found: Option<Config>,
    said: &mut Said,
) -> Option<Config> {
    match config_of(alloc, order, found) {
        Ok(config) => {
            push_config(&config, said);
            Some(config)
        }
        Err(NoConfig::Refused { fault }) => {
            push_fault(&fault, said);
            None
        }
        Err(NoConfig::Memory) => {
            said.push("memory");
            None
        }
    }
}

fn push_words_fault(fault: &WordsFault, said: &mut Said) {
    match fault {
        WordsFault::Refused { fault } => push_fault(fault, said),
        WordsFault::Told(_) => said.push("told"),
        WordsFault::NotPlain => said.push("not plain"),
        WordsFault::Memory => said.push("memory"),
    }
}

// What a command comes to over a project, and the project behind it.
fn after(alloc: Global, row: &str, found: Option<Config>, said: &mut Said) -> Option<Config> {
    let Some(words) = words_of(alloc, row) else {
        said.push("no words");
        return None;
    };
    match order_of(alloc, words.as_slice()) {
        Ok(Wanted::Order(order)) => after_order(alloc, order, found, said),
        Ok(Wanted::Measure { number }) => {
            said.push("measure ");
            said.push_number(number);
            None
        }
        Ok(Wanted::Session) => {
            said.push("session");
            None
        }
        Ok(Wanted::Why { path }) => {
            said.push("why ");
            push_bracketed(path.as_str(), said);
            None
        }
        Ok(Wanted::Vendor { path }) => {
            said.push("vendor ");
            push_bracketed(path.as_str(), said);
            None
        }
        Err(fault) => {
            push_words_fault(&fault, said);
            None
        }
    }
}

/// What the last of some commands comes to, between each two of which stands ` then `.
pub fn tell_configs(alloc: Global, commands: &str, said: &mut Said) {
    let mut found = None;
    for row in commands.split(" then ") {
        *said = Said::new(alloc);
        found = after(alloc, row, found, said);
    }
}
