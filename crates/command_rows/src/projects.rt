//! The file of a project.

use project_file::{ProjectFault, print_project, read_project};
use row_texts::Said;
use std::alloc::Global;
use trace_config::Config;

fn push_printed(alloc: Global, config: &Config, said: &mut Said) {
    match print_project(alloc, config) {
        Ok(text) => said.push_bytes(text.as_slice()),
        Err(_) => said.push("memory"),
    }
}

/// The project of a file as it is printed, or why it is none.
pub fn tell_project(alloc: Global, file: &[u8], said: &mut Said) {
    match read_project(alloc, file) {
        Ok(config) => push_printed(alloc, &config, said),
        Err(ProjectFault::BadFile { at }) => said.push_place("bad file at ", at),
        Err(ProjectFault::Limit { which }) => said.push_all(&["limit ", which.name()]),
        Err(ProjectFault::Memory) => said.push("memory"),
    }
}
