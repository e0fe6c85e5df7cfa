//! The layers, and what each of them answers.

use crate::configs::tell_configs;
use crate::projects::tell_project;
use crate::words::tell_words;
use row_texts::{Layers, Question, Said};
use std::alloc::Global;
use std::str;

/// The layers that read commands and projects.
#[derive(Clone, Copy)]
pub struct Commands;

fn tell(alloc: Global, question: &Question<'_>, text: &str, said: &mut Said) {
    match question.layer {
        "config" => tell_configs(alloc, text, said),
        "words" => tell_words(alloc, text, question.wanted, said),
        _ => said.push("no layer has this name"),
    }
}

impl Layers for Commands {
    fn answer(&mut self, alloc: Global, question: &Question<'_>, said: &mut Said) {
        match (question.layer, str::from_utf8(question.asked)) {
            ("project", _) => tell_project(alloc, question.asked, said),
            (_, Ok(text)) => tell(alloc, question, text, said),
            (_, Err(_)) => said.push("no text"),
        }
    }
}
