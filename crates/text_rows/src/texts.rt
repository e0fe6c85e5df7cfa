//! The layers, and what each of them answers.
ghost use Rattle.std.specs.Prelude.{◌≡◌, ◌<◌};

use crate::digests::tell_digest;
use crate::json_texts::tell_value;
use crate::maps::{tell_map, tell_through};
use crate::outlines::tell_outline;
use crate::pages::{tell_attribute, tell_injected, tell_pieces};
use crate::strict::tell_strict;
use crate::tokens::tell_tokens;
use crate::urls::tell_url;
use row_texts::{Layers, Question, Said};
use shared_types::Steps;
use std::alloc::Global;
use std::str;
use std::sync::ledger::{Blank, Ledger};

/// The layers that read texts, with the counter of their steps.
#[derive(Drop)]
pub struct Texts<L: Ledger> {
    steps: Steps<L>,
}

impl<L: Ledger> Texts<L> {
    pub fn start(blank: Blank) -> Texts<L>
        requires name { blank.name ≡ L.name }
        requires parts { blank.parts ≡ L.parts }
        requires some { 0 < blank.parts }
    {
        Texts {
            steps: Steps::<L>::start(blank),
        }
    }

    // The layers that are asked texts.
    fn tell(&mut self, alloc: Global, question: &Question<'_>, text: &str, said: &mut Said) {
        match question.layer {
            "attribute" => tell_attribute(question.rest, text, said),
            "outline" => tell_outline(alloc, text, &mut self.steps, said),
            "pieces" => tell_pieces(text, said),
            "strict" => tell_strict(alloc, text, &mut self.steps, said),
            "through" => tell_through(alloc, question, text, said),
            "tokens" => tell_tokens(alloc, text, said),
            "url" => tell_url(alloc, question.rest, text, said),
            _ => said.push("no layer has this name"),
        }
    }
}

impl<L: Ledger> Layers for Texts<L> {
    fn answer(&mut self, alloc: Global, question: &Question<'_>, said: &mut Said) {
        match question.layer {
            "digest" => tell_digest(question.asked, said),
            "inject" => tell_injected(alloc, question.given, question.asked, said),
            "json" => tell_value(alloc, question.asked, said),
            "map" => tell_map(alloc, question.asked, said),
            _ => match str::from_utf8(question.asked) {
                Ok(text) => self.tell(alloc, question, text, said),
                Err(_) => said.push("no text"),
            },
        }
    }
}
