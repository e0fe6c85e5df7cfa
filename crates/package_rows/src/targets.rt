//! What a target in `exports` or `imports` comes to.

use condition_match::{BareAnswer, BareTarget, Conditions, ConditionsFault, Outcome, choose};
use ordered_json::{Value, read};
use row_texts::Said;
use std::alloc::Global;
use tree_model::Memory;

/// Gives its answers in their order, one letter each, and keeps the texts that it was asked for.
#[derive(Drop)]
struct Script<'a> {
    answers: &'a str,
    next: usize,
    asked: Said,
}

/// Where a target stands: what stands for the star, where there is one; whether in `imports`, and then the answers to
/// bare texts.
#[derive(Clone, Copy)]
struct Place<'a> {
    star: Option<&'a str>,
    imports: bool,
    answers: &'a str,
}

impl<'a> BareTarget for Script<'a> {
    ghost use Rattle.std.specs.Prelude.{⊤};

    ghost gives = { λ before text answer after. ⊤ };

    ghost fails = { λ before text after. ⊤ };

    fn bare(&mut self, _alloc: Global, text: &str) -> Result<BareAnswer, Memory> {
        self.asked.push(" ");
        self.asked.push(text);
        let letter = self.answers.as_bytes().get(self.next).copied();
        self.next = self.next.saturating_add(1);
        match letter {
            Some(b'f') => Ok(BareAnswer::Found),
            Some(b'i') => Ok(BareAnswer::InvalidTarget),
            _ => Ok(BareAnswer::Stop),
        }
    }
}

fn outcome_name(outcome: &Outcome) -> &str {
    match outcome {
        Outcome::Undefined => "undefined",
        Outcome::Null => "null",
        Outcome::Place(text) => text.as_str(),
        Outcome::Bare => "bare",
        Outcome::Stopped => "stopped",
        Outcome::InvalidTarget => "invalid target",
        Outcome::InvalidSpecifier => "invalid specifier",
        Outcome::InvalidConfig => "invalid config",
    }
}

// What a value comes to, and behind that the texts asked for.
fn push_chosen(
    alloc: Global,
    value: &Value,
    conditions: &Conditions,
    place: Place<'_>,
    said: &mut Said,
) {
    let mut script = Script {
        answers: place.answers,
        next: 0,
        asked: Said::new(alloc),
    };
    match choose(
        alloc,
        value,
        conditions,
        place.star,
        place.imports,
        &mut script,
    ) {
        Ok(outcome) => said.push(outcome_name(&outcome)),
        Err(_) => said.push("memory"),
    }
    said.push(script.asked.as_str());
}

// The same under the conditions `import` and `node-addons`.
fn push_value(alloc: Global, value: &Value, place: Place<'_>, said: &mut Said) {
    match Conditions::parse(alloc, "import,node-addons") {
        Ok(conditions) => push_chosen(alloc, value, &conditions, place, said),
        Err(_) => said.push("no conditions"),
    }
}

fn place_of(text: &str) -> Place<'_> {
    match text.split_once(' ') {
        None => Place {
            star: None,
            imports: false,
            answers: "",
        },
        Some(("imports", answers)) => Place {
            star: None,
            imports: true,
            answers,
        },
        Some((_, star)) => Place {
            star: Some(star),
            imports: false,
            answers: "",
        },
    }
}

/// What a target comes to in `exports`, in `exports STAR` with what stands for the star, or in `imports ANSWERS` with
/// the answers to bare texts in their order, each `f` found, `i` an invalid target or `s` stopped.
pub fn tell_target(alloc: Global, place: &str, target: &str, said: &mut Said) {
    match read(alloc, target.as_bytes()) {
        Ok(value) => push_value(alloc, &value, place_of(place), said),
        Err(_) => said.push("no JSON"),
    }
}

/// The names of a text's conditions with their number, or `bad`.
pub fn tell_conditions(alloc: Global, text: &str, said: &mut Said) {
    match Conditions::parse(alloc, text) {
        Ok(conditions) => push_names(&conditions, said),
        Err(ConditionsFault::BadConditions) => said.push("bad"),
        Err(ConditionsFault::Memory) => said.push("memory"),
    }
}

fn push_names(conditions: &Conditions, said: &mut Said) {
    said.push_place("", conditions.len());
    for index in 0..conditions.len() {
        if let Some(name) = conditions.at(index) {
            said.push(" ");
            said.push(name.as_str());
        }
    }
}
