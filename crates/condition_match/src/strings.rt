//! Targets that are strings.
ghost use Rattle.std.specs.Prelude.{◌≡◌, IfOk, MatchOption, option_map};
ghost use Rattle.url_spec.specs.Specifiers.{begins};
ghost use Rattle.node_spec.specs.PackageTargets.{own_outcome, names_package, with_match, bare_outcome, ResolvesText};
ghost use Rattle.condition_match.specs.Segments.{replaced};
ghost use Rattle.condition_match.specs.Choosing.{AsksOne, Comes, rules_of};

use crate::bare_target::BareTarget;
use crate::choice::Rules;
use crate::cuts::cut_once;
use crate::segments::{is_invalid_match, leaves_package};
use node_spec::{BareAnswer, Outcome};
use shared_types::{Memory, Text};
use std::alloc::Global;
use web_url::WebUrl;

/// What a string comes to.
pub fn choose_text<B: BareTarget>(
    alloc: Global,
    target: &str,
    rules: &Rules<'_>,
    bare: &mut B,
) -> Result<Outcome, Memory>
    ensures { Comes B.gives B.fails (ResolvesText (rules_of rules.now) target.now) bare.old bare.new result }
{
    if begins(target, "./") {
        return own_outcome(alloc, target, rules.star);
    }
    if !names_package(alloc, target, rules.imports)? {
        return Ok(Outcome::InvalidTarget);
    }
    choose_bare(alloc, target, rules.star, bare)
}

// What a bare text comes to. It is copied only where a `*` in it is replaced.
fn choose_bare<B: BareTarget>(
    alloc: Global,
    target: &str,
    star: Option<&str>,
    bare: &mut B,
) -> Result<Outcome, Memory>
    ensures { AsksOne B.gives B.fails (with_match (option_map (λ part. part.now) star.entry) target.now) bare.old
        bare.new result }
{
    match replacing(target, star) {
        None => ask(alloc, target, bare),
        Some(part) => {
            let text = with_part(alloc, target, part)?;
            ask(alloc, text.as_str(), bare)
        }
    }
}

fn ask<B: BareTarget>(alloc: Global, text: &str, bare: &mut B) -> Result<Outcome, Memory>
    ensures { AsksOne B.gives B.fails text.now bare.old bare.new result }
{
    let answer = bare.bare(alloc, text)?;
    Ok(bare_outcome(answer))
}

// What replaces each `*` of a text, where there is both.
fn replacing<'a>(target: &str, star: Option<&'a str>) -> Option<&'a str>
    ensures { MatchOption result (with_match (option_map (λ part. part.now) star.entry) target.now ≡ target.now)
        (λ part. replaced part.now target.now ≡ with_match (option_map (λ part. part.now) star.entry) target.now) }
{
    match star {
        None => None,
        Some(part) => match cut_once(target, '*') {
            None => None,
            Some(_) => Some(part),
        },
    }
}

/// Whether a text begins with another one.
#[tactic(auto, using(std::proofs::lemmas::Str::Pattern::starts_text))]
pub(crate) fn begins(text: &str, front: &str) -> bool
    ensures { result ≡ begins text.now front.now }
{
    text.starts_with(front)
}

fn own_outcome(alloc: Global, target: &str, star: Option<&str>) -> Result<Outcome, Memory>
    ensures { IfOk result (λ outcome. outcome ≡ own_outcome (option_map (λ text. text.now) star.entry) target.now) }
{
    if leaves_package(alloc, target)? {
        return Ok(Outcome::InvalidTarget);
    }
    if is_invalid_match(alloc, star)? {
        return Ok(Outcome::InvalidSpecifier);
    }
    let place = with_match(alloc, target, star)?;
    Ok(Outcome::Place(place))
}

/// Whether a target that doesn't begin with `./` may be a bare specifier.
#[tactic(auto, unfolding(node_spec::specs::PackageTargets::names_package))]
pub(crate) fn names_package(alloc: Global, target: &str, imports: bool) -> Result<bool, Memory>
    ensures { IfOk result (λ names. names ≡ names_package imports target.now) }
{
    if !imports || begins(target, "../") || begins(target, "/") {
        return Ok(false);
    }
    match WebUrl::parse(alloc, target)? {
        Some(_) => Ok(false),
        None => Ok(true),
    }
}

// The text with each `*` replaced, where there is a text for it.
fn with_match(alloc: Global, target: &str, star: Option<&str>) -> Result<Text, Memory>
    ensures { IfOk result (λ text. text ≡ with_match (option_map (λ part. part.now) star.entry) target.now) }
{
    match star {
        None => Text::of(alloc, target),
        Some(part) => with_part(alloc, target, part),
    }
}

fn with_part(alloc: Global, target: &str, part: &str) -> Result<Text, Memory>
    ensures { IfOk result (λ text. text ≡ replaced part.now target.now) }
{
    let mut text = String::new(alloc);
    let mut rest = target;
    while let Some((front, back)) = cut_once(rest, '*') {
        text.push_str(front)?;
        text.push_str(part)?;
        rest = back;
    }
    text.push_str(rest)?;
    Text::from_string(alloc, text)
}

fn bare_outcome(answer: BareAnswer) -> Outcome
    ensures { result ≡ bare_outcome answer }
{
    match answer {
        BareAnswer::Found => Outcome::Bare,
        BareAnswer::InvalidTarget => Outcome::InvalidTarget,
        BareAnswer::Stop => Outcome::Stopped,
    }
}
