//! What a command says of the modules by the statement grammar.

ghost use Rattle.std.specs.Prelude.{◌≡◌, ◌≤◌, ◌<◌, ◌+◌, ◌++◌, [], ◌∷◌, length, IfOk, OnOk};
ghost use Rattle.tree_spec.specs.declared.LimitName.TheVariants.{Modules};
ghost use Rattle.tree_spec.specs.Limits.{limit_number};
ghost use Rattle.module_sources.specs.Shown.{IsRead};
ghost use Rattle.trace_walk.specs.Walking.{AllRead};
ghost use Rattle.generator_spec.specs.Strictness.{IsSaid};
ghost use Rattle.generator_core.specs.Strictness.{FindsAnswer, IsLineOf, IsSaidAt, PushesModule, PushesStrict};

use es_grammar::{Strict, strict};
use es_module_parser::{OutlineFault, outline};
use generation::Stop;
use generator_spec::Refusal;
use request_trace::Trace;
use run_texts::{strict_requests_line, strict_syntax_line};
use shared_types::{Bytes, Listed, Memory, Steps};
use std::alloc::{AllocError, Global};
use std::sync::ledger::Ledger;

/// Puts the lines of the modules that don't agree behind those that are there, in the order of the trace. It takes one
/// step a module.
pub(crate) fn push_strict<L: Ledger>(
    alloc: Global,
    lines: &mut Listed<Bytes>,
    trace: &Trace,
    steps: &mut Steps<L>,
) -> Result<(), Stop>
    ensures pushes { PushesStrict trace.now.gathered lines.old lines.new result }
    ensures few { length trace.now.gathered.modules ≤ limit_number Modules }
    ensures cost { steps.new ≤ steps.old + length trace.now.gathered.modules }
{
    for place in 0..trace.len() {
        match push_module(alloc, lines, trace, place, steps) {
            Ok(()) => {}
            Err(stop) => return Err(stop),
        }
    }
    Ok(())
}

// Puts the line of the module at a place behind the others, where it doesn't agree.
fn push_module<L: Ledger>(
    alloc: Global,
    lines: &mut Listed<Bytes>,
    trace: &Trace,
    place: usize,
    steps: &mut Steps<L>,
) -> Result<(), Stop>
    requires modules { place < length trace.now.gathered.modules }
    requires sources { place < length trace.now.gathered.sources }
    requires read { AllRead trace.now.gathered.sources }
    ensures pushes { PushesModule trace.now.gathered place lines.old lines.new result }
    ensures cost { steps.new ≤ steps.old + 1 }
{
    match answer_at(alloc, trace, place, steps) {
        Err(stop) => Err(stop),
        Ok(answer) => match push_answer(alloc, lines, trace, place, &answer) {
            Err(_) => Err(Stop::Memory),
            Ok(()) => Ok(()),
        },
    }
}

// What is said of the module at a place, which isn't nested too deep.
fn answer_at<L: Ledger>(
    alloc: Global,
    trace: &Trace,
    place: usize,
    steps: &mut Steps<L>,
) -> Result<Strict, Stop>
    requires within { place < length trace.now.gathered.sources }
    requires read { AllRead trace.now.gathered.sources }
    ensures finds { FindsAnswer trace.now.gathered place result }
    ensures cost { steps.new ≤ steps.old + 1 }
{
    match said_at(alloc, trace, place, steps) {
        Err(_) => Err(Stop::Memory),
        Ok(Strict::TooDeep) => Err(Stop::Refused {
            why: Refusal::NestedTooDeep,
        }),
        Ok(answer) => Ok(answer),
    }
}

// What is said of the module at a place.
fn said_at<L: Ledger>(
    alloc: Global,
    trace: &Trace,
    place: usize,
    steps: &mut Steps<L>,
) -> Result<Strict, Memory>
    requires within { place < length trace.now.gathered.sources }
    requires read { AllRead trace.now.gathered.sources }
    ensures said { IfOk result (IsSaidAt trace.now.gathered place) }
    ensures cost { steps.new ≤ steps.old + 1 }
{
    let Some(bytes) = trace.bytes(place) else {
        unreachable!();
    };
    let Ok(text) = std::str::from_utf8(bytes) else {
        unreachable!();
    };
    said(alloc, text, steps)
}

// What is said of a text that has an outline.
fn said<L: Ledger>(alloc: Global, text: &str, steps: &mut Steps<L>) -> Result<Strict, Memory>
    requires { IsRead text.now }
    ensures said { IfOk result (IsSaid text.now) }
    ensures cost { steps.new ≤ steps.old + 1 }
{
    match outline(alloc, text, steps) {
        Ok(outline) => strict(alloc, text, &outline),
        Err(OutlineFault::Memory) => Err(AllocError),
        Err(OutlineFault::Unreadable { at: _ }) => unreachable!(),
        Err(OutlineFault::TooDeep) => unreachable!(),
        Err(OutlineFault::TooManyRequests) => unreachable!(),
    }
}

// Puts the line of a module of which this is said.
fn push_answer(
    alloc: Global,
    lines: &mut Listed<Bytes>,
    trace: &Trace,
    place: usize,
    answer: &Strict,
) -> Result<(), Memory>
    requires { place < length trace.now.gathered.modules }
    ensures { OnOk result (IsLineOf trace.now.gathered place answer.now lines.old lines.new) }
{
    let (Some(path), Some(suffix)) = (trace.path(place), trace.suffix(place)) else {
        unreachable!();
    };
    match answer {
        Strict::Agrees => Ok(()),
        Strict::TooDeep => Ok(()),
        Strict::Syntax { at } => {
            let line = strict_syntax_line(alloc, path.as_str(), suffix, *at)?;
            lines.push(Bytes::from_vec(line))
        }
        Strict::Differs {
            strict: _,
            outline: _,
        } => {
            let line = strict_requests_line(alloc, path.as_str(), suffix)?;
            lines.push(Bytes::from_vec(line))
        }
    }
}
