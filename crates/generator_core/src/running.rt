ghost use Rattle.std.specs.Prelude.{◌≡◌, ◌≢◌, ◌≤◌, List, ℕ, map, string_bytes, IfSome, codes, length};
ghost use Rattle.words_spec.specs.PlainWords.{most_packages};
ghost use Rattle.config_spec.specs.declared.Command.{Command as Commanded};
ghost use Rattle.config_spec.specs.declared.Command.TheVariants.{Inject, Why, Vendor, List as ListModules};
ghost use Rattle.config_spec.specs.Words.{IsSession};
ghost use Rattle.generator_spec.specs.Commands.{IsGenerating, SaysCounts};
ghost use Rattle.generator_spec.specs.Ending.{Ends, EndsAs, TellsRefusal};
ghost use Rattle.generator_spec.specs.Asked.{AsksInOrder};
ghost use Rattle.session_spec.specs.SessionRuns.{SessionEnds};
ghost use Rattle.command_words.specs.Orders.{AsksWhyAt, IsOrder, VendorsAt, command_ordered};
ghost use Rattle.generator_core.specs.Preparing.{KeepsProject, shown_file};
ghost use Rattle.generator_core.specs.Measuring.{RunsMeasure, TellsMeasure};
ghost use Rattle.generator_core.specs.RunEnds.{IsIdle, RunEnds};
ghost use Rattle.generator_core.specs.Explaining.{RunsWhy};
ghost use Rattle.generator_core.specs.Vendoring.{EndsFiles, RunsVendor, new_files};
ghost use Rattle.generator_spec.specs.Lines.{vendored_line as copies_line};
ghost use Rattle.tree_vendor.specs.Copying.{AreKept};
ghost use Rattle.generator_core.specs.Running.{RunsCommand};
ghost use Rattle.generator_core.specs.Checking.{AsksGrammar};
ghost use Rattle.generator_core.specs.Spending.{CommandSpends, FitsWords, OrderSpends};
ghost use Rattle.generator_core.specs.Writing.{TellsStop, TellsWords, EndsWriting, WritesFiles};

use crate::checking::checked;
use crate::explaining::explained;
use crate::listing::listed;
use crate::measuring::measured;
use crate::prepared::{Fresh, Prepared, prepare_map, prepare_page};
use crate::project::configured;
use crate::vendoring::{Copies, prepare_copies};
use command_words::{Order, Wanted, WordsFault, order_of};
use generation::{Generated, Stop};
use generator_spec::{Command, Refusal};
use request_trace::Config;
use run_texts::{
    BAD_WORDS, DONE, MEMORY, READ_FAULT, WRITE_FAULT, done_line, line_of, measure_line,
    memory_line, not_plain_line, read_fault_line, status_of, vendored_line, write_fault_line,
};
use session_run::session;
use session_watch::Watch;
use shared_types::Steps;
use std::alloc::Global;
use std::sync::ledger::Ledger;
use tree_model::{Folder, Path, Sink, Source};
use tree_vendor::copy_out;

/// Does all that the program does: reads the words and the project, generates from the folder, writes the map and the
/// project or the page, or checks the map that is there, and says how it ended; or holds a session, whose lines come
/// from the input and whose modules the watch is shown. Answers the exit status.
pub fn run<F: Folder, I: Source, O: Sink, W: Watch, L: Ledger>(
    alloc: Global,
    words: &[String],
    folder: &mut F,
    input: &mut I,
    out: &mut O,
    watch: &mut W,
    steps: &mut Steps<L>,
) -> u8
    ensures ends { RunEnds (map string_bytes words.now) (F.state folder.old) (F.state folder.new) (I.state input.old)
        (I.state input.new) (O.state out.old) (O.state out.new) (W.seen watch.old) (W.seen watch.new) result
        steps.old steps.new }
    ensures idle { IsIdle (map string_bytes words.now) → folder.new ≡ folder.old }
    ensures input { (IsSession (map string_bytes words.now) → ⊥) → input.new ≡ input.old }
    ensures watch { (IsSession (map string_bytes words.now) → ⊥) → watch.new ≡ watch.old }
{
    match order_of(alloc, words) {
        Ok(Wanted::Order(order)) => ordered(alloc, folder, order, out, steps),
        Ok(Wanted::Why { path }) => explain(alloc, folder, &path, out, steps),
        Ok(Wanted::Vendor { path }) => vendor(alloc, folder, &path, out, steps),
        Ok(Wanted::Measure { number }) => measure(alloc, number, out, steps),
        Ok(Wanted::Session) => hold(alloc, folder, input, out, watch, steps),
        Err(fault) => misworded(alloc, fault, out),
    }
}

// Says why the words are refused.
fn misworded<O: Sink>(alloc: Global, fault: WordsFault, out: &mut O) -> u8
    ensures tells { TellsWords fault (O.state out.old) (O.state out.new) result }
    ensures later { (O.state out.old).faults ≤ (O.state out.new).faults }
{
    match fault {
        WordsFault::Told(text) => tell(out, text.as_bytes(), BAD_WORDS),
        WordsFault::NotPlain => tell(out, not_plain_line(), BAD_WORDS),
        WordsFault::Refused { fault } => refuse(alloc, Refusal::Config { fault }, out),
        WordsFault::Memory => tell(out, memory_line(), MEMORY),
    }
}

// `session`: looks for the project, and opens a session on it.
fn hold<F: Folder, I: Source, O: Sink, W: Watch, L: Ledger>(
    alloc: Global,
    folder: &mut F,
    input: &mut I,
    out: &mut O,
    watch: &mut W,
    steps: &mut Steps<L>,
) -> u8
    ensures { SessionEnds (F.state folder.old) (F.state folder.new) (I.state input.old) (I.state input.new)
        (O.state out.old) (O.state out.new) (W.seen watch.old) (W.seen watch.new) result steps.old steps.new }
{
    match configured(alloc, folder, Order::Refresh) {
        Ok(config) => session(alloc, config, folder, input, out, watch, steps),
        Err(stop) => close(alloc, stop, out),
    }
}

// `why`: looks for the project, and tells how the page comes to load the file at this path.
fn explain<F: Folder, O: Sink, L: Ledger>(
    alloc: Global,
    folder: &mut F,
    path: &Path,
    out: &mut O,
    steps: &mut Steps<L>,
) -> u8
    ensures end { (words : List (List ℕ)) → AsksWhyAt words path.now
        → EndsAs words (F.state folder.old) (F.state folder.new) (O.state out.old) (O.state out.new) result }
    ensures asked { IfSome (F.state folder.old).asked (λ old. (words : List (List ℕ)) → AsksWhyAt words path.now
        → AsksInOrder words (F.state folder.old) old (F.state folder.new)) }
    ensures steps { CommandSpends (IsGenerating Why) (O.state out.old) (O.state out.new) result steps.old steps.new }
    ensures by_trace { (words : List (List ℕ)) → AsksWhyAt words path.now
        → FitsWords words (F.state folder.old).holds steps.old steps.new }
{
    match configured(alloc, folder, Order::Refresh) {
        Ok(config) => {
            let status = tell_why(alloc, folder, &config, path, out, steps);
            drop(config);
            status
        }
        Err(stop) => close(alloc, stop, out),
    }
}

// `vendor`: looks for the project, and copies the files that its map needs to this path.
fn vendor<F: Folder, O: Sink, L: Ledger>(
    alloc: Global,
    folder: &mut F,
    to: &Path,
    out: &mut O,
    steps: &mut Steps<L>,
) -> u8
    requires { to.now ≢ codes "/" }
    ensures end { (words : List (List ℕ)) → VendorsAt words to.now
        → EndsAs words (F.state folder.old) (F.state folder.new) (O.state out.old) (O.state out.new) result }
    ensures asked { IfSome (F.state folder.old).asked (λ old. (words : List (List ℕ)) → VendorsAt words to.now
        → AsksInOrder words (F.state folder.old) old (F.state folder.new)) }
    ensures steps { CommandSpends (SaysCounts Vendor) (O.state out.old) (O.state out.new) result steps.old steps.new }
    ensures by_trace { (words : List (List ℕ)) → VendorsAt words to.now
        → FitsWords words (F.state folder.old).holds steps.old steps.new }
{
    match configured(alloc, folder, Order::Refresh) {
        Ok(config) => {
            let status = tell_copies(alloc, folder, &config, to, out, steps);
            drop(config);
            status
        }
        Err(stop) => close(alloc, stop, out),
    }
}

// Looks for the project, and does what is asked for with it.
fn ordered<F: Folder, O: Sink, L: Ledger>(
    alloc: Global,
    folder: &mut F,
    order: Order<'_>,
    out: &mut O,
    steps: &mut Steps<L>,
) -> u8
    ensures end { (words : List (List ℕ)) → IsOrder words order.entry
        → EndsAs words (F.state folder.old) (F.state folder.new) (O.state out.old) (O.state out.new) result }
    ensures asked { IfSome (F.state folder.old).asked (λ old. (words : List (List ℕ)) → IsOrder words order.entry
        → AsksInOrder words (F.state folder.old) old (F.state folder.new)) }
    ensures steps { OrderSpends (command_ordered order.entry) (O.state out.old) (O.state out.new) result steps.old
        steps.new }
    ensures by_trace { (words : List (List ℕ)) → IsOrder words order.entry
        → FitsWords words (F.state folder.old).holds steps.old steps.new }
{
    let command = order.command();
    match configured(alloc, folder, order) {
        Ok(config) => {
            let status = commanded(alloc, folder, command, &config, out, steps);
            drop(config);
            status
        }
        Err(stop) => close(alloc, stop, out),
    }
}

// Does what the command does, of those that need no more than the config.
fn commanded<F: Folder, O: Sink, L: Ledger>(
    alloc: Global,
    folder: &mut F,
    command: Command,
    config: &Config,
    out: &mut O,
    steps: &mut Steps<L>,
) -> u8
    requires explains { command ≢ Why }
    requires vendors { command ≢ Vendor }
    ensures { RunsCommand command config.now (F.state folder.old) (F.state folder.new) (O.state out.old)
        (O.state out.new) result steps.old steps.new }
{
    match command {
        Command::Link => write_map(alloc, folder, config, true, out, steps),
        Command::Unlink => write_map(alloc, folder, config, true, out, steps),
        Command::Refresh => write_map(alloc, folder, config, false, out, steps),
        Command::Inject => inject(alloc, folder, config, out, steps),
        Command::Check => check(alloc, folder, config, false, out, steps),
        Command::CheckStrictly => check(alloc, folder, config, true, out, steps),
        Command::List => list(alloc, folder, config, out, steps),
        Command::Why => unreachable!(),
        Command::Vendor => unreachable!(),
    }
}

// `link`, `unlink`, `refresh`: generates, writes the map, and the project where it is kept, and says so.
fn write_map<F: Folder, O: Sink, L: Ledger>(
    alloc: Global,
    folder: &mut F,
    config: &Config,
    keeps: bool,
    out: &mut O,
    steps: &mut Steps<L>,
) -> u8
    ensures { (command : Commanded) → KeepsProject command keeps
        → RunsCommand command config.now (F.state folder.old) (F.state folder.new) (O.state out.old)
        (O.state out.new) result steps.old steps.new }
{
    match prepare_map(alloc, folder, config, keeps, steps) {
        Ok(prepared) => finish(alloc, folder, &prepared, out),
        Err(stop) => close(alloc, stop, out),
    }
}

// `inject`: reads the page, generates, writes the page with the map and says so.
fn inject<F: Folder, O: Sink, L: Ledger>(
    alloc: Global,
    folder: &mut F,
    config: &Config,
    out: &mut O,
    steps: &mut Steps<L>,
) -> u8
    ensures { RunsCommand Inject config.now (F.state folder.old) (F.state folder.new) (O.state out.old)
        (O.state out.new) result steps.old steps.new }
{
    match prepare_page(alloc, folder, config, steps) {
        Ok(prepared) => finish(alloc, folder, &prepared, out),
        Err(stop) => close(alloc, stop, out),
    }
}

// `check`: reads the map, traces, and says what the map doesn't serve; and, strictly, which modules don't agree with
// the statement grammar.
fn check<F: Folder, O: Sink, L: Ledger>(
    alloc: Global,
    folder: &mut F,
    config: &Config,
    strictly: bool,
    out: &mut O,
    steps: &mut Steps<L>,
) -> u8
    ensures { (command : Commanded) → AsksGrammar command strictly
        → RunsCommand command config.now (F.state folder.old) (F.state folder.new) (O.state out.old)
        (O.state out.new) result steps.old steps.new }
{
    match checked(alloc, folder, config, strictly, steps) {
        Ok(report) => tell(out, report.text.as_slice(), report.status),
        Err(stop) => close(alloc, stop, out),
    }
}

// `list`: traces, and says which modules there are.
fn list<F: Folder, O: Sink, L: Ledger>(
    alloc: Global,
    folder: &mut F,
    config: &Config,
    out: &mut O,
    steps: &mut Steps<L>,
) -> u8
    ensures { RunsCommand ListModules config.now (F.state folder.old) (F.state folder.new) (O.state out.old)
        (O.state out.new) result steps.old steps.new }
{
    match listed(alloc, folder, config, steps) {
        Ok(report) => tell(out, report.text.as_slice(), report.status),
        Err(stop) => close(alloc, stop, out),
    }
}

// `why`: traces, and says by which requests the page comes to load the file, or that it doesn't.
fn tell_why<F: Folder, O: Sink, L: Ledger>(
    alloc: Global,
    folder: &mut F,
    config: &Config,
    path: &Path,
    out: &mut O,
    steps: &mut Steps<L>,
) -> u8
    ensures { RunsWhy path.now config.now (F.state folder.old) (F.state folder.new) (O.state out.old)
        (O.state out.new) result steps.old steps.new }
{
    match explained(alloc, folder, config, path, steps) {
        Ok(report) => tell(out, report.text.as_slice(), report.status),
        Err(stop) => close(alloc, stop, out),
    }
}

// `vendor`: generates, copies the files that were looked at, and says how many.
fn tell_copies<F: Folder, O: Sink, L: Ledger>(
    alloc: Global,
    folder: &mut F,
    config: &Config,
    to: &Path,
    out: &mut O,
    steps: &mut Steps<L>,
) -> u8
    requires { to.now ≢ codes "/" }
    ensures { RunsVendor to.now config.now (F.state folder.old) (F.state folder.new) (O.state out.old)
        (O.state out.new) result steps.old steps.new }
{
    match prepare_copies(alloc, folder, config, to, steps) {
        Ok(copies) => finish_copies(alloc, folder, &copies, out),
        Err(stop) => close(alloc, stop, out),
    }
}

// `measure`: generates over a stated tree, and says how much came of it.
fn measure<O: Sink, L: Ledger>(alloc: Global, number: u64, out: &mut O, steps: &mut Steps<L>) -> u8
    requires { number ≤ most_packages }
    ensures { RunsMeasure number (O.state out.old) (O.state out.new) result steps.old steps.new }
{
    let count = narrow(number);
    match measured(alloc, count, steps) {
        Ok(generated) => tell_measure(alloc, count, &generated, out),
        Err(stop) => close(alloc, stop, out),
    }
}

// The number in 32 bits.
fn narrow(number: u64) -> u32
    requires { number ≤ most_packages }
    ensures { result ≡ number }
{
    number as u32
}

fn tell_measure<O: Sink>(alloc: Global, number: u32, generated: &Generated, out: &mut O) -> u8
    ensures tells { TellsMeasure number generated.now (O.state out.old) (O.state out.new) result }
    ensures later { (O.state out.old).faults ≤ (O.state out.new).faults }
{
    match measure_line(
        alloc,
        number,
        generated.modules,
        generated.requests,
        generated.mappings,
    ) {
        Ok(line) => tell(out, line.as_slice(), DONE),
        Err(_) => tell(out, memory_line(), MEMORY),
    }
}

// Writes the files, and says so.
fn finish<F: Folder, O: Sink>(alloc: Global, folder: &mut F, prepared: &Prepared, out: &mut O) -> u8
    ensures { EndsWriting prepared.now (F.state folder.old) (F.state folder.new) (O.state out.old)
        (O.state out.new) result }
{
    let Ok(line) = done_line(
        alloc,
        prepared.modules,
        prepared.requests,
        prepared.mappings,
    ) else {
        return tell(out, memory_line(), MEMORY);
    };
    if write_files(folder, prepared.files.as_slice()) {
        tell(out, line.as_slice(), DONE)
    } else {
        tell(out, write_fault_line(), WRITE_FAULT)
    }
}

// Writes the copies, and says how many.
fn finish_copies<F: Folder, O: Sink>(
    alloc: Global,
    folder: &mut F,
    copies: &Copies,
    out: &mut O,
) -> u8
    requires { AreKept copies.now.known copies.now.plan }
    ensures { EndsFiles (new_files copies.now.known copies.now.plan) (copies_line (length copies.now.plan))
        (F.state folder.old) (F.state folder.new) (O.state out.old) (O.state out.new) result }
{
    let Ok(line) = vendored_line(alloc, copies.plan.len()) else {
        return tell(out, memory_line(), MEMORY);
    };
    match copy_out(&copies.plan, &copies.known, folder) {
        Ok(()) => tell(out, line.as_slice(), DONE),
        Err(_) => tell(out, write_fault_line(), WRITE_FAULT),
    }
}

// Whether all files could be written, in their order. None is tried behind one that couldn't.
fn write_files<F: Folder>(folder: &mut F, files: &[Fresh]) -> bool
    ensures { WritesFiles (map shown_file files.now) (F.state folder.old) result (F.state folder.new) }
{
    match files.split_first() {
        None => true,
        Some((first, rest)) => match folder.write(&first.path, first.bytes.as_slice()) {
            Ok(()) => write_files(folder, rest),
            Err(_) => false,
        },
    }
}

// Says why nothing is written.
fn close<O: Sink>(alloc: Global, stop: Stop, out: &mut O) -> u8
    ensures tells { TellsStop stop (O.state out.old) (O.state out.new) result }
    ensures later { (O.state out.old).faults ≤ (O.state out.new).faults }
{
    match stop {
        Stop::Refused { why } => refuse(alloc, why, out),
        Stop::ReadFault => tell(out, read_fault_line(), READ_FAULT),
        Stop::Memory => tell(out, memory_line(), MEMORY),
    }
}

// Says why nothing is written. A refusal has many parts: dropped by a call, it is proved far sooner.
fn refuse<O: Sink>(alloc: Global, refusal: Refusal, out: &mut O) -> u8
    ensures tells { TellsRefusal refusal (O.state out.old) (O.state out.new) result }
    ensures later { (O.state out.old).faults ≤ (O.state out.new).faults }
{
    let status = tell_refusal(alloc, &refusal, out);
    drop(refusal);
    status
}

fn tell_refusal<O: Sink>(alloc: Global, refusal: &Refusal, out: &mut O) -> u8
    ensures tells { TellsRefusal refusal.now (O.state out.old) (O.state out.new) result }
    ensures later { (O.state out.old).faults ≤ (O.state out.new).faults }
{
    match line_of(alloc, refusal) {
        Ok(line) => tell(out, line.as_slice(), status_of(refusal)),
        Err(_) => tell(out, memory_line(), MEMORY),
    }
}

// Says a line; where that fails, that is how it ends.
fn tell<O: Sink>(out: &mut O, line: &[u8], status: u8) -> u8
    ensures ends { Ends status line.now (O.state out.old) (O.state out.new) result }
    ensures later { (O.state out.old).faults ≤ (O.state out.new).faults }
{
    match out.give(line) {
        Ok(()) => status,
        Err(_) => WRITE_FAULT,
    }
}
