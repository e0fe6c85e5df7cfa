//! The copies of the files that a map needs: which they are, and that they may be written.

ghost use Rattle.std.specs.Prelude.{◌≢◌, ◌≤◌, ◌+◌, codes};
ghost use Rattle.tree_spec.specs.declared.LimitName.TheVariants.{Modules, Requests};
ghost use Rattle.tree_spec.specs.Limits.{limit_number};
ghost use Rattle.generation.specs.Generating.{StepsToEnd};
ghost use Rattle.generator_core.specs.Vendoring.{IsFree, PreparesCopies, StopsCopies, StopsPlan};

use generation::{Stop, generate_traced};
use generator_spec::Refusal;
use package_lookup::Known;
use request_trace::Config;
use shared_types::{Steps, Text};
use std::alloc::Global;
use std::sync::ledger::Ledger;
use tree_model::{Folder, Path};
use tree_spec::{Look, LookFault, MOST_FILE_BYTES};
use tree_vendor::{Plan, VendorFault, plan};

/// What is to be copied, and the files as they were looked at.
#[derive(Drop)]
pub struct Copies {
    pub known: Known,
    pub plan: Plan,
}

/// `vendor` generates, and looks whether its folder is free; it writes nothing yet.
pub fn prepare_copies<F: Folder, L: Ledger>(
    alloc: Global,
    folder: &mut F,
    config: &Config,
    to: &Path,
    steps: &mut Steps<L>,
) -> Result<Copies, Stop>
    requires { to.now ≢ codes "/" }
    ensures prepares { PreparesCopies to.now config.now (F.state folder.old) result (F.state folder.new) }
    ensures bounded { steps.new ≤ steps.old + (limit_number Modules + limit_number Requests) }
    ensures to_end { StepsToEnd config.now (F.state folder.old).holds steps.old steps.new }
{
    let mut known = Known::new(alloc);
    match generate_traced(alloc, folder, &mut known, config, steps) {
        Err(stop) => Err(stop),
        Ok((_generated, trace)) => match look_free(alloc, folder, to) {
            Err(stop) => {
                drop(trace);
                Err(stop)
            }
            Ok(()) => match plan(alloc, trace.footprint(), &known, to) {
                Err(fault) => {
                    drop(trace);
                    Err(stop_of(fault))
                }
                Ok(plan) => {
                    drop(trace);
                    Ok(Copies { known, plan })
                }
            },
        },
    }
}

// Looks whether nothing stands at a path. The look counts under no limit of the generation.
fn look_free<F: Folder>(alloc: Global, folder: &mut F, to: &Path) -> Result<(), Stop>
    ensures { IsFree to.now (F.state folder.old) result (F.state folder.new) }
{
    match folder.look(alloc, to, MOST_FILE_BYTES) {
        Ok(Look::Absent) => Ok(()),
        Ok(Look::Folder) => Err(occupied(alloc, to)),
        Ok(Look::File(_)) => Err(occupied(alloc, to)),
        Ok(Look::TooLarge) => Err(occupied(alloc, to)),
        Err(LookFault::Failed) => Err(Stop::ReadFault),
        Err(LookFault::Memory) => Err(Stop::Memory),
    }
}

fn occupied(alloc: Global, to: &Path) -> Stop
    ensures { StopsCopies to.now result }
{
    match Text::of(alloc, to.as_str()) {
        Ok(path) => Stop::Refused {
            why: Refusal::Occupied { path },
        },
        Err(_) => Stop::Memory,
    }
}

fn stop_of(fault: VendorFault) -> Stop
    ensures { StopsPlan fault result }
{
    match fault {
        VendorFault::PathTooLong => Stop::Refused {
            why: Refusal::PathTooLong,
        },
        VendorFault::TooManySegments => Stop::Refused {
            why: Refusal::TooManySegments,
        },
        VendorFault::Memory => Stop::Memory,
    }
}
