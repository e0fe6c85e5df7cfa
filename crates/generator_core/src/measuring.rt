//! What is generated for a stated tree, or why nothing is.

ghost use Rattle.std.specs.Prelude.{◌≡◌, ◌≤◌, ◌+◌};
ghost use Rattle.config_spec.specs.Projects as spec;
ghost use Rattle.request_trace.specs.Tracing.{TakesSteps};
ghost use Rattle.generator_core.specs.Measuring.{Measures};

use generation::{Generated, Stop, generate};
use project_config::measure_config;
use request_trace::Config;
use shared_types::Steps;
use std::alloc::Global;
use std::sync::ledger::Ledger;
use workload::{SureFolder, tree_of};

/// Generates over the tree of so many packages. No folder is touched.
pub fn measured<L: Ledger>(
    alloc: Global,
    number: u32,
    steps: &mut Steps<L>,
) -> Result<Generated, Stop>
    requires { number ≤ 2000 }
    ensures measures { Measures number result }
    ensures steps { TakesSteps result (λ found. found.modules + found.requests) steps.old steps.new }
{
    match measure_config(alloc) {
        Err(_) => Err(Stop::Memory),
        Ok(config) => measured_for(alloc, number, &config, steps),
    }
}

fn measured_for<L: Ledger>(
    alloc: Global,
    number: u32,
    config: &Config,
    steps: &mut Steps<L>,
) -> Result<Generated, Stop>
    requires few { number ≤ 2000 }
    requires stated { config.now ≡ spec.measure_config }
    ensures measures { Measures number result }
    ensures steps { TakesSteps result (λ found. found.modules + found.requests) steps.old steps.new }
{
    match tree_of(alloc, number) {
        Err(_) => Err(Stop::Memory),
        Ok(folder) => {
            let mut folder = SureFolder::over(folder);
            generate(alloc, &mut folder, config, steps)
        }
    }
}
