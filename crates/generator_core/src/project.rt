//! The config of a command: what its words ask for, over the project that the folder holds.

ghost use Rattle.std.specs.Prelude.{◌≡◌, ℕ, List, Result, Ok, Err};
ghost use Rattle.command_words.specs.Orders.{IsOrder, command_ordered};
ghost use Rattle.config_spec.specs.Projects as spec;
ghost use Rattle.generator_core.specs.Configuring.{FindsProject, FindsConfig};

use crate::paths::project_path;
use command_words::Order;
use config_spec::{ConfigFault, ProjectFault};
use generation::Stop;
use generator_spec::Refusal;
use project_config::{NoConfig, config_of};
use project_file::{ProjectFault as ReadFault, read_project};
use request_trace::Config;
use std::alloc::Global;
use tree_model::{Folder, Look, LookFault, Path};
use tree_spec::{LimitName, MOST_FILE_BYTES};

/// Looks at the project's file, once, and gives the config of the command.
pub fn configured<F: Folder>(
    alloc: Global,
    folder: &mut F,
    order: Order<'_>,
) -> Result<Config, Stop>
    ensures { (words : List (List ℕ)) → IsOrder words order.entry
        → FindsConfig words (command_ordered order.entry) (F.state folder.old) result (F.state folder.new) }
{
    match project_in(alloc, folder) {
        Err(stop) => {
            drop(order);
            Err(stop)
        }
        Ok(found) => match config_of(alloc, order, found) {
            Ok(config) => Ok(config),
            Err(NoConfig::Refused { fault }) => Err(refused(fault)),
            Err(NoConfig::Memory) => Err(Stop::Memory),
        },
    }
}

fn refused(fault: ConfigFault) -> Stop
    ensures { result ≡ Stop.Refused (Refusal.Config fault) }
{
    Stop::Refused {
        why: Refusal::Config { fault },
    }
}

// The project of the folder, if it has one.
fn project_in<F: Folder>(alloc: Global, folder: &mut F) -> Result<Option<Config>, Stop>
    ensures { FindsProject (F.state folder.old) result (F.state folder.new) }
{
    match project_path(alloc) {
        Ok(path) => project_at(alloc, folder, &path),
        Err(_) => Err(Stop::Memory),
    }
}

fn project_at<F: Folder>(alloc: Global, folder: &mut F, path: &Path) -> Result<Option<Config>, Stop>
    ensures { path.now ≡ spec.project_path → FindsProject (F.state folder.old) result (F.state folder.new) }
{
    match folder.look(alloc, path, MOST_FILE_BYTES) {
        Ok(Look::Absent) => Ok(None),
        Ok(Look::Folder) => Ok(None),
        Ok(Look::TooLarge) => Err(without_project(ProjectFault::TooLarge)),
        Ok(Look::File(bytes)) => match read_project(alloc, bytes.as_slice()) {
            Ok(config) => Ok(Some(config)),
            Err(ReadFault::BadFile { at }) => Err(without_project(ProjectFault::NotProject { at })),
            Err(ReadFault::Limit { which }) => Err(without_project(ProjectFault::Above { which })),
            Err(ReadFault::Memory) => Err(Stop::Memory),
        },
        Err(LookFault::Failed) => Err(Stop::ReadFault),
        Err(LookFault::Memory) => Err(Stop::Memory),
    }
}

fn without_project(fault: ProjectFault) -> Stop
    ensures { result ≡ Stop.Refused (Refusal.Config (ConfigFault.Project fault)) }
{
    refused(ConfigFault::Project { fault })
}
