ghost use Rattle.std.specs.Prelude.{◌≡◌, MatchOption, MatchResult, IfOk, Ok};
ghost use Rattle.ordered_json.specs.Shown.{json_of};
ghost use Rattle.project_spec.specs.ProjectFiles.{Gives, IsProject, ReadsProject};
ghost use Rattle.project_file.specs.Outcomes.{IsDescribed, IsNoProject, GivesNone};

use crate::fault::ProjectFault;
use crate::parts::{filled, written_in};
use crate::project::Project;
use ordered_json::{JsonFault, Value, read};
use shared_types::Memory;
use std::alloc::Global;
use trace_config::Config;
use tree_spec::LimitName;

/// The config of a file's bytes.
pub fn read_project(alloc: Global, bytes: &[u8]) -> Result<Config, ProjectFault>
    ensures reads { MatchResult result (λ config. ReadsProject bytes.now (Ok config)) (IsNoProject bytes.now) }
    ensures project { IfOk result IsProject }
{
    match read(alloc, bytes) {
        Ok(value) => config_of(alloc, &value),
        Err(JsonFault::NotJson { at }) => Err(ProjectFault::BadFile { at }),
        Err(JsonFault::TooDeep { .. }) => Err(ProjectFault::Limit {
            which: LimitName::Depth,
        }),
        Err(JsonFault::Memory) => Err(ProjectFault::Memory),
    }
}

// The config of a JSON value. The form comes before the number of entries.
fn config_of(alloc: Global, value: &Value) -> Result<Config, ProjectFault>
    ensures { MatchResult result (λ config. Gives (Ok (json_of value.now)) (Ok config))
        (GivesNone (json_of value.now)) }
{
    let Some(project) = described(alloc, value)? else {
        return Err(ProjectFault::BadFile { at: 0 });
    };
    match project.into_config() {
        Some(config) => Ok(config),
        None => Err(ProjectFault::Limit {
            which: LimitName::Entries,
        }),
    }
}

// The project that a JSON value describes, however many entries it has.
fn described(alloc: Global, value: &Value) -> Result<Option<Project>, Memory>
    ensures { IfOk result (IsDescribed (json_of value.now)) }
{
    match written_in(value) {
        None => Ok(None),
        Some(written) => filled(alloc, &written),
    }
}
