ghost use Rattle.std.specs.Prelude.{◌≡◌, ℕ, List, IfOk};
ghost use Rattle.config_spec.specs.Projects as project;
ghost use Rattle.generator_spec.specs.Commands as spec;

use shared_types::Memory;
use std::alloc::{AllocError, Global};
use tree_model::{Path, PathFault};

/// Where the map stands.
const MAP_PATH: &str = "/importmap.json";

/// Where the project stands.
const PROJECT_PATH: &str = "/importmap.project.json";

/// The path of the map's file.
pub fn map_path(alloc: Global) -> Result<Path, Memory>
    ensures { IfOk result (λ path. path ≡ spec.map_path) }
{
    match Path::parse(alloc, MAP_PATH) {
        Ok(path) => Ok(path),
        Err(PathFault::Memory) => Err(AllocError),
        Err(PathFault::BadPath) => unreachable!(),
    }
}

/// The path of the project's file.
pub fn project_path(alloc: Global) -> Result<Path, Memory>
    ensures { IfOk result (λ path. path ≡ project.project_path) }
{
    match Path::parse(alloc, PROJECT_PATH) {
        Ok(path) => Ok(path),
        Err(PathFault::Memory) => Err(AllocError),
        Err(PathFault::BadPath) => unreachable!(),
    }
}
