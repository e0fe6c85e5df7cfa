//! What a command has at hand for its write, or why it ends before.

ghost use Rattle.std.specs.Prelude.{◌≡◌, ◌+◌, IfOk, IfSome};
ghost use Rattle.page_spec.specs.Injection.{TakesMaps};
ghost use Rattle.config_spec.specs.declared.Command.TheVariants.{Inject};
ghost use Rattle.generator_spec.specs.Commands.{IsPage};
ghost use Rattle.request_trace.specs.Tracing.{TakesSteps};
ghost use Rattle.generation.specs.Generating.{AsksFurther, StepsToEnd};
ghost use Rattle.config_spec.specs.declared.Command.{Command};
ghost use Rattle.generator_core.specs.Spending.{FitsOpening};
ghost use Rattle.generator_core.specs.Preparing.{AreMapFiles, FindsPage, IsPageFile, KeepsProject, Prepares};

use crate::paths::{map_path, project_path};
use generation::{Generated, Stop, generate};
use generator_spec::{PageFault, Refusal};
use html_inject::{PageSite, inject_at, site_of};
use project_file::print_project;
use request_trace::Config;
use shared_types::{Bytes, Memory, Steps};
use std::alloc::Global;
use std::sync::ledger::Ledger;
use tree_model::{Folder, Look, LookFault, Path};
use tree_spec::MOST_FILE_BYTES;

/// A file that is to be written, and where.
#[derive(Drop)]
pub struct Fresh {
    pub path: Path,
    pub bytes: Vec<u8>,
}

/// Files of which one carries the map, in the order of their writes, and the counts that are told of the map.
#[derive(Drop)]
pub struct Prepared {
    pub files: Vec<Fresh>,
    pub modules: usize,
    pub requests: usize,
    pub mappings: usize,
}

/// The map, and where it is to be kept the project behind it.
pub fn prepare_map<F: Folder, L: Ledger>(
    alloc: Global,
    folder: &mut F,
    config: &Config,
    keeps: bool,
    steps: &mut Steps<L>,
) -> Result<Prepared, Stop>
    ensures prepares { (command : Command) → KeepsProject command keeps
        → Prepares command config.now (F.state folder.old) result (F.state folder.new) }
    ensures steps { TakesSteps result (λ prepared. prepared.modules + prepared.requests) steps.old steps.new }
    ensures to_end { StepsToEnd config.now (F.state folder.old).holds steps.old steps.new }
{
    match generate(alloc, folder, config, steps) {
        Err(stop) => Err(stop),
        Ok(generated) => match map_files(alloc, config, keeps, generated) {
            Err(_) => Err(Stop::Memory),
            Ok(prepared) => Ok(prepared),
        },
    }
}

fn map_files(
    alloc: Global,
    config: &Config,
    keeps: bool,
    generated: Generated,
) -> Result<Prepared, Memory>
    ensures { IfOk result (AreMapFiles config.now keeps generated) }
{
    let Generated {
        map,
        modules,
        requests,
        mappings,
    } = generated;
    let mut files = Vec::new(alloc);
    files.push(Fresh {
        path: map_path(alloc)?,
        bytes: map,
    })?;
    if keeps {
        files.push(Fresh {
            path: project_path(alloc)?,
            bytes: print_project(alloc, config)?,
        })?;
    }
    Ok(Prepared {
        files,
        modules,
        requests,
        mappings,
    })
}

/// `inject` reads the page before anything else, and writes it with the map.
pub fn prepare_page<F: Folder, L: Ledger>(
    alloc: Global,
    folder: &mut F,
    config: &Config,
    steps: &mut Steps<L>,
) -> Result<Prepared, Stop>
    ensures prepares { Prepares Inject config.now (F.state folder.old) result (F.state folder.new) }
    ensures steps { TakesSteps result (λ prepared. prepared.modules + prepared.requests) steps.old steps.new }
    ensures to_end { StepsToEnd config.now (F.state folder.old).holds steps.old steps.new }
    ensures opened { FitsOpening Inject config.now (F.state folder.old).holds steps.old steps.new }
{
    match page_of(alloc, folder, config) {
        Err(stop) => Err(stop),
        Ok(page) => match site_of(page.as_slice()) {
            Err(fault) => Err(without_page(PageFault::KeepsMapsOut { fault })),
            Ok(site) => prepare_at(alloc, folder, config, &site, steps),
        },
    }
}

// Looks at the page, once.
fn page_of<F: Folder>(alloc: Global, folder: &mut F, config: &Config) -> Result<Bytes, Stop>
    ensures { FindsPage config.now (F.state folder.old) result (F.state folder.new) }
{
    match folder.look(alloc, config.page(), MOST_FILE_BYTES) {
        Ok(Look::Absent) => Err(without_page(PageFault::Absent)),
        Ok(Look::Folder) => Err(without_page(PageFault::Absent)),
        Ok(Look::TooLarge) => Err(without_page(PageFault::TooLarge)),
        Ok(Look::File(bytes)) => Ok(bytes),
        Err(LookFault::Failed) => Err(Stop::ReadFault),
        Err(LookFault::Memory) => Err(Stop::Memory),
    }
}

fn without_page(fault: PageFault) -> Stop
    ensures { result ≡ Stop.Refused (Refusal.Page fault) }
{
    Stop::Refused {
        why: Refusal::Page { fault },
    }
}

// Generates, where the page takes maps.
fn prepare_at<F: Folder, L: Ledger>(
    alloc: Global,
    folder: &mut F,
    config: &Config,
    site: &PageSite<'_>,
    steps: &mut Steps<L>,
) -> Result<Prepared, Stop>
    ensures prepares { TakesMaps site.now
        → IfSome (F.state folder.old).holds (λ tree. IsPage tree config.now site.now)
        → Prepares Inject config.now (F.state folder.old) result (F.state folder.new) }
    ensures asked { AsksFurther config.now (F.state folder.old) (F.state folder.new) }
    ensures steps { TakesSteps result (λ prepared. prepared.modules + prepared.requests) steps.old steps.new }
    ensures to_end { StepsToEnd config.now (F.state folder.old).holds steps.old steps.new }
{
    match generate(alloc, folder, config, steps) {
        Err(stop) => Err(stop),
        Ok(generated) => match page_file(alloc, config, site, &generated) {
            Err(_) => Err(Stop::Memory),
            Ok(prepared) => Ok(prepared),
        },
    }
}

fn page_file(
    alloc: Global,
    config: &Config,
    site: &PageSite<'_>,
    generated: &Generated,
) -> Result<Prepared, Memory>
    ensures { IfOk result (IsPageFile config.now site.now generated.now) }
{
    let mut files = Vec::new(alloc);
    files.push(Fresh {
        path: config.page().copy(alloc)?,
        bytes: inject_at(alloc, site, generated.map.as_slice())?,
    })?;
    Ok(Prepared {
        files,
        modules: generated.modules,
        requests: generated.requests,
        mappings: generated.mappings,
    })
}
